//! Changes of rows, and the rows as they are.
use crate::row_answer::RowAnswer;
use crate::sized_row::SizedRow;
use std::alloc::{Allocator, Global};
use stow_model::refusal::Refusal;

/// What a change of a row leads to, with the row that it changes.
#[derive(Drop)]
pub struct FoundChange<'a, A: Allocator = Global> {
    pub answer: Result<RowAnswer<'a, A>, Refusal>,
    pub row: SizedRow,
}
