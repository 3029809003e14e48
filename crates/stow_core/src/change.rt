//! Changes that have their memory.
use crate::write::Write;
use std::alloc::{Allocator, Global};
use stow_ledger::charge::Charge;

/// What an answer changes in its tenant's store. `specs/Prepared.antt` says what each does.
#[derive(Drop)]
pub enum Change<'a, A: Allocator = Global> {
    Nothing,
    /// The request is counted.
    Count,
    /// The request is counted, and so is a write that the quota refused.
    Refuse,
    /// Rows are written, or go.
    Write(Write<'a, A>),
    /// A snapshot is taken.
    Take,
    /// The snapshot of this id is dropped, which leads to this charge.
    Drop(u64, Charge),
}
