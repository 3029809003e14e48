//! Values with their numbers, lent.

/// A value, lent, with the number of the write that made it.
#[derive(Clone, Copy)]
pub struct LentValue<'a> {
    pub number: u64,
    pub value: &'a [u8],
}
