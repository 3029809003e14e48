//! A tenant's rows at a number.

/// The rows that a tenant's keys have at a number of its writes.
#[derive(Clone, Copy)]
pub struct RowsAt {
    pub tenant: u32,
    pub number: u64,
}
