//! Live snapshots.
use crate::rows_at::RowsAt;

/// A live snapshot of a tenant's, and the rows that it shows.
#[derive(Clone, Copy)]
pub struct Snapshot {
    pub id: u64,
    pub rows: RowsAt,
}
