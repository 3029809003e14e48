//! A snapshot that isn't live.

/// No live snapshot of the tenant has the id.
#[derive(Clone, Copy, Debug, PartialEq, Eq)]
pub struct NoSuchSnapshot;
