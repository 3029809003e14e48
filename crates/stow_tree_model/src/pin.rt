//! Numbers at which a tenant's rows are to stay readable.

/// A number at which a tenant's rows are to stay readable.
#[derive(Clone, Copy)]
pub struct Pin {
    pub tenant: u32,
    pub number: u64,
}
