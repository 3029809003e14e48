//! Intervals of a tenant's keys.

/// The keys of a tenant's from one on and below another, of which an empty one is no end.
#[derive(Clone, Copy)]
pub struct Interval<'a> {
    pub tenant: u32,
    pub from: &'a [u8],
    pub to: &'a [u8],
}
