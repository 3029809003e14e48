//! How a connection's turn ended.
use crate::served::Served;

/// How a connection's turn ended.
#[derive(Clone, Copy, Debug, PartialEq, Eq)]
pub enum Turned {
    /// It can go on at once.
    Again,
    /// All that was read was served and answered, and that was less than there was room for.
    Drained,
    /// Its stream gives nothing, or takes nothing, until it is ready again.
    Waits,
    /// It has ended.
    Ended(Served),
}
