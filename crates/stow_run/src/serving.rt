//! What `stow serve` is asked to do.
use std::net::SocketAddr;

/// Where and how connections are served.
#[derive(Clone, Copy, Debug, PartialEq, Eq)]
pub struct Serving {
    /// The address to listen at.
    pub listen: SocketAddr,
    /// How many threads serve connections: 1 to 256.
    pub workers: u32,
    /// How many connections there are at once: 1 to 65,535.
    pub clients: u32,
    /// How many threads flush beside them: 0 to 16.
    pub flushers: u32,
    /// After how many connections the program ends; 0 for no end.
    pub connections: u64,
    /// Whether start and end are told on standard error.
    pub notices: bool,
}
