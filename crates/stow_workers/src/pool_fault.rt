//! Why a pool ended early.
use std::io::Error;

/// Why a pool ended early.
#[derive(Clone, Copy, Debug)]
pub enum PoolFault {
    /// No connection can be accepted any more, for this reason.
    AcceptFailed(Error),
    /// Memory or a thread was refused.
    Refused,
}
