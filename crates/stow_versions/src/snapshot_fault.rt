//! Why no snapshot can be taken.
use std::alloc::AllocError;

/// Why a tenant can take no snapshot.
#[derive(Clone, Copy, Debug, PartialEq, Eq)]
pub enum SnapshotFault {
    /// 64 snapshots are live.
    TooMany,
    /// Each id has been used.
    IdsUsedUp,
    /// Memory was refused.
    OutOfMemory,
}

impl From<AllocError> for SnapshotFault {
    ghost use Rattle.std.specs.Prelude.{◌≡◌};
    ghost use Rattle.stow_versions.specs.declared.snapshot_fault.SnapshotFault.TheVariants.{OutOfMemory};

    ghost from_gives = { λ e f. f ≡ OutOfMemory };

    fn from(_refused: AllocError) -> SnapshotFault {
        SnapshotFault::OutOfMemory
    }
}
