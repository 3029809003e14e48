//! What plans flushes and installs their results.
ghost use Rattle.std.specs.Prelude.{◌≡◌, IsSome, None, OnErr, OnOk};
ghost use Rattle.stow_house.specs.FlushDoors.{Flushing, planned, installed};

use std::alloc::{AllocError, Allocator};
use stow_core::stow_merge::flush_job::FlushJob;
use stow_core::stow_merge::flush_result::FlushResult;
use stow_core::stow_node::installed::Installed;

/// What plans flushes for a flusher, and installs what they were merged into.
pub trait FlushDoor<A: Allocator> {
    // The door before a step, what was done, and the door after.
    ghost flushes: { Self → Flushing → Self → Type 0 };

    /// A flush to be merged, if there is one.
    fn plan(&mut self, alloc: A) -> Result<Option<FlushJob<A>>, AllocError>
        ensures { flushes self.old (planned result) self.new };

    /// Puts the pages of the result of a job, which is taken, in their leaf's place, or tells that they are stale. Where memory
    /// is refused the result stays.
    fn install(
        &mut self,
        alloc: A,
        merge: &mut Option<FlushResult<A>>,
    ) -> Result<Installed, AllocError>
        requires { IsSome merge.old }
        ensures installs { flushes self.old (installed result) self.new }
        ensures taken { OnOk result (merge.new ≡ None) }
        ensures back { OnErr result (merge.new ≡ merge.old) };
}
