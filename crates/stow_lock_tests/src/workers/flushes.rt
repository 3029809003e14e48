//! One wake over a door that gives so many jobs, all of whose results are stale, and refuses memory where it is to.
ghost use Rattle.std.specs.Prelude.{◌≡◌, IsSome, None, OnErr, OnOk};

use crate::workers::Service;
use std::alloc::{AllocError, Global};
use std::test::Fail;
use stow_testing::lines::words_of;
use stow_workers::flushing::serve_wake;
use stow_workers::open_gate::OpenGate;
use stow_workers::stow_core::Core;
use stow_workers::stow_house::flush_door::FlushDoor;
use stow_workers::stow_merge::flush_job::FlushJob;
use stow_workers::stow_merge::flush_result::FlushResult;
use stow_workers::stow_node::installed::Installed;

/// A door over a core whose rows wait in a buffer.
#[derive(Drop)]
struct Waiting {
    core: Core<Global>,
    jobs: usize,
    /// The plan, and the install, that memory is refused to, counted from 1.
    refused: (usize, usize),
    plans: usize,
    installs: usize,
}

impl FlushDoor<Global> for Waiting {
    ghost flushes = { λ old done new. Unit {0} };

    fn plan(&mut self, alloc: Global) -> Result<Option<FlushJob<Global>>, AllocError>
        ensures { Unit {0} }
    {
        self.plans = self.plans.saturating_add(1);
        if self.plans == self.refused.0 {
            return Err(AllocError);
        }
        if self.plans > self.jobs {
            return Ok(None);
        }
        self.core.plan(alloc)
    }

    fn install(
        &mut self,
        _alloc: Global,
        merge: &mut Option<FlushResult<Global>>,
    ) -> Result<Installed, AllocError>
        requires { IsSome merge.old }
        ensures installs { Unit {0} }
        ensures taken { OnOk result (merge.new ≡ None) }
        ensures back { OnErr result (merge.new ≡ merge.old) }
    {
        self.installs = self.installs.saturating_add(1);
        if self.installs == self.refused.1 {
            return Err(AllocError);
        }
        *merge = None;
        Ok(Installed::Stale)
    }
}

// How many changes of a row wait, how many jobs there are, to which plan and install memory is refused, and how many of both there are.
// Behind a job of few changes a wake ends.
const WAKES: [(usize, usize, (usize, usize), (usize, usize)); 8] = [
    (512, 0, (0, 0), (1, 0)),
    (512, 3, (0, 0), (4, 3)),
    (512, 16, (0, 0), (16, 16)),
    (512, 1_000, (0, 0), (16, 16)),
    (512, 1_000, (3, 0), (3, 2)),
    (512, 1_000, (0, 3), (3, 3)),
    (511, 1_000, (0, 0), (1, 1)),
    (1, 1_000, (0, 0), (1, 1)),
];

/// How many plans and installs one wake makes, where there are so many jobs, and memory is refused to this plan and install.
fn woken(
    alloc: Global,
    core: Core<Global>,
    jobs: usize,
    refused: (usize, usize),
) -> (usize, usize) {
    let mut door = Waiting {
        core,
        jobs,
        refused,
        plans: 0,
        installs: 0,
    };
    let _few = serve_wake(alloc, &mut door, &OpenGate);
    (door.plans, door.installs)
}

/// A core in which one row waits in a buffer, and so many changes of it.
fn with_row(alloc: Global, changes: usize) -> Result<Core<Global>, AllocError> {
    let mut service = Service::new(alloc, alloc)?;
    let words = words_of(alloc, "APPEND k v")?;
    for _ in 0..changes {
        let _told = service.core.call(alloc, 1, &words);
    }
    Ok(service.core)
}

#[test]
fn a_wake_ends(rt: HostRuntime) -> Result<(), Fail> {
    for (changes, jobs, refused, want) in WAKES {
        let found = woken(rt.alloc(), with_row(rt.alloc(), changes)?, jobs, refused);
        assert!(rt; found == want, "{changes} changes, {jobs} jobs: {found:?}");
    }
    Ok(())
}
