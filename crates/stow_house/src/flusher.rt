//! A flusher, and what its events do.
ghost use Rattle.stow_house.specs.Flushers.{held, PlansJob, MergesJob, InstallsResult};
ghost use Rattle.stow_house.specs.StepResult.{step_result_of};

use crate::step_result::StepResult;
use std::alloc::{Allocator, Global};
use std::mem;
use stow_core::Core;
use stow_core::stow_merge::flush_job::FlushJob;
use stow_core::stow_merge::flush_result::FlushResult;
use stow_core::stow_node::installed::Installed;

/// What a flusher has.
#[derive(Drop)]
pub enum Flusher<A: Allocator = Global> {
    /// No job.
    Idle,
    /// A job that isn't merged.
    Planned(FlushJob<A>),
    /// The result of its job.
    Merged(FlushResult<A>),
}

impl<A: Allocator + Copy> Flusher<A> {
    /// Plans a flush, unless it has a job.
    pub fn plan(&mut self, alloc: A, core: &mut Core<A>) -> StepResult<A>
        ensures { PlansJob (step_result_of result) (held self.old) (held self.new)
            core.old core.new }
    {
        let Flusher::Idle = self else {
            return StepResult::Refused;
        };
        match core.plan(alloc) {
            Ok(Some(job)) => {
                *self = Flusher::Planned(job);
                StepResult::Job
            }
            Ok(None) => StepResult::NoJob,
            Err(_) => StepResult::NoMemory,
        }
    }

    /// Merges its job. Where memory is refused it has the job still.
    pub fn merge(&mut self, alloc: A) -> StepResult<A>
        ensures { MergesJob (step_result_of result) (held self.old) (held self.new) }
    {
        match mem::replace(self, Flusher::Idle) {
            Flusher::Planned(job) => match job.merge(alloc) {
                Ok(merge) => {
                    *self = Flusher::Merged(merge);
                    StepResult::Done
                }
                Err((job, _)) => {
                    *self = Flusher::Planned(job);
                    StepResult::NoMemory
                }
            },
            other => {
                *self = other;
                StepResult::Refused
            }
        }
    }

    /// Installs the result of its job in the core, and is free then, also where the result is stale. Where memory is refused
    /// it has the result still.
    pub fn install(&mut self, alloc: A, core: &mut Core<A>) -> StepResult<A>
        ensures { InstallsResult (step_result_of result) (held self.old) (held self.new)
            core.old core.new }
    {
        match mem::replace(self, Flusher::Idle) {
            Flusher::Merged(merge) => match core.install(alloc, merge) {
                Ok(Installed::Done) => StepResult::Installed,
                Ok(Installed::Stale) => StepResult::Stale,
                Err((merge, _)) => {
                    *self = Flusher::Merged(merge);
                    StepResult::NoMemory
                }
            },
            other => {
                *self = other;
                StepResult::Refused
            }
        }
    }
}
