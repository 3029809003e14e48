//! One line of a journal.
ghost use Rattle.std.specs.Prelude.{◌≡◌};

use crate::step::Step;
use std::alloc::{Allocator, Global};
use stow_house::stow_node::installed::Installed;

/// Which seat took a step, and what it did.
#[derive(Drop)]
pub struct Entry<A: Allocator = Global> {
    pub seat: u32,
    pub step: Step<A>,
}

impl<A: Allocator> Entry<A> {
    ghost use Rattle.stow_shared.specs.Entries.{entry_of, plan_entry, install_entry};

    /// The entry of a seat that planned a flush.
    pub(crate) fn planned(seat: u32, has_job: bool) -> Entry<A>
        ensures { entry_of result ≡ plan_entry seat has_job }
    {
        Entry {
            seat,
            step: Step::Plan(has_job),
        }
    }

    /// The entry of a seat by which the result of a job came.
    pub(crate) fn installed(seat: u32, told: Installed) -> Entry<A>
        ensures { entry_of result ≡ install_entry seat told }
    {
        Entry {
            seat,
            step: Step::Install(told),
        }
    }
}
