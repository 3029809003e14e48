//! Marks of the keys of many messages.
ghost use Rattle.stow_filter.specs.Filter.{KeepsMarks};
ghost use Rattle.stow_message.specs.Filter.{Covers};

use crate::run::Run;
use std::alloc::Allocator;
use stow_filter::filter::Filter;

/// Adds the key of each message of a run.
pub(crate) fn mark_run<A: Allocator, B: Allocator>(filter: &mut Filter<A>, run: &Run<'_, B>)
    ensures added { Covers filter.new run.now }
    ensures stay { KeepsMarks filter.old filter.new }
{
    for i in 0..run.len() {
        filter.add(run.get(i).key.bytes);
    }
}
