//! Flushes of a flusher, wake by wake.
ghost use Rattle.stow_workers.specs.Flushes.{FlushesOnce, HasFlushed, WakesOnce};

use crate::gate::Gate;
use crate::place::Place;
use crate::wake::Wake;
use crossbeam_channel::Receiver;
use std::alloc::Allocator;
use std::sync::Wait;
use stow_shared::stow_house::flush_door::FlushDoor;

/// The most flushes of one wake.
const FLUSHES: u32 = 16;

/// The fewest messages of a flush behind which a wake goes on: as many as a worker's requests in eight wakes. A flush of fewer
/// merges a page for little, so what waits is left to grow.
const MANY: usize = 512;

/// How many wakes are passed over behind one that ended in a flush of few messages.
const PASSED: u32 = 7;

/// Serves one wake after another, until no more can come; of those behind one that ended in a flush of few messages some are
/// passed over.
pub fn flush_loop<R: Wait, D: FlushDoor<A>, G: Gate, A: Allocator + Copy>(
    rt: &R,
    alloc: A,
    wakes: &Receiver<Wake, A>,
    door: &mut D,
    gate: &G,
)
    ensures { HasFlushed D.flushes door.old door.new }
{
    let mut passed = PASSED;
    for _ in wakes.iter(rt) {
        if passed < PASSED {
            passed += 1;
        } else if serve_wake(alloc, door, gate) {
            passed = 0;
        }
    }
}

/// Plans, merges and installs up to 16 flushes, one after the other, until there is none, memory is refused or a flush was of
/// few messages, and tells whether one was.
pub fn serve_wake<D: FlushDoor<A>, G: Gate, A: Allocator + Copy>(
    alloc: A,
    door: &mut D,
    gate: &G,
) -> bool
    ensures { WakesOnce D.flushes door.old door.new }
{
    for _ in 0..FLUSHES {
        let Some(messages) = flush(alloc, door, gate) else {
            return false;
        };
        if messages < MANY {
            return true;
        }
    }
    false
}

/// Plans, merges and installs one flush, and tells of how many messages it was. `None` where there is none, or memory is
/// refused. A result that is stale is dropped. The gate is passed before the merge.
fn flush<D: FlushDoor<A>, G: Gate, A: Allocator + Copy>(
    alloc: A,
    door: &mut D,
    gate: &G,
) -> Option<usize>
    ensures { FlushesOnce D.flushes door.old result door.new }
{
    let Ok(Some(job)) = door.plan(alloc) else {
        return None;
    };
    let messages = job.batch.len();
    gate.pass(Place::BeforeMerge);
    let Ok(merge) = job.merge(alloc) else {
        return None;
    };
    match door.install(alloc, &mut Some(merge)) {
        Ok(_) => Some(messages),
        Err(_) => None,
    }
}
