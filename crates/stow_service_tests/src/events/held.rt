//! Memory is given back: a second equal round of acts leaves no more of it held than the first did.
use crate::events::acts::{Act, event_of, random_acts};
use crate::making::{lend, new_house, step};
use linked_list_allocator::LocalHeap;
use std::alloc::{AllocError, Allocator, Global};
use std::test::Fail;
use stow_house::house::House;
use stow_house::step_result::StepResult;
use stow_model::event::Event;

/// Acts in a round.
const ACTS: u32 = 10_000;

/// What deletes every row that the acts can make.
const DELETION: [Act; 2] = [Act::Send(1, "DEL a b ''"), Act::Send(2, "DEL a b ''")];

/// Carries the acts out, each an event of its own memory.
fn carry<A: Allocator + Copy>(
    house: &mut House<A>,
    alloc: A,
    acts: &[Act],
) -> Result<(), AllocError> {
    for act in acts {
        let _result = step(house, alloc, &event_of(alloc, *act)?);
    }
    Ok(())
}

/// Serves what came on a connection and was not served yet.
fn drain<A: Allocator + Copy>(house: &mut House<A>, alloc: A, connection: u32) {
    for _ in 0..ACTS {
        if let StepResult::More = step(house, alloc, &Event::Serve(connection)) {
            return;
        }
    }
}

/// The acts, and then the deletion of all rows.
fn round<A: Allocator + Copy>(
    house: &mut House<A>,
    alloc: A,
    acts: &[Act],
) -> Result<(), AllocError> {
    carry(house, alloc, acts)?;
    carry(house, alloc, &DELETION)?;
    drain(house, alloc, 1);
    drain(house, alloc, 2);
    Ok(())
}

/// Whether a house holds no more of the heap after a second round than after the first.
fn holds_no_more<A: Allocator + Copy>(
    heap: &LocalHeap,
    alloc: A,
    house: &mut House<A>,
    acts: &[Act],
) -> Result<bool, AllocError> {
    round(house, alloc, acts)?;
    let held = heap.used();
    round(house, alloc, acts)?;
    Ok(heap.used() <= held)
}

/// Whether a new house does.
fn new_holds_no_more<A: Allocator + Copy>(
    heap: &LocalHeap,
    (alloc, global): (A, Global),
    acts: &[Act],
) -> Result<bool, AllocError> {
    lend(
        new_house(alloc, global),
        |house| holds_no_more(heap, alloc, house, acts),
    )
}

#[test]
fn a_second_round_holds_no_more(rt: HostRuntime) -> Result<(), Fail> {
    let heap = LocalHeap::new(rt.alloc(), 100_663_296)?;
    let acts = random_acts(rt.alloc(), ACTS)?;
    assert!(rt; new_holds_no_more(&heap, (&heap, rt.alloc()), acts.as_slice())?);
    Ok(())
}
