//! Calls that ask for all of their memory themselves, with each request for it refused in turn.
use crate::{message, page, raw};
use std::alloc::{AllocError, Allocator};
use std::test::Fail;
use stow_dropping::stow_tree::tree_fault::TreeFault;
use stow_dropping::stow_tree::tree_shape::TreeShape;
use stow_refusing::{Plan, Refusing};
use stow_slots::slot_buf::SlotBuf;

/// What is done.
#[derive(Clone, Copy)]
enum Trial {
    Raw,
    Slots,
    Message,
    Page,
    Tree,
}

/// What is done, and how many requests it makes at least.
const TRIALS: [(Trial, u64); 5] = [
    (Trial::Raw, 1),
    (Trial::Slots, 2),
    (Trial::Message, 2),
    (Trial::Page, 40),
    (Trial::Tree, 3),
];

fn is_tree<A: Allocator + Copy>(alloc: A) -> Result<bool, AllocError> {
    match crate::tree::refusals::new_report(alloc, TreeShape::SMALLEST) {
        Ok(report) => Ok(report.leaves == 1),
        Err(TreeFault::Memory) => Err(AllocError),
        Err(TreeFault::Shape) => Ok(false),
    }
}

/// Whether all that it is to do is done.
fn carry_out<A: Allocator + Copy>(alloc: A, trial: Trial) -> Result<bool, AllocError> {
    Ok(match trial {
        Trial::Raw => raw::room_of(alloc, 16)? == 16,
        Trial::Slots => SlotBuf::with_capacity(alloc, 65_536)?.slot_count() == 0,
        Trial::Message => message::capacities(alloc)? == (200, 60),
        Trial::Page => page::are_told(alloc, page::FEW)?,
        Trial::Tree => is_tree(alloc)?,
    })
}

/// How many requests it makes, where each is refused in turn and is told so; else the first that isn't.
fn refusals<A: Allocator + Copy, B: Allocator>(
    heap: &Refusing<B>,
    alloc: A,
    trial: Trial,
) -> Result<u64, u64> {
    for n in 0..5_000u64 {
        heap.set(Plan::RefuseAt(n));
        let done = carry_out(alloc, trial);
        let is_over = heap.asked() <= n;
        if is_over && matches!(done, Ok(true)) {
            return Ok(n);
        }
        if is_over || done.is_ok() {
            return Err(n);
        }
    }
    Err(5_000)
}

#[test]
fn each_request_may_be_refused(rt: HostRuntime) -> Result<(), Fail> {
    let heap = Refusing::new(rt.alloc());
    for (trial, least) in TRIALS {
        let refused = refusals(&heap, &heap, trial);
        assert!(rt;
            matches!(refused, Ok(asked) if asked >= least),
            "{refused:?}"
        );
    }
    Ok(())
}
