//! Each request for memory refused in turn, of what withstands it.
use crate::calls::refusals::{
    CASES, Case, asked_by_call, case_of, long_case, new_reaching, withstands_each,
};
use crate::events::acts::{ACTS, Act, with_flushes};
use crate::{calls, events};
use std::alloc::{AllocError, Allocator, Global};
use std::test::Fail;
use stow_refusing::Refusing;
use stow_testing::lines::repeated;
use stow_testing::rows::{ROWS, Told};

/// What is tried.
#[derive(Clone, Copy)]
enum Trial<'a> {
    /// A prepare.
    Case(Case<'a>),
    /// A worked list.
    Worked(&'a [Told]),
    /// Flushes in two steps between requests.
    Flushes(&'static str),
    /// A run of a house.
    Run(&'a [Act]),
}

/// Whether it withstands the refusal of this request for memory, or `None` if it asks for fewer.
fn withstands<A: Allocator + Copy, B: Allocator>(
    heap: &Refusing<B>,
    memory: (A, Global),
    trial: Trial<'_>,
    at: u64,
) -> Result<Option<bool>, AllocError> {
    match trial {
        Trial::Case(case) => calls::refusals::withstands(heap, memory, case, at),
        Trial::Worked(row) => calls::skipped::withstands(heap, memory, row, at),
        Trial::Flushes(list) => events::flushes::withstands(heap, memory, list, at),
        Trial::Run(acts) => events::runs::withstands(heap, memory, acts, at),
    }
}

/// How many requests for memory it makes, if it withstands the refusal of each.
fn refusals<B: Allocator>(
    heap: &Refusing<B>,
    global: Global,
    trial: Trial<'_>,
) -> Result<Option<u64>, AllocError> {
    for at in 0..1_000u64 {
        match withstands(heap, (heap, global), trial, at)? {
            None => return Ok(Some(at)),
            Some(true) => {}
            Some(false) => return Ok(None),
        }
    }
    Ok(None)
}

/// Whether it makes so many requests for memory at least, and withstands the refusal of each.
fn is_withstood<B: Allocator>(
    heap: &Refusing<B>,
    global: Global,
    trial: Trial<'_>,
    least: u64,
) -> Result<bool, AllocError> {
    Ok(matches!(refusals(heap, global, trial)?, Some(asked) if asked >= least))
}

/// Whether a prepare makes just so many requests, and its call as many.
fn is_case<B: Allocator>(
    heap: &Refusing<B>,
    global: Global,
    row: &'static str,
) -> Result<bool, AllocError> {
    let Some(case) = case_of(row) else {
        return Ok(false);
    };
    let needed = refusals(heap, global, Trial::Case(case))?;
    let called = asked_by_call(heap, (heap, global), case.line)?;
    Ok(needed == Some(u64::from(case.asked)) && called == u64::from(case.asked))
}

// Each request for memory of a prepare is refused in turn: what stood before still stands, and the same call
// succeeds once memory is there. Its commit, to which every request is refused, asks for none.
#[test]
fn prepares_withstand_each_refusal(rt: HostRuntime) -> Result<(), Fail> {
    let heap = Refusing::new(rt.alloc());
    for row in CASES.lines() {
        assert!(rt; is_case(&heap, rt.alloc(), row)?, "{row}");
    }
    Ok(())
}

/// Whether one more long value above so many withstands the refusal of each of its requests in one core, and of some in new
/// ones.
fn is_flush<B: Allocator>(
    heap: &Refusing<B>,
    global: Global,
    case: Case<'_>,
) -> Result<bool, AllocError> {
    for at in [10, 40, 70] {
        if withstands(heap, (heap, global), Trial::Case(case), at)? == Some(false) {
            return Ok(false);
        }
    }
    let asked = withstands_each(heap, (heap, global), case)?;
    Ok(matches!(asked, Some(asked) if asked >= u64::from(case.asked)))
}

// A node's buffer holds six of these values, so the seventh takes a flush, which asks for much more.
#[test]
fn flushes_withstand_each_refusal(rt: HostRuntime) -> Result<(), Fail> {
    let heap = Refusing::new(rt.alloc());
    let long = repeated(rt.alloc(), b'y', 300_000)?;
    assert!(rt; is_flush(&heap, rt.alloc(), long_case(long.as_slice(), 6))?);
    Ok(())
}

// Later one flush goes through two levels: the root's messages are for a child whose own buffer is full.
#[test]
fn flushes_through_two_levels_withstand_each_refusal(rt: HostRuntime) -> Result<(), Fail> {
    let heap = Refusing::new(rt.alloc());
    let long = repeated(rt.alloc(), b'y', 300_000)?;
    let Some(keys) = new_reaching(rt.alloc(), rt.alloc(), long.as_slice())? else {
        panic!(rt; "no flush through two levels");
    };
    assert!(rt;
        is_flush(&heap, rt.alloc(), long_case(long.as_slice(), keys))?,
        "{keys}"
    );
    Ok(())
}

#[test]
fn refused_requests_are_skipped(rt: HostRuntime) -> Result<(), Fail> {
    let heap = Refusing::new(rt.alloc());
    for (number, row) in ROWS.iter().enumerate() {
        assert!(rt;
            is_withstood(&heap, rt.alloc(), Trial::Worked(row), 3)?,
            "list {number}"
        );
    }
    Ok(())
}

// The event to which a request was refused is as if it had not been, and succeeds the next time.
#[test]
fn flushes_are_answered(rt: HostRuntime) -> Result<(), Fail> {
    let heap = Refusing::new(rt.alloc());
    for list in events::flushes::LISTS {
        assert!(rt;
            is_withstood(&heap, rt.alloc(), Trial::Flushes(list), 11)?,
            "{list}"
        );
    }
    Ok(())
}

// The outputs of the run say where a request was refused, and all else is told as each tenant's own run tells it. A refused
// place in the outputs ends the run after the events that took place.
#[test]
fn a_run_withstands_each_refusal(rt: HostRuntime) -> Result<(), Fail> {
    let heap = Refusing::new(rt.alloc());
    assert!(rt; is_withstood(&heap, rt.alloc(), Trial::Run(&ACTS), 10)?);
    let flushed = with_flushes(rt.alloc(), &ACTS)?;
    assert!(rt; is_withstood(&heap, rt.alloc(), Trial::Run(flushed.as_slice()), 10)?);
    Ok(())
}
