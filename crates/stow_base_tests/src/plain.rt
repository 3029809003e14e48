//! The tenant's own run: that the definitions say what was meant, by worked examples with values from outside, and that
//! the calls succeed where there is memory, and only there. With them the outcomes of `stow_commands` are found.
mod rows;
mod text;

use crate::plain::rows::{LIMITS, MIXED, REFUSED, RUNS};
use crate::plain::text::{parts_of, request_of};
use std::alloc::{AllocError, Allocator};
use std::test::Fail;
use stow_model::reply::Reply;
use stow_model::usage::Usage;
use stow_plain::own_run::own_run;
use stow_plain::plain_number::PlainNumber;
use stow_plain::plain_request::PlainRequest;
use stow_plain::plain_run::PlainRun;
use stow_plain::plain_store::PlainStore;
use stow_refusing::{Plan, Refusing};
use stow_testing::replies::is_text;

/// The most bytes that may be charged to a tenant here.
const QUOTA: u64 = 2_000_000;

/// Whether this usage is told: the rows, the charge, the writes and the commands.
fn is_usage<A: Allocator>(alloc: A, usage: Usage, told: &str) -> Result<bool, AllocError> {
    let Usage {
        rows,
        charge,
        writes,
        commands,
        ..
    } = usage;
    let text = format!(in alloc; "{rows} {charge} {writes} {commands}")?;
    Ok(text.as_str() == told && (usage.quota, usage.refusals, usage.snapshots) == (QUOTA, 0, 0))
}

/// Whether this store has used its last write number from now on, and has counted as many commands.
fn spend<A: Allocator + Copy>(store: &mut PlainStore<A>) -> bool {
    store.last = PlainNumber::new(9_223_372_036_854_775_807);
    store.commands = store.last;
    true
}

/// Whether a line is told this.
fn is_told<A: Allocator + Copy>(
    alloc: A,
    store: &mut PlainStore<A>,
    line: &str,
    told: &str,
) -> Result<bool, AllocError> {
    match line {
        "usage" => is_usage(alloc, store.usage(), told),
        "spend" => Ok(spend(store)),
        _ => is_text(alloc, &store.step(alloc, &request_of(alloc, line)?)?, told),
    }
}

/// Whether each line of a run is told what stands behind it.
fn is_run<A: Allocator + Copy>(
    alloc: A,
    store: &mut PlainStore<A>,
    run: &str,
) -> Result<bool, AllocError> {
    for row in run.split('\n') {
        let (line, told) = parts_of(row);
        if !is_told(alloc, store, line, told)? {
            return Ok(false);
        }
    }
    Ok(true)
}

/// Whether each of the runs is a tenant's own.
fn are_runs<A: Allocator + Copy>(alloc: A, runs: &str) -> Result<bool, AllocError> {
    for run in runs.split("\n\n") {
        if !is_run(alloc, &mut PlainStore::new(alloc, QUOTA), run)? {
            return Ok(false);
        }
    }
    Ok(true)
}

#[test]
fn stores_tell_what_was_meant(rt: HostRuntime) -> Result<(), Fail> {
    for (name, runs) in [("runs", RUNS), ("refused", REFUSED), ("limits", LIMITS)] {
        assert!(rt; are_runs(rt.alloc(), runs)?, "{name}");
    }
    Ok(())
}

/// Whether a step withstands the refusal of this request for memory, by leaving the store of one row as it was and being made
/// again, or `None` if it asks for fewer and succeeds.
fn step_withstands<A: Allocator + Copy, B: Allocator>(
    heap: &Refusing<B>,
    store: &mut PlainStore<A>,
    (alloc, request): (A, &PlainRequest<A>),
    at: u64,
) -> Option<bool> {
    heap.set(Plan::RefuseAt(at));
    let is_done = store.step(alloc, request).is_ok();
    if heap.asked() <= at {
        return if is_done { None } else { Some(false) };
    }
    heap.set(Plan::Grant);
    let stood = (store.commands.get(), store.last.get(), store.rows().len()) == (1, 1, 1);
    Some(!is_done && stood && store.step(alloc, request).is_ok())
}

/// Whether a line's step in a store withstands it.
fn withstands<A: Allocator + Copy, B: Allocator>(
    heap: &Refusing<B>,
    store: &mut PlainStore<A>,
    (alloc, line): (A, &str),
    at: u64,
) -> Result<Option<bool>, AllocError> {
    heap.set(Plan::Grant);
    if !is_told(alloc, store, "SET k v", "OK")? {
        return Ok(Some(false));
    }
    let request = request_of(alloc, line)?;
    Ok(step_withstands(heap, store, (alloc, &request), at))
}

/// Whether a line's step withstands the refusal of each request for memory that it makes.
fn withstands_each<A: Allocator + Copy, B: Allocator>(
    heap: &Refusing<B>,
    alloc: A,
    line: &str,
) -> Result<bool, AllocError> {
    for at in 0..100u64 {
        let stood = withstands(heap, &mut PlainStore::new(alloc, QUOTA), (alloc, line), at)?;
        match stood {
            None => return Ok(true),
            Some(true) => {}
            Some(false) => return Ok(false),
        }
    }
    Ok(false)
}

/// Lines that ask for memory.
const STEPS: &str = "SET l w
DEL k
GET k
PING x
APPEND k w
INCR n
MGET k z
RANGE '' '' 9
SET l w NX";

#[test]
fn a_refused_step_changes_nothing(rt: HostRuntime) -> Result<(), Fail> {
    let heap = Refusing::new(rt.alloc());
    for line in STEPS.split('\n') {
        assert!(rt; withstands_each(&heap, &heap, line)?, "{line}");
    }
    Ok(())
}

/// The requests of a run.
fn requests_of<A: Allocator + Copy>(
    alloc: A,
    run: &str,
) -> Result<Vec<PlainRequest<A>, A>, AllocError> {
    let mut requests = Vec::new(alloc);
    for row in run.split('\n') {
        requests.push(request_of(alloc, parts_of(row).0)?)?;
    }
    Ok(requests)
}

/// Whether the replies are those of a run.
fn are_told<A: Allocator + Copy>(
    alloc: A,
    replies: &[Reply<A>],
    run: &str,
) -> Result<bool, AllocError> {
    for (reply, row) in replies.iter().zip(run.split('\n')) {
        if !is_text(alloc, reply, parts_of(row).1)? {
            return Ok(false);
        }
    }
    Ok(replies.len() == run.split('\n').count())
}

/// Whether this is the run of the mixed requests.
fn is_mixed<A: Allocator + Copy>(alloc: A, run: &PlainRun<A>) -> Result<bool, AllocError> {
    Ok(
        is_usage(alloc, run.store.usage(), "2 37 5 8")?
            && are_told(alloc, run.replies.as_slice(), MIXED)?,
    )
}

/// Whether a tenant's own run over the mixed requests tells their replies, and then has their usage.
fn is_own_run<A: Allocator + Copy>(alloc: A) -> Result<bool, AllocError> {
    let requests = requests_of(alloc, MIXED)?;
    is_mixed(alloc, &own_run(alloc, QUOTA, requests.as_slice())?)
}

// Each request for memory is refused in turn: the call names the want of memory, and it succeeds where none is.
#[test]
fn own_run_withstands_each_refusal(rt: HostRuntime) -> Result<(), Fail> {
    let heap = Refusing::new(rt.alloc());
    assert!(rt; is_own_run(&heap)?);
    let needed = heap.asked();
    for at in 0..needed {
        heap.set(Plan::RefuseAt(at));
        assert!(rt; is_own_run(&heap).is_err(), "request {at}");
    }
    assert!(rt; needed >= 40, "{needed} requests");
    Ok(())
}
