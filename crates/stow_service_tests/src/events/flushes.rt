//! Flushes in two steps between a tenant's requests: what each event is answered, also where memory was refused to it once.
use crate::events::acts::{ANN, Act, events_of};
use crate::events::each::name_of;
use crate::events::runs::are_answered_as_alone;
use crate::making::{lend, new_house, step};
use crate::refused::{left_after, plan_of};
use crate::text::{is_reply, row_of};
use std::alloc::{AllocError, Allocator, Global};
use std::test::Fail;
use stow_house::house::House;
use stow_house::step_result::StepResult;
use stow_model::event::Event;
use stow_model::refusal::Refusal;
use stow_model::reply::Reply;
use stow_refusing::{Plan, Refusing};

/// Lists of a request, or an event of a flusher, and its answer: a reply's text, or the answer's name.
pub(crate) const LISTS: [&str; 6] = [SNAPSHOT, STALE, OUT_OF_TURN, DELETED, DROPPED, APPENDED];

// A snapshot and a write come between a job and its install.
const SNAPSHOT: &str = "SET a x => OK
plan 1 => job
merge 1 => done
SNAPSHOT TAKE => :1
SET a y => OK
install 1 => installed
SNAPSHOT GET 1 a => $x
GET a => $y";

// Two flushers have a job of the same messages: the second result is stale, and its flusher is free then.
const STALE: &str = "SET a x => OK
plan 1 => job
plan 2 => job
merge 1 => done
merge 2 => done
install 1 => installed
install 2 => stale
GET a => $x
plan 1 => none
plan 2 => none";

// A flusher has one job at most, and takes one step of it after another.
const OUT_OF_TURN: &str = "install 1 => refused
merge 1 => refused
plan 1 => none
merge 1 => refused
SET a x => OK
plan 1 => job
plan 1 => refused
install 1 => refused
merge 1 => done
merge 1 => refused
plan 1 => refused
install 1 => installed
install 1 => refused
GET a => $x";

// The key of the job goes before its install, and its removal is a job then.
const DELETED: &str = "SET a x => OK
plan 1 => job
DEL a => :1
merge 1 => done
install 1 => installed
GET a => nil
plan 1 => job
merge 1 => done
install 1 => installed
GET a => nil";

// A snapshot comes after the plan, and goes.
const DROPPED: &str = "SET a x => OK
plan 1 => job
SNAPSHOT TAKE => :1
SNAPSHOT DROP 1 => OK
merge 1 => done
install 1 => installed
GET a => $x";

// A suffix comes to a value that a leaf has, and one above a snapshot.
const APPENDED: &str = "SET a x => OK
plan 1 => job
merge 1 => done
install 1 => installed
APPEND a y => :2
SNAPSHOT TAKE => :1
APPEND a z => :3
plan 1 => job
merge 1 => done
install 1 => installed
GET a => $xyz
SNAPSHOT GET 1 a => $xy
USAGE => U 1 39 1000000 3 7 0 1";

/// The act of a flusher that a line names.
fn flusher_act(line: &str) -> Option<Act> {
    match line {
        "plan 1" => Some(Act::Plan(1)),
        "plan 2" => Some(Act::Plan(2)),
        "merge 1" => Some(Act::Merge(1)),
        "merge 2" => Some(Act::Merge(2)),
        "install 1" => Some(Act::Install(1)),
        "install 2" => Some(Act::Install(2)),
        "open" => Some(Act::Open(1)),
        _ => None,
    }
}

/// Adds the acts of a line: a request is sent on connection 1, and served.
fn push_acts<A: Allocator>(acts: &mut Vec<Act, A>, line: &'static str) -> Result<(), AllocError> {
    match flusher_act(line) {
        Some(act) => acts.push(act)?,
        None => acts.extend_from_slice(&[Act::Send(1, line), Act::Serve(1)])?,
    }
    Ok(())
}

/// The acts of a line.
fn acts_of_line<A: Allocator>(alloc: A, line: &'static str) -> Result<Vec<Act, A>, AllocError> {
    let mut acts = Vec::new(alloc);
    push_acts(&mut acts, line)?;
    Ok(acts)
}

/// The events of a line.
fn events_of_line<A: Allocator + Copy>(
    alloc: A,
    line: &'static str,
) -> Result<Vec<Event<A>, A>, AllocError> {
    events_of(alloc, acts_of_line(alloc, line)?.as_slice())
}

/// How an event is answered; at a second time, where memory was refused to it.
fn answer_to<A: Allocator + Copy>(
    house: &mut House<A>,
    alloc: A,
    event: &Event<A>,
) -> StepResult<A> {
    match step(house, alloc, event) {
        StepResult::NoMemory => step(house, alloc, event),
        answer => answer,
    }
}

/// How the last of some events is answered.
fn answer_to_last<A: Allocator + Copy>(
    house: &mut House<A>,
    alloc: A,
    events: &[Event<A>],
) -> StepResult<A> {
    let mut answer = StepResult::Blank;
    for event in events {
        answer = answer_to(house, alloc, event);
    }
    answer
}

/// Whether a request was told that memory was refused.
fn is_refused<A: Allocator>(answer: &StepResult<A>) -> bool {
    matches!(
        answer,
        StepResult::Answered(Reply::Error(Refusal::OutOfMemory))
    )
}

/// The same; at a second time, where its request was told that memory was refused.
fn answer_in_the_end<A: Allocator + Copy>(
    house: &mut House<A>,
    alloc: A,
    events: &[Event<A>],
) -> StepResult<A> {
    let answer = answer_to_last(house, alloc, events);
    if is_refused(&answer) {
        return answer_to_last(house, alloc, events);
    }
    answer
}

/// The same with one request for memory refused, where so many come before it, and how many are made.
fn answer_refused<A: Allocator + Copy, B: Allocator>(
    heap: &Refusing<B>,
    alloc: A,
    house: &mut House<A>,
    (events, left): (&[Event<A>], Option<u64>),
) -> (StepResult<A>, u64) {
    heap.set(plan_of(left));
    let answer = answer_in_the_end(house, alloc, events);
    let asked = heap.asked();
    heap.set(Plan::Grant);
    (answer, asked)
}

fn is_answer<A: Allocator + Copy>(
    alloc: A,
    answer: &StepResult<A>,
    want: &str,
) -> Result<bool, AllocError> {
    match answer {
        StepResult::Answered(reply) => is_reply(alloc, reply, want),
        other => Ok(name_of(other) == want),
    }
}

/// Whether the row's line is answered so, and how many requests for memory it makes.
fn is_row_answered<A: Allocator + Copy, B: Allocator>(
    heap: &Refusing<B>,
    alloc: A,
    house: &mut House<A>,
    (row, left): (&'static str, Option<u64>),
) -> Result<(bool, u64), AllocError> {
    let (line, want) = row_of(row);
    let events = events_of_line(alloc, line)?;
    let (answer, asked) = answer_refused(heap, alloc, house, (events.as_slice(), left));
    Ok((is_answer(alloc, &answer, want)?, asked))
}

/// How many requests for memory come before the refused one after a list; `None` where a row is answered otherwise.
fn left_after_list<A: Allocator + Copy, B: Allocator>(
    heap: &Refusing<B>,
    alloc: A,
    house: &mut House<A>,
    (list, mut left): (&'static str, Option<u64>),
) -> Result<Option<Option<u64>>, AllocError> {
    for row in list.lines() {
        let (is_right, asked) = is_row_answered(heap, alloc, house, (row, left))?;
        left = left_after(left, asked);
        if !is_right {
            return Ok(None);
        }
    }
    Ok(Some(left))
}

/// A connection that is opened and logs in.
const LOGIN: &str = "open => done
AUTH ann bc => OK";

/// Whether a house answers a list after a login so where this request for memory is refused, or `None` if it does and they ask
/// for fewer.
fn are_answered<A: Allocator + Copy, B: Allocator>(
    heap: &Refusing<B>,
    alloc: A,
    house: &mut House<A>,
    (list, at): (&'static str, u64),
) -> Result<Option<bool>, AllocError> {
    let Some(left) = left_after_list(heap, alloc, house, (LOGIN, Some(at)))? else {
        return Ok(Some(false));
    };
    match left_after_list(heap, alloc, house, (list, left))? {
        None => Ok(Some(false)),
        Some(None) => Ok(Some(true)),
        Some(Some(_)) => Ok(None),
    }
}

/// The same of a new house.
pub(crate) fn withstands<A: Allocator + Copy, B: Allocator>(
    heap: &Refusing<B>,
    (alloc, global): (A, Global),
    list: &'static str,
    at: u64,
) -> Result<Option<bool>, AllocError> {
    heap.set(Plan::Grant);
    lend(
        new_house(alloc, global),
        |house| are_answered(heap, alloc, house, (list, at)),
    )
}

/// A connection that is opened and logs in, and then the lines, as acts.
fn acts_of<A: Allocator>(alloc: A, list: &'static str) -> Result<Vec<Act, A>, AllocError> {
    let mut acts = Vec::from_slice(alloc, &[Act::Open(1)])?;
    push_acts(&mut acts, ANN)?;
    for row in list.lines() {
        push_acts(&mut acts, row_of(row).0)?;
    }
    Ok(acts)
}

/// Whether a run of a new house tells the list's connection what the tenant's own run tells.
fn are_told<A: Allocator + Copy>(
    alloc: A,
    global: Global,
    list: &'static str,
) -> Result<bool, AllocError> {
    are_answered_as_alone(alloc, global, acts_of(alloc, list)?.as_slice(), 1)
}

#[test]
fn runs_with_flushes_are_told_as_alone(rt: HostRuntime) -> Result<(), Fail> {
    for list in LISTS {
        assert!(rt; are_told(rt.alloc(), rt.alloc(), list)?, "{list}");
    }
    Ok(())
}
