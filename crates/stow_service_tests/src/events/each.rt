//! An answer of each kind.
use crate::making::{new_house, step};
use crate::text::row_of;
use std::alloc::{AllocError, Allocator, Global};
use std::test::Fail;
use stow_bytes::byte_string::ByteString;
use stow_house::house::House;
use stow_house::step_result::StepResult;
use stow_model::event::Event;

/// Events, and how they are answered.
const STEPS: &str = "open => done
open => refused
serve => more
plan => none
merge => refused
install => refused
resize => done
resize too much => refused
two blanks => done
serve => blank
serve => blank
serve => more
close => done
close => refused
open => refused
two blanks => refused";

/// The event of a name, of connection or flusher 1.
fn event_of<A: Allocator>(alloc: A, name: &str) -> Result<Event<A>, AllocError> {
    Ok(match name {
        "open" => Event::Open(1),
        "serve" => Event::Serve(1),
        "plan" => Event::Plan(1),
        "merge" => Event::Merge(1),
        "install" => Event::Install(1),
        "resize" => Event::Resize(65_536),
        "resize too much" => Event::Resize(65_537),
        "close" => Event::Close(1),
        _ => Event::Piece(1, ByteString::from_slice(alloc, b"*0\r\n*-1\r\n")?),
    })
}

/// The name of an answer.
pub(crate) fn name_of<A: Allocator>(answer: &StepResult<A>) -> &'static str {
    match answer {
        StepResult::Done => "done",
        StepResult::Answered(_) => "answered",
        StepResult::More => "more",
        StepResult::Blank => "blank",
        StepResult::Job => "job",
        StepResult::NoJob => "none",
        StepResult::Installed => "installed",
        StepResult::Stale => "stale",
        StepResult::Refused => "refused",
        StepResult::NoMemory => "memory",
    }
}

/// Whether an event is answered as its row says.
fn is_answered<A: Allocator + Copy>(
    house: &mut House<A>,
    alloc: A,
    row: &'static str,
) -> Result<bool, AllocError> {
    let (name, want) = row_of(row);
    Ok(name_of(&step(house, alloc, &event_of(alloc, name)?)) == want)
}

/// The first row that a house answers otherwise.
fn first_other<A: Allocator + Copy>(
    house: &mut House<A>,
    alloc: A,
) -> Result<Option<&'static str>, AllocError> {
    for row in STEPS.lines() {
        if !is_answered(house, alloc, row)? {
            return Ok(Some(row));
        }
    }
    Ok(None)
}

/// The first that a new house does.
fn first_other_of_new<A: Allocator + Copy>(
    alloc: A,
    global: Global,
) -> Result<Option<&'static str>, AllocError> {
    first_other(&mut new_house(alloc, global)?, alloc)
}

#[test]
fn each_event_is_answered(rt: HostRuntime) -> Result<(), Fail> {
    let other = first_other_of_new(rt.alloc(), rt.alloc())?;
    assert!(rt; other.is_none(), "{other:?}");
    Ok(())
}
