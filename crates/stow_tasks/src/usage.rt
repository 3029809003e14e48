//! What each tenant uses after a script of events.
ghost use Rattle.std.specs.Prelude.{◌≡◌, IfOk, map};
ghost use Rattle.stow_model.specs.Event.{event_of};
ghost use Rattle.stow_workers.specs.StowHouse.Runs.{IsNewHouse};
ghost use Rattle.stow_workers.specs.StowHouse.Steps.{state_of};
ghost use Rattle.stow_script.specs.Script.{line_of};
ghost use Rattle.stow_tasks.specs.Ends.{InputFails};
ghost use Rattle.stow_tasks.specs.Told.{AreEventsRead, IsReported, IsUsage, events_in, progress_of, usages_of};

use crate::script::{finish, read_all, read_lines, tell_usage};
use std::alloc::{AllocError, Allocator};
use stow_model::event::Event;
use stow_run::failure::Failure;
use stow_script::script_line::ScriptLine;
use stow_workers::sink::Sink;
use stow_workers::source::Source;
use stow_workers::stow_house::house::House;

/// Carries out the events of the reader's script, and then writes what each tenant uses, a line each, in the order of their
/// file. The whole script is checked before its first event is carried out.
pub fn usage<'a, A: Allocator + Copy, R: Source, W: Sink>(
    alloc: A,
    house: &mut House<A>,
    input: &mut R,
    output: &mut W,
) -> Result<(), Failure<'a>>
    requires { IsNewHouse (state_of house.old) }
    ensures used { IsUsage (R.remaining input.old)
        (progress_of house.old (W.contents output.old) (W.failures output.old))
        (progress_of house.new (W.contents output.new) (W.failures output.new)) result }
    ensures input { InputFails result (R.failures input.old) (R.failures input.new) }
    ensures same_input { R.borrow input.new ≡ R.borrow input.old }
    ensures same_output { W.borrow output.new ≡ W.borrow output.old }
{
    let mut text = Vec::new(alloc);
    read_all(input, &mut text)?;
    let events = read_events(alloc, house, text.as_slice())?;
    report(alloc, house, events.as_slice(), output)
}

/// The events that a script's lines ask for, or the number of its first bad line, counted from 1.
fn read_events<A: Allocator + Copy>(
    alloc: A,
    house: &House<A>,
    text: &[u8],
) -> Result<Vec<Event<A>, A>, Failure<'static>>
    ensures { AreEventsRead (state_of house.now).core.entries text.now result }
{
    let lines = read_lines(alloc, house, text)?;
    Ok(events_of(alloc, lines)?)
}

/// Carries out events, and then writes what each tenant uses.
fn report<'a, A: Allocator + Copy, W: Sink>(
    alloc: A,
    house: &mut House<A>,
    events: &[Event<A>],
    output: &mut W,
) -> Result<(), Failure<'a>>
    requires { IsNewHouse (state_of house.old) }
    ensures reported { IsReported (map event_of events.now)
        (progress_of house.old (W.contents output.old) (W.failures output.old))
        (progress_of house.new (W.contents output.new) (W.failures output.new)) result }
    ensures same_output { W.borrow output.new ≡ W.borrow output.old }
{
    if house.run(alloc, events).is_err() {
        return Err(Failure::Memory);
    }
    let told = usages(alloc, house)?;
    finish(told.as_slice(), output)
}

/// The events among what lines ask for.
fn events_of<A: Allocator + Copy>(
    alloc: A,
    lines: Vec<ScriptLine<A>, A>,
) -> Result<Vec<Event<A>, A>, AllocError>
    ensures { IfOk result
        (λ events. map event_of events.items ≡ events_in (map line_of lines.items)) }
{
    let mut events = Vec::new(alloc);
    for line in lines {
        if let ScriptLine::Event(event) = line {
            events.push(event)?;
        }
    }
    Ok(events)
}

/// What each tenant uses, a line each.
fn usages<A: Allocator + Copy>(alloc: A, house: &House<A>) -> Result<Vec<u8, A>, AllocError>
    ensures { IfOk result (λ told. told.items ≡ usages_of (state_of house.now).core) }
{
    let mut told = Vec::new(alloc);
    for before in 0..house.core().tenants().count() {
        tell_usage(house, before + 1, &mut told)?;
    }
    Ok(told)
}
