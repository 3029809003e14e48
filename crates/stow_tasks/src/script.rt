//! A script of events, and of questions how large the tree is and what a tenant uses.
ghost use Rattle.std.specs.Prelude.{◌≡◌, ◌++◌, ◌∷◌, [], IfErr, IfOk, IfSome, OnErr, OnOk, map};
ghost use Rattle.std.specs.List.{All};
ghost use Rattle.stow_model.specs.Event.{event_of};
ghost use Rattle.stow_model.specs.Login.{IsTenant};
ghost use Rattle.stow_workers.specs.Sent.{WritesAll, written_of};
ghost use Rattle.stow_tasks.specs.Ends.{InputFails, IsOfInput, IsOfOutput};
ghost use Rattle.stow_tasks.specs.Lines.{WritesLine};
ghost use Rattle.stow_tasks.specs.Read.{IsScriptRead};
ghost use Rattle.stow_script.specs.Script.{line_of};
ghost use Rattle.stow_tasks.specs.Told.{IsCarriedOut, IsLineDone, IsTenantThere, IsScripted, IsToldLine, progress_of, usage_of};
ghost use Rattle.stow_workers.specs.StowHouse.Steps.{state_of};
ghost use Rattle.stow_workers.specs.StowHouse.StepResult.{step_result_of, CanAnswer};

use crate::line::{write_result, write_shape, write_usage};
use std::alloc::{AllocError, Allocator};
use stow_login::tenants::Tenants;
use stow_model::event::Event;
use stow_run::failure::{Endpoint, Failure};
use stow_script::reading::{cut, read_line};
use stow_script::script_line::ScriptLine;
use stow_script::stumble::Stumble;
use stow_script::text::TextFault;
use stow_workers::sink::Sink;
use stow_workers::source::Source;
use stow_workers::stow_house::house::House;
use stow_workers::stow_house::step_result::StepResult;
use stow_workers::writing::write_all;

/// How many bytes of answers are kept before they are written.
const ANSWERS: usize = 65_536;

/// The most bytes that are read at once.
const PIECE: usize = 4096;

/// Carries out the lines of the reader's script, and writes a line for each. The whole script is checked
/// before its first line is carried out.
pub fn script<'a, A: Allocator + Copy, R: Source, W: Sink>(
    alloc: A,
    house: &mut House<A>,
    input: &mut R,
    output: &mut W,
) -> Result<(), Failure<'a>>
    ensures scripted { IsScripted (R.remaining input.old)
        (progress_of house.old (W.contents output.old) (W.failures output.old))
        (progress_of house.new (W.contents output.new) (W.failures output.new)) result }
    ensures input { InputFails result (R.failures input.old) (R.failures input.new) }
    ensures same_input { R.borrow input.new ≡ R.borrow input.old }
    ensures same_output { W.borrow output.new ≡ W.borrow output.old }
{
    let mut text = Vec::new(alloc);
    read_all(input, &mut text)?;
    let lines = read_lines(alloc, house, text.as_slice())?;
    carry_out(alloc, house, lines.as_slice(), output)
}

/// Adds all that there is to be read, up to a read that fails or memory that is refused.
pub(crate) fn read_all<A: Allocator, R: Source>(
    input: &mut R,
    text: &mut Vec<u8, A>,
) -> Result<(), Failure<'static>>
    ensures ok { OnOk result (IfSome (R.remaining input.old)
        (λ bytes. text.new.items ≡ text.old.items ++ bytes)) }
    ensures err { IfErr result IsOfInput }
    ensures input { InputFails result (R.failures input.old) (R.failures input.new) }
    ensures same_input { R.borrow input.new ≡ R.borrow input.old }
{
    let mut piece = [0u8; PIECE];
    loop {
        let count = Endpoint::Input.check(input.read(&mut piece))?;
        if count == 0 {
            return Ok(());
        }
        text.extend_from_slice(&piece[..count])?;
    }
}

/// Carries out the lines, and writes a line for each, up to the first that can't be written or kept.
fn carry_out<'a, A: Allocator + Copy, W: Sink>(
    alloc: A,
    house: &mut House<A>,
    lines: &[ScriptLine<A>],
    output: &mut W,
) -> Result<(), Failure<'a>>
    requires { All (IsTenantThere (state_of house.old).core.entries) (map line_of lines.now) }
    ensures carried_out { IsCarriedOut (map line_of lines.now)
        (progress_of house.old (W.contents output.old) (W.failures output.old))
        (progress_of house.new (W.contents output.new) (W.failures output.new)) result }
    ensures same_output { W.borrow output.new ≡ W.borrow output.old }
{
    let mut answers = Vec::new(alloc);
    for line in lines {
        if carry_out_line(alloc, house, line, &mut answers).is_err() {
            finish(answers.as_slice(), output)?;
            return Err(Failure::Memory);
        }
        if answers.len() >= ANSWERS {
            Endpoint::Output.check(write_all(output, answers.as_slice()))?;
            answers.clear();
        }
    }
    finish(answers.as_slice(), output)
}

/// Carries out a line, and adds what is told of it, or nothing where memory is refused to that.
fn carry_out_line<A: Allocator + Copy>(
    alloc: A,
    house: &mut House<A>,
    line: &ScriptLine<A>,
    answers: &mut Vec<u8, A>,
) -> Result<(), AllocError>
    requires { IsTenantThere (state_of house.old).core.entries (line_of line.now) }
    ensures ok { OnOk result (IsToldLine (line_of line.now) (state_of house.old)
        (state_of house.new) answers.old.items answers.new.items) }
    ensures done { OnErr result (IsLineDone (line_of line.now) (state_of house.old)
        (state_of house.new)) }
    ensures err { OnErr result (answers.new.items ≡ answers.old.items) }
{
    match line {
        ScriptLine::Event(event) => {
            let result = house.step(alloc, event);
            tell(alloc, event, &result, answers)
        }
        ScriptLine::Shape => write_shape(house.core().shape(), answers),
        ScriptLine::Usage(tenant) => tell_usage(house, *tenant, answers),
    }
}

/// Adds the line that tells what a tenant uses, or nothing where memory is refused.
pub(crate) fn tell_usage<A: Allocator + Copy>(
    house: &House<A>,
    tenant: u32,
    answers: &mut Vec<u8, A>,
) -> Result<(), AllocError>
    requires { IsTenant (state_of house.now).core.entries tenant }
    ensures ok { OnOk result (answers.new.items
        ≡ answers.old.items ++ (usage_of (state_of house.now).core tenant ++ 10 ∷ [])) }
    ensures err { OnErr result (answers.new.items ≡ answers.old.items) }
{
    let core = house.core();
    let usage = core.usage(tenant);
    write_usage(core.tenants().name(tenant), usage, answers)
}

/// Adds the line of an event, or nothing where memory is refused.
fn tell<A: Allocator + Copy>(
    alloc: A,
    event: &Event<A>,
    outcome: &StepResult<A>,
    answers: &mut Vec<u8, A>,
) -> Result<(), AllocError>
    requires { CanAnswer (event_of event.now) (step_result_of outcome.now) }
    ensures ok { OnOk result
        (WritesLine event.now outcome.now answers.old.items answers.new.items) }
    ensures err { OnErr result (answers.new.items ≡ answers.old.items) }
{
    let whole = answers.len();
    let told = write_result(alloc, event, outcome, answers);
    if told.is_err() {
        answers.truncate(whole);
    }
    told
}

/// Writes the last bytes of the output.
pub fn finish<'a, W: Sink>(bytes: &[u8], output: &mut W) -> Result<(), Failure<'a>>
    ensures written { WritesAll result bytes.now
        (written_of (W.contents output.old) (W.failures output.old))
        (written_of (W.contents output.new) (W.failures output.new)) }
    ensures err { IfErr result IsOfOutput }
    ensures same_output { W.borrow output.new ≡ W.borrow output.old }
{
    Endpoint::Output.check(write_all(output, bytes))?;
    Endpoint::Output.check(output.flush())
}

/// What a script's lines ask for of the house, or the number of its first bad line, counted from 1.
pub(crate) fn read_lines<A: Allocator + Copy>(
    alloc: A,
    house: &House<A>,
    text: &[u8],
) -> Result<Vec<ScriptLine<A>, A>, Failure<'static>>
    ensures read { IsScriptRead (state_of house.now).core.entries text.now result }
    ensures tenants { IfOk result (λ lines. All
        (IsTenantThere (state_of house.now).core.entries) (map line_of lines.items)) }
{
    read_script(alloc, house.core().tenants(), text)
}

/// What a script's lines ask for, of a service of these tenants, or the number of its first bad line, counted from 1.
fn read_script<A: Allocator + Copy>(
    alloc: A,
    tenants: &Tenants<A>,
    text: &[u8],
) -> Result<Vec<ScriptLine<A>, A>, Failure<'static>>
    ensures { IsScriptRead tenants.now text.now result }
{
    let mut lines = Vec::new(alloc);
    let mut left = Some(text);
    let mut number = 0;
    while let Some(rest) = left {
        let (line, after) = cut(rest, b'\n');
        number += 1;
        match read_line(alloc, tenants, line) {
            Ok(Some(asked)) => lines.push(asked).map_err(|_| Failure::Memory)?,
            Ok(None) => {}
            Err(TextFault::Malformed(word)) => {
                return Err(Failure::BadLine(number, Stumble::new(word)));
            }
            Err(TextFault::Memory) => return Err(Failure::Memory),
        }
        left = after;
    }
    Ok(lines)
}
