//! What a script's lines led to, a line each.
ghost use Rattle.std.specs.Prelude.{◌≡◌, ◌++◌, ◌∷◌, [], OnErr, OnOk, codes};
ghost use Rattle.std.specs.Fmt.{decimal};
ghost use Rattle.std.specs.Io.{StartsWith};
ghost use Rattle.stow_model.specs.Event.{event_of};
ghost use Rattle.stow_model.specs.Reply.{encoding, reply_of};
ghost use Rattle.stow_workers.specs.StowHouse.StepResult.{step_result_of, CanAnswer};
ghost use Rattle.stow_tasks.specs.Lines.{WritesLine, counts_text, shape_text, sizes_text, usage_text};
ghost use Rattle.stow_tasks.specs.Written.{done_text, written};
ghost use Rattle.stow_script.specs.Text.{text_of};

use itoa::Buffer;
use std::alloc::{AllocError, Allocator};
use stow_model::event::Event;
use stow_model::reply::Reply;
use stow_model::usage::Usage;
use stow_script::text::escape;
use stow_workers::stow_house::step_result::StepResult;
use stow_workers::stow_resp::encode::Encode;
use stow_workers::stow_tree::shape_report::ShapeReport;

/// Adds the line that tells what the event led to, which is something that it can lead to.
pub fn write_result<A: Allocator + Copy>(
    alloc: A,
    event: &Event<A>,
    outcome: &StepResult<A>,
    out: &mut Vec<u8, A>,
) -> Result<(), AllocError>
    requires { CanAnswer (event_of event.now) (step_result_of outcome.now) }
    ensures ok { OnOk result (WritesLine event.now outcome.now out.old.items out.new.items) }
    ensures front { StartsWith out.new.items out.old.items }
{
    write_outcome(alloc, event, outcome, out)?;
    out.push(b'\n')?;
    Ok(())
}

fn write_outcome<A: Allocator + Copy>(
    alloc: A,
    event: &Event<A>,
    outcome: &StepResult<A>,
    out: &mut Vec<u8, A>,
) -> Result<(), AllocError>
    ensures ok { OnOk result (out.new.items ≡ out.old.items ++ written event.now outcome.now) }
    ensures front { StartsWith out.new.items out.old.items }
{
    match outcome {
        StepResult::Done => out.extend_from_slice(done(event)),
        StepResult::Answered(reply) => write_reply(alloc, reply, out),
        StepResult::More => out.extend_from_slice(b"more"),
        StepResult::Blank => out.extend_from_slice(b"blank"),
        StepResult::Job => out.extend_from_slice(b"job"),
        StepResult::NoJob => out.extend_from_slice(b"none"),
        StepResult::Installed => out.extend_from_slice(b"done"),
        StepResult::Stale => out.extend_from_slice(b"stale"),
        StepResult::Refused => out.extend_from_slice(b"refused"),
        StepResult::NoMemory => out.extend_from_slice(b"memory"),
    }
}

fn write_reply<A: Allocator + Copy>(
    alloc: A,
    reply: &Reply<A>,
    out: &mut Vec<u8, A>,
) -> Result<(), AllocError>
    ensures ok { OnOk result (out.new.items
        ≡ out.old.items ++ codes "reply " ++ text_of (encoding (reply_of reply.now))) }
    ensures front { StartsWith out.new.items out.old.items }
{
    let mut bytes = Vec::new(alloc);
    reply.write(&mut bytes)?;
    out.extend_from_slice(b"reply ")?;
    escape(bytes.as_slice(), out)
}

/// Adds the line that tells how large a tree is, or nothing where memory is refused.
pub fn write_shape<A: Allocator>(
    report: ShapeReport,
    out: &mut Vec<u8, A>,
) -> Result<(), AllocError>
    ensures ok { OnOk result (out.new.items ≡ out.old.items ++ (shape_text report ++ 10 ∷ [])) }
    ensures err { OnErr result (out.new.items ≡ out.old.items) }
{
    let whole = out.len();
    let told = push_shape(report, out);
    if told.is_err() {
        out.truncate(whole);
    }
    told
}

fn push_shape<A: Allocator>(report: ShapeReport, out: &mut Vec<u8, A>) -> Result<(), AllocError>
    ensures ok { OnOk result (out.new.items ≡ out.old.items ++ (shape_text report ++ 10 ∷ [])) }
    ensures front { StartsWith out.new.items out.old.items }
{
    push_count(b"height ", report.height, out)?;
    push_count(b" leaves ", report.leaves, out)?;
    push_count(b" buffered ", report.buffered, out)?;
    push_count(b" cached ", report.cached, out)?;
    out.push(b'\n')?;
    Ok(())
}

/// Adds a name, and a count in decimal.
fn push_count<A: Allocator>(name: &[u8], count: u64, out: &mut Vec<u8, A>) -> Result<(), AllocError>
    ensures ok { OnOk result (out.new.items ≡ out.old.items ++ name.now ++ decimal count) }
    ensures front { StartsWith out.new.items out.old.items }
{
    let mut buffer = Buffer::new();
    out.extend_from_slice(name)?;
    out.extend_from_slice(buffer.format(count).as_bytes())
}

/// Adds the line that tells what the tenant of this name uses, or nothing where memory is refused.
pub fn write_usage<A: Allocator>(
    name: &[u8],
    usage: Usage,
    out: &mut Vec<u8, A>,
) -> Result<(), AllocError>
    ensures ok { OnOk result
        (out.new.items ≡ out.old.items ++ (usage_text name.now usage ++ 10 ∷ [])) }
    ensures err { OnErr result (out.new.items ≡ out.old.items) }
{
    let whole = out.len();
    let told = push_usage(name, usage, out);
    if told.is_err() {
        out.truncate(whole);
    }
    told
}

fn push_usage<A: Allocator>(
    name: &[u8],
    usage: Usage,
    out: &mut Vec<u8, A>,
) -> Result<(), AllocError>
    ensures ok { OnOk result
        (out.new.items ≡ out.old.items ++ (usage_text name.now usage ++ 10 ∷ [])) }
    ensures front { StartsWith out.new.items out.old.items }
{
    push_sizes(name, usage, out)?;
    push_counts(usage, out)
}

/// Adds a tenant's name, and what its rows are charged.
fn push_sizes<A: Allocator>(
    name: &[u8],
    usage: Usage,
    out: &mut Vec<u8, A>,
) -> Result<(), AllocError>
    ensures ok { OnOk result (out.new.items ≡ out.old.items ++ sizes_text name.now usage) }
    ensures front { StartsWith out.new.items out.old.items }
{
    out.extend_from_slice(name)?;
    push_count(b" rows=", usage.rows, out)?;
    push_count(b" charge=", usage.charge, out)?;
    push_count(b" quota=", usage.quota, out)?;
    Ok(())
}

/// Adds what is counted for a tenant, and a line's end.
fn push_counts<A: Allocator>(usage: Usage, out: &mut Vec<u8, A>) -> Result<(), AllocError>
    ensures ok { OnOk result
        (out.new.items ≡ out.old.items ++ (counts_text usage ++ 10 ∷ [])) }
    ensures front { StartsWith out.new.items out.old.items }
{
    push_count(b" writes=", usage.writes, out)?;
    push_count(b" commands=", usage.commands, out)?;
    push_count(b" refusals=", usage.refusals, out)?;
    push_count(b" snapshots=", usage.snapshots, out)?;
    out.push(b'\n')?;
    Ok(())
}

/// What is told of an event that was carried out and gives nothing.
fn done<A: Allocator>(event: &Event<A>) -> &'static [u8]
    ensures { result.now ≡ done_text (event_of event.now) }
{
    match event {
        Event::Open(_) => b"open",
        Event::Piece(_, _) => b"taken",
        Event::Serve(_) => b"blank",
        Event::Close(_) => b"closed",
        Event::Plan(_) => b"job",
        Event::Merge(_) => b"merged",
        Event::Install(_) => b"done",
        Event::Resize(_) => b"resized",
        Event::Quota(_, _) => b"set",
    }
}
