//! Requests on snapshots.
ghost use Rattle.std.specs.Prelude.{◌≡◌};
ghost use Rattle.stow_model.specs.declared.refusal.Refusal.TheVariants as refusal;
ghost use Rattle.stow_model.specs.Command as meant;
ghost use Rattle.stow_model.specs.LentWords.{words_in};
ghost use Rattle.stow_model.specs.NumberText.{number_of, count_of};
ghost use Rattle.stow_commands.specs.Commands.{reading_of};

use crate::command::{Command, row_count, with_ends, with_key, with_nothing};
use crate::name::is_named;
use crate::number::number;
use stow_model::lent_words::LentWords;
use stow_model::refusal::Refusal;

/// What the words after SNAPSHOT say.
pub(crate) fn read_snapshot(arguments: LentWords<'_>) -> Result<Command<'_>, Refusal>
    ensures { reading_of result ≡ meant.reading_snapshot (words_in arguments.entry) }
{
    match arguments.split_first() {
        Some((name, arguments)) => read_named(name, arguments),
        None => Err(Refusal::WrongArgumentCount),
    }
}

fn read_named<'a>(name: &[u8], arguments: LentWords<'a>) -> Result<Command<'a>, Refusal>
    ensures { reading_of result
        ≡ meant.reading_among meant.snapshot_commands refusal.SyntaxError name.now
        (words_in arguments.entry) }
{
    if is_named(name, b"take") {
        with_nothing(arguments, Command::TakeSnapshot)
    } else if is_named(name, b"list") {
        with_nothing(arguments, Command::ListSnapshots)
    } else if is_named(name, b"drop") {
        read_drop(arguments)
    } else if is_named(name, b"get") {
        read_get(arguments)
    } else if is_named(name, b"range") {
        read_range(arguments)
    } else {
        Err(Refusal::SyntaxError)
    }
}

fn read_drop(arguments: LentWords<'_>) -> Result<Command<'_>, Refusal>
    ensures { reading_of result ≡ meant.reading_drop (words_in arguments.entry) }
{
    let Some(id) = arguments.only() else {
        return Err(Refusal::WrongArgumentCount);
    };
    match number(id) {
        Some(id) => Ok(Command::DropSnapshot(id)),
        None => Err(Refusal::NotAnInteger),
    }
}

fn read_get(arguments: LentWords<'_>) -> Result<Command<'_>, Refusal>
    ensures { reading_of result ≡ meant.reading_get_in (words_in arguments.entry) }
{
    let Some((id, key)) = arguments.two() else {
        return Err(Refusal::WrongArgumentCount);
    };
    match number(id) {
        Some(id) => with_key(key, Command::GetInSnapshot(id, key)),
        None => Err(Refusal::NotAnInteger),
    }
}

fn read_range(arguments: LentWords<'_>) -> Result<Command<'_>, Refusal>
    ensures { reading_of result ≡ meant.reading_range_in (words_in arguments.entry) }
{
    let Some((id, ends)) = arguments.split_first() else {
        return Err(Refusal::WrongArgumentCount);
    };
    let Some((from, to, count)) = ends.three() else {
        return Err(Refusal::WrongArgumentCount);
    };
    range_in(id, from, to, count)
}

/// The rows of an interval in a snapshot, by the texts of its id and of how many rows at most.
fn range_in<'a>(
    id: &[u8],
    from: &'a [u8],
    to: &'a [u8],
    count: &[u8],
) -> Result<Command<'a>, Refusal>
    ensures { reading_of result
        ≡ meant.reading_range_in_numbers from.now to.now (number_of id.now)
        (count_of (number_of count.now)) }
{
    let Some(id) = number(id) else {
        return Err(Refusal::NotAnInteger);
    };
    match row_count(count) {
        Some(count) => with_ends(from, to, Command::RangeInSnapshot(id, from, to, count)),
        None => Err(Refusal::NotAnInteger),
    }
}
