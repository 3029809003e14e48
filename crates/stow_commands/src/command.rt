//! Requests to a tenant's store.
ghost use Rattle.std.specs.Prelude.{◌≡◌, pos, negsuc, [], ◌∷◌, option_map};
ghost use Rattle.std.specs.List.{list_any};
ghost use Rattle.stow_model.specs.declared.refusal.Refusal.TheVariants as refusal;
ghost use Rattle.stow_model.specs.Command as meant;
ghost use Rattle.stow_model.specs.LentWords.{words_in};
ghost use Rattle.stow_model.specs.NumberText.{number_of, count_of};
ghost use Rattle.stow_commands.specs.Commands.{condition_of, command_of, reading_of};

use crate::condition::Condition;
use crate::name::is_named;
use crate::number::number;
use crate::snapshots::read_snapshot;
use crate::update::Update;
use std::alloc::Allocator;
use stow_model::lent_words::LentWords;
use stow_model::refusal::Refusal;
use stow_model::stow_bytes::limits::KEY_LIMIT;
use stow_model::words::Words;

/// Keys of one deletion.
const DELETED_LIMIT: usize = 64;

/// Rows of one RANGE.
const COUNT_LIMIT: i64 = 1024;

/// A request to a tenant's store, in the words that it was read from.
#[derive(Clone, Copy)]
pub enum Command<'a> {
    Ping,
    /// ECHO, and PING with a text.
    Echo(&'a [u8]),
    Get(&'a [u8]),
    /// MGET.
    GetMany(LentWords<'a>),
    Exists(LentWords<'a>),
    /// STRLEN.
    Length(&'a [u8]),
    /// The lower end, the upper end, of which an empty one is none, and how many rows at most.
    Range(&'a [u8], &'a [u8], u32),
    Del(LentWords<'a>),
    /// SNAPSHOT TAKE.
    TakeSnapshot,
    /// SNAPSHOT LIST.
    ListSnapshots,
    /// SNAPSHOT DROP of an id.
    DropSnapshot(i64),
    /// GET in the snapshot of this id.
    GetInSnapshot(i64, &'a [u8]),
    /// RANGE in the snapshot of this id.
    RangeInSnapshot(i64, &'a [u8], &'a [u8], u32),
    /// USAGE.
    ReportUsage,
    /// SET, APPEND, INCR, DECR and INCRBY of a key.
    Change(&'a [u8], Update<'a>),
}

impl<'a> Command<'a> {
    /// The command that the words are, or the first refusal that applies: of the name, the number of
    /// arguments, options, numbers among the arguments, then the length of each key.
    #[tactic(auto, using(crate::proofs::Named::readings))]
    pub fn read<A: Allocator>(words: &'a Words<A>) -> Result<Command<'a>, Refusal>
        ensures { reading_of result ≡ meant.reading words.now }
    {
        match words.lent().split_first() {
            Some((name, arguments)) => read_named(name, arguments),
            None => Err(Refusal::UnknownCommand),
        }
    }
}

fn read_named<'a>(name: &[u8], arguments: LentWords<'a>) -> Result<Command<'a>, Refusal>
    ensures { reading_of result
        ≡ meant.reading_among meant.commands refusal.UnknownCommand name.now
        (words_in arguments.entry) }
{
    if is_named(name, b"ping") {
        read_ping(arguments)
    } else if is_named(name, b"echo") {
        read_echo(arguments)
    } else if is_named(name, b"get") {
        read_get(arguments)
    } else if is_named(name, b"mget") {
        read_get_many(arguments)
    } else if is_named(name, b"exists") {
        read_exists(arguments)
    } else if is_named(name, b"strlen") {
        read_length(arguments)
    } else if is_named(name, b"range") {
        read_range(arguments)
    } else if is_named(name, b"set") {
        read_set(arguments)
    } else if is_named(name, b"append") {
        read_append(arguments)
    } else if is_named(name, b"incr") {
        read_increment(arguments)
    } else if is_named(name, b"decr") {
        read_decrement(arguments)
    } else if is_named(name, b"incrby") {
        read_add(arguments)
    } else if is_named(name, b"del") {
        read_del(arguments)
    } else if is_named(name, b"snapshot") {
        read_snapshot(arguments)
    } else if is_named(name, b"usage") {
        with_nothing(arguments, Command::ReportUsage)
    } else {
        Err(Refusal::UnknownCommand)
    }
}

fn read_ping(arguments: LentWords<'_>) -> Result<Command<'_>, Refusal>
    ensures { reading_of result ≡ meant.reading_ping (words_in arguments.entry) }
{
    if arguments.is_empty() {
        return Ok(Command::Ping);
    }
    read_echo(arguments)
}

fn read_echo(arguments: LentWords<'_>) -> Result<Command<'_>, Refusal>
    ensures { reading_of result ≡ meant.of_text meant.Echo (words_in arguments.entry) }
{
    match arguments.only() {
        Some(text) => Ok(Command::Echo(text)),
        None => Err(Refusal::WrongArgumentCount),
    }
}

fn read_get(arguments: LentWords<'_>) -> Result<Command<'_>, Refusal>
    ensures { reading_of result ≡ meant.of_key meant.Get (words_in arguments.entry) }
{
    match arguments.only() {
        Some(key) => with_key(key, Command::Get(key)),
        None => Err(Refusal::WrongArgumentCount),
    }
}

fn read_get_many(arguments: LentWords<'_>) -> Result<Command<'_>, Refusal>
    ensures { reading_of result ≡ meant.of_keys meant.GetMany (words_in arguments.entry) }
{
    if arguments.is_empty() {
        return Err(Refusal::WrongArgumentCount);
    }
    with_keys(arguments, Command::GetMany(arguments))
}

fn read_exists(arguments: LentWords<'_>) -> Result<Command<'_>, Refusal>
    ensures { reading_of result ≡ meant.of_keys meant.Exists (words_in arguments.entry) }
{
    if arguments.is_empty() {
        return Err(Refusal::WrongArgumentCount);
    }
    with_keys(arguments, Command::Exists(arguments))
}

fn read_length(arguments: LentWords<'_>) -> Result<Command<'_>, Refusal>
    ensures { reading_of result ≡ meant.of_key meant.Length (words_in arguments.entry) }
{
    match arguments.only() {
        Some(key) => with_key(key, Command::Length(key)),
        None => Err(Refusal::WrongArgumentCount),
    }
}

fn read_range(arguments: LentWords<'_>) -> Result<Command<'_>, Refusal>
    ensures { reading_of result ≡ meant.reading_range (words_in arguments.entry) }
{
    let Some((from, to, count)) = arguments.three() else {
        return Err(Refusal::WrongArgumentCount);
    };
    match row_count(count) {
        Some(count) => with_ends(from, to, Command::Range(from, to, count)),
        None => Err(Refusal::NotAnInteger),
    }
}

/// The command, unless an end of its interval is too long.
pub(crate) fn with_ends<'a>(
    from: &[u8],
    to: &[u8],
    command: Command<'a>,
) -> Result<Command<'a>, Refusal>
    ensures { reading_of result
        ≡ meant.with_keys (from.now ∷ to.now ∷ []) (command_of command.entry) }
{
    if is_long_key(from) || is_long_key(to) {
        return Err(Refusal::KeyTooLong);
    }
    Ok(command)
}

/// How many rows at most: a number of 0 to 1,024.
pub(crate) fn row_count(text: &[u8]) -> Option<u32>
    ensures { result ≡ count_of (number_of text.now) }
{
    match number(text) {
        Some(count) if count >= 0 && count <= COUNT_LIMIT => Some(count as u32),
        _ => None,
    }
}

fn read_set(arguments: LentWords<'_>) -> Result<Command<'_>, Refusal>
    ensures { reading_of result ≡ meant.reading_set (words_in arguments.entry) }
{
    if let Some((key, value)) = arguments.two() {
        return set(key, value, Condition::Always);
    }
    let Some((key, value, option)) = arguments.three() else {
        return Err(Refusal::WrongArgumentCount);
    };
    match condition(option) {
        Some(condition) => set(key, value, condition),
        None => Err(Refusal::SyntaxError),
    }
}

fn set<'a>(key: &'a [u8], value: &'a [u8], condition: Condition) -> Result<Command<'a>, Refusal>
    ensures { reading_of result
        ≡ meant.with_keys (key.now ∷ [])
        (meant.Change key.now (meant.Set value.now (condition_of condition))) }
{
    let update = Update::Set(value, condition);
    with_key(key, Command::Change(key, update))
}

/// The third argument of a SET.
fn condition(option: &[u8]) -> Option<Condition>
    ensures { option_map condition_of result ≡ meant.condition_named option.now }
{
    if is_named(option, b"nx") {
        Some(Condition::IfMissing)
    } else if is_named(option, b"xx") {
        Some(Condition::IfThere)
    } else {
        None
    }
}

fn read_append(arguments: LentWords<'_>) -> Result<Command<'_>, Refusal>
    ensures { reading_of result ≡ meant.reading_append (words_in arguments.entry) }
{
    let Some((key, suffix)) = arguments.two() else {
        return Err(Refusal::WrongArgumentCount);
    };
    let update = Update::Append(suffix);
    with_key(key, Command::Change(key, update))
}

fn read_increment(arguments: LentWords<'_>) -> Result<Command<'_>, Refusal>
    ensures { reading_of result
        ≡ meant.of_key (λ key. meant.Change key (meant.Add (pos 1))) (words_in arguments.entry) }
{
    match arguments.only() {
        Some(key) => with_key(key, Command::Change(key, Update::Add(1))),
        None => Err(Refusal::WrongArgumentCount),
    }
}

fn read_decrement(arguments: LentWords<'_>) -> Result<Command<'_>, Refusal>
    ensures { reading_of result
        ≡ meant.of_key (λ key. meant.Change key (meant.Add (negsuc 0))) (words_in arguments.entry) }
{
    match arguments.only() {
        Some(key) => with_key(key, Command::Change(key, Update::Add(-1))),
        None => Err(Refusal::WrongArgumentCount),
    }
}

fn read_add(arguments: LentWords<'_>) -> Result<Command<'_>, Refusal>
    ensures { reading_of result ≡ meant.reading_add (words_in arguments.entry) }
{
    let Some((key, amount)) = arguments.two() else {
        return Err(Refusal::WrongArgumentCount);
    };
    match number(amount) {
        Some(amount) => with_key(key, Command::Change(key, Update::Add(amount))),
        None => Err(Refusal::NotAnInteger),
    }
}

fn read_del(arguments: LentWords<'_>) -> Result<Command<'_>, Refusal>
    ensures { reading_of result ≡ meant.reading_del (words_in arguments.entry) }
{
    if arguments.is_empty() {
        return Err(Refusal::WrongArgumentCount);
    }
    if arguments.len() > DELETED_LIMIT {
        return Err(Refusal::TooManyKeys);
    }
    with_keys(arguments, Command::Del(arguments))
}

/// The command, where there are no arguments.
pub(crate) fn with_nothing<'a>(
    arguments: LentWords<'_>,
    command: Command<'a>,
) -> Result<Command<'a>, Refusal>
    ensures { reading_of result
        ≡ meant.of_nothing (command_of command.entry) (words_in arguments.entry) }
{
    if arguments.is_empty() {
        Ok(command)
    } else {
        Err(Refusal::WrongArgumentCount)
    }
}

/// The command, unless its key is too long.
pub(crate) fn with_key<'a>(key: &[u8], command: Command<'a>) -> Result<Command<'a>, Refusal>
    ensures { reading_of result ≡ meant.with_keys (key.now ∷ []) (command_of command.entry) }
{
    if is_long_key(key) {
        return Err(Refusal::KeyTooLong);
    }
    Ok(command)
}

/// The command, unless one of its keys is too long.
fn with_keys<'a>(keys: LentWords<'_>, command: Command<'a>) -> Result<Command<'a>, Refusal>
    ensures { reading_of result
        ≡ meant.with_keys (words_in keys.entry) (command_of command.entry) }
{
    if has_long_key(keys) {
        return Err(Refusal::KeyTooLong);
    }
    Ok(command)
}

fn is_long_key(key: &[u8]) -> bool
    ensures { result ≡ meant.is_long_key key.now }
{
    key.len() > KEY_LIMIT
}

fn has_long_key(keys: LentWords<'_>) -> bool
    ensures { result ≡ list_any meant.is_long_key (words_in keys.entry) }
{
    let mut left = keys;
    while let Some((key, later)) = left.split_first() {
        if is_long_key(key) {
            return true;
        }
        left = later;
    }
    false
}
