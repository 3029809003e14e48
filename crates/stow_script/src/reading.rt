//! A script's lines, read.
ghost use Rattle.std.specs.Prelude.{◌≡◌, ◌≢◌, List, MatchBool, codes};
ghost use Rattle.stow_commands.specs.StowModel.Login.{Entry};
ghost use Rattle.stow_script.specs.Read.{IsCut, IsEventRead, IsIndexRead, IsLineRead, IsNameRead};

use crate::number::{number, quota};
use crate::script_line::ScriptLine;
use crate::text::{TextFault, unescape};
use std::alloc::Allocator;
use stow_commands::stow_bytes::limits::CACHE_LIMIT;
use stow_commands::stow_model::event::Event;
use stow_login::tenants::Tenants;

/// The greatest number of a connection in a script.
const CONNECTIONS: u32 = 65_535;
/// The greatest number of a flusher in a script.
const FLUSHERS: u32 = 64;

/// What a line asks for, of a service of these tenants; nothing for an empty line and a comment.
pub fn read_line<'a, A: Allocator + Copy>(
    alloc: A,
    tenants: &Tenants<A>,
    line: &'a [u8],
) -> Result<Option<ScriptLine<A>>, TextFault<'a>>
    ensures { IsLineRead tenants.now line.now result }
{
    if line.is_empty() || line[0] == b'#' {
        return Ok(None);
    }
    if is_same(line, b"shape") {
        return Ok(Some(ScriptLine::Shape));
    }
    let (word, rest) = cut(line, b' ');
    let Some(rest) = rest else {
        return Err(TextFault::Malformed(word));
    };
    if is_same(word, b"usage") {
        return Ok(Some(ScriptLine::Usage(read_name(tenants, rest)?)));
    }
    let event = read_event(alloc, tenants, word, rest)?;
    Ok(Some(ScriptLine::Event(event)))
}

/// The event of a line's first word and what stands behind it.
fn read_event<'a, A: Allocator + Copy>(
    alloc: A,
    tenants: &Tenants<A>,
    word: &'a [u8],
    rest: &'a [u8],
) -> Result<Event<A>, TextFault<'a>>
    ensures { IsEventRead tenants.now word.now rest.now result }
{
    if is_same(word, b"open") {
        Ok(Event::Open(number(rest, 1, CONNECTIONS)?))
    } else if is_same(word, b"piece") {
        read_piece(alloc, rest)
    } else if is_same(word, b"serve") {
        Ok(Event::Serve(number(rest, 1, CONNECTIONS)?))
    } else if is_same(word, b"close") {
        Ok(Event::Close(number(rest, 1, CONNECTIONS)?))
    } else if is_same(word, b"plan") {
        Ok(Event::Plan(number(rest, 1, FLUSHERS)?))
    } else if is_same(word, b"merge") {
        Ok(Event::Merge(number(rest, 1, FLUSHERS)?))
    } else if is_same(word, b"install") {
        Ok(Event::Install(number(rest, 1, FLUSHERS)?))
    } else if is_same(word, b"resize") {
        Ok(Event::Resize(number(rest, 0, CACHE_LIMIT)? as usize))
    } else if is_same(word, b"quota") {
        read_quota(tenants, rest)
    } else {
        Err(TextFault::Malformed(word))
    }
}

/// The quota for a tenant whose name and number these are.
fn read_quota<'a, A: Allocator + Copy>(
    tenants: &Tenants<A>,
    rest: &'a [u8],
) -> Result<Event<A>, TextFault<'a>>
    ensures { IsEventRead tenants.now (codes "quota") rest.now result }
{
    let (name, number_text) = cut(rest, b' ');
    let Some(number_text) = number_text else {
        return Err(TextFault::Malformed(name));
    };
    let tenant = index_of(tenants, name)?;
    Ok(Event::Quota(tenant, quota(number_text)?))
}

/// The tenant whose name this is.
fn read_name<'a, A: Allocator + Copy>(
    tenants: &Tenants<A>,
    text: &'a [u8],
) -> Result<u32, TextFault<'a>>
    ensures { IsNameRead tenants.now text.now result }
{
    match cut(text, b' ') {
        (name, None) => index_of(tenants, name),
        (_, Some(_)) => Err(TextFault::Malformed(text)),
    }
}

/// The index of the tenant of this name.
fn index_of<'a, A: Allocator + Copy>(
    tenants: &Tenants<A>,
    name: &'a [u8],
) -> Result<u32, TextFault<'a>>
    ensures { IsIndexRead tenants.now name.now result }
{
    match tenants.find(name) {
        Some(tenant) => Ok(tenant),
        None => Err(TextFault::Malformed(name)),
    }
}

/// The piece of a stream whose connection and text these are.
fn read_piece<A: Allocator + Copy>(alloc: A, rest: &[u8]) -> Result<Event<A>, TextFault<'_>>
    ensures { (entries : List Entry) → IsEventRead entries (codes "piece") rest.now result }
{
    let (number_text, text) = cut(rest, b' ');
    let Some(text) = text else {
        return Err(TextFault::Malformed(number_text));
    };
    let connection = number(number_text, 1, CONNECTIONS)?;
    Ok(Event::Piece(connection, unescape(alloc, text)?))
}

/// Whether the word is this one.
fn is_same(word: &[u8], name: &[u8]) -> bool
    ensures { MatchBool result (word.now ≡ name.now) (word.now ≢ name.now) }
{
    word == name
}

/// The bytes up to the first one of this value, and those after it, if there is one.
pub fn cut(bytes: &[u8], at: u8) -> (&[u8], Option<&[u8]>)
    ensures { IsCut at bytes.now result.0.now result.1 }
{
    match bytes.iter().position(|byte| *byte == at) {
        Some(place) => (&bytes[..place], Some(&bytes[place + 1..])),
        None => (bytes, None),
    }
}
