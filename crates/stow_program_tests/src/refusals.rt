//! Why the program ends early: its statuses, and what it tells on standard error.
use crate::given::Given;
use crate::running::{ENTRY, HELLO, PIPE, SCRIPT, Shelf, run, run_over, wants};
use crate::table::{lines_of, rows_of};
use crate::taken::{Breaks, Taken};
use std::alloc::Global;
use std::net::{Net, TcpListener, TcpStream};
use std::process::Abort;
use std::sync::Wait;
use std::test::Fail;
use std::thread::Threads;
use stow_login::tenants_fault::TenantsFault;
use stow_run::failure::Failure;

const FAILED: &str = "stow: input or output failed\n";

/// Scripts that are none, and the number of the first bad line.
const BAD_LINES: &str = r"
open 0\n => 1
open 01\n => 1
open 65536\n => 1
open\n => 1
open \n => 1
open  1\n => 1
open 1 \n => 1
open +1\n => 1
plan 65\n => 1
resize 65537\n => 1
shape 1\n => 1
usage\n => 1
usage dora\n => 1
usage ann \n => 1
usage ann ben\n => 1
quota ann\n => 1
quota dora 1\n => 1
quota ann 01\n => 1
quota ann -1\n => 1
quota ann 9223372036854775808\n => 1
open 1\nquota ann 9223372036854775807\nquota ann 1 \n => 3
open 1\n\n# here\npiece 1\n => 4
piece 1 a\q\n => 1
piece 1 a\xe\n => 1
open 1\npiece 1 a\tb => 2
";

/// Wants a script to be refused at the line of this number.
fn is_bad_at<H>(rt: &H, script: &str, number: &str) -> Result<(), Fail>
where
    H: Abort
        + Alloc<A = Global>
        + Net<Listener = TcpListener, Stream = TcpStream>
        + Threads
        + Wait
        + Sync,
{
    let told = format!(in rt.alloc(); "stow: bad line {number}\n")?;
    let mut input = Given::all(script.as_bytes());
    wants(rt, SCRIPT, &mut input, 2, "", told.as_str())
}

#[test]
fn bad_lines_are_told_by_their_number(rt: HostRuntime) -> Result<(), Fail> {
    for row in &rows_of(rt.alloc(), BAD_LINES)? {
        is_bad_at(&rt, row.given.as_str(), row.told.as_str())?;
    }
    Ok(())
}

/// Command lines that ask for nothing: the parser tells why.
const BAD_WORDS: &str = r"

bogus
--bogus
--tenants three.toml
pipe
script
pipe --tenants
pipe three.toml
script --tenants three.toml --bogus
bogus --tenants empty.toml
serve
serve --tenants three.toml --workers 0
serve --tenants three.toml --workers 257
serve --tenants three.toml --clients 0
serve --tenants three.toml --clients 65536
serve --tenants three.toml --flushers 17
serve --tenants three.toml --connections 65536
serve --tenants three.toml --connections -1
check
check --tenants three.toml --buffer 131072
entry
entry dora
entry do/ra --quota 1
entry --quota 1
entry dora --quota -1
entry dora --quota 9223372036854775808
entry dora --quota 1 --salt 0
entry dora --quota 1 --salt xy
entry dora --quota 1 --tenants three.toml
entry dora --quota 1 --leaf 4096
";

/// Wants a text on one of the two outputs alone, and this status.
fn tells_its_own<H>(rt: &H, line: &str, status: u8, is_help: bool) -> Result<(), Fail>
where
    H: Abort
        + Alloc<A = Global>
        + Net<Listener = TcpListener, Stream = TcpStream>
        + Threads
        + Wait
        + Sync,
{
    let ended = run(rt, line, &mut Given::all(b""))?;
    let is_told = ended.output.is_empty() != is_help && ended.errors.is_empty() == is_help;
    assert!(rt; ended.status == status && is_told, "{line}");
    Ok(())
}

#[test]
fn the_parser_tells_its_own(rt: HostRuntime) -> Result<(), Fail> {
    for line in lines_of(BAD_WORDS) {
        tells_its_own(&rt, line, 2, false)?;
    }
    tells_its_own(&rt, "--version", 0, true)?;
    tells_its_own(&rt, "--help", 0, true)?;
    tells_its_own(&rt, "pipe --help", 0, true)
}

/// Command lines whose address or file is refused, with the status and what is told. The arguments are looked at first,
/// then the address, the tenant file and the input; nothing is told on standard output.
const REFUSED: &str = r"
pipe --tenants empty.toml => 3 tenant file refused: fault 7
script --tenants empty.toml => 3 tenant file refused: fault 7
pipe --tenants latin.toml => 3 tenant file refused: fault 1
script --tenants latin.toml => 3 tenant file refused: fault 1
pipe --tenants number.toml => 3 tenant file refused: fault 2
script --tenants number.toml => 3 tenant file refused: fault 2
pipe --tenants broken.toml => 4 input or output failed
script --tenants broken.toml => 4 input or output failed
pipe --tenants missing.toml => 4 input or output failed
script --tenants missing.toml => 4 input or output failed
serve --tenants three.toml --listen nonsense => 2 bad address
serve --tenants missing.toml --listen 127.0.0.1 => 2 bad address
serve --tenants three.toml --listen localhost:0 => 2 bad address
serve --tenants empty.toml => 3 tenant file refused: fault 7
serve --tenants missing.toml => 4 input or output failed
check --tenants empty.toml => 3 tenant file refused: fault 7
check --tenants latin.toml => 3 tenant file refused: fault 1
check --tenants number.toml => 3 tenant file refused: fault 2
check --tenants broken.toml => 4 input or output failed
check --tenants missing.toml => 4 input or output failed
";

/// The status at the front of a text, and what stands behind it.
fn status_of(told: &str) -> Option<(u8, &str)> {
    let (status, text) = told.split_once(" ")?;
    Some((status.parse().ok()?, text))
}

/// Wants a command line to end with the status that a text begins with, and to tell what stands behind it.
fn ends_with<H>(rt: &H, line: &str, told: &str) -> Result<(), Fail>
where
    H: Abort
        + Alloc<A = Global>
        + Net<Listener = TcpListener, Stream = TcpStream>
        + Threads
        + Wait
        + Sync,
{
    let (status, text) = status_of(told).unwrap_or((0, ""));
    let told = format!(in rt.alloc(); "stow: {text}\n")?;
    wants(
        rt,
        line,
        &mut Given::all(b"shape\n"),
        status,
        "",
        told.as_str(),
    )
}

#[test]
fn the_status_tells_why_it_ended(rt: HostRuntime) -> Result<(), Fail> {
    for row in &rows_of(rt.alloc(), REFUSED)? {
        ends_with(&rt, row.given.as_str(), row.told.as_str())?;
    }
    Ok(())
}

/// Command lines with an input, a status, what is told first, and then, where that is asked for, in a second line.
const EXPLAINED: &str = r#"
pipe --tenants missing.toml =>  => 4 input or output failed => missing.toml: entity not found
pipe --tenants broken.toml =>  => 4 input or output failed => broken.toml: other error
check --tenants missing.toml =>  => 4 input or output failed => missing.toml: entity not found
check --tenants number.toml =>  => 3 tenant file refused: fault 2 => a key is missing, unknown or of another type
pipe --tenants empty.toml =>  => 3 tenant file refused: fault 7 => a file has 1 to 65,535 tenants
pipe --tenants latin.toml =>  => 3 tenant file refused: fault 1 => the file is no UTF-8 text
script --tenants three.toml => open 1\nopne 1\n => 2 bad line 2 => it stumbles on "opne"
script --tenants three.toml => open => 2 bad line 1 => it stumbles on "open"
script --tenants three.toml => # 1\n\nserve 65536 => 2 bad line 3 => it stumbles on "65536"
script --tenants three.toml => resize 065536 => 2 bad line 1 => it stumbles on "065536"
script --tenants three.toml => piece 1 => 2 bad line 1 => it stumbles on "1"
script --tenants three.toml => piece 0 a => 2 bad line 1 => it stumbles on "0"
script --tenants three.toml => piece 1 PING\x0g* => 2 bad line 1 => it stumbles on "\\x0g*"
script --tenants three.toml => 0123456789012345678901234567890123456789  => 2 bad line 1 => it stumbles on "0123456789012345678901234567890123456789"
script --tenants three.toml => 0123456789012345678901234567890123456789x  => 2 bad line 1 => it stumbles on "0123456789012345678901234567890123456789..."
"#;

/// Wants a command line over an input to tell the first text, and the second in a line of its own where that is asked for.
fn explains<H>(rt: &H, line: &str, input: &str, status: u8, told: (&str, &str)) -> Result<(), Fail>
where
    H: Abort
        + Alloc<A = Global>
        + Net<Listener = TcpListener, Stream = TcpStream>
        + Threads
        + Wait
        + Sync,
{
    let (first, second) = told;
    let once = format!(in rt.alloc(); "stow: {first}\n")?;
    let mut given = Given::all(input.as_bytes());
    wants(rt, line, &mut given, status, "", once.as_str())?;
    let asked = format!(in rt.alloc(); "{line} --explain")?;
    let twice = format!(in rt.alloc(); "stow: {first}\nstow: {second}\n")?;
    let mut given = Given::all(input.as_bytes());
    wants(rt, asked.as_str(), &mut given, status, "", twice.as_str())
}

/// A command line's end, as a table's row tells it: an input, a status, and two texts.
fn end_of(told: &str) -> Option<(&str, u8, (&str, &str))> {
    let (input, told) = told.split_once(" => ")?;
    let (end, second) = told.split_once(" => ")?;
    let (status, first) = status_of(end)?;
    Some((input, status, (first, second)))
}

#[test]
fn what_went_wrong_is_explained(rt: HostRuntime) -> Result<(), Fail> {
    for row in &rows_of(rt.alloc(), EXPLAINED)? {
        let end = end_of(row.told.as_str());
        let (input, status, told) = end.unwrap_or(("", 0, ("", "")));
        explains(&rt, row.given.as_str(), input, status, told)?;
    }
    Ok(())
}

// Standard input that fails, with and without an explanation.
#[test]
fn a_reader_that_fails_is_told(rt: HostRuntime) -> Result<(), Fail> {
    let explained = "stow: input or output failed\nstow: standard input: other error\n";
    wants(&rt, PIPE, &mut Given::broken(), 4, "", FAILED)?;
    wants(&rt, SCRIPT, &mut Given::broken(), 4, "", FAILED)?;
    wants(&rt, ENTRY, &mut Given::broken(), 4, "", FAILED)?;
    let line = "pipe --explain --tenants three.toml";
    wants(&rt, line, &mut Given::broken(), 4, "", explained)
}

/// Wants a writer that fails to be told so.
fn tells_of_a_writer<H>(rt: &H, line: &str, input: &[u8], told: &str) -> Result<(), Fail>
where
    H: Abort
        + Alloc<A = Global>
        + Net<Listener = TcpListener, Stream = TcpStream>
        + Threads
        + Wait
        + Sync,
{
    let (mut input, mut errors) = (Given::all(input), Vec::new(rt.alloc()));
    let mut output = Taken::new(rt.alloc(), Breaks::AtWrite);
    let shelf = Shelf { own: b"" };
    let status = run_over(rt, &shelf, line, &mut input, &mut output, &mut errors)?;
    let is_told = errors.as_slice() == told.as_bytes();
    assert!(rt; status == 4 && is_told, "{line}");
    Ok(())
}

// Standard output that fails, of a task and of a help.
#[test]
fn a_writer_that_fails_is_told(rt: HostRuntime) -> Result<(), Fail> {
    tells_of_a_writer(&rt, PIPE, HELLO, FAILED)?;
    tells_of_a_writer(&rt, "--help", HELLO, FAILED)?;
    tells_of_a_writer(&rt, ENTRY, b"word", FAILED)?;
    tells_of_a_writer(&rt, "check --tenants three.toml", b"", FAILED)?;
    let line = "script --tenants three.toml --explain";
    let told = "stow: input or output failed\nstow: standard output: other error\n";
    tells_of_a_writer(&rt, line, b"open 1\n", told)
}

// A tenant file that couldn't be read for want of memory is told as any want of memory.
#[test]
fn a_tenant_file_can_want_memory(rt: HostRuntime) {
    let none = Failure::tenants(TenantsFault::OutOfMemory, None);
    assert!(rt; matches!(none, Failure::Memory));
    let used = Failure::tenants(TenantsFault::NameUsed, None);
    assert!(rt; matches!(used, Failure::Tenants(TenantsFault::NameUsed, None)));
}
