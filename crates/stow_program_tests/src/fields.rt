//! The fields of a script's lines: what is let in, and what is not.
use crate::given::Given;
use crate::running::{SCRIPT, run};
use crate::table::rows_of;
use std::alloc::Global;
use std::net::{Net, TcpListener, TcpStream};
use std::process::Abort;
use std::sync::Wait;
use std::test::Fail;
use std::thread::Threads;

/// Wants a script to be let in, or else refused.
fn lets_in<H>(rt: &H, script: &[u8], is_let_in: bool) -> Result<(), Fail>
where
    H: Abort
        + Alloc<A = Global>
        + Net<Listener = TcpListener, Stream = TcpStream>
        + Threads
        + Wait
        + Sync,
{
    let status = if is_let_in { 0 } else { 2 };
    let ended = run(rt, SCRIPT, &mut Given::all(script))?;
    assert!(rt; ended.status == status, "{script:?}");
    Ok(())
}

/// What is no number of any line: a number has no sign, no zero in front and nothing beside it.
const NO_NUMBERS: [&str; 19] = [
    "",
    " ",
    "01",
    "00",
    "+1",
    "-1",
    "1 ",
    " 1",
    "1\r",
    "1\t",
    "\t1",
    "1a",
    "a",
    "0x1",
    "1.0",
    "1_0",
    "4294967297",
    "18446744073709551617",
    "\u{663}",
];

/// Scripts of a number, with the statuses that they end with: each kind of number has its two ends.
const NUMBERS: &str = "
open 0 => 2
open 1 => 0
open 65535 => 0
open 65536 => 2
serve 0 => 2
serve 1 => 0
serve 65535 => 0
serve 65536 => 2
close 0 => 2
close 1 => 0
close 65535 => 0
close 65536 => 2
plan 0 => 2
plan 1 => 0
plan 64 => 0
plan 65 => 2
merge 0 => 2
merge 1 => 0
merge 64 => 0
merge 65 => 2
install 0 => 2
install 1 => 0
install 64 => 0
install 65 => 2
resize 0 => 0
resize 65536 => 0
resize 65537 => 2
";

const WORDS: [&str; 7] = [
    "open", "serve", "close", "plan", "merge", "install", "resize",
];

/// Wants each script of a table to end with its status.
fn ends_each<H>(rt: &H, table: &str) -> Result<(), Fail>
where
    H: Abort
        + Alloc<A = Global>
        + Net<Listener = TcpListener, Stream = TcpStream>
        + Threads
        + Wait
        + Sync,
{
    for row in &rows_of(rt.alloc(), table)? {
        lets_in(rt, row.given.as_bytes(), row.told.as_str() == "0")?;
    }
    Ok(())
}

/// Wants no line of this word to be let in with what is no number.
fn takes_a_number<H>(rt: &H, word: &str) -> Result<(), Fail>
where
    H: Abort
        + Alloc<A = Global>
        + Net<Listener = TcpListener, Stream = TcpStream>
        + Threads
        + Wait
        + Sync,
{
    for bad in &NO_NUMBERS {
        let line = format!(in rt.alloc(); "{word} {bad}")?;
        lets_in(rt, line.as_bytes(), false)?;
    }
    Ok(())
}

#[test]
fn numbers_of_lines(rt: HostRuntime) -> Result<(), Fail> {
    ends_each(&rt, NUMBERS)?;
    for word in &WORDS {
        takes_a_number(&rt, word)?;
    }
    Ok(())
}

// The printing characters and the four escapes are let in; nothing else is.
#[test]
fn texts_of_lines(rt: HostRuntime) -> Result<(), Fail> {
    for byte in 0..=255u8 {
        let is_printing = (b' '..=b'~').contains(&byte) && byte != b'\\';
        let mut line = *b"piece 1 x";
        line[8] = byte;
        lets_in(&rt, &line, is_printing || byte == b'\n')?;
        let mut line = *b"piece 1 \\x";
        line[9] = byte;
        lets_in(&rt, &line, matches!(byte, b'r' | b'n' | b'\\'))?;
    }
    Ok(())
}

/// Scripts with the statuses that they end with: a line's first word is one of eight, as it is written here; comments and
/// empty lines are skipped.
const LINES: &str = r"
 => 0
\n\n => 0
# => 0
# open 0\n#open 0\n => 0
Open 1 => 2
open1 => 2
 open 1 => 2
\topen 1 => 2
open\t1 => 2
open 1\r\n => 2
\r\n => 2
  => 2
opens 1 => 2
ope 1 => 2
open 1 1 => 2
plan 1 # late => 2
piece 1  => 0
piece 1 => 2
piece 1 \x41 => 0
piece 1 \xfF => 0
piece 1 \X41 => 2
piece 1 \x4 => 2
piece 1 \x4g => 2
piece 1 \xg4 => 2
piece 1  two spaces => 0
piece 0 a => 2
piece 65536 a => 2
";

#[test]
fn words_of_lines(rt: HostRuntime) -> Result<(), Fail> {
    ends_each(&rt, LINES)
}
