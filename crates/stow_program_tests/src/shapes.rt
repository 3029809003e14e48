//! The tree's sizes by options and by a script's lines: what is answered is the same in each.
use crate::given::Given;
use crate::running::{SCRIPT, answers_scripts, run};
use crate::table::rows_of;
use std::alloc::{AllocError, Allocator, Global};
use std::net::{Net, TcpListener, TcpStream};
use std::process::Abort;
use std::sync::Wait;
use std::test::Fail;
use std::thread::Threads;
use stow_testing::many::{Exchange, login, reads, writes};

/// A script, and what its lines are to be told, those aside that tell the tree's sizes.
#[derive(Drop)]
struct Talk<A: Allocator> {
    alloc: A,
    script: String<A>,
    told: String<A>,
}

impl<A: Allocator + Copy> Talk<A> {
    fn line(&mut self, line: &str, told: &str) -> Result<(), AllocError> {
        self.script.push_str(line)?;
        self.script.push_str("\n")?;
        self.told.push_str(told)
    }

    /// One more request and its reply, as a script's text has them.
    fn ask(&mut self, exchange: &Exchange<A>) -> Result<(), AllocError> {
        self.script.push_str("piece 1 ")?;
        push_text(self.alloc, exchange.asked.as_slice(), &mut self.script)?;
        self.script.push_str("\nserve 1\n")?;
        self.told.push_str("taken\nreply ")?;
        push_text(self.alloc, exchange.told.as_slice(), &mut self.told)?;
        self.told.push_str("\n")
    }

    fn ask_all(&mut self, exchanges: &[Exchange<A>]) -> Result<(), AllocError> {
        for exchange in exchanges {
            self.ask(exchange)?;
        }
        self.line("shape", "")
    }

    /// The rows are read with each size of the cache: that of the options, 0, 1 and 1000.
    fn read_again(&mut self) -> Result<(), AllocError> {
        let reads = reads(self.alloc)?;
        self.ask_all(reads.as_slice())?;
        for line in ["resize 0", "resize 1", "resize 1000"] {
            self.line(line, "resized\n")?;
            self.ask_all(reads.as_slice())?;
        }
        Ok(())
    }
}

/// Adds bytes as a script's text has them.
fn push_text<A: Allocator + Copy>(
    alloc: A,
    bytes: &[u8],
    text: &mut String<A>,
) -> Result<(), AllocError> {
    let bytes = String::from_utf8_lossy(alloc, bytes)?;
    let bytes = bytes.replace(alloc, "\r\n", "\\r\\n")?;
    text.push_str(bytes.as_str())
}

/// Rows that are written, and then read again.
fn rows_read_again<A: Allocator + Copy>(alloc: A) -> Result<Talk<A>, AllocError> {
    let mut talk = Talk {
        alloc,
        script: String::from_str(alloc, "open 1\n")?,
        told: String::from_str(alloc, "open\n")?,
    };
    talk.ask(&login(alloc)?)?;
    talk.ask_all(writes(alloc)?.as_slice())?;
    talk.read_again()?;
    Ok(talk)
}

/// The counts of leaves, messages in buffers and held leaves that a line tells, if it tells them.
fn sizes_of(line: &str) -> Option<[u64; 3]> {
    let (_, line) = line.split_once(" leaves ")?;
    let (leaves, line) = line.split_once(" buffered ")?;
    let (buffered, cached) = line.split_once(" cached ")?;
    Some([
        leaves.parse().ok()?,
        buffered.parse().ok()?,
        cached.parse().ok()?,
    ])
}

/// The sizes that lines tell, and the other lines.
fn parted<A: Allocator + Copy>(
    alloc: A,
    told: &str,
) -> Result<(Vec<[u64; 3], A>, String<A>), AllocError> {
    let mut sizes = Vec::new(alloc);
    let mut others = String::new(alloc);
    for line in told.lines() {
        match sizes_of(line) {
            Some(told) => sizes.push(told)?,
            None => {
                others.push_str(line)?;
                others.push_str("\n")?;
            }
        }
    }
    Ok((sizes, others))
}

/// The sizes that are told where the options are these; wants all else to be told as it is to be.
fn told_with<H>(rt: &H, options: &str, talk: &Talk<Global>) -> Result<Vec<[u64; 3]>, Fail>
where
    H: Abort
        + Alloc<A = Global>
        + Net<Listener = TcpListener, Stream = TcpStream>
        + Threads
        + Wait
        + Sync,
{
    let line = format!(in rt.alloc(); "script --tenants ample.toml {options}")?;
    let ended = run(rt, line.as_str(), &mut Given::all(talk.script.as_bytes()))?;
    let (sizes, others) = parted(rt.alloc(), ended.output.as_str())?;
    let is_told = ended.status == 0 && others.as_str() == talk.told.as_str();
    assert!(rt; is_told, "{options}");
    Ok(sizes)
}

/// Whether the rows take more than a leaf and wait in a node, and a cache of so many leaves, and then of 0, 1 and 1000,
/// holds those that a RANGE of all rows offered, which is each one.
fn are_held(told: &[[u64; 3]], cache: u64) -> bool {
    match told {
        [written, first, second, third, fourth] => {
            written[0] >= 2
                && written[1] >= 1
                && first[2] == first[0].min(cache)
                && second[2] == 0
                && third[2] == third[0].min(1)
                && fourth[2] == fourth[0].min(1000)
        }
        _ => false,
    }
}

/// Wants the rows to be read again in a tree of so many children, over a cache of so many leaves.
fn reads_again<H>(rt: &H, talk: &Talk<Global>, fan_out: u32, cache: u64) -> Result<(), Fail>
where
    H: Abort
        + Alloc<A = Global>
        + Net<Listener = TcpListener, Stream = TcpStream>
        + Threads
        + Wait
        + Sync,
{
    let options = format!(in rt.alloc();
        "--buffer 2097152 --leaf 4096 --fanout {fan_out} --cache {cache}"
    )?;
    let told = told_with(rt, options.as_str(), talk)?;
    assert!(rt; are_held(told.as_slice(), cache), "{options}");
    Ok(())
}

#[test]
fn rows_are_read_in_each_shape(rt: HostRuntime) -> Result<(), Fail> {
    let talk = rows_read_again(rt.alloc())?;
    reads_again(&rt, &talk, 4, 1)?;
    reads_again(&rt, &talk, 256, 1000)?;
    told_with(&rt, "--buffer 4194304", &talk)?;
    Ok(())
}

/// A removal stays in the tree as one more message.
const REMOVED: &str = r"open 1
piece 1 AUTH ann bc\n
serve 1
shape
piece 1 SET k v\nDEL k\n
serve 1
serve 1
shape
----
open
taken
reply +OK\r\n
height 1 leaves 1 buffered 0 cached 0
taken
reply +OK\r\n
reply :1\r\n
height 1 leaves 1 buffered 2 cached 0
";

#[test]
fn a_script_tells_the_shape(rt: HostRuntime) -> Result<(), Fail> {
    let line = "script --tenants three.toml --cache 0";
    answers_scripts(&rt, line, REMOVED)
}

/// An APPEND takes as much of a node as its suffix, not as the value that it leads to.
const APPENDED: &str = r"open 1
piece 1 AUTH ann bc\n
serve 1
piece 1 SET k {0..60000|v}\n
serve 1
{60001..60101|piece 1 APPEND k x\n
serve 1
}shape
----
open
taken
reply +OK\r\n
taken
reply +OK\r\n
{60001..60101|taken
reply :%\r\n
}height 1 leaves 1 buffered 101 cached 0
";

#[test]
fn appends_take_the_room_of_their_suffix(rt: HostRuntime) -> Result<(), Fail> {
    let line = "script --tenants three.toml --buffer 2097152 --cache 0";
    answers_scripts(&rt, line, APPENDED)
}

/// Options with the statuses that a run ends with: each has two ends.
const SIZES: &str = "
buffer 2097152 => 0
buffer 131072 => 2
buffer 4194304 => 0
buffer 2097151 => 2
buffer 4194305 => 2
leaf 4096 => 0
leaf 1048576 => 0
leaf 4095 => 2
leaf 1048577 => 2
fanout 4 => 0
fanout 256 => 0
fanout 3 => 2
fanout 257 => 2
cache 0 => 0
cache 65536 => 0
cache -1 => 2
cache 65537 => 2
";

/// Wants a run with this option to end with status 0, or else 2, and to tell nothing.
fn takes_option<H>(rt: &H, option: &str, is_taken: bool) -> Result<(), Fail>
where
    H: Abort
        + Alloc<A = Global>
        + Net<Listener = TcpListener, Stream = TcpStream>
        + Threads
        + Wait
        + Sync,
{
    let line = format!(in rt.alloc(); "pipe --tenants three.toml --{option}")?;
    let ended = run(rt, line.as_str(), &mut Given::all(b""))?;
    let status = if is_taken { 0 } else { 2 };
    assert!(rt; ended.status == status && ended.output.is_empty(), "{line}");
    Ok(())
}

#[test]
fn sizes_have_limits(rt: HostRuntime) -> Result<(), Fail> {
    for row in &rows_of(rt.alloc(), SIZES)? {
        takes_option(&rt, row.given.as_str(), row.told.as_str() == "0")?;
    }
    Ok(())
}
