//! Readers and writers that are slow, interrupted, full or broken, and memory that is refused.
use crate::given::Given;
use crate::running::{
    HELLO, HELLO_REPLIES, PIPE, SCRIPT, Shelf, answers_each, ends_well, run, run_over, wants,
};
use crate::table::spread;
use crate::taken::{Breaks, Taken};
use std::alloc::{AllocError, Allocator, Global};
use std::cell::Cell;
use std::io;
use std::io::{Read, Write};
use std::net::{Net, TcpListener, TcpStream};
use std::process::Abort;
use std::sync::Wait;
use std::test::Fail;
use std::thread::Threads;
use stow_login::tenants::Tenants;
use stow_refusing::{Plan, Refusing};
use stow_run::job::Task;
use stow_testing::tenants::THREE;

#[test]
fn bytes_may_come_and_go_one_by_one(rt: HostRuntime) -> Result<(), Fail> {
    let alloc = rt.alloc();
    for (room, status) in [(1_000, 0), (HELLO_REPLIES.len(), 0), (7, 4), (0, 4)] {
        let mut input = Given::slow(HELLO, false);
        let mut output = Taken::narrow(alloc, room);
        let mut errors = Vec::new(alloc);
        let shelf = Shelf { own: b"" };
        let ended = run_over(&rt, &shelf, PIPE, &mut input, &mut output, &mut errors)?;
        let written = &HELLO_REPLIES[..HELLO_REPLIES.len().min(room)];
        let is_written = output.bytes.as_slice() == written;
        assert!(rt; ended == status && is_written, "room {room}");
    }
    Ok(())
}

/// Wants a slow reader that breaks at its end to end a run with this status, when so much is told.
fn ends_slowly<H>(rt: &H, input: &str, status: u8, told: &str) -> Result<(), Fail>
where
    H: Abort
        + Alloc<A = Global>
        + Net<Listener = TcpListener, Stream = TcpStream>
        + Threads
        + Wait
        + Sync,
{
    let mut input = Given::slow(input.as_bytes(), true);
    let ended = run(rt, PIPE, &mut input)?;
    let is_told = ended.output.as_str() == told;
    assert!(rt; ended.status == status && is_told, "{told}");
    Ok(())
}

// After a QUIT and after a fault nothing more is read: a reader that would break there doesn't.
#[test]
fn a_reader_may_break_after_the_end(rt: HostRuntime) -> Result<(), Fail> {
    let told = "-NOAUTH Authentication required.\r\n+OK\r\n";
    ends_slowly(&rt, "PING\nQUIT\n", 0, told)?;
    let fault = "-ERR Protocol error: invalid multibulk length\r\n";
    ends_slowly(&rt, "*x", 0, fault)?;
    ends_slowly(&rt, "QUIT", 4, "")
}

/// Gives a request a call, and counts the calls at which the replies of all requests before it were not yet written.
#[derive(Drop)]
struct Waiting<'a> {
    given: usize,
    late: usize,
    written: &'a Cell<usize>,
}

/// Counts the bytes that are written.
#[derive(Drop)]
struct Counting<'a> {
    written: &'a Cell<usize>,
}

const REQUEST: &[u8] = b"*1\r\n$4\r\nPING\r\n";

const REFUSED: &[u8] = b"-NOAUTH Authentication required.\r\n";

impl Read for Waiting<'_> {
    fn read(&mut self, buf: &mut [u8]) -> io::Result<usize> {
        if self.written.get() != self.given.saturating_mul(REFUSED.len()) {
            self.late = self.late.saturating_add(1);
        }
        if self.given >= 100 || buf.len() < REQUEST.len() {
            return Ok(0);
        }
        self.given = self.given.saturating_add(1);
        buf[..REQUEST.len()].copy_from_slice(REQUEST);
        Ok(REQUEST.len())
    }
}

impl Write for Counting<'_> {
    fn write(&mut self, buf: &[u8]) -> io::Result<usize> {
        let written = self.written.get().saturating_add(buf.len());
        self.written.set(written);
        Ok(buf.len())
    }

    fn flush(&mut self) -> io::Result<()> {
        Ok(())
    }
}

// The replies of a piece are written before the next piece is read.
#[test]
fn replies_do_not_wait(rt: HostRuntime) -> Result<(), Fail> {
    let alloc = rt.alloc();
    let written = Cell::new(0);
    let mut input = Waiting {
        given: 0,
        late: 0,
        written: &written,
    };
    let mut output = Counting { written: &written };
    let tenants = Tenants::read(alloc, alloc, THREE).map_err(|_| AllocError)?;
    let is_well = ends_well(alloc, tenants, Task::Pipe, &mut input, &mut output);
    let (given, late) = (input.given, input.late);
    assert!(rt; is_well && given == 100 && late == 0, "{given} {late}");
    Ok(())
}

const BLANKS: &str = "
{0..4096|\\n}QUIT\\n => +OK\\r\\n
";

#[test]
fn pieces_may_be_small_and_blank(rt: HostRuntime) -> Result<(), Fail> {
    let input = spread(
        rt.alloc(),
        "AUTH ann bc\n*2\r\n$4\r\nECHO\r\n$65535\r\n^\r\n",
    )?;
    let told = spread(rt.alloc(), "+OK\r\n$65535\r\n^\r\n")?;
    let mut pieces = Given::pieces(input.as_bytes(), 1, 1);
    wants(&rt, PIPE, &mut pieces, 0, told.as_str(), "")?;
    answers_each(&rt, BLANKS)
}

/// What a task tells where one request for memory is refused, and whether it ends well, or nothing where it asks for
/// fewer.
fn told_at<B: Allocator>(
    heap: &Refusing<B>,
    global: Global,
    task: Task,
    mut input: &[u8],
    at: u64,
) -> Result<Option<(Vec<u8>, bool)>, AllocError> {
    heap.set(Plan::Grant);
    let tenants = Tenants::read(heap, global, THREE).map_err(|_| AllocError)?;
    let mut output = Vec::new(global);
    heap.set(Plan::RefuseAt(at));
    let is_well = ends_well(heap, tenants, task, &mut input, &mut output);
    let asked = heap.asked();
    heap.set(Plan::Grant);
    Ok((asked > at || !is_well).then_some((output, is_well)))
}

/// Whether the output is one of these texts, or a beginning of one where the task didn't end well.
fn is_one_of(output: &[u8], is_well: bool, texts: &[&str]) -> bool {
    for text in texts {
        let text = text.as_bytes();
        if text == output || !is_well && text.starts_with(output) {
            return true;
        }
    }
    false
}

// One request for memory after another is refused: what is told is a beginning of what may be told then, and all of
// it where the task ends well.
#[test]
fn each_task_withstands_each_refusal(rt: HostRuntime) -> Result<(), Fail> {
    let heap = Refusing::new(rt.alloc());
    let pipe: [&str; 3] = [
        "+OK\r\n+OK\r\n$2\r\nv1\r\n",
        "+OK\r\n-OOM memory was refused\r\n$-1\r\n",
        "+OK\r\n+OK\r\n-OOM memory was refused\r\n",
    ];
    let script: [&str; 4] = [
        "open\nopen\nnone\nclosed\n",
        "open\nopen\nmemory\nclosed\n",
        "memory\nopen\nnone\nclosed\n",
        "open\nmemory\nnone\nrefused\n",
    ];
    let lines: &[u8] = b"open 1\nopen 2\nplan 1\nclose 2\n";
    for (task, input, told, least) in [
        (Task::Pipe, HELLO, pipe.as_slice(), 8),
        (Task::Script, lines, script.as_slice(), 5),
    ] {
        let mut refusals = 0u64;
        for at in 0..200u64 {
            let Some((output, is_well)) = told_at(&heap, rt.alloc(), task, input, at)? else {
                break;
            };
            let is_told = is_one_of(output.as_slice(), is_well, told);
            assert!(rt; is_told, "request {at}");
            refusals = at + 1;
        }
        assert!(rt; refusals >= least && refusals < 200, "{refusals} refusals");
    }
    Ok(())
}

/// Wants a run to end with this status when so many bytes are flushed, over a writer whose flush may fail.
fn flushes<H>(rt: &H, line: &str, input: &[u8], breaks: Breaks, flushed: usize) -> Result<(), Fail>
where
    H: Abort
        + Alloc<A = Global>
        + Net<Listener = TcpListener, Stream = TcpStream>
        + Threads
        + Wait
        + Sync,
{
    let (mut input, mut errors) = (Given::all(input), Vec::new(rt.alloc()));
    let mut output = Taken::new(rt.alloc(), breaks);
    let shelf = Shelf { own: b"" };
    let status = run_over(rt, &shelf, line, &mut input, &mut output, &mut errors)?;
    let wanted = if breaks == Breaks::Never { 0 } else { 4 };
    assert!(rt; status == wanted && output.flushed == flushed, "{line}");
    Ok(())
}

// All of it is flushed where it ends well, and a flush that fails is told.
#[test]
fn what_is_told_is_flushed(rt: HostRuntime) -> Result<(), Fail> {
    let fault = "-ERR Protocol error: invalid multibulk length\r\n";
    flushes(&rt, PIPE, HELLO, Breaks::Never, HELLO_REPLIES.len())?;
    flushes(&rt, PIPE, b"QUIT\n", Breaks::Never, 5)?;
    flushes(&rt, PIPE, b"*x", Breaks::Never, fault.len())?;
    flushes(&rt, SCRIPT, b"open 1\n", Breaks::Never, 5)?;
    flushes(&rt, PIPE, HELLO, Breaks::AtFlush, 0)?;
    flushes(&rt, SCRIPT, b"open 1\n", Breaks::AtFlush, 0)
}
