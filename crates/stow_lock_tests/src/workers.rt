//! One connection of ann's over memory: worked requests, and readers, writers and memory that fail.
use crate::shared::opened_for_one;
use crate::workers::ends::{Feed, Narrow, Prompt};
use crate::workers::passes::Passes;
use std::alloc::{AllocError, Allocator, Global};
use std::cell::Cell;
use std::io;
use std::io::{ErrorKind, Read};
use std::sync::Arc;
use std::test::Fail;
use stow_login::tenants::Tenants;
use stow_model::stream_fault::StreamFault;
use stow_refusing::{Plan, Refusing};
use stow_testing::tenants::THREE;
use stow_workers::counted::Counted;
use stow_workers::open_gate::OpenGate;
use stow_workers::served::Served;
use stow_workers::serving::serve_connection;
use stow_workers::stow_core::Core;
use stow_workers::stow_shared::desk::Desk;
use stow_workers::stow_shared::unkept::Unkept;
use stow_workers::stow_tree::tree_shape::TreeShape;

mod ends;
mod flushes;
mod held;
mod hold;
mod passes;
mod pool;
mod replies;

/// A login, a write and a read, of 31, 28 and 20 bytes.
const HELLO: &[u8] =
    b"*3\r\n$4\r\nAUTH\r\n$3\r\nann\r\n$2\r\nbc\r\n*3\r\n$3\r\nSET\r\n$1\r\nk\r\n$2\r\nv1\r\n*2\r\n$3\r\nGET\r\n$1\r\nk\r\n";

/// Their replies, of 5, 5 and 8 bytes.
const REPLIES: &[u8] = b"+OK\r\n+OK\r\n$2\r\nv1\r\n";

/// Three tenants, and a new core of theirs.
#[derive(Drop)]
struct Service<A: Allocator + Copy> {
    alloc: A,
    tenants: Arc<Tenants<A>, A>,
    core: Core<A>,
}

impl<A: Allocator + Copy> Service<A> {
    fn new(alloc: A, global: Global) -> Result<Service<A>, AllocError> {
        let tenants = Tenants::read(alloc, global, THREE).map_err(|_| AllocError)?;
        let tenants = Arc::new(alloc, tenants)?;
        let core = Core::new(alloc, tenants.clone()?, TreeShape::SMALLEST).map_err(|_| AllocError)?;
        Ok(Service {
            alloc,
            tenants,
            core,
        })
    }

    fn serve(&mut self, reader: &mut Feed<'_>, writer: &mut Narrow<'_>) -> Served {
        serve_connection(
            self.alloc,
            reader,
            writer,
            &self.tenants,
            &mut self.core,
            &OpenGate,
        )
    }
}

/// Serves one connection by a new core.
fn serve_anew<A: Allocator + Copy>(
    alloc: A,
    global: Global,
    reader: &mut Feed<'_>,
    writer: &mut Narrow<'_>,
) -> Result<Served, AllocError> {
    let mut service = Service::new(alloc, global)?;
    Ok(service.serve(reader, writer))
}

#[test]
fn a_reader_may_fail_anywhere(rt: HostRuntime) -> Result<(), Fail> {
    let alloc = rt.alloc();
    for count in 0..HELLO.len() + 1 {
        let told = match count {
            0..31 => 0,
            31..59 => 5,
            59..79 => 10,
            _ => 18,
        };
        let written = Cell::new(0);
        let mut reader = Feed::new(&HELLO[..count], 7, true);
        let mut writer = Narrow::new(alloc, &written, 1_000);
        let served = serve_anew(alloc, alloc, &mut reader, &mut writer)?;
        assert!(rt; served == Served::ReadFailed, "after {count}");
        assert!(rt; writer.bytes() == &REPLIES[..told], "after {count}");
    }
    Ok(())
}

#[test]
fn a_writer_may_fail_anywhere(rt: HostRuntime) -> Result<(), Fail> {
    let alloc = rt.alloc();
    for room in 0..REPLIES.len() + 1 {
        for takes_none in [false, true] {
            let written = Cell::new(0);
            let mut reader = Feed::new(HELLO, 4_096, false);
            let mut writer = Narrow::new(alloc, &written, room);
            writer.takes_none = takes_none;
            let served = serve_anew(alloc, alloc, &mut reader, &mut writer)?;
            let want = if room < REPLIES.len() {
                Served::WriteFailed
            } else {
                Served::Ended
            };
            assert!(rt; served == want, "room {room}");
            assert!(rt; writer.bytes() == &REPLIES[..room], "room {room}");
        }
    }
    Ok(())
}

#[test]
fn replies_are_written_before_more_is_read(rt: HostRuntime) -> Result<(), Fail> {
    let alloc = rt.alloc();
    let written = Cell::new(0);
    let mut service = Service::new(alloc, alloc)?;
    let mut reader = Prompt::new(HELLO, &written);
    let mut writer = Narrow::new(alloc, &written, 1_000);
    let passes = Passes {
        calls: Cell::new(0),
        replies: Cell::new(0),
    };
    let served = serve_connection(
        alloc,
        &mut reader,
        &mut writer,
        &service.tenants,
        &mut service.core,
        &passes,
    );
    assert!(rt; served == Served::Ended);
    assert!(rt; writer.bytes() == REPLIES);
    // The write and the read, not the login.
    assert!(rt; passes.calls.get() == 2 && passes.replies.get() == 2);
    Ok(())
}

#[test]
fn connections_end(rt: HostRuntime) -> Result<(), Fail> {
    let alloc = rt.alloc();
    let mut service = Service::new(alloc, alloc)?;
    let broken = Served::Faulted(StreamFault::InvalidBulkLength);
    for (input, want, told) in [
        ("", Served::Ended, ""),
        ("AUTH ann bc\nPING", Served::Ended, "+OK\r\n"),
        ("AUTH ann bc\nQUIT\nPING\n", Served::Quit, "+OK\r\n+OK\r\n"),
        (
            "AUTH ann bc\nPING\n*1\r\n$1048577\r\nPING\n",
            broken,
            "+OK\r\n+PONG\r\n-ERR Protocol error: invalid bulk length\r\n",
        ),
    ] {
        let written = Cell::new(0);
        let mut reader = Feed::new(input.as_bytes(), 4_096, false);
        let mut writer = Narrow::new(alloc, &written, 1_000);
        let served = service.serve(&mut reader, &mut writer);
        assert!(rt; served == want, "{input}");
        assert!(rt; writer.bytes() == told.as_bytes(), "{input}");
    }
    Ok(())
}

// More requests in one piece than are asked together: each is carried out once, in its turn, and told.
#[test]
fn requests_of_one_piece_are_answered_in_order(rt: HostRuntime) -> Result<(), Fail> {
    let alloc: Global = rt.alloc();
    let mut input = Vec::from_slice(alloc, b"AUTH ann bc\n")?;
    let mut told = Vec::from_slice(alloc, b"+OK\r\n")?;
    for number in 1..201u32 {
        input.extend_from_slice(b"INCR n\n")?;
        told.extend_from_slice(format!(in alloc; ":{number}\r\n")?.as_bytes())?;
    }
    let written = Cell::new(0);
    let mut reader = Feed::new(input.as_slice(), 4_096, false);
    let mut writer = Narrow::new(alloc, &written, 10_000);
    let (shared, mut seat) = opened_for_one::<_, Unkept, Global>(&rt, alloc, alloc);
    let mut desk = Desk {
        rt: &rt,
        shared: &shared,
        seat: &mut seat,
    };
    let served = serve_connection(
        alloc,
        &mut reader,
        &mut writer,
        shared.tenants(),
        &mut desk,
        &OpenGate,
    );
    assert!(rt; served == Served::Ended);
    assert!(rt; writer.bytes() == told.as_slice());
    Ok(())
}

// Replies of 5 and ten times 65,545 bytes to one piece: more than one of the long ones never waits.
#[test]
fn long_replies_do_not_wait(rt: HostRuntime) -> Result<(), Fail> {
    let alloc = rt.alloc();
    let mut input = Vec::from_slice(
        alloc,
        b"AUTH ann bc\n*3\r\n$3\r\nSET\r\n$1\r\nk\r\n$65535\r\n",
    )?;
    input.extend_from_slice(vec![in alloc; b'v'; 65_535]?.as_slice())?;
    input.extend_from_slice(b"\r\n")?;
    for _ in 0..10u8 {
        input.extend_from_slice(b"GET k\n")?;
    }
    let written = Cell::new(0);
    let mut reader = Feed::new(input.as_slice(), 4_096, false);
    let mut writer = Narrow::new(alloc, &written, 1_000_000);
    let served = serve_anew(alloc, alloc, &mut reader, &mut writer)?;
    assert!(rt; served == Served::Ended);
    assert!(rt; writer.bytes().len() == 655_460 && writer.most == 65_550);
    Ok(())
}

/// How many requests for memory serving a login and so many PINGs makes.
fn asked_by_pings<A: Allocator + Copy, B: Allocator>(
    heap: &Refusing<B>,
    (alloc, global): (A, Global),
    count: usize,
) -> Result<u64, AllocError> {
    let mut service = Service::new(alloc, global)?;
    let mut input = Vec::from_slice(global, b"AUTH ann bc\n")?;
    for _ in 0..count {
        input.extend_from_slice(b"*1\r\n$4\r\nPING\r\n")?;
    }
    let written = Cell::new(0);
    let mut reader = Feed::new(input.as_slice(), 4_096, false);
    let mut writer = Narrow::new(global, &written, 10_000);
    heap.set(Plan::Grant);
    let _served = service.serve(&mut reader, &mut writer);
    Ok(heap.asked())
}

// The words of requests are filled again by later ones: a thousand take less memory than one a request.
#[test]
fn used_words_serve_the_next_request(rt: HostRuntime) -> Result<(), Fail> {
    let heap = Refusing::new(rt.alloc());
    let asked = asked_by_pings(&heap, (&heap, rt.alloc()), 1_000)?;
    assert!(rt; asked < 300, "{asked}");
    Ok(())
}

/// What is told where memory is refused to nothing, to the write, and to the read.
const TOLD: [&[u8]; 3] = [
    REPLIES,
    b"+OK\r\n-OOM memory was refused\r\n$-1\r\n",
    b"+OK\r\n+OK\r\n-OOM memory was refused\r\n",
];

/// Whether all of this is told then, or its beginning.
fn may_be_told(told: &[u8], is_whole: bool) -> bool {
    for all in TOLD {
        if all == told || (!is_whole && all.starts_with(told)) {
            return true;
        }
    }
    false
}

/// Whether a login, a write and a read are served, and told right.
fn serves_all<A: Allocator + Copy>(service: &mut Service<A>, global: Global) -> bool {
    let written = Cell::new(0);
    let mut reader = Feed::new(HELLO, 7, false);
    let mut writer = Narrow::new(global, &written, 1_000);
    service.serve(&mut reader, &mut writer) == Served::Ended && writer.bytes() == REPLIES
}

/// Whether serving withstands the refusal of this request for memory, or `None` where it asks for fewer.
fn withstands<A: Allocator + Copy, B: Allocator>(
    heap: &Refusing<B>,
    (alloc, global): (A, Global),
    at: u64,
) -> Result<Option<bool>, AllocError> {
    heap.set(Plan::Grant);
    let mut service = Service::new(alloc, global)?;
    let written = Cell::new(0);
    let mut reader = Feed::new(HELLO, 7, false);
    let mut writer = Narrow::new(global, &written, 1_000);
    heap.set(Plan::RefuseAt(at));
    let served = service.serve(&mut reader, &mut writer);
    let is_whole = heap.asked() <= at;
    heap.set(Plan::Grant);
    let told = writer.bytes();
    if is_whole && served == Served::Ended && told == REPLIES {
        return Ok(None);
    }
    let is_told = match served {
        Served::Ended => may_be_told(told, true),
        Served::NoMemory => may_be_told(told, false),
        _ => false,
    };
    Ok(Some(!is_whole && is_told && serves_all(&mut service, global)))
}

#[test]
fn serving_withstands_each_refusal(rt: HostRuntime) -> Result<(), Fail> {
    let global = rt.alloc();
    let heap = Refusing::new(global);
    let mut is_whole = false;
    for at in 0..1_000 {
        match withstands(&heap, (&heap, global), at)? {
            Some(is_right) => assert!(rt; is_right, "request {at}"),
            None => {
                is_whole = true;
                break;
            }
        }
    }
    assert!(rt; is_whole);
    Ok(())
}

/// Is interrupted before each byte, and at its end fails.
#[derive(Drop)]
struct Shaky<'a> {
    left: &'a [u8],
    is_interrupted: bool,
}

impl Read for Shaky<'_> {
    fn read(&mut self, room: &mut [u8]) -> io::Result<usize> {
        self.is_interrupted = !self.is_interrupted;
        if self.is_interrupted {
            return Err(io::Error::from(ErrorKind::Interrupted));
        }
        match self.left.split_first() {
            Some((byte, rest)) if !room.is_empty() => {
                room[0] = *byte;
                self.left = rest;
                Ok(1)
            }
            _ => Err(io::Error::from(ErrorKind::TimedOut)),
        }
    }
}

#[test]
fn failures_are_kept(rt: HostRuntime) -> Result<(), Fail> {
    let alloc = rt.alloc();
    let mut service = Service::new(alloc, alloc)?;
    let mut shaky = Shaky {
        left: HELLO,
        is_interrupted: false,
    };
    let mut held = Vec::new(alloc);
    let mut reader = Counted::new(&mut shaky);
    let mut writer = Counted::new(&mut held);
    let served = serve_connection(
        alloc,
        &mut reader,
        &mut writer,
        &service.tenants,
        &mut service.core,
        &OpenGate,
    );
    assert!(rt; served == Served::ReadFailed);
    assert!(rt;
        matches!(reader.last_failure(), Some(error) if error.kind() == ErrorKind::TimedOut)
    );
    assert!(rt; writer.last_failure().is_none());
    Ok(())
}
