//! `stow serve` over loopback: clients that come and go, what they leave, and an address that is taken.
use crate::given::Given;
use crate::running::{Shelf, joined, run_over, wants};
use std::alloc::{AllocError, Global};
use std::io::{Read, Write};
use std::net::{Net, Shutdown, SocketAddr, TcpListener, TcpStream};
use std::os::fd::{AsRawFd, RawFd};
use std::process::Abort;
use std::rt::Files;
use std::sync::{OnceLock, Wait};
use std::test::Fail;
use std::thread::{Threads, join};
use std::{fs, io};

/// A client: what it asks, in three parts, before it closes its half, whether it then waits for replies, and what it is told.
#[derive(Clone, Copy)]
struct Visit<'a> {
    asks: &'a [u8],
    fill: &'a [u8],
    then: &'a [u8],
    waits: bool,
    told: &'a [u8],
}

/// One that is served and quits.
const ONE: [Visit<'_>; 1] = [Visit {
    asks: b"AUTH ann bc\nSET k v\nGET k\nQUIT\n",
    fill: b"",
    then: b"",
    waits: true,
    told: b"+OK\r\n+OK\r\n$1\r\nv\r\n+OK\r\n",
}];

/// One that is served, one that goes away in the middle of a message, one that breaks the protocol, and one that closes its half.
const SEVERAL: [Visit<'_>; 4] = [
    Visit {
        asks: b"AUTH ann bc\nSET k v\nGET k\nQUIT\n",
        fill: b"",
        then: b"",
        waits: true,
        told: b"+OK\r\n+OK\r\n$1\r\nv\r\n+OK\r\n",
    },
    Visit {
        asks: b"AUTH ann bc\nSET gone x\n*2\r\n$3\r\nGE",
        fill: b"",
        then: b"",
        waits: false,
        told: b"",
    },
    Visit {
        asks: b"PING\n*1\r\n:4\r\nPING\n",
        fill: b"",
        then: b"",
        waits: true,
        told: b"-NOAUTH Authentication required.\r\n-ERR Protocol error: expected '$'\r\n",
    },
    Visit {
        asks: b"AUTH ann bc\nSTRLEN none\n*2\r\n$3\r\nGE",
        fill: b"",
        then: b"",
        waits: true,
        told: b"+OK\r\n:0\r\n",
    },
];

/// One whose long value takes many turns, and one that asks for that value's length.
const IN_TURN: [Visit<'_>; 2] = [
    Visit {
        asks: b"AUTH ann bc\nSET k ",
        fill: &[b'v'; 60_000],
        then: b"\nSET k last\nQUIT\n",
        waits: true,
        told: b"+OK\r\n+OK\r\n+OK\r\n+OK\r\n",
    },
    Visit {
        asks: b"AUTH ann bc\nSTRLEN k\nQUIT\n",
        fill: b"",
        then: b"",
        waits: true,
        told: b"+OK\r\n:4\r\n+OK\r\n",
    },
];

/// How many new descriptors are looked at: more than a serving has at once.
const DESCRIPTORS: u32 = 64;

/// An output that, once it tells an address, makes the clients' requests there.
#[derive(Drop)]
struct Clients<'a, R> {
    rt: &'a R,
    told: Vec<u8>,
    visits: &'a [Visit<'a>],
    streams: Vec<Option<TcpStream>>,
}

/// The address that is told, if it is one of this machine alone.
fn address_in(told: &[u8]) -> Option<SocketAddr> {
    let text = std::str::from_utf8(told).unwrap_or("");
    let address = text.strip_prefix("listening ")?;
    let address = address.trim_end().parse::<SocketAddr>().ok()?;
    address.ip().is_loopback().then_some(address)
}

/// A client comes. It stays where it waits for replies.
fn come<R: Net<Stream = TcpStream>>(
    rt: &R,
    address: SocketAddr,
    visit: Visit<'_>,
) -> io::Result<Option<TcpStream>> {
    let mut stream = TcpStream::connect(rt, address)?;
    stream.write_all(visit.asks)?;
    stream.write_all(visit.fill)?;
    stream.write_all(visit.then)?;
    stream.shutdown(Shutdown::Write)?;
    Ok(if visit.waits { Some(stream) } else { None })
}

/// Clients come, one after another.
fn come_all<R: Net<Stream = TcpStream>>(
    rt: &R,
    address: SocketAddr,
    visits: &[Visit<'_>],
    streams: &mut Vec<Option<TcpStream>>,
) -> io::Result<()> {
    for i in 0..visits.len() {
        streams.push(come(rt, address, visits[i])?)?;
    }
    Ok(())
}

impl<R: Net<Stream = TcpStream>> Write for Clients<'_, R> {
    fn write(&mut self, bytes: &[u8]) -> io::Result<usize> {
        self.told.extend_from_slice(bytes)?;
        Ok(bytes.len())
    }

    fn flush(&mut self) -> io::Result<()> {
        if let Some(address) = address_in(self.told.as_slice()) {
            come_all(self.rt, address, self.visits, &mut self.streams)?;
        }
        Ok(())
    }
}

/// Whether each client that waited is told what it is to be told, and nothing more.
fn are_told(
    visits: &[Visit<'_>],
    streams: &mut [Option<TcpStream>],
    alloc: Global,
) -> io::Result<bool> {
    for i in 0..visits.len().min(streams.len()) {
        let mut replies = Vec::new(alloc);
        if let Some(stream) = &mut streams[i] {
            stream.read_to_end(&mut replies)?;
        }
        if replies.as_slice() != visits[i].told {
            return Ok(false);
        }
    }
    Ok(streams.len() == visits.len())
}

/// The status of a serving with these options, whether its clients are told what they are to be told, and its notices.
fn served<H>(rt: &H, visits: &[Visit<'_>], options: &str) -> Result<(u8, bool, Vec<u8>), Fail>
where
    H: Abort
        + Alloc<A = Global>
        + Net<Listener = TcpListener, Stream = TcpStream>
        + Threads
        + Wait
        + Sync,
{
    let alloc = rt.alloc();
    let line = format!(in alloc; "serve --tenants three.toml --listen 127.0.0.1:0 {options}")?;
    let (mut input, mut errors) = (Given::all(b""), Vec::new(alloc));
    let mut output = Clients {
        rt,
        told: Vec::new(alloc),
        visits,
        streams: Vec::new(alloc),
    };
    let shelf = Shelf { own: b"" };
    let status = run_over(
        rt,
        &shelf,
        line.as_str(),
        &mut input,
        &mut output,
        &mut errors,
    )?;
    let are_told = are_told(visits, &mut output.streams, alloc)?;
    Ok((status, are_told, errors))
}

/// Wants the rows of a table to be answered so by a server, as one connection, behind ann's login.
pub fn answers_served<H>(rt: &H, table: &str) -> Result<(), Fail>
where
    H: Abort
        + Alloc<A = Global>
        + Net<Listener = TcpListener, Stream = TcpStream>
        + Threads
        + Wait
        + Sync,
{
    let (asked, told) = joined(rt.alloc(), table)?;
    let visit = Visit {
        asks: asked.as_slice(),
        fill: b"",
        then: b"",
        waits: true,
        told: told.as_bytes(),
    };
    let (status, are_told, _) = served(rt, &[visit], "--connections 1")?;
    assert!(rt; status == 0 && are_told, "{table}");
    Ok(())
}

/// The number of the last of many new descriptors, of which each has the least number that is free.
fn last_descriptor<R>(rt: &R, alloc: Global) -> io::Result<RawFd>
where
    R: Net<Listener = TcpListener, Stream = TcpStream>,
{
    let first = TcpListener::bind(rt, "127.0.0.1:0")?;
    let mut last = first.as_raw_fd();
    let mut held = Vec::new(alloc);
    for _ in 0..DESCRIPTORS {
        let next = first.try_clone()?;
        last = next.as_raw_fd();
        held.push(next)?;
    }
    Ok(last)
}

/// Whether two notices are told, of the start and of the end.
fn are_notices(text: &str) -> bool {
    match text.split_once("\n") {
        Some((first, second)) => {
            first.contains("INFO")
                && first.contains("start")
                && second.contains("INFO")
                && second.contains("end")
        }
        None => false,
    }
}

#[test]
fn a_client_is_served(rt: HostRuntime) -> Result<(), Fail> {
    let (status, are_told, errors) = served(&rt, &ONE, "--connections 1 --notices")?;
    let notices = std::str::from_utf8(errors.as_slice()).unwrap_or("");
    assert!(rt;
        status == 0 && are_told && are_notices(notices),
        "{notices}"
    );
    Ok(())
}

// More clients than workers, or one for each: one after another ends, none keeps another from its replies, and no descriptor is
// left. Where there may be one at once, the second is served behind the first one's end.
#[test]
fn clients_come_and_go(rt: HostRuntime) -> Result<(), Fail> {
    let before = last_descriptor(&rt, rt.alloc())?;
    for (visits, options) in [
        (SEVERAL.as_slice(), "--connections 4 --workers 1"),
        (SEVERAL.as_slice(), "--connections 4"),
        (
            IN_TURN.as_slice(),
            "--connections 2 --workers 1 --clients 1",
        ),
    ] {
        let (status, are_told, _) = served(&rt, visits, options)?;
        assert!(rt; status == 0 && are_told, "{options}");
    }
    assert_eq!(rt; last_descriptor(&rt, rt.alloc())?, before);
    Ok(())
}

/// Clients that send a long value each, in the place of what fills: one is served and quits, one goes away before the value's end, one
/// breaks the protocol there, and one closes its half in the middle of a message.
const LONG: [Visit<'_>; 4] = [
    Visit {
        asks: b"AUTH ann bc\n*3\r\n$3\r\nSET\r\n$1\r\nk\r\n$1048576\r\n",
        fill: b"",
        then: b"\r\nSTRLEN k\nQUIT\n",
        waits: true,
        told: b"+OK\r\n+OK\r\n:1048576\r\n+OK\r\n",
    },
    Visit {
        asks: b"AUTH ann bc\n*3\r\n$3\r\nSET\r\n$1\r\nk\r\n$1048576\r\n",
        fill: b"",
        then: b"\r",
        waits: false,
        told: b"",
    },
    Visit {
        asks: b"AUTH ann bc\n*3\r\n$3\r\nSET\r\n$1\r\nk\r\n$1048576\r\n",
        fill: b"",
        then: b"X",
        waits: true,
        told: b"+OK\r\n-ERR Protocol error: bulk not ended by CRLF\r\n",
    },
    Visit {
        asks: b"AUTH ann bc\n*3\r\n$3\r\nSET\r\n$1\r\nk\r\n$1048576\r\n",
        fill: b"",
        then: b"\r\n*2\r\n$3\r\nGE",
        waits: true,
        told: b"+OK\r\n+OK\r\n",
    },
];

/// The rounds of these clients before memory is first looked at, and those after: 24 hold 96 MiB.
const FIRST_ROUNDS: u32 = 8;

const ROUNDS: u32 = 24;

/// The most pages of 4,096 bytes that may come: 48 MiB.
const MOST_PAGES: u64 = 12_288;

/// How many pages of the process are in memory.
fn resident<R: Files + Alloc<A = Global>>(rt: &R) -> io::Result<u64> {
    let text = fs::read_to_string(rt, "/proc/self/statm")?;
    let pages = text.split_whitespace().nth(1).unwrap_or("");
    pages
        .parse::<u64>()
        .map_err(|_| io::Error::from(io::ErrorKind::InvalidData))
}

/// So many rounds of clients. Whether all are told what they are to be told.
fn are_served<R: Net<Stream = TcpStream>>(
    rt: &R,
    alloc: Global,
    address: SocketAddr,
    visits: &[Visit<'_>],
    rounds: u32,
) -> io::Result<bool> {
    let mut are_right = true;
    for _ in 0..rounds {
        let mut streams = Vec::new(alloc);
        come_all(rt, address, visits, &mut streams)?;
        let are_told = are_told(visits, &mut streams, alloc)?;
        are_right = are_right && are_told;
    }
    Ok(are_right)
}

/// The client with this value in the place of what fills.
fn filled<'a>(visit: Visit<'a>, fill: &'a [u8]) -> Visit<'a> {
    Visit {
        asks: visit.asks,
        fill,
        then: visit.then,
        waits: visit.waits,
        told: visit.told,
    }
}

/// Whether clients with this value are told what they are to be told, and how many pages the later ones leave.
fn left_by<R>(rt: &R, address: SocketAddr, value: &[u8]) -> io::Result<(bool, u64)>
where
    R: Files + Alloc<A = Global> + Net<Stream = TcpStream>,
{
    let visits = [
        filled(LONG[0], value),
        filled(LONG[1], value),
        filled(LONG[2], value),
        filled(LONG[3], value),
    ];
    let alloc = rt.alloc();
    let first = are_served(rt, alloc, address, &visits, FIRST_ROUNDS)?;
    let before = resident(rt)?;
    let later = are_served(rt, alloc, address, &visits, ROUNDS)?;
    Ok((first && later, resident(rt)?.saturating_sub(before)))
}

/// An output that hands on the address that it tells.
#[derive(Drop)]
struct Telling<'a> {
    told: Vec<u8>,
    address: &'a OnceLock<Option<SocketAddr>>,
}

impl Write for Telling<'_> {
    fn write(&mut self, bytes: &[u8]) -> io::Result<usize> {
        self.told.extend_from_slice(bytes)?;
        Ok(bytes.len())
    }

    fn flush(&mut self) -> io::Result<()> {
        let _ = self.address.try_set(address_in(self.told.as_slice()));
        Ok(())
    }
}

/// The status of a serving of all rounds, whose address is handed on, or nothing where there is none.
fn served_rounds<H>(rt: &H, address: &OnceLock<Option<SocketAddr>>) -> Result<u8, AllocError>
where
    H: Abort
        + Alloc<A = Global>
        + Net<Listener = TcpListener, Stream = TcpStream>
        + Threads
        + Wait
        + Sync,
{
    let alloc = rt.alloc();
    let connections = 4 * (FIRST_ROUNDS + ROUNDS);
    let line = format!(in alloc;
        "serve --tenants ample.toml --listen 127.0.0.1:0 --connections {connections}"
    )?;
    let (mut input, mut errors) = (Given::all(b""), Vec::new(alloc));
    let mut output = Telling {
        told: Vec::new(alloc),
        address,
    };
    let shelf = Shelf { own: b"" };
    let status = run_over(
        rt,
        &shelf,
        line.as_str(),
        &mut input,
        &mut output,
        &mut errors,
    );
    let _ = address.try_set(None);
    status
}

// One server, and rounds of clients that send values of 1 MiB: the later ones leave less than half of what they sent.
#[test]
fn clients_leave_no_memory(rt: HostRuntime) -> Result<(), Fail> {
    let value = vec![in rt.alloc(); b'v'; 1_048_576]?;
    let address = OnceLock::new();
    let (status, left) = join(
        &rt,
        || served_rounds(&rt, &address),
        || match *address.wait(&rt) {
            Some(address) => left_by(&rt, address, value.as_slice()),
            None => Ok((false, 0)),
        },
    );
    let (status, (are_told, pages)) = (status?, left?);
    assert!(rt;
        status == 0 && are_told && pages <= MOST_PAGES,
        "{pages} pages"
    );
    Ok(())
}

// An address that is taken can't be bound.
#[test]
fn an_address_may_be_taken(rt: HostRuntime) -> Result<(), Fail> {
    let taken = TcpListener::bind(&rt, "127.0.0.1:0")?;
    let address = taken.local_addr()?;
    let line = format!(in rt.alloc(); "serve --tenants three.toml --listen {address}")?;
    let told = "stow: input or output failed\n";
    wants(&rt, line.as_str(), &mut Given::all(b""), 4, "", told)
}
