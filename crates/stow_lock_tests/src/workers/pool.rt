//! A pool over loopback: workers side by side, a journal of what they served, and clients that break off.
ghost use Rattle.std.specs.Prelude.{◌≡◌, IfOk, vec_len};
ghost use Rattle.stow_workers.specs.StowCore.State.{IsNewCore};

use crate::workers::hold::Hold;
use std::alloc::{AllocError, Allocator, Global};
use std::collections::BTreeMap;
use std::io;
use std::io::{ErrorKind, Read, Write};
use std::net::{Net, SocketAddr, TcpListener, TcpStream};
use std::process::Abort;
use std::sync::{Arc, Wait};
use std::test::Fail;
use std::thread::{Threads, join, map_indices};
use std::time::{Clock, Duration};
use stow_login::tenants::Tenants;
use stow_model::item::Item;
use stow_model::items::Items;
use stow_model::reply::Reply;
use stow_model::simple_string::SimpleString;
use stow_model::words::Words;
use stow_refusing::{Plan, Refusing};
use stow_testing::tenants::THREE;
use stow_workers::open_gate::OpenGate;
use stow_workers::pool::Pool;
use stow_workers::pool_fault::PoolFault;
use stow_workers::stow_core::Core;
use stow_workers::stow_shared::entry::Entry;
use stow_workers::stow_shared::journal::Journal;
use stow_workers::stow_shared::kept::Kept;
use stow_workers::stow_shared::seat::Seat;
use stow_workers::stow_shared::shared::Shared;
use stow_workers::stow_shared::step::Step;
use stow_workers::stow_shared::unkept::Unkept;
use stow_workers::stow_tree::tree_shape::TreeShape;

/// The logins of the two tenants.
const ANN: &str = "AUTH ann bc\n";

const BEN: &str = "AUTH ben c\n";

/// The clients that write, by login and number.
const CLIENTS: [(&str, u32); 4] = [(ANN, 1), (ANN, 2), (BEN, 3), (BEN, 4)];

/// The numbers of a client's keys.
const KEYS: std::ops::Range<u32> = 100..300;

/// A core of the three tenants.
fn new_core<A: Allocator + Copy>(alloc: A, global: Global) -> Result<Core<A>, AllocError>
    ensures { IfOk result IsNewCore }
{
    let tenants = Tenants::read(alloc, global, THREE).map_err(|_| AllocError)?;
    Core::new(alloc, Arc::new(alloc, tenants)?, TreeShape::SMALLEST).map_err(|_| AllocError)
}

/// The three tenants' core behind a lock, and so many seats.
fn opened<J: Journal, A: Allocator + Copy>(
    alloc: A,
    global: Global,
    seats: u32,
) -> Result<(Shared<J, A>, Vec<Seat<J, A>, A>), AllocError>
    ensures { IfOk result (λ opened. vec_len opened.1 ≡ seats) }
{
    let core = new_core(alloc, global)?;
    match Shared::open(alloc, core, seats) {
        Ok(opened) => Ok(opened),
        Err(_) => Err(AllocError),
    }
}

/// A client of the pool at this address.
fn connected<R: Net<Stream = TcpStream>>(rt: &R, address: SocketAddr) -> io::Result<TcpStream> {
    TcpStream::connect(rt, address)
}

/// Sends a line, and says whether this is what is told of it.
fn is_told(alloc: Global, stream: &TcpStream, line: &str, want: &str) -> io::Result<bool> {
    let mut end = stream;
    end.write_all(line.as_bytes())?;
    let mut told = vec![in alloc; 0u8; want.len()]?;
    end.read_exact(told.as_mut_slice())?;
    Ok(told.as_slice() == want.as_bytes())
}

/// Writes one key again and again until nothing is held.
fn write_until_over<R: Net<Stream = TcpStream> + Clock + Wait>(
    rt: &R,
    address: SocketAddr,
    alloc: Global,
    hold: &Hold<'_, R>,
) -> io::Result<bool> {
    let stream = connected(rt, address)?;
    let mut is_right = is_told(alloc, &stream, ANN, "+OK\r\n")?;
    for _ in rt.forever() {
        if hold.is_over() {
            break;
        }
        is_right = is_right && is_told(alloc, &stream, "SET k v\n", "+OK\r\n")?;
    }
    Ok(is_right)
}

// One thread that serves all connections can't answer while it holds a call.
#[test]
fn one_thread_serves_all(rt: HostRuntime) -> Result<(), Fail> {
    let alloc = rt.alloc();
    let (shared, seats) = opened::<Unkept, Global>(alloc, alloc, 2)?;
    let listener = TcpListener::bind(&rt, "127.0.0.1:0")?;
    let address = listener.local_addr()?;
    let hold = Hold::new(&rt, false);
    let ((one, other), (_, ended)) = join(
        &rt,
        || {
            join(
                &rt,
                || write_until_over(&rt, address, alloc, &hold),
                || write_until_over(&rt, address, alloc, &hold),
            )
        },
        || Pool::run(&rt, alloc, &listener, &shared, seats, 0, 100, 2, &hold),
    );
    assert!(rt; ended.is_ok() && one? && other?);
    assert!(rt; hold.were_answered());
    Ok(())
}

// Nobody can answer where the lock is held for a call that is read, or for a merge.
#[test]
fn lock_held_while_reading_or_merging(rt: HostRuntime) -> Result<(), Fail> {
    let alloc = rt.alloc();
    let (shared, seats) = opened::<Unkept, Global>(alloc, alloc, 3)?;
    let listener = TcpListener::bind(&rt, "127.0.0.1:0")?;
    let address = listener.local_addr()?;
    let hold = Hold::new(&rt, true);
    let ((one, other), (_, ended)) = join(
        &rt,
        || {
            join(
                &rt,
                || write_until_over(&rt, address, alloc, &hold),
                || write_until_over(&rt, address, alloc, &hold),
            )
        },
        || Pool::run(&rt, alloc, &listener, &shared, seats, 1, 100, 2, &hold),
    );
    assert!(rt; ended.is_ok() && one? && other?);
    assert!(rt; hold.were_answered());
    Ok(())
}

/// The keys of a client, of which each tenant has two.
fn key_of(alloc: Global, client: u32, number: u32) -> Result<String, AllocError> {
    format!(in alloc; "c{client}{number}")
}

/// Sets 200 keys of the client's own, reads them back, and says whether each reply was right. The first two of the
/// four clients are ann's.
fn fill<R: Net<Stream = TcpStream>>(
    rt: &R,
    address: SocketAddr,
    alloc: Global,
    at: usize,
) -> io::Result<bool> {
    let (login, client) = CLIENTS[at.min(3)];
    let stream = connected(rt, address)?;
    let mut is_right = is_told(alloc, &stream, login, "+OK\r\n")?;
    for number in KEYS {
        let key = key_of(alloc, client, number)?;
        let set = format!(in alloc; "SET {key} v\n")?;
        is_right = is_right && is_told(alloc, &stream, set.as_str(), "+OK\r\n")?;
    }
    for number in KEYS {
        let key = key_of(alloc, client, number)?;
        let get = format!(in alloc; "GET {key}\n")?;
        is_right = is_right && is_told(alloc, &stream, get.as_str(), "$1\r\nv\r\n")?;
    }
    Ok(is_right)
}

/// Whether a range tells all 400 rows of a tenant, whose clients are these.
fn has_rows<R: Net<Stream = TcpStream>>(
    rt: &R,
    address: SocketAddr,
    alloc: Global,
    login: &str,
    clients: [u32; 2],
) -> io::Result<bool> {
    let stream = connected(rt, address)?;
    let mut rows = String::from_str(alloc, "*800\r\n")?;
    for client in clients {
        for number in KEYS {
            let key = key_of(alloc, client, number)?;
            write!(rows, "$5\r\n{key}\r\n$1\r\nv\r\n")?;
        }
    }
    let is_in = is_told(alloc, &stream, login, "+OK\r\n")?;
    Ok(
        is_in
            && is_told(
                alloc,
                &stream,
                "*4\r\n$5\r\nRANGE\r\n$0\r\n\r\n$0\r\n\r\n$4\r\n1024\r\n",
                rows.as_str(),
            )?,
    )
}

/// Whether two clients of each tenant were told right, and then one more of each.
fn are_told_right<R: Net<Stream = TcpStream>>(
    rt: &R,
    address: SocketAddr,
    alloc: Global,
    filled: Vec<io::Result<bool>>,
) -> io::Result<bool> {
    for is_right in filled {
        if !is_right? {
            return Ok(false);
        }
    }
    Ok(has_rows(rt, address, alloc, ANN, [1, 2])? && has_rows(rt, address, alloc, BEN, [3, 4])?)
}

/// A tenant's rows, in a plain map.
type Rows = BTreeMap<Vec<u8>, Vec<u8>>;

fn copied(alloc: Global, bytes: &[u8]) -> Result<Vec<u8>, AllocError> {
    Vec::from_slice(alloc, bytes)
}

/// Whether an array tells all rows.
fn tells_all(items: &Items, rows: &Rows) -> bool {
    if items.len() != rows.len().saturating_mul(2) {
        return false;
    }
    let mut at = 0;
    for (key, value) in rows.iter() {
        for want in [key, value] {
            if at >= items.len() {
                return false;
            }
            match items.get(at) {
                Item::Bulk(bytes) if bytes == want.as_slice() => {}
                _ => return false,
            }
            at = at.saturating_add(1);
        }
    }
    true
}

/// The word of this number, counted from 0, if there is one.
fn word(words: &Words, at: usize) -> &[u8] {
    if at < words.len() {
        words.lent().get(at)
    } else {
        &[]
    }
}

/// Whether a call is answered as the plain map answers, which a write changes.
fn follows(
    alloc: Global,
    rows: &mut Rows,
    words: &Words,
    reply: &Reply,
) -> Result<bool, AllocError> {
    let (name, key, value) = (word(words, 0), word(words, 1), word(words, 2));
    match reply {
        Reply::Simple(SimpleString::Ok) if name == b"SET".as_slice() => {
            rows.insert(copied(alloc, key)?, copied(alloc, value)?)?;
            Ok(true)
        }
        Reply::Bulk(told) if name == b"GET".as_slice() => {
            Ok(matches!(rows.get(key), Some(value) if value.as_slice() == told.as_slice()))
        }
        Reply::Array(told) if name == b"RANGE".as_slice() => Ok(tells_all(told, rows)),
        _ => Ok(false),
    }
}

/// Whether each call of a tenant in the journal is answered as the plain map answers; and how many there are.
fn has_followed(
    alloc: Global,
    entries: &[Entry],
    tenant: u32,
) -> Result<(bool, usize), AllocError> {
    let mut rows = Rows::new(alloc);
    let mut count: usize = 0;
    let mut is_right = true;
    for entry in entries {
        if let Step::Call(index, words, reply) = &entry.step {
            if *index == tenant {
                is_right = is_right && follows(alloc, &mut rows, words, reply)?;
                count = count.saturating_add(1);
            }
        }
    }
    Ok((is_right, count))
}

#[test]
fn two_workers_leave_a_legal_journal(rt: HostRuntime) -> Result<(), Fail> {
    let alloc = rt.alloc();
    let (shared, seats) = opened::<Kept, Global>(alloc, alloc, 2)?;
    let listener = TcpListener::bind(&rt, "127.0.0.1:0")?;
    let address = listener.local_addr()?;
    let (are_right, (seats, ended)) = join(
        &rt,
        || {
            let filled = map_indices(&rt, alloc, 4, &|at| fill(&rt, address, alloc, at))?;
            are_told_right(&rt, address, alloc, filled)
        },
        || Pool::run(&rt, alloc, &listener, &shared, seats, 0, 100, 6, &OpenGate),
    );
    assert!(rt; ended.is_ok() && are_right?);
    let Ok(closed) = shared.close(seats) else {
        panic!(rt; "the seats' receipts aren't the journal");
    };
    assert_eq!(rt; closed.entries().len(), 1_602);
    assert_eq!(rt; has_followed(alloc, closed.entries(), 1)?, (true, 801));
    assert_eq!(rt; has_followed(alloc, closed.entries(), 2)?, (true, 801));
    Ok(())
}

/// Sends all this and goes away.
fn breaks_off<R: Net<Stream = TcpStream>>(
    rt: &R,
    address: SocketAddr,
    bytes: &[u8],
) -> io::Result<()> {
    connected(rt, address)?.write_all(bytes)
}

/// Sends a line, and says whether just this is told before the connection is closed.
fn ends_with<R: Net<Stream = TcpStream>>(
    rt: &R,
    address: SocketAddr,
    alloc: Global,
    line: &str,
    want: &str,
) -> io::Result<bool> {
    let mut stream = connected(rt, address)?;
    let is_right = is_told(alloc, &stream, line, want)?;
    Ok(is_right && stream.read(&mut [0u8; 1])? == 0)
}

/// Clients that go away in a message, after a fault, with megabytes unread, and after a QUIT; then one that reads.
fn broken_clients<R: Net<Stream = TcpStream>>(
    rt: &R,
    address: SocketAddr,
    alloc: Global,
) -> io::Result<bool> {
    breaks_off(rt, address, b"AUTH ann bc\n*3\r\n$3\r\nSET\r\n$1\r\nk")?;
    let fault = "-ERR Protocol error: invalid bulk length\r\n";
    let unread = "x".repeat(alloc, 200_000)?;
    let line = format!(in alloc; "*1\r\n$1048577\r\n{unread}")?;
    let mut is_right = ends_with(rt, address, alloc, line.as_str(), fault)?;
    let value = "v".repeat(alloc, 60_000)?;
    let set = format!(in alloc; "{ANN}SET k {value}\n")?;
    let mut many = connected(rt, address)?;
    is_right = is_right && is_told(alloc, &many, set.as_str(), "+OK\r\n+OK\r\n")?;
    many.write_all("GET k\n".repeat(alloc, 200)?.as_bytes())?;
    drop(many);
    is_right = is_right && ends_with(rt, address, alloc, "QUIT\n", "+OK\r\n")?;
    let stream = connected(rt, address)?;
    let want = format!(in alloc; "$60000\r\n{value}\r\n")?;
    Ok(
        is_right
            && is_told(alloc, &stream, ANN, "+OK\r\n")?
            && is_told(alloc, &stream, "GET k\n", want.as_str())?,
    )
}

#[test]
fn a_worker_outlives_its_clients(rt: HostRuntime) -> Result<(), Fail> {
    let alloc = rt.alloc();
    let (shared, seats) = opened::<Unkept, Global>(alloc, alloc, 1)?;
    let listener = TcpListener::bind(&rt, "127.0.0.1:0")?;
    let address = listener.local_addr()?;
    let (are_right, (_, ended)) = join(
        &rt,
        || broken_clients(&rt, address, alloc),
        || Pool::run(&rt, alloc, &listener, &shared, seats, 0, 100, 5, &OpenGate),
    );
    assert!(rt; ended.is_ok() && are_right?);
    Ok(())
}

/// What clients say before they fall silent, and the rest of it.
const SILENT: [(&str, &str); 5] = [
    ("", ANN),
    ("AUTH a", "nn bc\n"),
    ("*3\r\n$4\r\nAUTH\r\n$3\r\nann\r\n$2\r\nb", "c\r\n"),
    ("", ANN),
    ("AUTH ann bc", "\n"),
];

/// Clients say nothing, or half a message, and one more is served; then each of them is, too.
fn silent_clients<R: Net<Stream = TcpStream>>(
    rt: &R,
    address: SocketAddr,
    alloc: Global,
) -> io::Result<bool> {
    let mut silent = Vec::new(alloc);
    for (said, rest) in SILENT {
        let mut stream = connected(rt, address)?;
        stream.write_all(said.as_bytes())?;
        silent.push((stream, rest))?;
    }
    let stream = connected(rt, address)?;
    let mut is_right = is_told(alloc, &stream, ANN, "+OK\r\n")?
        && is_told(alloc, &stream, "SET k v\n", "+OK\r\n")?;
    for (stream, rest) in silent.iter() {
        is_right = is_right
            && is_told(alloc, stream, rest, "+OK\r\n")?
            && is_told(alloc, stream, "GET k\n", "$1\r\nv\r\n")?;
    }
    Ok(is_right)
}

// A silent client holds no worker.
#[test]
fn silent_clients_keep_nobody_waiting(rt: HostRuntime) -> Result<(), Fail> {
    let alloc = rt.alloc();
    let (shared, seats) = opened::<Unkept, Global>(alloc, alloc, 2)?;
    let listener = TcpListener::bind(&rt, "127.0.0.1:0")?;
    let address = listener.local_addr()?;
    let (are_right, (_, ended)) = join(
        &rt,
        || silent_clients(&rt, address, alloc),
        || Pool::run(&rt, alloc, &listener, &shared, seats, 0, 100, 6, &OpenGate),
    );
    assert!(rt; ended.is_ok() && are_right?);
    Ok(())
}

/// A client asks for megabytes and reads none of them before another one is served; then it is told all of them.
fn slow_client<R: Net<Stream = TcpStream>>(
    rt: &R,
    address: SocketAddr,
    alloc: Global,
) -> io::Result<bool> {
    let value = "v".repeat(alloc, 60_000)?;
    let set = format!(in alloc; "{ANN}SET k {value}\n")?;
    let told = format!(in alloc; "$60000\r\n{value}\r\n")?;
    let stream = connected(rt, address)?;
    let mut is_right = is_told(alloc, &stream, set.as_str(), "+OK\r\n+OK\r\n")?;
    let mut slow = connected(rt, address)?;
    slow.write_all(ANN.as_bytes())?;
    slow.write_all("GET k\n".repeat(alloc, 80)?.as_bytes())?;
    is_right = is_right && is_told(alloc, &stream, "GET k\n", told.as_str())?;
    slow.write_all(b"QUIT\n")?;
    Ok(is_right && count_of(&mut slow)? == 80 * 60_010 + 10)
}

/// How many bytes come until the connection is closed.
fn count_of(stream: &mut TcpStream) -> io::Result<usize> {
    let mut piece = [0u8; 4096];
    let mut total: usize = 0;
    for _ in 0..100_000 {
        let count = stream.read(&mut piece)?;
        if count == 0 {
            break;
        }
        total = total.saturating_add(count);
    }
    Ok(total)
}

// Where the replies of one client wait, others are served; none of the replies is lost, or told twice.
#[test]
fn a_client_that_reads_nothing_keeps_nobody_waiting(rt: HostRuntime) -> Result<(), Fail> {
    let alloc = rt.alloc();
    let (shared, seats) = opened::<Unkept, Global>(alloc, alloc, 1)?;
    let listener = TcpListener::bind(&rt, "127.0.0.1:0")?;
    let address = listener.local_addr()?;
    let (are_right, (_, ended)) = join(
        &rt,
        || slow_client(&rt, address, alloc),
        || Pool::run(&rt, alloc, &listener, &shared, seats, 0, 100, 2, &OpenGate),
    );
    assert!(rt; ended.is_ok() && are_right?);
    Ok(())
}

/// While one client is there another one isn't answered; once it has gone it is.
fn one_by_one<R: Net<Stream = TcpStream>>(
    rt: &R,
    address: SocketAddr,
    alloc: Global,
) -> io::Result<bool> {
    let first = connected(rt, address)?;
    let mut is_right = is_told(alloc, &first, ANN, "+OK\r\n")?;
    let mut other = connected(rt, address)?;
    other.write_all(BEN.as_bytes())?;
    other.set_read_timeout(Some(Duration::from_millis(100)))?;
    is_right = is_right && other.read(&mut [0u8; 1]).is_err();
    other.set_read_timeout(None)?;
    drop(first);
    let mut told = [0u8; 5];
    other.read_exact(&mut told)?;
    Ok(is_right && told.as_slice() == b"+OK\r\n".as_slice())
}

// No more clients are served at once than may be there.
#[test]
fn a_client_waits_for_room(rt: HostRuntime) -> Result<(), Fail> {
    let alloc = rt.alloc();
    let (shared, seats) = opened::<Unkept, Global>(alloc, alloc, 2)?;
    let listener = TcpListener::bind(&rt, "127.0.0.1:0")?;
    let address = listener.local_addr()?;
    let (are_right, (_, ended)) = join(
        &rt,
        || one_by_one(&rt, address, alloc),
        || Pool::run(&rt, alloc, &listener, &shared, seats, 0, 1, 2, &OpenGate),
    );
    assert!(rt; ended.is_ok() && are_right?);
    Ok(())
}

/// A listener that doesn't wait, and so has nobody to accept.
fn at_once<R: Net<Listener = TcpListener, Stream = TcpStream>>(rt: &R) -> io::Result<TcpListener> {
    let listener = TcpListener::bind(rt, "127.0.0.1:0")?;
    listener.set_nonblocking(true)?;
    Ok(listener)
}

/// Whether these are seats 1 to 3, in their order.
fn are_three<J: Journal, A: Allocator>(seats: &[Seat<J, A>]) -> bool {
    seats.iter().map(|seat| seat.number()).eq([1, 2, 3])
}

// At a fault all seats come back, the flusher's too.
#[test]
fn seats_come_back_at_a_fault(rt: HostRuntime) -> Result<(), Fail> {
    let alloc = rt.alloc();
    let listener = at_once(&rt)?;
    let (shared, seats) = opened::<Unkept, Global>(alloc, alloc, 3)?;
    let (seats, ended) = Pool::run(&rt, alloc, &listener, &shared, seats, 1, 100, 0, &OpenGate);
    let Err(PoolFault::AcceptFailed(error)) = ended else {
        panic!(rt; "another fault, or none");
    };
    assert!(rt; error.kind() == ErrorKind::WouldBlock);
    assert!(rt; are_three(seats.as_slice()));
    Ok(())
}

/// Whether a pool that this request for memory is refused to gives all its seats back and tells so, or nothing where
/// it asks for fewer.
fn withstands<R: Threads + Wait + Net + Sync, A: Allocator + Copy + Send + Sync, B: Allocator>(
    rt: &R,
    heap: &Refusing<B>,
    (alloc, global): (A, Global),
    listener: &TcpListener,
    at: u64,
) -> Result<Option<bool>, AllocError> {
    heap.set(Plan::Grant);
    let (shared, seats) = opened::<Unkept, A>(alloc, global, 3)?;
    heap.set(Plan::RefuseAt(at));
    let (seats, ended) = Pool::run(rt, alloc, listener, &shared, seats, 1, 100, 0, &OpenGate);
    let asked = heap.asked();
    heap.set(Plan::Grant);
    let is_told = matches!(ended, Err(PoolFault::Refused)) && are_three(seats.as_slice());
    Ok(if asked > at { Some(is_told) } else { None })
}

// Each request for memory of a pool itself is refused in turn; its workers have nothing to serve.
#[test]
fn a_pool_withstands_each_refusal(rt: HostRuntime) -> Result<(), Fail> {
    let heap = Refusing::new(rt.alloc());
    let listener = at_once(&rt)?;
    let mut refusals = 0u64;
    for at in 0..100u64 {
        let Some(is_told) = withstands(&rt, &heap, (&heap, rt.alloc()), &listener, at)? else {
            break;
        };
        assert!(rt; is_told, "request {at}");
        refusals = at + 1;
    }
    assert!(rt; refusals >= 3 && refusals < 100, "{refusals} refusals");
    Ok(())
}
