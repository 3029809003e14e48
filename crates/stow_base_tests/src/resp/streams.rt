//! Streams of arrays and lines, in any cutting, and by the plain reader of `stow_model`.
use crate::resp::telling::{is_fault, is_read, is_told, is_told_in_pieces, told_plainly};
use std::alloc::{AllocError, Allocator};
use std::test::Fail;
use stow_refusing::{Plan, Refusing};

const WORKED: &[u8] =
    b"*3\r\n$4\r\nAUTH\r\n$3\r\nann\r\n$2\r\nbc\r\n*3\r\n$3\r\nSET\r\n$1\r\nk\r\n$2\r\nv1\r\n*2\r\n$3\r\nGET\r\n$1\r\nk\r\n";

/// Streams, what is told of each, and how many bytes are left: whole messages, blanks, and what stands after them. Of lines: words
/// between spaces and tabs, blanks, quoted lines; a CR before the LF and elsewhere; and lines among arrays. All messages come
/// before the fault.
const STREAMS: [(&[u8], &[u8], usize); 42] = [
    (b"", b".", 0),
    (WORKED, b"M[AUTH][ann][bc]M[SET][k][v1]M[GET][k].", 0),
    (b"*1024\r\n$1048576\r\n", b".", 17),
    (b"*1024\r\n$65535\r\n", b".", 15),
    (b"*1\r\n$1048576\r\nab", b".", 16),
    (
        b"*1\r\n$4\r\nPING\r\n*2\r\n$3\r\nGET\r\n$5\r\nabc",
        b"M[PING].",
        20,
    ),
    (
        b"*1\r\n$4\r\nPING\r\n*1\r\n$1048577\r\n*1\r\n$4\r\nPING\r\n",
        b"M[PING]invalid bulk length",
        28,
    ),
    (
        b"*0\r\n*1\r\n$4\r\nPING\r\n*-1\r\n*1\r\nX",
        b"BM[PING]Bexpected '$'",
        5,
    ),
    (b"*0\r\n*-1\r\n*1\r\n$0\r\n\r\n", b"BBM[].", 0),
    (b"*1\r\n$4\r\n\r\n\r\n\r\n*0\r\n", b"M[\r\n\r\n]B.", 0),
    (b"set k v\r\n", b"M[set][k][v].", 0),
    (b"GET  k\n", b"M[GET][k].", 0),
    (b"\r\n*0\r\n*-1\r\n", b"BBB.", 0),
    (b"SET k \"w\"\r\n", b"Q.", 0),
    (b"GET k\r\n", b"M[GET][k].", 0),
    (b"PING\n", b"M[PING].", 0),
    (b"PING\r\n", b"M[PING].", 0),
    (b"PING\r\r\n", b"M[PING\r].", 0),
    (b"PI\rNG\n", b"M[PI\rNG].", 0),
    (b"\rPING\n", b"M[\rPING].", 0),
    (b"\r\r\n", b"M[\r].", 0),
    (b"\n", b"B.", 0),
    (b" \t \t\r\n", b"B.", 0),
    (b"\t GET\t\tk \n", b"M[GET][k].", 0),
    (b"\t a\tb \r\r\n", b"M[a][b][\r].", 0),
    (b"a\x00\x0b\x0c\xff b\n", b"M[a\x00\x0b\x0c\xff][b].", 0),
    (b"\"\n", b"Q.", 0),
    (b"'\r\n", b"Q.", 0),
    (b"it's\nPING\n", b"QM[PING].", 0),
    (b" a \"\"\n", b"Q.", 0),
    (b"$5\r\n+OK\n", b"M[$5]M[+OK].", 0),
    (b"+OK\r\n", b"M[+OK].", 0),
    (b"-1\r\n", b"M[-1].", 0),
    (b":1\n", b"M[:1].", 0),
    (b" *0\r\n", b"M[*0].", 0),
    (b"$5", b".", 2),
    (b"\r", b".", 1),
    (b"\n\n\r", b"BB.", 1),
    (b"*0\r\nPING", b"B.", 4),
    (
        b"PING\r\n*1\r\n$4\r\nQUIT\r\n\nPING\n*",
        b"M[PING]M[QUIT]BM[PING].",
        1,
    ),
    (
        b"*1\r\n$4\r\nPING\r\nPING\r\nECHO m\n*1\r\n$4\r\nQUIT\r\n\n*",
        b"M[PING]M[PING]M[ECHO][m]M[QUIT]B.",
        1,
    ),
    (b"PING\n*1\r\nX", b"M[PING]expected '$'", 5),
];

/// Whether a stream is told so in any cutting, and by the plain reader.
fn is_stream<A: Allocator + Copy>(
    alloc: A,
    bytes: &[u8],
    told: &[u8],
    left: usize,
) -> Result<bool, AllocError> {
    Ok(is_told(alloc, bytes, told)? && is_read(alloc, bytes, told, left)?)
}

#[test]
fn cuts_do_not_matter(rt: HostRuntime) -> Result<(), Fail> {
    for (number, (bytes, told, left)) in STREAMS.iter().enumerate() {
        assert!(rt;
            is_stream(rt.alloc(), bytes, told, *left)?,
            "stream {number}"
        );
    }
    Ok(())
}

const LENGTH: &[u8] = b"invalid multibulk length";

const BULK: &[u8] = b"expected '$'";

const SIZE: &[u8] = b"invalid bulk length";

const END: &[u8] = b"bulk not ended by CRLF";

/// Beginnings that can become no message, with the fault that their last byte makes.
const FAULTY: [(&[u8], &[u8]); 29] = [
    (b"*\r", LENGTH),
    (b"*+", LENGTH),
    (b"* ", LENGTH),
    (b"*-2", LENGTH),
    (b"*-\r", LENGTH),
    (b"*-10", LENGTH),
    (b"*-1\n", LENGTH),
    (b"*-1\rX", LENGTH),
    (b"*-1X", LENGTH),
    (b"*00", LENGTH),
    (b"*01", LENGTH),
    (b"*1025", LENGTH),
    (b"*2000", LENGTH),
    (b"*10000", LENGTH),
    (b"*1\n", LENGTH),
    (b"*1\rX", LENGTH),
    (b"*1\r\nX", BULK),
    (b"*1\r\n*", BULK),
    (b"*2\r\n$1\r\na\r\n1", BULK),
    (b"*1\r\n$-", SIZE),
    (b"*1\r\n$\r", SIZE),
    (b"*1\r\n$05", SIZE),
    (b"*1\r\n$1048577", SIZE),
    (b"*1\r\n$2000000", SIZE),
    (b"*1\r\n$10485760", SIZE),
    (b"*1\r\n$3\rX", SIZE),
    (b"*1\r\n$1\r\naX", END),
    (b"*1\r\n$0\r\n\n", END),
    (b"*1\r\n$1\r\na\rX", END),
];

/// Whether such a beginning is faulty at its last byte, and not before, for an input and for the plain reader.
fn is_faulty<A: Allocator + Copy>(
    alloc: A,
    bytes: &[u8],
    fault: &[u8],
) -> Result<bool, AllocError> {
    let (front, _) = bytes.split_at(bytes.len().saturating_sub(1));
    Ok(
        is_fault(alloc, bytes, fault)?
            && is_read(alloc, bytes, fault, bytes.len())?
            && is_read(alloc, front, b".", front.len())?,
    )
}

#[test]
fn faults_come_at_their_byte(rt: HostRuntime) -> Result<(), Fail> {
    for (number, (bytes, fault)) in FAULTY.iter().enumerate() {
        assert!(rt; is_faulty(rt.alloc(), bytes, fault)?, "beginning {number}");
    }
    Ok(())
}

/// Numbers that look random: the next one, from the one before.
fn next_random(number: u64) -> u64 {
    number
        .wrapping_mul(6_364_136_223_846_793_005)
        .wrapping_add(1_442_695_040_888_963_407)
}

/// What drawn streams are made of.
const PARTS: [&[u8]; 16] = [
    b"PING\r\n",
    b" SET  k\tv \n",
    b"\n",
    b"\t\r\n",
    b"a\rb\r\r\n",
    b"'q\n",
    b"\"\r\n",
    b"$3\r\n",
    b"*0\r\n",
    b"*-1\r\n",
    b"*1\r\n$0\r\n\r\n",
    b"*2\r\n$3\r\nGET\r\n$1\r\nk\r\n",
    b"*1\r\n$4\r\n\r\n*\n\r\n",
    b"*1\r\n$12\r\n",
    b"*",
    b"x",
];

/// A stream of some parts that are drawn, with some bytes changed.
fn random_stream<A: Allocator>(alloc: A, seed: u64) -> Result<Vec<u8, A>, AllocError> {
    let mut bytes = Vec::new(alloc);
    let mut number = next_random(seed);
    for _ in 0..6 {
        number = next_random(number);
        bytes.extend_from_slice(PARTS[(number >> 60) as usize % 16])?;
        let back = (number >> 50) as usize % 32;
        let place = bytes.len().saturating_sub(back);
        if let Some(byte) = bytes.get_mut(place) {
            *byte = b"\r\n*$ '10x\t"[(number >> 40) as usize % 10];
        }
    }
    Ok(bytes)
}

/// Whether a stream is told as the plain reader tells it, wherever it is cut.
fn is_told_plainly<A: Allocator + Copy>(alloc: A, bytes: &[u8]) -> Result<bool, AllocError> {
    is_told(alloc, bytes, told_plainly(alloc, bytes)?.as_slice())
}

/// Whether a drawn stream is.
fn is_drawn_told<A: Allocator + Copy>(alloc: A, seed: u64) -> Result<bool, AllocError> {
    is_told_plainly(alloc, random_stream(alloc, seed)?.as_slice())
}

#[test]
fn random_streams(rt: HostRuntime) -> Result<(), Fail> {
    for seed in 0..200u64 {
        assert!(rt; is_drawn_told(rt.alloc(), seed)?, "stream {seed}");
    }
    Ok(())
}

/// Whether a stream in pieces of five bytes behind a first one is told as the plain reader tells it.
fn is_cut_plainly<A: Allocator + Copy>(
    alloc: A,
    bytes: &[u8],
    first: usize,
) -> Result<bool, AllocError> {
    let told = told_plainly(alloc, bytes)?;
    is_told_in_pieces(alloc, bytes, (first, 5), told.as_slice())
}

/// Whether the worked stream with its byte at a place changed to each value is.
fn is_told_when_changed<A: Allocator + Copy>(alloc: A, place: usize) -> Result<bool, AllocError> {
    let mut changed = Vec::from_slice(alloc, WORKED)?;
    for value in 0..=255u8 {
        if let Some(byte) = changed.get_mut(place) {
            *byte = value;
        }
        if !is_cut_plainly(alloc, changed.as_slice(), place)? {
            return Ok(false);
        }
    }
    Ok(true)
}

#[test]
fn each_byte_changed(rt: HostRuntime) -> Result<(), Fail> {
    for place in 0..WORKED.len() {
        assert!(rt; is_told_when_changed(rt.alloc(), place)?, "byte {place}");
    }
    Ok(())
}

/// Whether the plain reader tells a stream of an array, a blank and a line.
fn is_each_read<A: Allocator + Copy>(alloc: A) -> Result<bool, AllocError> {
    let bytes = b"*2\r\n$3\r\nGET\r\n$1\r\nk\r\n*0\r\nSET k  v\r\n";
    is_read(alloc, bytes, b"M[GET][k]BM[SET][k][v].", 0)
}

// Each request for memory of the plain reader is refused in turn: the call names the want of memory, and the same call made
// again succeeds.
#[test]
fn read_withstands_each_refusal(rt: HostRuntime) -> Result<(), Fail> {
    let heap = Refusing::new(rt.alloc());
    assert!(rt; is_each_read(&heap)?);
    let needed = heap.asked();
    for at in 0..needed {
        heap.set(Plan::RefuseAt(at));
        assert!(rt; is_each_read(&heap).is_err(), "request {at}");
    }
    heap.set(Plan::RefuseAt(needed));
    assert!(rt; is_each_read(&heap)? && needed >= 4);
    Ok(())
}
