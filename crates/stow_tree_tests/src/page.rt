//! What no clause says: that the format's definition gives the bytes of worked examples, and that the calls succeed where there
//! is memory.
use crate::keys::Keys;
use std::alloc::{AllocError, Allocator};
use std::test::Fail;
use stow_page::packed_rows::PackedRows;
use stow_page::page::{Page, pack, unpack};
use stow_page::page_fault::PageFault;
use stow_page::rows::{Rows, at};
use stow_refusing::{Plan, Refusing};
use stow_tree_model::tenant_key::TenantKey;

/// The page of tenant 1, key `a`, number 1, with the value `x`.
const WORKED: &[u8] =
    b"\x01\x00\x00\x00\x01\x00\x05\x00\x00\x00\x01a\x00\x00\x00\x00\x00\x00\x00\x01\x00\x00\x01x";

/// Its entry.
const ENTRY: &[u8] = b"\x00\x05\x00\x00\x00\x01a\x00\x00\x00\x00\x00\x00\x00\x01\x00\x00\x01x";

/// Two versions of a key: the value `x` by write 1, and a tombstone by write 2.
const REMOVED: &[u8] =
    b"\x01\x00\x00\x00\x02\x00\x05\x00\x00\x00\x01a\x00\x00\x00\x00\x00\x00\x00\x01\x00\x00\x01x\x00\x05\x00\x00\x00\x01a\x00\x00\x00\x00\x00\x00\x00\x02\x01";

/// A tombstone by write 2 behind it.
const GONE: &[u8] = b"\x00\x05\x00\x00\x00\x01a\x00\x00\x00\x00\x00\x00\x00\x02\x01";

/// The page of the second one alone.
const SECOND: &[u8] =
    b"\x01\x00\x00\x00\x01\x00\x05\x00\x00\x00\x01a\x00\x00\x00\x00\x00\x00\x00\x02\x01";

/// A page in format 2, up to the length of a put's value.
const TWO: &[u8] =
    b"\x02\x00\x00\x00\x01\x00\x05\x00\x00\x00\x01a\x00\x00\x00\x00\x00\x00\x00\x01\x00";

/// Lengths in format 2: 1, 65,535, 65,536, 1,048,576 and 1,048,577 bytes.
const ONE: &[u8] = b"\x00\x00\x00\x01";

const SHORT: &[u8] = b"\x00\x00\xff\xff";

const LONG: &[u8] = b"\x00\x01\x00\x00";

const LONGEST: &[u8] = b"\x00\x10\x00\x00";

const LONGER: &[u8] = b"\x00\x10\x00\x01";

/// The bytes of a name.
fn named(word: &str) -> &'static [u8] {
    match word {
        "worked" => WORKED,
        "removed" => REMOVED,
        "entry" => ENTRY,
        "gone" => GONE,
        "two" => TWO,
        "header" => &[1, 0, 0, 0, 0],
        "zero" => &[0],
        "one" => ONE,
        "short" => SHORT,
        "long" => LONG,
        "longest" => LONGEST,
        "longer" => LONGER,
        _ => &[],
    }
}

/// Pages that ask for little memory.
pub(crate) const FEW: &str = "worked => 0
removed => 0
header => 0
worked @0=0 => 1
worked @4=2 => 2
worked @4=2 entry => 3
worked zero => 4";

/// Bytes, and the fault of them as a page, or 0 where they have none. A word is the bytes of a name; `@` a place and another byte
/// there, and `x` how often an `x` comes. Bytes are changed of a format, a count, a key's length, its tenant, its number, its
/// kind, and a value's length.
const PAGES: &str = "worked @0=2 => 2
worked @0=3 => 1
worked @0=255 => 1
worked @1=1 => 2
worked @4=0 => 4
worked @5=4 => 4
worked @6=3 => 4
worked @6=4 => 4
worked @7=1 => 4
worked @8=1 => 4
worked @10=0 => 4
worked @10=255 => 0
worked @11=0 => 0
worked @12=127 => 0
worked @12=128 => 4
worked @19=0 => 4
worked @20=1 => 4
worked @20=2 => 4
worked @21=1 => 2
worked @22=0 => 4
worked @22=2 => 2
removed @30=96 => 3
removed @30=98 => 0
removed @38=0 => 4
removed @38=1 => 3
removed @38=3 => 0
removed @39=0 => 2
nothing => 2
header @0=2 => 4
two one x1 => 4
two one => 2
two short x65535 => 4
two short => 2
two long x65535 => 2
two long x65536 => 0
two @4=2 long x65536 gone => 0
two longest x1048576 => 0
two longest => 2
two longer x1048577 => 4
two zero zero zero => 2
two @20=1 => 4";

fn number(text: &str) -> usize {
    text.parse::<usize>().unwrap_or(0)
}

/// Puts another byte at a place.
fn put_at(bytes: &mut [u8], at: usize, byte: u8) {
    if at < bytes.len() {
        bytes[at] = byte;
    }
}

/// Changes a byte as a word says.
fn change(bytes: &mut [u8], text: &str) {
    if let Some((at, byte)) = text.split_once("=") {
        put_at(bytes, number(at), byte.parse::<u8>().unwrap_or(0));
    }
}

/// Adds what a word stands for, or changes what is there.
fn push_word<A: Allocator>(bytes: &mut Vec<u8, A>, word: &str) -> Result<(), AllocError> {
    if let Some(text) = word.strip_prefix("@") {
        change(bytes.as_mut_slice(), text);
        return Ok(());
    }
    match word.strip_prefix("x") {
        Some(count) => bytes.resize(bytes.len().saturating_add(number(count)), b'x'),
        None => bytes.extend_from_slice(named(word)),
    }
}

/// The bytes of a line's words.
fn bytes_of<A: Allocator>(alloc: A, words: &str) -> Result<Vec<u8, A>, AllocError> {
    let mut bytes = Vec::new(alloc);
    for word in words.split_whitespace() {
        push_word(&mut bytes, word)?;
    }
    Ok(bytes)
}

/// The rows of a page from elsewhere, or why there are none.
fn read<A: Allocator + Copy>(alloc: A, bytes: Vec<u8, A>) -> Result<Rows<A>, PageFault> {
    if bytes.len() >= 16_777_216 {
        return Err(PageFault::Memory);
    }
    match Page::from_bytes(alloc, bytes) {
        Ok(page) => unpack(alloc, &page),
        Err(_) => Err(PageFault::Memory),
    }
}

/// The rows of the worked page, by this write.
pub(crate) fn rows_of<A: Allocator + Copy>(alloc: A, number: u8) -> Result<Rows<A>, AllocError> {
    let mut bytes = Vec::from_slice(alloc, WORKED)?;
    put_at(bytes.as_mut_slice(), 19, number);
    match read(alloc, bytes) {
        Ok(rows) => Ok(rows),
        Err(_) => Err(AllocError),
    }
}

/// Whether rows are the page of these bytes, also once they are shared.
fn are_page<A: Allocator + Copy>(rows: &Rows<A>, bytes: &[u8]) -> Result<bool, AllocError> {
    Ok(pack(&rows.share()?)?.share()?.as_bytes() == bytes)
}

/// The number of the fault of these bytes, or 0 where they are read and are the page of their rows.
fn fault_of<A: Allocator + Copy>(alloc: A, bytes: &[u8]) -> Result<u8, AllocError> {
    match read(alloc, Vec::from_slice(alloc, bytes)?) {
        Ok(rows) => Ok(if are_page(&rows, bytes)? { 0 } else { 9 }),
        Err(PageFault::Memory) => Err(AllocError),
        Err(fault) => Ok(fault.number()),
    }
}

/// Whether a line's bytes are told their fault.
fn is_told<A: Allocator + Copy>(alloc: A, line: &str) -> Result<bool, AllocError> {
    let (words, fault) = line.split_once(" => ").unwrap_or((line, ""));
    let bytes = bytes_of(alloc, words)?;
    Ok(usize::from(fault_of(alloc, bytes.as_slice())?) == number(fault))
}

/// Whether all lines are told their fault. Refused memory is an `Err`.
pub(crate) fn are_told<A: Allocator + Copy>(alloc: A, table: &str) -> Result<bool, AllocError> {
    for line in table.lines() {
        if !is_told(alloc, line)? {
            return Ok(false);
        }
    }
    Ok(true)
}

/// Whether a page that ends before its last byte, wherever that is, is told so.
fn are_cut_off<A: Allocator + Copy>(alloc: A, page: &[u8]) -> Result<bool, AllocError> {
    for end in 0..page.len() {
        if fault_of(alloc, &page[..end])? != 2 {
            return Ok(false);
        }
    }
    Ok(true)
}

/// The page of a key's first versions, so many.
fn long_page<A: Allocator>(alloc: A, count: u32) -> Result<Vec<u8, A>, AllocError> {
    let mut page = Vec::from_slice(alloc, &[1])?;
    page.extend_from_slice(&count.to_be_bytes())?;
    for number in 0..count {
        page.extend_from_slice(b"\x00\x05\x00\x00\x00\x01a")?;
        page.extend_from_slice(&(u64::from(number) + 1).to_be_bytes())?;
        page.extend_from_slice(b"\x00\x00\x01x")?;
    }
    Ok(page)
}

/// Whether the rows of these bytes, pushed one by one, are their page.
fn is_pushed_anew<A: Allocator + Copy>(alloc: A, bytes: Vec<u8, A>) -> Result<bool, AllocError> {
    let Ok(rows) = read(alloc, bytes) else {
        return Ok(false);
    };
    is_pushed(alloc, &rows, pack(&rows)?.as_bytes())
}

/// Whether the rows, pushed one by one, are the page of these bytes.
fn is_pushed<A: Allocator + Copy>(
    alloc: A,
    rows: &Rows<A>,
    bytes: &[u8],
) -> Result<bool, AllocError> {
    let mut packed = PackedRows::new(alloc)?;
    for i in 0..rows.len() {
        let version = rows.get(i);
        if packed.is_below(version) && packed.has_room_for(version) {
            packed.push(version)?;
        }
    }
    Ok(packed.as_bytes() == bytes && !packed.is_empty() && packed.len() == rows.len())
}

/// The page of the last rows, after so many, taken over as they stand, in a block of just its size: of none where they can't be.
fn taken<A: Allocator + Copy>(
    alloc: A,
    packed: &PackedRows<A>,
    from: usize,
) -> Result<PackedRows<A>, AllocError> {
    let mut into = PackedRows::new(alloc)?;
    let to = packed.len();
    if from <= to && into.can_take(packed, from, to) {
        into.push_rows(packed, from, to)?;
    }
    into.exact(alloc)
}

/// Whether the worked page is known to be of one value alone and is taken over, and the second of two versions of a key is, which aren't.
fn are_taken<A: Allocator + Copy>(alloc: A) -> Result<bool, AllocError> {
    let one = rows_of(alloc, 1)?;
    let Ok(two) = read(alloc, Vec::from_slice(alloc, REMOVED)?) else {
        return Ok(false);
    };
    let whole = taken(alloc, one.packed(), 0)?;
    let second = taken(alloc, two.packed(), 1)?;
    Ok(
        one.are_alone()
            && !two.are_alone()
            && whole.as_bytes() == WORKED
            && second.as_bytes() == SECOND,
    )
}

/// Whether the rows of a removed key have a value at 1, and nothing before and after it.
fn is_looked_up<A: Allocator>(rows: &Rows<A>, key: TenantKey<'_>) -> bool {
    at(rows, key, 0).is_none()
        && at(rows, key, 1) == Some(b"x".as_slice())
        && at(rows, key, 2).is_none()
}

/// Whether look-ups find what rows have with every request for memory refused.
fn are_looked_up<A: Allocator + Copy, B: Allocator>(
    heap: &Refusing<B>,
    alloc: A,
) -> Result<bool, AllocError> {
    let Ok(rows) = read(alloc, Vec::from_slice(alloc, REMOVED)?) else {
        return Ok(false);
    };
    let keys = Keys::new(alloc, b"a")?;
    heap.set(Plan::RefuseAll);
    Ok(is_looked_up(&rows, keys.at(0)) && heap.asked() == 0)
}

/// Whether all pages are told their faults.
fn are_all_told<A: Allocator + Copy>(alloc: A) -> Result<bool, AllocError> {
    Ok(
        are_told(alloc, FEW)?
            && are_told(alloc, PAGES)?
            && are_cut_off(alloc, WORKED)?
            && are_cut_off(alloc, REMOVED)?,
    )
}

/// Whether a long page is read and made.
fn is_long_pushed<A: Allocator + Copy>(alloc: A) -> Result<bool, AllocError> {
    is_pushed_anew(alloc, long_page(alloc, 3_000)?)
}

#[test]
fn worked_pages(rt: HostRuntime) -> Result<(), Fail> {
    let heap = Refusing::new(rt.alloc());
    assert!(rt; are_all_told(&heap)?);
    assert!(rt; is_long_pushed(&heap)?);
    assert!(rt; are_taken(&heap)?);
    assert!(rt; are_looked_up(&heap, &heap)?);
    Ok(())
}
