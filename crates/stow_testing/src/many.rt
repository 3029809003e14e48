//! Rows of one tenant that are more than a small node holds: requests that write and read them, with their replies.
use crate::spelling::push_array;
use std::alloc::{AllocError, Allocator};

/// How many rows there are.
const ROWS: u32 = 400;

/// How many bytes each value has.
const SIZE: usize = 10_000;

/// A request's bytes, and those of its reply.
#[derive(Drop)]
pub struct Exchange<A: Allocator> {
    pub asked: Vec<u8, A>,
    pub told: Vec<u8, A>,
}

fn make_exchange<A: Allocator + Copy>(
    alloc: A,
    line: &str,
    told: &str,
) -> Result<Exchange<A>, AllocError> {
    let mut asked = Vec::new(alloc);
    push_array(alloc, &mut asked, line)?;
    Ok(Exchange {
        asked,
        told: Vec::from_slice(alloc, told.as_bytes())?,
    })
}

/// What a login of ann's is.
pub fn login<A: Allocator + Copy>(alloc: A) -> Result<Exchange<A>, AllocError> {
    make_exchange(alloc, "AUTH ann bc", "+OK\r\n")
}

/// The value of each row.
fn value<A: Allocator + Copy>(alloc: A) -> Result<String<A>, AllocError> {
    String::from_utf8_lossy(alloc, vec![in alloc; b'v'; SIZE]?.as_slice())
}

/// Sets `k000` and those after it.
pub fn writes<A: Allocator + Copy>(alloc: A) -> Result<Vec<Exchange<A>, A>, AllocError> {
    let value = value(alloc)?;
    let mut all = Vec::new(alloc);
    for index in 0..ROWS {
        let line = format!(in alloc; "SET k{index:03} {value}")?;
        all.push(make_exchange(alloc, line.as_str(), "+OK\r\n")?)?;
    }
    Ok(all)
}

/// Reads each of them, and then all at once.
pub fn reads<A: Allocator + Copy>(alloc: A) -> Result<Vec<Exchange<A>, A>, AllocError> {
    let value = value(alloc)?;
    let bulk = format!(in alloc; "${SIZE}\r\n{value}\r\n")?;
    let mut all = Vec::new(alloc);
    let mut rows = format!(in alloc; "*{}\r\n", 2 * ROWS)?;
    for index in 0..ROWS {
        let line = format!(in alloc; "GET k{index:03}")?;
        all.push(make_exchange(alloc, line.as_str(), bulk.as_str())?)?;
        rows.push_str(format!(in alloc; "$4\r\nk{index:03}\r\n{bulk}")?.as_str())?;
    }
    all.push(make_exchange(alloc, "RANGE '' '' 1024", rows.as_str())?)?;
    Ok(all)
}
