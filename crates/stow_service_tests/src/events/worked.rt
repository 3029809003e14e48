//! Worked requests: each list by a run of the house, and by the tenant's own run.
use crate::events::clients::request_of;
use crate::making::ran;
use std::alloc::{AllocError, Allocator, Global};
use std::test::Fail;
use stow_bytes::byte_string::ByteString;
use stow_model::event::Event;
use stow_model::reply::Reply;
use stow_plain::own_run::own_run;
use stow_plain::plain_request::PlainRequest;
use stow_resp::encode::Encode;
use stow_testing::rows::{ROWS, Told, asked, told};
use stow_testing::tenants::{QUOTA, THREE};

/// The number of the one connection.
const CONNECTION: u32 = 1;

/// A login and a list's requests, as one piece.
fn piece_of<A: Allocator + Copy>(alloc: A, row: &[Told]) -> Result<Event<A>, AllocError> {
    let bytes = ByteString::from_vec(asked(alloc, row)?);
    Ok(Event::Piece(CONNECTION, bytes))
}

/// A connection that sends a login and a list's requests at once, and is served each.
fn events_of<A: Allocator + Copy>(alloc: A, row: &[Told]) -> Result<Vec<Event<A>, A>, AllocError> {
    let mut events = Vec::new(alloc);
    events.push(Event::Open(CONNECTION))?;
    events.push(piece_of(alloc, row)?)?;
    events.push(Event::Serve(CONNECTION))?;
    for _ in row {
        events.push(Event::Serve(CONNECTION))?;
    }
    Ok(events)
}

/// A list's requests as a tenant's own.
fn requests_of<A: Allocator + Copy>(
    alloc: A,
    row: &[Told],
) -> Result<Vec<PlainRequest<A>, A>, AllocError> {
    let mut requests = Vec::new(alloc);
    for (line, _) in row {
        requests.push(request_of(alloc, line, false)?)?;
    }
    Ok(requests)
}

/// The bytes that a new house tells to a list's requests, after the reply to the login.
fn told_by_house<A: Allocator + Copy>(
    alloc: A,
    global: Global,
    row: &[Told],
) -> Result<Vec<u8, A>, AllocError> {
    let events = events_of(alloc, row)?;
    ran(alloc, global, THREE, events.as_slice())?.bytes(alloc, CONNECTION)
}

/// The bytes of the reply to a login and of replies.
fn spelled<A: Allocator + Copy>(alloc: A, replies: &[Reply<A>]) -> Result<Vec<u8, A>, AllocError> {
    let mut bytes = Vec::from_slice(alloc, b"+OK\r\n")?;
    for reply in replies {
        reply.write(&mut bytes)?;
    }
    Ok(bytes)
}

/// The bytes that the tenant's own run tells to a list's requests, after the reply to a login.
fn told_alone<A: Allocator + Copy>(alloc: A, row: &[Told]) -> Result<Vec<u8, A>, AllocError> {
    let requests = requests_of(alloc, row)?;
    let own = own_run(alloc, QUOTA, requests.as_slice())?;
    spelled(alloc, own.replies.as_slice())
}

/// The bytes that a list is to be told, after the reply to a login.
fn wanted<A: Allocator + Copy>(alloc: A, row: &[Told]) -> Result<Vec<u8, A>, AllocError> {
    let mut bytes = Vec::from_slice(alloc, b"+OK\r\n")?;
    bytes.extend_from_slice(told(alloc, row)?.as_slice())?;
    Ok(bytes)
}

/// Whether these are the bytes that a list is to be told.
fn are_wanted<A: Allocator + Copy>(
    alloc: A,
    row: &[Told],
    bytes: &[u8],
) -> Result<bool, AllocError> {
    Ok(wanted(alloc, row)?.as_slice() == bytes)
}

/// Whether a new house, and the tenant's own run, tell what a list is to be told.
fn is_answered<A: Allocator + Copy>(
    alloc: A,
    global: Global,
    row: &[Told],
) -> Result<bool, AllocError> {
    Ok(
        are_wanted(alloc, row, told_by_house(alloc, global, row)?.as_slice())?
            && are_wanted(alloc, row, told_alone(alloc, row)?.as_slice())?,
    )
}

#[test]
fn worked_requests(rt: HostRuntime) -> Result<(), Fail> {
    for (number, row) in ROWS.iter().enumerate() {
        assert!(rt; is_answered(rt.alloc(), rt.alloc(), row)?, "list {number}");
    }
    Ok(())
}
