//! What happens on connections, and between their requests.
use std::alloc::{AllocError, Allocator};
use stow_bytes::byte_string::ByteString;
use stow_model::event::Event;
use stow_testing::random::Random;
use stow_testing::spelling::push_array;

/// What happens on a connection, or to a flusher's job. A request is a line of words.
#[derive(Clone, Copy)]
pub(crate) enum Act {
    Open(u32),
    Send(u32, &'static str),
    Serve(u32),
    Plan(u32),
    Merge(u32),
    Install(u32),
}

impl Act {
    /// Its connection, and 0 of a flusher's.
    pub(crate) fn connection(self) -> u32 {
        match self {
            Act::Open(c) | Act::Send(c, _) | Act::Serve(c) => c,
            Act::Plan(_) | Act::Merge(_) | Act::Install(_) => 0,
        }
    }
}

/// The request's spelling in array form.
fn spelled<A: Allocator + Copy>(alloc: A, line: &str) -> Result<ByteString<A>, AllocError> {
    let mut bytes = Vec::new(alloc);
    push_array(alloc, &mut bytes, line)?;
    Ok(ByteString::from_vec(bytes))
}

/// The event of an act.
pub(crate) fn event_of<A: Allocator + Copy>(alloc: A, act: Act) -> Result<Event<A>, AllocError> {
    Ok(match act {
        Act::Open(c) => Event::Open(c),
        Act::Send(c, line) => Event::Piece(c, spelled(alloc, line)?),
        Act::Serve(c) => Event::Serve(c),
        Act::Plan(f) => Event::Plan(f),
        Act::Merge(f) => Event::Merge(f),
        Act::Install(f) => Event::Install(f),
    })
}

pub(crate) fn events_of<A: Allocator + Copy>(
    alloc: A,
    acts: &[Act],
) -> Result<Vec<Event<A>, A>, AllocError> {
    let mut events = Vec::new(alloc);
    for act in acts {
        events.push(event_of(alloc, *act)?)?;
    }
    Ok(events)
}

/// The acts of one connection alone.
pub(crate) fn acts_of<A: Allocator>(
    alloc: A,
    connection: u32,
    acts: &[Act],
) -> Result<Vec<Act, A>, AllocError> {
    let mut own = Vec::new(alloc);
    for act in acts {
        if act.connection() == connection {
            own.push(*act)?;
        }
    }
    Ok(own)
}

/// The login of the first tenant.
pub(crate) const ANN: &str = "AUTH ann bc";

const BEN: &str = "AUTH ben c";

/// Two tenants, each on a connection, with the same key.
pub(crate) const ACTS: [Act; 22] = [
    Act::Open(1),
    Act::Send(1, "GET k"),
    Act::Serve(1),
    Act::Open(2),
    Act::Send(1, ANN),
    Act::Send(2, BEN),
    Act::Serve(1),
    Act::Serve(2),
    Act::Send(1, "SET k A"),
    Act::Serve(1),
    Act::Send(2, "SET k B"),
    Act::Serve(2),
    Act::Send(1, "GET k"),
    Act::Serve(1),
    Act::Send(2, "DEL k k"),
    Act::Serve(2),
    Act::Send(1, "get k"),
    Act::Serve(1),
    Act::Send(2, "GET k"),
    Act::Serve(2),
    Act::Serve(2),
    Act::Serve(3),
];

/// What each connection asks, in the order of the events, where one changes hands.
const HANDED_OVER: [(u32, &str); 14] = [
    (1, ANN),
    (1, "SET k ann"),
    (1, BEN),
    (1, "GET k"),
    (1, "SET k ben"),
    (1, "AUTH ann c"),
    (1, "GET k"),
    (1, "AUTH ann"),
    (1, "GET k"),
    (2, ANN),
    (2, "GET k"),
    (1, ANN),
    (1, "GET k"),
    (2, "DEL k"),
];

/// Two connections, on which these requests are sent and served in turn.
pub(crate) fn handed_over<A: Allocator>(alloc: A) -> Result<Vec<Act, A>, AllocError> {
    let mut acts = Vec::new(alloc);
    acts.push(Act::Open(1))?;
    acts.push(Act::Open(2))?;
    for (c, line) in HANDED_OVER {
        acts.push(Act::Send(c, line))?;
        acts.push(Act::Serve(c))?;
    }
    Ok(acts)
}

const REQUESTS: [&str; 12] = [
    "SET a 1",
    "SET a 22",
    "SET '' ''",
    "GET a",
    "GET ''",
    "GET b",
    "SET b x",
    "DEL a",
    "DEL a b a",
    "PING",
    "PING text",
    "HELLO 3",
];

/// What two flushers do in turn. The second one's result is installed a turn later.
const FLUSHES: [Act; 6] = [
    Act::Install(2),
    Act::Plan(1),
    Act::Plan(2),
    Act::Merge(2),
    Act::Merge(1),
    Act::Install(1),
];

/// What two tenants begin with.
const LOGINS: [Act; 4] = [
    Act::Open(1),
    Act::Open(2),
    Act::Send(1, ANN),
    Act::Send(2, BEN),
];

/// Two logins, and then so many random requests and services.
pub(crate) fn random_acts<A: Allocator>(alloc: A, count: u32) -> Result<Vec<Act, A>, AllocError> {
    let mut random = Random::new(7);
    let mut acts = Vec::from_slice(alloc, &LOGINS)?;
    for _ in 0..count {
        let connection = 1 + random.below(2);
        let act = if random.below(2) == 0 {
            Act::Send(connection, random.one_of(&REQUESTS))
        } else {
            Act::Serve(connection)
        };
        acts.push(act)?;
    }
    Ok(acts)
}

/// The acts, and after every third one what two flushers do.
pub(crate) fn with_flushes<A: Allocator>(
    alloc: A,
    acts: &[Act],
) -> Result<Vec<Act, A>, AllocError> {
    let mut all = Vec::new(alloc);
    for (place, act) in acts.iter().enumerate() {
        all.push(*act)?;
        if place % 3 == 2 {
            all.extend_from_slice(&FLUSHES)?;
        }
    }
    Ok(all)
}
