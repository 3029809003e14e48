//! Connections as their clients see them: what each is to be told, by each tenant's own run.
use crate::events::acts::Act;
use std::alloc::{AllocError, Allocator};
use stow_house::mark::Mark;
use stow_house::outputs::Outputs;
use stow_model::reply::Reply;
use stow_plain::own_run::own_run;
use stow_plain::plain_request::PlainRequest;
use stow_resp::encode::Encode;
use stow_testing::lines::words_of;
use stow_testing::tenants::QUOTA;

/// What a connection is to be told next.
#[derive(Clone, Copy)]
enum Expected {
    LoggedIn,
    LogIn,
    /// The reply at a place of the tenant's own run.
    Own(usize),
}

/// One connection as its client sees it: a list of requests, and its tenant's own.
#[derive(Drop)]
struct Client<A: Allocator> {
    is_open: bool,
    is_logged_in: bool,
    sent: Vec<&'static str, A>,
    taken: usize,
    line: Vec<PlainRequest<A>, A>,
    expected: Vec<Expected, A>,
}

impl<A: Allocator + Copy> Client<A> {
    fn new(alloc: A) -> Client<A> {
        Client {
            is_open: false,
            is_logged_in: false,
            sent: Vec::new(alloc),
            taken: 0,
            line: Vec::new(alloc),
            expected: Vec::new(alloc),
        }
    }

    /// One act of this connection that was not void.
    fn go_on(&mut self, alloc: A, act: Act, mark: Mark) -> Result<(), AllocError> {
        match act {
            Act::Open(_) => {
                self.is_open = true;
                Ok(())
            }
            Act::Send(_, line) => self.send(line),
            Act::Serve(_) => self.serve(alloc, mark),
            Act::Plan(_) | Act::Merge(_) | Act::Install(_) => Ok(()),
        }
    }

    fn send(&mut self, line: &'static str) -> Result<(), AllocError> {
        if self.is_open {
            self.sent.push(line)?;
        }
        Ok(())
    }

    /// The next request is served, if there is one.
    fn serve(&mut self, alloc: A, mark: Mark) -> Result<(), AllocError> {
        let Some(line) = self.sent.get(self.taken).copied() else {
            return Ok(());
        };
        self.taken = self.taken.saturating_add(1);
        if line.starts_with("AUTH") {
            self.is_logged_in = true;
            self.expected.push(Expected::LoggedIn)?;
        } else if self.is_logged_in {
            self.ask(alloc, line, mark)?;
        } else {
            self.expected.push(Expected::LogIn)?;
        }
        Ok(())
    }

    /// A request of the tenant's.
    fn ask(&mut self, alloc: A, line: &str, mark: Mark) -> Result<(), AllocError> {
        self.expected.push(Expected::Own(self.line.len()))?;
        self.line
            .push(request_of(alloc, line, mark == Mark::Refused)?)?;
        Ok(())
    }

    /// The bytes that the connection is to be told, the tenant's own part by its own run.
    fn bytes(&self, alloc: A) -> Result<Vec<u8, A>, AllocError> {
        let own = own_run(alloc, QUOTA, self.line.as_slice())?;
        spelled(alloc, self.expected.as_slice(), own.replies.as_slice())
    }
}

/// A request of a tenant's own.
pub(crate) fn request_of<A: Allocator + Copy>(
    alloc: A,
    line: &str,
    is_refused: bool,
) -> Result<PlainRequest<A>, AllocError> {
    Ok(PlainRequest {
        words: words_of(alloc, line)?,
        is_refused,
    })
}

/// Adds what a connection is to be told.
fn push_told<A: Allocator>(
    bytes: &mut Vec<u8, A>,
    expected: Expected,
    replies: &[Reply<A>],
) -> Result<(), AllocError> {
    match expected {
        Expected::LoggedIn => bytes.extend_from_slice(b"+OK\r\n"),
        Expected::LogIn => bytes.extend_from_slice(b"-NOAUTH Authentication required.\r\n"),
        Expected::Own(place) => match replies.get(place) {
            Some(reply) => reply.write(bytes),
            None => Ok(()),
        },
    }
}

/// All that a connection is to be told.
fn spelled<A: Allocator + Copy>(
    alloc: A,
    all: &[Expected],
    replies: &[Reply<A>],
) -> Result<Vec<u8, A>, AllocError> {
    let mut bytes = Vec::new(alloc);
    for expected in all {
        push_told(&mut bytes, *expected, replies)?;
    }
    Ok(bytes)
}

/// The client of a connection after the first acts, as many as there are marks.
fn client_of<A: Allocator + Copy>(
    alloc: A,
    connection: u32,
    acts: &[Act],
    marks: &[Mark],
) -> Result<Client<A>, AllocError> {
    let mut client = Client::new(alloc);
    for (act, mark) in acts.iter().zip(marks) {
        if act.connection() == connection && *mark != Mark::Void {
            client.go_on(alloc, *act, *mark)?;
        }
    }
    Ok(client)
}

/// What a connection's client expects after the first acts, as many as there are marks.
fn told_alone<A: Allocator + Copy>(
    alloc: A,
    connection: u32,
    acts: &[Act],
    marks: &[Mark],
) -> Result<Vec<u8, A>, AllocError> {
    client_of(alloc, connection, acts, marks)?.bytes(alloc)
}

/// Whether a connection was told that.
fn is_told_as_alone<A: Allocator + Copy>(
    alloc: A,
    connection: u32,
    acts: &[Act],
    outputs: &Outputs<A>,
) -> Result<bool, AllocError> {
    let expected = told_alone(alloc, connection, acts, outputs.marks())?;
    is_told(alloc, outputs, connection, expected.as_slice())
}

/// Whether a connection was told these bytes.
pub(crate) fn is_told<A: Allocator + Copy>(
    alloc: A,
    outputs: &Outputs<A>,
    connection: u32,
    expected: &[u8],
) -> Result<bool, AllocError> {
    Ok(outputs.bytes(alloc, connection)?.as_slice() == expected)
}

/// Whether memory was refused to no event.
pub(crate) fn are_kept(marks: &[Mark]) -> bool {
    for mark in marks {
        if *mark != Mark::Kept {
            return false;
        }
    }
    true
}

/// Whether each of the two connections was told what its client expects after the first acts, as many as there are marks.
pub(crate) fn are_told_as_alone<A: Allocator + Copy>(
    alloc: A,
    acts: &[Act],
    outputs: &Outputs<A>,
) -> Result<bool, AllocError> {
    Ok(is_told_as_alone(alloc, 1, acts, outputs)? && is_told_as_alone(alloc, 2, acts, outputs)?)
}
