//! Requests that one hold of the lock answers.
ghost use Rattle.std.specs.Prelude.{◌≡◌, ◌<◌, [], ◌∷◌, length, map};
ghost use Rattle.stow_house.specs.Pipelines.{AnswersFront};
ghost use Rattle.stow_model.specs.Reply.{reply_of};
ghost use Rattle.stow_shared.specs.Seats.{SeatCalls};

use crate::book::Book;
use crate::copies::Copies;
use crate::journal::Journal;
use crate::seat::Seat;
use crate::turns::asks_for_many;
use std::alloc::Allocator;
use stow_house::request::Request;
use stow_model::reply::Reply;

/// Behind a value of more bytes no request is answered in the same hold.
const LONG: usize = 4_096;

/// Whether a reply ends a hold: one that may be long.
fn is_long<A: Allocator>(reply: &Reply<A>) -> bool {
    match reply {
        Reply::Bulk(value) => value.len() > LONG,
        Reply::Array(_) => true,
        _ => false,
    }
}

/// Answers a request, whole. The seat gains the receipt of it where entries are kept; where memory was refused it gains none,
/// and counts the call.
fn answer<J: Journal, A: Allocator + Copy>(
    book: &mut Book<J, A>,
    alloc: A,
    seat: &mut Seat<J, A>,
    request: &Request<A>,
) -> Reply<A>
    ensures { SeatCalls J.keeps seat.old request.now.tenant request.now.words (reply_of result)
        seat.new }
{
    let words = &request.words;
    match Copies::of::<J>(alloc, words) {
        Ok(copies) => book.call(alloc, seat, request.tenant, words, copies),
        Err(_) => seat.refuse(),
    }
}

/// Answers requests one after another, the first of them at least: its reply, and those of the next ones, for as many as `more`
/// has room, no reply before them may be long, and none of them asks for many rows: for such a one a turn is taken first.
pub(crate) fn answer_all<J: Journal, A: Allocator + Copy>(
    book: &mut Book<J, A>,
    alloc: A,
    seat: &mut Seat<J, A>,
    requests: &[Request<A>],
    more: &mut Vec<Reply<A>, A>,
) -> Reply<A>
    requires some { 0 < length requests.now }
    requires none { more.old.items ≡ [] }
    ensures answers { AnswersFront (SeatCalls J.keeps) seat.old requests.now
        (reply_of result ∷ map reply_of more.new.items) seat.new }
    ensures within { length more.new.items < length requests.now }
{
    let first = answer(book, alloc, seat, &requests[0]);
    let mut is_last = is_long(&first);
    for i in 1..requests.len() {
        let request = &requests[i];
        if is_last || more.len() == more.capacity() || asks_for_many(&request.words) {
            return first;
        }
        let reply = answer(book, alloc, seat, request);
        is_last = is_long(&reply);
        more.push_reserved(reply);
    }
    first
}
