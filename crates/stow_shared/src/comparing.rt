//! Whether two entries tell the same.
ghost use Rattle.std.specs.Prelude.{◌≡◌, ◌↔◌, IsTrue};
ghost use Rattle.stow_model.specs.Item.{item_of};
ghost use Rattle.stow_model.specs.Reply.{reply_of};
ghost use Rattle.stow_shared.specs.Entries.{step_of, entry_of};

use crate::entry::Entry;
use crate::step::Step;
use std::alloc::Allocator;
use stow_model::item::Item;
use stow_model::items::Items;
use stow_model::reply::Reply;
use stow_model::words::Words;

/// Whether both are the same words.
fn same_words<A: Allocator>(a: &Words<A>, b: &Words<A>) -> bool
    ensures { IsTrue result ↔ (a.now ≡ b.now) }
{
    if a.len() != b.len() {
        return false;
    }
    for index in 0..a.len() {
        if a.lent().get(index) != b.lent().get(index) {
            return false;
        }
    }
    true
}

/// Whether both replies inside an array are the same.
fn same_item(a: Item<'_>, b: Item<'_>) -> bool
    ensures { IsTrue result ↔ (item_of a.entry ≡ item_of b.entry) }
{
    match (a, b) {
        (Item::Integer(m), Item::Integer(n)) => m == n,
        (Item::Bulk(x), Item::Bulk(y)) => x == y,
        (Item::Null, Item::Null) => true,
        _ => false,
    }
}

/// Whether both arrays have the same replies.
fn same_items<A: Allocator>(a: &Items<A>, b: &Items<A>) -> bool
    ensures { IsTrue result ↔ (a.now ≡ b.now) }
{
    if a.len() != b.len() {
        return false;
    }
    for index in 0..a.len() {
        if !same_item(a.get(index), b.get(index)) {
            return false;
        }
    }
    true
}

/// Whether both replies are the same.
pub fn same_reply<A: Allocator>(a: &Reply<A>, b: &Reply<A>) -> bool
    ensures { IsTrue result ↔ (reply_of a.now ≡ reply_of b.now) }
{
    match (a, b) {
        (Reply::Simple(x), Reply::Simple(y)) => x == y,
        (Reply::Error(x), Reply::Error(y)) => x == y,
        (Reply::ProtocolError(x), Reply::ProtocolError(y)) => x == y,
        (Reply::Integer(x), Reply::Integer(y)) => x == y,
        (Reply::Bulk(x), Reply::Bulk(y)) => x.as_slice() == y.as_slice(),
        (Reply::Null, Reply::Null) => true,
        (Reply::Array(x), Reply::Array(y)) => same_items(x, y),
        _ => false,
    }
}

/// Whether both steps did the same.
fn same_step<A: Allocator>(a: &Step<A>, b: &Step<A>) -> bool
    ensures { IsTrue result ↔ (step_of a.now ≡ step_of b.now) }
{
    match (a, b) {
        (Step::Call(t, words, told), Step::Call(u, others, reply)) => {
            t == u && same_words(words, others) && same_reply(told, reply)
        }
        (Step::Resize(m), Step::Resize(n)) => m == n,
        (Step::Quota(t, m), Step::Quota(u, n)) => t == u && m == n,
        (Step::Plan(x), Step::Plan(y)) => x == y,
        (Step::Install(x), Step::Install(y)) => x == y,
        _ => false,
    }
}

/// Whether both entries tell the same step of the same seat.
pub(crate) fn same_entry<A: Allocator>(a: &Entry<A>, b: &Entry<A>) -> bool
    ensures { IsTrue result ↔ (entry_of a.now ≡ entry_of b.now) }
{
    a.seat == b.seat && same_step(&a.step, &b.step)
}
