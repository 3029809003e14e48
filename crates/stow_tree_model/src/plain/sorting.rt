//! Messages in order.
ghost use Rattle.std.specs.Prelude.{◌≡◌, ◌+◌, ◌<◌, ◌≤◌, List, [], ◌∷◌, ◌++◌, map, length, IfOk};
ghost use Rattle.stow_tree_model.specs.Merged.{row_message};
ghost use Rattle.stow_tree_model.specs.Messages.{set_of, with_all, in_order};
ghost use Rattle.stow_tree_model.specs.Order.{place_cmp, place_of, MessagesRise};
ghost use Rattle.stow_tree_model.specs.TreeMessage.{message_of};
ghost use Rattle.stow_tree_model.specs.Version.{version_of};
ghost use Rattle.stow_tree_model.specs.Zipped.{zipped};

use crate::message::Message;
use crate::rows::row_as_message;
use crate::version::Version;
use std::alloc::{AllocError, Allocator};
use std::cmp::Ordering;

pub fn compare(a: &Message<'_>, b: &Message<'_>) -> Ordering
    ensures { result ≡ place_cmp (place_of (message_of a.now)) (place_of (message_of b.now)) }
{
    a.key.bytes.cmp(b.key.bytes).then(a.number.cmp(&b.number))
}

/// Two lists of messages in one. Where both have one of a key and number, it is the second's.
fn join<'a, A: Allocator + Copy>(
    alloc: A,
    older: &[Message<'a>],
    newer: &[Message<'a>],
) -> Result<Vec<Message<'a>, A>, AllocError>
    ensures { IfOk result (λ ms. map message_of ms.items
        ≡ zipped (map message_of older.now) (map message_of newer.now)) }
{
    let mut joined = Vec::new(alloc);
    let mut i = 0;
    let mut j = 0;
    while i < older.len() || j < newer.len() {
        if j == newer.len() {
            joined.push(older[i])?;
            i += 1;
        } else if i == older.len() {
            joined.push(newer[j])?;
            j += 1;
        } else {
            match compare(&older[i], &newer[j]) {
                Ordering::Less => {
                    joined.push(older[i])?;
                    i += 1;
                }
                Ordering::Equal => {
                    joined.push(newer[j])?;
                    i += 1;
                    j += 1;
                }
                Ordering::Greater => {
                    joined.push(newer[j])?;
                    j += 1;
                }
            }
        }
    }
    Ok(joined)
}

/// Messages that rise, with more messages, in order. A message takes the place of one of its key and number.
pub fn with_messages<'a, A: Allocator + Copy>(
    alloc: A,
    first: Vec<Message<'a>, A>,
    more: &[Message<'a>],
) -> Result<Vec<Message<'a>, A>, AllocError>
    requires { MessagesRise (map message_of first.items) }
    ensures { IfOk result (λ ms. map message_of ms.items
        ≡ in_order (with_all (set_of (map message_of first.entry.items))
        (map message_of more.now))) }
{
    let mut sorted = first;
    let mut left = more.len();
    while left > 0 {
        left -= 1;
        sorted = join(alloc, sorted.as_slice(), &[more[left]])?;
    }
    Ok(sorted)
}

/// The messages that a leaf's rows stand for.
pub fn row_messages<'a, A: Allocator + Copy>(
    alloc: A,
    rows: &[Version<'a>],
) -> Result<Vec<Message<'a>, A>, AllocError>
    ensures { IfOk result (λ ms. map message_of ms.items
        ≡ map row_message (map version_of rows.now)) }
{
    let mut messages = Vec::new(alloc);
    for row in rows {
        messages.push(row_as_message(*row))?;
    }
    Ok(messages)
}
