//! The next key that has messages.
ghost use Rattle.std.specs.Prelude.{◌≡◌, ◌<◌, length, true, map};
ghost use Rattle.std.specs.Option.{option_map};
ghost use Rattle.std.specs.Ordering.{is_lt};
ghost use Rattle.stow_bytes.specs.Bytes.{bytes_cmp};
ghost use Rattle.stow_node.specs.StowLeaf.Intervals.{top_key, spans};
ghost use Rattle.stow_node.specs.Nodes.{parts_of};
ghost use Rattle.stow_node.specs.Subtree.{messages_of};
ghost use Rattle.stow_tree_model.specs.Merged.{row_message};
ghost use Rattle.stow_tree_model.specs.Messages.{ops_in};
ghost use Rattle.stow_read.specs.NextKey.{IsNextKey, IsSearchEnd, IsFromPart, passed_number};

use crate::guesses::Guesses;
use crate::start::Start;
use std::alloc::Allocator;
use stow_bytes::compare::compare;
use stow_node::child::{Child, child_for};
use stow_node::node::Node;
use stow_node::stow_message::message_buf::MessageBuf;
use stow_node::stow_page::rows::Rows;
use stow_tree_model::tenant_key::TenantKey;

/// Whether a key stands below another.
pub(crate) fn is_below(key: TenantKey<'_>, other: TenantKey<'_>) -> bool
    ensures { result ≡ is_lt (bytes_cmp key.entry.bytes.now other.entry.bytes.now) }
{
    compare(key.bytes, other.bytes).is_lt()
}

/// The number that messages and rows of the keys looked for are above.
fn passed_number(after: bool) -> u64
    ensures { result ≡ passed_number after }
{
    if after { u64::MAX } else { 0 }
}

/// The next key below `to` that has messages in a buffer. Where it stands there is the next guess.
pub(crate) fn next_in_buffer<'a, A: Allocator>(
    buffer: &'a MessageBuf<A>,
    start: Start<'_>,
    to: TenantKey<'_>,
    guess: &mut usize,
) -> Option<TenantKey<'a>>
    ensures { IsNextKey (ops_in buffer.now.messages) start.entry.key.bytes.now start.entry.after
        to.entry.bytes.now (option_map (λ key. key.bytes.now) result) }
{
    let at = buffer.count_below(start.key, passed_number(start.after), *guess);
    *guess = at;
    if at >= buffer.len() {
        return None;
    }
    let key = buffer.message(at).key;
    if is_below(key, to) { Some(key) } else { None }
}

/// The next key below `to` that has rows in a leaf. Where it stands there is the next guess.
pub(crate) fn next_in_rows<'a, A: Allocator>(
    rows: &'a Rows<A>,
    start: Start<'_>,
    to: TenantKey<'_>,
    guess: &mut usize,
) -> Option<TenantKey<'a>>
    ensures { IsNextKey (ops_in (map row_message rows.now)) start.entry.key.bytes.now
        start.entry.after to.entry.bytes.now (option_map (λ key. key.bytes.now) result) }
{
    let len = rows.len();
    let at = rows.count_near(start.key, passed_number(start.after), *guess);
    *guess = at;
    if at >= len {
        return None;
    }
    let key = rows.get(at).key;
    if is_below(key, to) { Some(key) } else { None }
}

/// The key, or else the upper end.
fn lower_end<'b>(key: Option<TenantKey<'b>>, to: TenantKey<'b>) -> TenantKey<'b>
    ensures { IsSearchEnd to.entry.bytes.now (option_map (λ k. k.bytes.now) key.entry)
        result.bytes.now }
{
    match key {
        None => to,
        Some(key) => key,
    }
}

/// Where the child at the place is searched from: the start in the first one, its low fence in each other.
fn start_in<'b, A: Allocator>(
    children: &'b [Child<A>],
    start: Start<'b>,
    first: usize,
    i: usize,
) -> Start<'b>
    requires { i < length children.now }
    ensures { IsFromPart (parts_of children.now) start.entry.key.bytes.now start.entry.after first i
        result.key.bytes.now result.after }
{
    if i > first {
        Start {
            key: children[i].low(),
            after: false,
        }
    } else {
        start
    }
}

/// The next key below `to` that has messages, by all messages of the node, which is on this level. The guesses are
/// where the searches ended.
#[cycle(next_key)]
pub(crate) fn next_key<'a, A: Allocator>(
    node: &'a Node<A>,
    start: Start<'_>,
    to: TenantKey<'_>,
    guesses: &mut Guesses,
    level: usize,
) -> Option<TenantKey<'a>>
    requires { spans node.now.low top_key start.key.bytes.now ≡ true }
    ensures { IsNextKey (ops_in (messages_of node.now)) start.entry.key.bytes.now
        start.entry.after to.entry.bytes.now (option_map (λ key. key.bytes.now) result) }
{
    let children = node.children();
    let mut guess = guesses.at(level);
    let own = next_in_buffer(node.buffer(), start, to, &mut guess);
    guesses.set(level, guess);
    let end = lower_end(own, to);
    let lower_level = level.saturating_add(1);
    let first = child_for(children, start.key);
    for i in first..children.len() {
        if i > first && !is_below(children[i].low(), end) {
            return own;
        }
        let from = start_in(children, start, first, i);
        let found = match &children[i] {
            Child::Leaf(leaf) => {
                let mut guess = guesses.at(lower_level);
                let next = next_in_rows(&leaf.rows, from, end, &mut guess);
                guesses.set(lower_level, guess);
                next
            }
            Child::Node(lower) => next_key(lower, from, end, guesses, lower_level),
        };
        if found.is_some() {
            return found;
        }
    }
    own
}
