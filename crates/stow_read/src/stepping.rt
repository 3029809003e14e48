//! From key to key of an interval.
ghost use Rattle.std.specs.Prelude.{◌≡◌, IfOk, IfSome, option_map, true};
ghost use Rattle.stow_node.specs.StowLeaf.Intervals.{top_key, spans};
ghost use Rattle.stow_node.specs.Subtree.{messages_of};
ghost use Rattle.stow_tree_model.specs.Messages.{ops_in};
ghost use Rattle.stow_read.specs.NextKey.{IsNextKey};
ghost use Rattle.stow_read.specs.Way.{key_in, IsAt};

use crate::descent::may_hold;
use crate::guesses::Guesses;
use crate::next_key::{is_below, next_key};
use crate::start::Start;
use crate::way::Way;
use std::alloc::{AllocError, Allocator};
use stow_node::node::Node;
use stow_tree_model::tenant_key::TenantKey;

/// The lowest key from the start on and below `to` that has messages.
pub(crate) fn first_key<'a, A: Allocator>(
    node: &'a Node<A>,
    start: Start<'_>,
    to: TenantKey<'_>,
    guesses: &mut Guesses,
) -> Option<TenantKey<'a>>
    ensures { IsNextKey (ops_in (messages_of node.now)) start.entry.key.bytes.now start.entry.after
        to.entry.bytes.now (option_map (λ key. key.bytes.now) result) }
{
    let _known = node.children();
    let mut from = start;
    if is_below(start.key, node.low()) {
        from = Start {
            key: node.low(),
            after: false,
        };
    }
    if may_hold(node, from.key) {
        next_key(node, from, to, guesses, 0)
    } else {
        None
    }
}

/// The lowest key behind this one and below `to` that has messages. The way stands at it.
pub(crate) fn step<'a, A: Allocator + Copy>(
    alloc: A,
    node: &'a Node<A>,
    way: &mut Way<'a, A>,
    key: TenantKey<'_>,
    to: TenantKey<'_>,
    guesses: &mut Guesses,
) -> Result<Option<TenantKey<'a>>, AllocError>
    requires inside { spans node.now.low top_key key.bytes.now ≡ true }
    requires at { IsAt node.now way.old key.bytes.now to.bytes.now }
    ensures next { IfOk result (λ next. IsNextKey (ops_in (messages_of node.now))
        key.entry.bytes.now true to.entry.bytes.now (key_in next)) }
    ensures at { IfOk result (λ next. IfSome next
        (λ k. IsAt node.now way.new k.bytes.now to.entry.bytes.now)) }
{
    let _known = node.children();
    if let Some(next) = way.pass(key, to) {
        if is_below(next, way.end) {
            return Ok(Some(next));
        }
    }
    let Some(next) = next_key(node, Start { key, after: true }, to, guesses, 0) else {
        return Ok(None);
    };
    *way = Way::to(alloc, node, next, to, guesses)?;
    Ok(Some(next))
}
