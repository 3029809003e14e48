//! The keys of an interval that have a value, with what is told of it.
ghost use Rattle.std.specs.Prelude.{IfOk};
ghost use Rattle.stow_node.specs.Flushes.{AreShort};
ghost use Rattle.stow_node.specs.Subtree.{messages_of};
ghost use Rattle.stow_tree_model.specs.Messages.{ops_in};
ghost use Rattle.stow_read.specs.Walk.{IsWalk};

use crate::guesses::Guesses;
use crate::row_head::RowHead;
use crate::start::Start;
use crate::stepping::{first_key, step};
use crate::way::Way;
use std::alloc::{AllocError, Allocator};
use stow_node::node::Node;
use stow_tree_model::tenant_key::TenantKey;

/// The first `count` keys from the start on and below `to` that have a value at a number by all messages of the node, in
/// order, with what is told of it. No value is copied.
pub fn walk<A: Allocator + Copy>(
    alloc: A,
    node: &Node<A>,
    from: Start<'_>,
    to: TenantKey<'_>,
    at: u64,
    count: usize,
) -> Result<Vec<RowHead<A>, A>, AllocError>
    requires short { AreShort (messages_of node.now) }
    ensures { IfOk result (λ rows. IsWalk (ops_in (messages_of node.now)) from.entry.key.bytes.now
        from.entry.after to.entry.bytes.now at count rows.items) }
{
    let _known = node.children();
    let mut rows = Vec::new(alloc);
    let mut guesses = Guesses::none();
    let Some(first) = first_key(node, from, to, &mut guesses) else {
        return Ok(rows);
    };
    let mut way = Way::to(alloc, node, first, to, &guesses)?;
    let mut next = Some(first);
    while let Some(key) = next {
        if rows.len() == count {
            return Ok(rows);
        }
        if let Some(head) = way.head(alloc, key, at)? {
            rows.push(head)?;
        }
        next = step(alloc, node, &mut way, key, to, &mut guesses)?;
    }
    Ok(rows)
}
