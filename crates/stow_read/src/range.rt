//! The first keys of an interval that have a value.
ghost use Rattle.std.specs.Prelude.{◌≡◌, IfOk, map};
ghost use Rattle.stow_node.specs.Subtree.{messages_of};
ghost use Rattle.stow_tree_model.specs.Messages.{ops_in};
ghost use Rattle.stow_read.specs.Range.{IsRange, key_value};

use crate::guesses::Guesses;
use crate::row::Row;
use crate::start::Start;
use crate::stepping::{first_key, step};
use crate::way::Way;
use std::alloc::{AllocError, Allocator};
use stow_node::node::Node;
use stow_tree_model::tenant_key::TenantKey;

/// The first `count` keys from `from` on and below `to` that have a value at a number by all messages of the node, in
/// order, with it: none is copied, but those that appends make are.
pub fn range<'a, A: Allocator + Copy>(
    alloc: A,
    node: &'a Node<A>,
    from: TenantKey<'_>,
    to: TenantKey<'_>,
    at: u64,
    count: usize,
) -> Result<Vec<Row<'a, A>, A>, AllocError>
    ensures { IfOk result (λ rows. IsRange (ops_in (messages_of node.now)) from.entry.bytes.now
        to.entry.bytes.now at count (map key_value rows.items)) }
{
    let _known = node.children();
    let mut rows = Vec::new(alloc);
    let mut guesses = Guesses::none();
    let start = Start {
        key: from,
        after: false,
    };
    let Some(first) = first_key(node, start, to, &mut guesses) else {
        return Ok(rows);
    };
    let mut way = Way::to(alloc, node, first, to, &guesses)?;
    let mut next = Some(first);
    while let Some(key) = next {
        if rows.len() == count {
            return Ok(rows);
        }
        if let Some(value) = way.value(alloc, key, at)? {
            rows.push(Row { key, value })?;
        }
        next = step(alloc, node, &mut way, key, to, &mut guesses)?;
    }
    Ok(rows)
}
