//! A look at a key's newest message or row alone.
ghost use Rattle.std.specs.Prelude.{◌≡◌, true};
ghost use Rattle.stow_node.specs.StowLeaf.Intervals.{top_key, spans};
ghost use Rattle.stow_node.specs.Subtree.{messages_of};
ghost use Rattle.stow_tree_model.specs.Messages.{ops_in};
ghost use Rattle.stow_tree_model.specs.Operations.{latest, value_in, NoneUpTo};
ghost use Rattle.stow_tree_model.specs.Value.{IsValue};
ghost use Rattle.stow_read.specs.Glance.{IsToldOf};

use crate::descent::{below, may_hold};
use crate::getting::value_in_rows;
use crate::glance::Glance;
use crate::newest::Newest;
use crate::up_to::newest_up_to;
use std::alloc::Allocator;
use stow_node::child::Child;
use stow_node::node::Node;
use stow_node::stow_message::place::Place;
use stow_tree_model::tenant_key::TenantKey;

/// What the key's newest message or row up to a number tells of the value that it has there. No appends are added up, and
/// no memory is asked for.
pub fn glance<A: Allocator>(node: &Node<A>, key: TenantKey<'_>, at: u64) -> Glance
    requires { IsValue (value_in (latest (ops_in (messages_of node.now) key.bytes.now) at)) }
    ensures { IsToldOf (latest (ops_in (messages_of node.now) key.entry.bytes.now) at)
        result.newest }
{
    let _known = node.children();
    if !may_hold(node, key) {
        return Glance {
            newest: Newest::Missing,
            place: Place::none(),
        };
    }
    let mut place = Place::none();
    let newest = match newest_up_to(node.buffer(), key, at, &mut place) {
        Some(message) => Newest::of_message(message),
        None => newest_below(node, key, at),
    };
    Glance { newest, place }
}

/// The same where the node's own buffer has no message of the key up to the number.
fn newest_below<A: Allocator>(node: &Node<A>, key: TenantKey<'_>, at: u64) -> Newest
    requires spanned { spans node.now.low top_key key.bytes.now ≡ true }
    requires short { IsValue (value_in (latest (ops_in (messages_of node.now) key.bytes.now) at)) }
    requires none { NoneUpTo at (ops_in node.now.buffer.messages key.bytes.now) }
    ensures { IsToldOf (latest (ops_in (messages_of node.now) key.entry.bytes.now) at) result }
{
    let mut here = node;
    loop {
        let _known = here.children();
        match below(here, key) {
            Child::Leaf(leaf) => {
                return Newest::of_row(value_in_rows(&leaf.rows, key, at, usize::MAX));
            }
            Child::Node(lower) => here = lower,
        }
        let _known = here.children();
        if let Some(message) = newest_up_to(here.buffer(), key, at, &mut Place::none()) {
            return Newest::of_message(message);
        }
    }
}
