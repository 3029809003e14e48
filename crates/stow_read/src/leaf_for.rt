//! The leaf of a key.
ghost use Rattle.std.specs.Prelude.{◌≡◌, IfSome, Contains};
ghost use Rattle.stow_node.specs.StowLeaf.LeafRows.{leaf_rows};

use crate::descent::{below, may_hold};
use std::alloc::Allocator;
use stow_node::child::Child;
use stow_node::node::Node;
use stow_node::stow_leaf::leaf::Leaf;
use stow_tree_model::tenant_key::TenantKey;

/// The leaf whose rows the key's would be among, if the node can hold the key.
pub fn leaf_for<'a, A: Allocator>(node: &'a Node<A>, key: TenantKey<'_>) -> Option<&'a Leaf<A>>
    ensures { IfSome result (λ leaf. Contains node.now.leaves (leaf_rows leaf.now)) }
{
    if !may_hold(node, key) {
        return None;
    }
    let mut here = node;
    loop {
        match below(here, key) {
            Child::Leaf(leaf) => return Some(leaf),
            Child::Node(lower) => here = lower,
        }
    }
}
