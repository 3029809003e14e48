//! The way down to a key's leaf.
ghost use Rattle.std.specs.Prelude.{◌≡◌, ◌<◌, length, true};
ghost use Rattle.std.specs.Ordering.{is_lt};
ghost use Rattle.stow_bytes.specs.Bytes.{bytes_cmp};
ghost use Rattle.stow_node.specs.StowLeaf.Intervals.{top_key, spans};
ghost use Rattle.stow_read.specs.Descent.{LeadsDown, LeadsAllTo};

use std::alloc::Allocator;
use stow_bytes::compare::compare;
use stow_node::child::{Child, child_within, high_after};
use stow_node::node::Node;
use stow_node::stow_leaf::ends::top_key;
use stow_tree_model::tenant_key::TenantKey;

/// What stands below a node for the key.
#[inline(always)]
pub(crate) fn below<'a, A: Allocator>(node: &'a Node<A>, key: TenantKey<'_>) -> &'a Child<A>
    requires { spans node.now.low top_key key.bytes.now ≡ true }
    ensures { LeadsDown node.now key.entry.bytes.now result.now }
{
    let children = node.children();
    &children[child_within(children, key, node.span_for(key))]
}

/// What stands below a node for a key, and where the keys end that it stands there for.
#[derive(Drop)]
pub(crate) struct Underneath<'a, A: Allocator> {
    pub(crate) child: &'a Child<A>,
    pub(crate) high: TenantKey<'a>,
}

/// What stands below a node for the key and those behind it.
#[inline(always)]
pub(crate) fn below_until<'a, A: Allocator>(
    node: &'a Node<A>,
    key: TenantKey<'_>,
) -> Underneath<'a, A>
    requires { spans node.now.low top_key key.bytes.now ≡ true }
    ensures { LeadsAllTo node.now key.entry.bytes.now result.high.bytes.now result.child.now }
{
    let children = node.children();
    let at = child_within(children, key, node.span_for(key));
    Underneath {
        child: &children[at],
        high: high_after(children, at),
    }
}

/// Whether a node may hold messages of the key.
#[inline(always)]
pub fn may_hold<A: Allocator>(node: &Node<A>, key: TenantKey<'_>) -> bool
    ensures { result ≡ spans node.now.low top_key key.entry.bytes.now }
{
    compare(key.bytes, node.low().bytes).is_ge() && compare(key.bytes, top_key().bytes).is_lt()
}
