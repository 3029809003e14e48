//! What one key has at a number.
ghost use Rattle.std.specs.Prelude.{◌≡◌, map, true, IfOk, IfSome, Contains};
ghost use Rattle.std.specs.Option.{option_map};
ghost use Rattle.stow_node.specs.StowLeaf.Intervals.{top_key, spans};
ghost use Rattle.stow_node.specs.StowLeaf.LeafRows.{leaf_rows};
ghost use Rattle.stow_node.specs.Subtree.{messages_of};
ghost use Rattle.stow_tree_model.specs.Merged.{row_message};
ghost use Rattle.stow_tree_model.specs.Messages.{ops_in};
ghost use Rattle.stow_tree_model.specs.Operations.{latest};
ghost use Rattle.stow_read.specs.Found.{found_value, lent_of};
ghost use Rattle.stow_read.specs.Suffixes.{suffixes_of, continued};

use crate::descent::{below, may_hold};
use crate::lent_value::LentValue;
use crate::lookup::Lookup;
use crate::suffixes::{Look, Suffixes};
use std::alloc::{AllocError, Allocator};
use stow_node::child::Child;
use stow_node::node::Node;
use stow_node::stow_leaf::leaf::Leaf;
use stow_node::stow_message::place::Place;
use stow_node::stow_page::rows::Rows;
use stow_tree_model::tenant_key::TenantKey;

/// Where a way down ends.
#[derive(Drop)]
struct End<'a, A: Allocator> {
    /// What the key has there.
    base: Option<LentValue<'a>>,
    /// The leaf, if it ends in one.
    leaf: Option<&'a Leaf<A>>,
}

/// What the key has at a number by a leaf's rows.
pub(crate) fn value_in_rows<'a, A: Allocator>(
    rows: &'a Rows<A>,
    key: TenantKey<'_>,
    at: u64,
    guess: usize,
) -> Option<LentValue<'a>>
    ensures { option_map lent_of result
        ≡ latest (ops_in (map row_message rows.now) key.entry.bytes.now) at }
{
    let _known = rows.len();
    let version = rows.version_at(key, at, guess)?;
    let number = version.number;
    let value = version.value?;
    Some(LentValue { number, value })
}

/// Goes down, adding the key's suffixes, up to the first message or row that is no append.
#[inline(always)]
fn walk<'a, A: Allocator + Copy>(
    suffixes: &mut Suffixes<'a, A>,
    node: &'a Node<A>,
    key: TenantKey<'_>,
    at: u64,
) -> Result<End<'a, A>, AllocError>
    requires { spans node.now.low top_key key.bytes.now ≡ true }
    ensures value { IfOk result (λ end.
        continued (suffixes_of suffixes.old)
        (latest (ops_in (messages_of node.now) key.entry.bytes.now) at)
        ≡ continued (suffixes_of suffixes.new) (option_map lent_of end.base)) }
    ensures leaf { IfOk result (λ end. IfSome end.leaf
        (λ leaf. Contains node.now.leaves (leaf_rows leaf.now))) }
{
    let mut here = node;
    loop {
        let _known = here.children();
        if let Look::Base(base) = suffixes.look(here.buffer(), key, at, Place::none())? {
            return Ok(End { base, leaf: None });
        }
        match below(here, key) {
            Child::Leaf(leaf) => {
                return Ok(End {
                    base: value_in_rows(&leaf.rows, key, at, usize::MAX),
                    leaf: Some(leaf),
                });
            }
            Child::Node(lower) => here = lower,
        }
    }
}

/// What the key has at a number by all messages of the node. It is copied once where appends make it, and lent else.
#[inline(always)]
pub fn get<'a, A: Allocator + Copy>(
    alloc: A,
    node: &'a Node<A>,
    key: TenantKey<'_>,
    at: u64,
) -> Result<Lookup<'a, A>, AllocError>
    ensures value { IfOk result (λ lookup. option_map found_value lookup.found
        ≡ latest (ops_in (messages_of node.now) key.entry.bytes.now) at) }
    ensures leaf { IfOk result (λ lookup. IfSome lookup.leaf
        (λ leaf. Contains node.now.leaves (leaf_rows leaf.now))) }
{
    let _known = node.children();
    if !may_hold(node, key) {
        return Ok(Lookup {
            found: None,
            leaf: None,
            place: Place::none(),
        });
    }
    let mut suffixes = Suffixes::new(alloc);
    let end = walk(&mut suffixes, node, key, at)?;
    Ok(Lookup {
        found: suffixes.on(alloc, end.base)?,
        leaf: end.leaf,
        place: suffixes.place.unwrap_or(Place::none()),
    })
}
