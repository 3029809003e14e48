//! All that the way down to a key's leaf has of the key.
ghost use Rattle.std.specs.Prelude.{◌≡◌, ◌++◌, true, map, reverse, IfOk, OnOk};
ghost use Rattle.stow_node.specs.StowLeaf.Intervals.{top_key, spans};
ghost use Rattle.stow_node.specs.StowMessage.Rising.{of_key};
ghost use Rattle.stow_tree_model.specs.TreeMessage.{message_of};
ghost use Rattle.stow_read.specs.Path.{IsPath};

use crate::descent::below;
use std::alloc::{AllocError, Allocator};
use stow_node::child::Child;
use stow_node::node::Node;
use stow_node::stow_leaf::leaf::Leaf;
use stow_node::stow_message::message_buf::MessageBuf;
use stow_tree_model::message::Message;
use stow_tree_model::tenant_key::TenantKey;

/// The messages of one key on the way down to its leaf.
#[derive(Drop)]
pub(crate) struct Path<'a, A: Allocator> {
    /// Those in the buffers, the newest first.
    pub(crate) messages: Vec<Message<'a>, A>,
    /// The leaf where the way ends.
    pub(crate) leaf: &'a Leaf<A>,
}

/// Puts the key's messages in a buffer behind newer ones.
fn add_older<'a, A: Allocator + Copy>(
    messages: &mut Vec<Message<'a>, A>,
    buffer: &'a MessageBuf<A>,
    key: TenantKey<'_>,
) -> Result<(), AllocError>
    ensures { OnOk result (map message_of messages.new.items
        ≡ map message_of messages.old.items
        ++ reverse (of_key key.entry.bytes.now buffer.now.messages)) }
{
    let newest = buffer.of_key(key);
    for i in 0..newest.len() {
        messages.push(newest.get(i))?;
    }
    Ok(())
}

/// All that the way down to the key's leaf has of the key.
pub(crate) fn path_of<'a, A: Allocator + Copy>(
    alloc: A,
    node: &'a Node<A>,
    key: TenantKey<'_>,
) -> Result<Path<'a, A>, AllocError>
    requires { spans node.now.low top_key key.bytes.now ≡ true }
    ensures { IfOk result (λ path. IsPath node.now key.entry.bytes.now
        (map message_of path.messages.items) path.leaf.now.rows) }
{
    let mut messages = Vec::new(alloc);
    let mut here = node;
    loop {
        let _known = here.children();
        let _known = here.buffer().len();
        add_older(&mut messages, here.buffer(), key)?;
        match below(here, key) {
            Child::Leaf(leaf) => return Ok(Path { messages, leaf }),
            Child::Node(lower) => here = lower,
        }
    }
}
