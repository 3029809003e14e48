//! What a new node takes.
ghost use Rattle.std.specs.Prelude.{◌≡◌, ◌≤◌, [], IfOk};
ghost use Rattle.std.specs.Vec.{vec_capacity};
ghost use Rattle.stow_leaves.specs.StowMessage.MessageBuf.{message_list};

use crate::child::Child;
use crate::shape::Shape;
use std::alloc::{AllocError, Allocator, Global};
use std::marker::Model;
use stow_leaves::stow_message::message_buf::MessageBuf;

/// The most bytes of a fence.
pub(crate) const MOST_FENCE: usize = 1028;

/// What a new node takes: a list with places for its children, a block for its buffer, and a list with room for its
/// fence.
#[derive(Drop)]
pub(crate) struct Shell<A: Allocator = Global> {
    shape: Shape,
    children: Vec<Child<A>, A>,
    buffer: MessageBuf<A>,
    fence: Vec<u8, A>,
}

impl<A: Allocator> Model for Shell<A> {
    ghost use Rattle.stow_node.specs.declared.shape.Shape.{Shape};

    ghost Value = { Shape };

    ghost use Rattle.stow_node.specs.Rooms.{IsShell};

    ghost view = { λ s. s.shape };

    ghost invariant = { IsShell };
}

impl<A: Allocator + Copy> Shell<A> {
    /// A shell for a node of this shape.
    pub(crate) fn new(alloc: A, shape: Shape) -> Result<Shell<A>, AllocError>
        ensures { IfOk result (λ s. s ≡ shape) }
    {
        Ok(Shell {
            shape,
            children: Vec::with_capacity(alloc, shape.fan_out as usize)?,
            buffer: MessageBuf::with_capacity(alloc, shape.buffer as usize)?,
            fence: Vec::with_capacity(alloc, MOST_FENCE)?,
        })
    }

    /// Its parts: the list for children, the block, and the list for a fence.
    pub(crate) fn into_parts(self) -> (Vec<Child<A>, A>, MessageBuf<A>, Vec<u8, A>)
        ensures children { result.0.items ≡ [] }
        ensures places { self.fan_out ≤ vec_capacity result.0 }
        ensures buffer { result.1 ≡ message_list [] 0 self.buffer }
        ensures fence { result.2.items ≡ [] }
        ensures long { 1028 ≤ vec_capacity result.2 }
    {
        (self.children, self.buffer, self.fence)
    }
}
