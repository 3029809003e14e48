//! Messages of one key, lent.
ghost use Rattle.std.specs.Prelude.{◌≡◌, ◌<◌, length, slice_index_or};
ghost use Rattle.stow_tree_model.specs.TreeMessage.{message_of};

use crate::run::Run;
use std::alloc::{Allocator, Global};
use std::marker::Model;
use stow_tree_model::message::Message;

/// Messages that stand side by side in a buffer, the last one first, lent.
#[derive(Drop)]
pub struct Newest<'a, A: Allocator = Global> {
    pub(crate) run: Run<'a, A>,
}

impl<'a, A: Allocator> Model for Newest<'a, A> {
    ghost use Rattle.std.specs.Prelude.{List, reverse};
    ghost use Rattle.std.specs.Coded.{coded_list};
    ghost use Rattle.stow_tree_model.specs.TreeMessage.{TreeMessage};
    ghost use Rattle.stow_message.specs.MessageBuf.{message_code};

    ghost Value = { List TreeMessage };

    ghost coded = { coded_list message_code };

    ghost view = { λ n. reverse n.run };
}

impl<'a, A: Allocator> Newest<'a, A> {
    /// How many messages there are.
    pub fn len(&self) -> usize
        ensures { result ≡ length self.now }
    {
        self.run.len()
    }

    /// The message at `index`, of which 0 is the newest.
    pub fn get(&self, index: usize) -> Message<'a>
        requires { index < length self.now }
        ensures { message_of result ≡ slice_index_or self.now index (message_of result) }
    {
        self.run.get(self.run.len() - 1 - index)
    }
}
