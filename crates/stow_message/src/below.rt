//! What stands below a key and number.
ghost use Rattle.std.specs.Prelude.{◌≡◌, None};

use crate::place::Place;
use stow_tree_model::message::Message;

/// The messages that stand below a key and number, at the front of a buffer.
#[derive(Clone, Copy)]
pub struct Below<'a> {
    /// How many they are.
    pub count: usize,
    /// The last of them.
    pub last: Option<Message<'a>>,
    /// How many of their slots are young, as far as is known: a guess.
    pub(crate) young: usize,
}

impl<'a> Below<'a> {
    /// No messages.
    pub fn none() -> Below<'a>
        ensures count { result.count ≡ 0 }
        ensures last { result.last ≡ None }
    {
        Below {
            count: 0,
            last: None,
            young: 0,
        }
    }

    /// The place behind them.
    pub fn place(&self) -> Place
        ensures { result.count ≡ self.now.count }
    {
        Place {
            count: self.count,
            young: self.young,
        }
    }
}
