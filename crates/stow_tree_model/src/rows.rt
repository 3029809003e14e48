//! Versions of a leaf as messages.
ghost use Rattle.std.specs.Prelude.{◌≡◌};
ghost use Rattle.stow_tree_model.specs.Merged.{row_message};
ghost use Rattle.stow_tree_model.specs.TreeMessage.{message_of};
ghost use Rattle.stow_tree_model.specs.Version.{version_of};

use crate::message::Message;
use crate::op::Op;
use crate::version::Version;

/// The message that a version of a leaf stands for.
pub fn row_as_message<'a>(row: Version<'a>) -> Message<'a>
    ensures { message_of result ≡ row_message (version_of row.entry) }
{
    let op = match row.value {
        None => Op::Gone,
        Some(value) => Op::Put(value),
    };
    Message {
        key: row.key,
        number: row.number,
        op,
    }
}
