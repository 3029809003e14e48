//! Whether lists rise.
ghost use Rattle.std.specs.Prelude.{◌≡◌, ◌+◌, ◌<◌, List, map, IsTrue, ◌↔◌};
ghost use Rattle.stow_tree_model.specs.Merged.{row_message};
ghost use Rattle.stow_tree_model.specs.Order.{place_cmp, place_of, MessagesRise, VersionsRise};
ghost use Rattle.stow_tree_model.specs.TreeMessage.{message_of};
ghost use Rattle.stow_tree_model.specs.Version.{version_of};

use super::sorting::compare;
use crate::message::Message;
use crate::rows::row_as_message;
use crate::version::Version;

/// Whether each message stands above the one before it, and so above all before it.
pub fn messages_rise(messages: &[Message<'_>]) -> bool
    ensures { IsTrue result ↔ MessagesRise (map message_of messages.now) }
{
    for i in 1..messages.len() {
        if !compare(&messages[i - 1], &messages[i]).is_lt() {
            return false;
        }
    }
    true
}

/// Whether each version stands above the one before it, and so above all before it.
pub fn versions_rise(versions: &[Version<'_>]) -> bool
    ensures { IsTrue result ↔ VersionsRise (map version_of versions.now) }
{
    for i in 1..versions.len() {
        let before = row_as_message(versions[i - 1]);
        if !compare(&before, &row_as_message(versions[i])).is_lt() {
            return false;
        }
    }
    true
}
