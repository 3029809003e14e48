//! Messages on their way to a leaf, packed in one block: a buffer of an inner node of the tree.
//!
//! A `MessageBuf` is seen as a list of messages that rises by key and number, with its capacity and the bytes in use.
//! Messages are lent out of the block and not copied. Every call but `with_capacity`, `widen` and `move_range` takes no memory; the last two
//! ask for room for words of keys alone, and do the same where it is refused.
//! A filter of the keys that were put in (Bloom 1970, in blocks of one word: Putze, Sanders and Singler 2007) spares most
//! searches for a key that has no message; that each held key is in it is kept by the type. Beside the slots stand words of the keys,
//! by which a search begins: a hint, of which no contract speaks (`key_words`).
//! A body that always answers `AllocError` meets the contract of `with_capacity`: tests call it with ample memory. How much
//! the filter spares stands in no contract: one of whose marks all are set is right too. Nor does how tight the bound of each message's bytes is:
//! with one beyond all `range_bytes_above` answers the same, and looks at each message.
#![tactic(auto)]

mod batches;
pub mod below;
mod beside;
pub mod copying;
mod guessing;
pub mod head;
pub mod key_word;
mod key_words;
pub mod laws;
mod marking;
pub mod message_buf;
pub mod newest;
pub mod place;
mod putting;
mod removing;
pub mod run;
mod searching;
mod slots;

pub use stow_slots::stow_raw;
pub use stow_tree_model::message::Message;
pub use stow_tree_model::op::Op;
pub use stow_tree_model::tenant_key::TenantKey;
pub use stow_tree_model::tenant_key_buf::TenantKeyBuf;
pub use stow_tree_model::version::Version;
