//! Messages of writes, and the room that the tree has for them.
ghost use Rattle.std.specs.Prelude.{◌≡◌, ◌∷◌, [], map, IfOk, OnOk};
ghost use Rattle.stow_dropping.specs.StowMerge.Pins.{pins_in};
ghost use Rattle.stow_dropping.specs.StowMessage.Packed.{IsMessage};
ghost use Rattle.stow_model.specs.LentWords.{words_in};
ghost use Rattle.stow_dropping.specs.StowTree.Putting.{CanReserve, IsReserved, Puts};
ghost use Rattle.stow_dropping.specs.StowTree.TreeState.{tree_messages, AgreeUnder};
ghost use Rattle.stow_tree_model.specs.Messages.{with_all};
ghost use Rattle.stow_tree_model.specs.Op.{op_of};
ghost use Rattle.stow_tree_model.specs.TreeMessage.{message_of};
ghost use Rattle.stow_core.specs.Writes.{write_of, writes_of, AreMessages};

use crate::places::Places;
use std::alloc::{AllocError, Allocator};
use stow_dropping::stow_merge::pins::Pins;
use stow_dropping::stow_message::place::Place;
use stow_dropping::stow_tree::tree::Tree;
use stow_model::lent_words::LentWords;
use stow_tree_model::message::Message;
use stow_tree_model::op::Op;
use stow_tree_model::tenant_key::TenantKey;

/// The message that does this to the value of a key.
fn message<'a>(number: u64, op: Op<'a>, key: &'a [u8]) -> Message<'a>
    requires { IsMessage (write_of number (op_of op) key.now) }
    ensures { message_of result ≡ write_of number (op_of op.entry) key.now }
{
    Message {
        key: TenantKey::from_packed(key),
        number,
        op,
    }
}

/// Makes the room that `put` needs. For one key it asks for no memory but the tree's. Where it is given a value, or loses its own, an
/// older message of the key may go, which the newest one hides: then its place is another. Behind appends there seldom is one.
pub fn reserve<A: Allocator + Copy>(
    tree: &mut Tree<A>,
    alloc: A,
    pins: &Pins<A>,
    number: u64,
    op: Op<'_>,
    keys: LentWords<'_>,
    places: &mut Places,
) -> Result<(), AllocError>
    requires messages { AreMessages (writes_of number (op_of op) (words_in keys)) }
    requires can { CanReserve tree.old (writes_of number (op_of op) (words_in keys)) }
    ensures reserved { OnOk result
        (IsReserved tree.new (writes_of number (op_of op.entry) (words_in keys.entry))) }
    ensures agrees { AgreeUnder (pins_in pins.now) (tree_messages tree.old)
        (tree_messages tree.new) }
    ensures shape { tree.new.root.shape ≡ tree.old.root.shape }
{
    let Some(key) = keys.only() else {
        let made = messages(alloc, number, op, keys)?;
        return tree.reserve(alloc, made.as_slice(), pins);
    };
    let message = message(number, op, key);
    if let Op::Append(_) = op {
        return tree.reserve(alloc, &[message], pins);
    }
    let mut place = places.of(0);
    tree.reserve_near(alloc, message, pins, &mut place)?;
    places.set(0, place);
    Ok(())
}

/// The messages that do this to the values of these keys.
fn messages<'a, A: Allocator + Copy>(
    alloc: A,
    number: u64,
    op: Op<'a>,
    keys: LentWords<'a>,
) -> Result<Vec<Message<'a>, A>, AllocError>
    requires { AreMessages (writes_of number (op_of op) (words_in keys)) }
    ensures { IfOk result (λ made. map message_of made.items
        ≡ writes_of number (op_of op.entry) (words_in keys.entry)) }
{
    let mut messages = Vec::with_capacity(alloc, keys.len())?;
    for index in 0..keys.len() {
        messages.push(message(number, op, keys.get(index)))?;
    }
    Ok(messages)
}

/// Puts a message into the tree, which has the room. The search is the shorter the nearer the guess is to the message's place.
fn put_one<A: Allocator + Copy>(
    tree: &mut Tree<A>,
    number: u64,
    op: Op<'_>,
    key: &[u8],
    guess: Place,
)
    requires message { IsMessage (write_of number (op_of op) key.now) }
    requires room { IsReserved tree.old (write_of number (op_of op) key.now ∷ []) }
    ensures { Puts (write_of number (op_of op.entry) key.now ∷ []) tree.old tree.new }
{
    tree.put_near(message(number, op, key), guess);
}

/// Does this to the values of these keys in the tree. It takes no memory and cannot fail. The searches are the shorter the
/// nearer the places are to those of the messages: one that an earlier key's message moved on is found in two or three steps.
pub fn put<A: Allocator + Copy>(
    tree: &mut Tree<A>,
    number: u64,
    op: Op<'_>,
    keys: LentWords<'_>,
    places: &Places,
)
    requires messages { AreMessages (writes_of number (op_of op) (words_in keys)) }
    requires room { IsReserved tree.old (writes_of number (op_of op) (words_in keys)) }
    ensures messages { tree_messages tree.new ≡ with_all (tree_messages tree.old)
        (writes_of number (op_of op.entry) (words_in keys.entry)) }
    ensures shape { tree.new.root.shape ≡ tree.old.root.shape }
{
    for index in 0..keys.len() {
        put_one(tree, number, op, keys.get(index), places.of(index));
    }
}
