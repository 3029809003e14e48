//! Children that come to a node.
ghost use Rattle.std.specs.Prelude.{◌≡◌, ◌+◌, ◌<◌, ◌≤◌, ◌++◌, ℕ, suc, [], length, take, drop};
ghost use Rattle.std.specs.Vec.{vec_len, vec_capacity};
ghost use Rattle.stow_node.specs.Rooms.{AreLists};

use crate::child::Child;
use crate::room::Room;
use std::alloc::Allocator;

/// Moves the children from `at` on into an empty list that has the places.
pub(crate) fn moved_from<A: Allocator>(
    from: &mut Vec<Child<A>, A>,
    at: usize,
    mut into: Vec<Child<A>, A>,
) -> Vec<Child<A>, A>
    requires inside { at ≤ vec_len from.old }
    requires empty { into.items ≡ [] }
    requires places { vec_len from.old ≤ vec_capacity into + at }
    ensures moved { result.items ≡ drop at from.old.items }
    ensures left { from.new.items ≡ take at from.old.items }
{
    while from.len() > at {
        let child = from.pop().unwrap();
        into.insert(0, child).unwrap();
    }
    into
}

/// The children, and behind the one at `index` those that came, in an empty list that has the places.
fn put_behind<A: Allocator>(
    mut wide: Vec<Child<A>, A>,
    children: &mut Vec<Child<A>, A>,
    index: usize,
    came: &mut Vec<Child<A>, A>,
) -> Vec<Child<A>, A>
    requires inside { index < vec_len children.old }
    requires empty { wide.items ≡ [] }
    requires places { vec_len children.old + vec_len came.old ≤ vec_capacity wide }
    ensures all { result.items ≡ take (index + 1) children.old.items
        ++ (came.old.items ++ drop (index + 1) children.old.items) }
    ensures came { came.new.items ≡ [] }
    ensures capacity { vec_capacity came.new ≡ vec_capacity came.old }
{
    wide.append(children).unwrap();
    while let Some(child) = came.pop() {
        wide.insert(index + 1, child).unwrap();
    }
    wide
}

/// Puts the nodes that came behind the child at `index`. They stand in a list of the room, where there are any.
pub(crate) fn take_in<A: Allocator + Copy>(
    children: &mut Vec<Child<A>, A>,
    index: usize,
    room: &mut Room<A>,
)
    requires inside { index < vec_len children.old }
    requires places { 0 < vec_len room.old.came
        → AreLists 1 (vec_len children.old + vec_len room.old.came) room.old.wides.items }
    ensures children { children.new.items ≡ take (index + 1) children.old.items
        ++ (room.old.came.items ++ drop (index + 1) children.old.items) }
    ensures came { room.new.came.items ≡ [] }
    ensures capacity { vec_capacity room.new.came ≡ vec_capacity room.old.came }
    ensures wides { (levels places : ℕ) → 0 < vec_len room.old.came
        → AreLists (suc levels) places room.old.wides.items
        → AreLists levels places room.new.wides.items }
    ensures none { vec_len room.old.came ≡ 0 → room.new.wides ≡ room.old.wides }
    ensures shells { room.new.shells ≡ room.old.shells }
{
    if room.came.is_empty() {
        return;
    }
    let wide = room.wide();
    let wide = put_behind(wide, children, index, &mut room.came);
    *children = wide;
}
