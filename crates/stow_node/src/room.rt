//! The memory that nodes take when children come.
ghost use Rattle.std.specs.Prelude.{◌≡◌, ◌+◌, ◌<◌, ◌≤◌, length, ℕ, suc, [], ◌∷◌, IfOk};
ghost use Rattle.std.specs.Vec.{vec_len, vec_capacity};
ghost use Rattle.stow_node.specs.Rooms.{IsList, AreLists, AreShells, IsRoom};
ghost use Rattle.stow_node.specs.declared.child.Child.TheVariants as in_child;
ghost use Rattle.stow_node.specs.declared.shape.Shape.{Shape};

use crate::child::Child;
use crate::node::Node;
use crate::shape::Shape;
use crate::shell::Shell;
use std::alloc::{AllocError, Allocator, Global};

/// The memory that nodes take when children come, got before anything moves, and the nodes that came.
#[derive(Drop)]
pub(crate) struct Room<A: Allocator = Global> {
    /// The nodes that are to stand behind another, from the lowest.
    pub(crate) came: Vec<Child<A>, A>,
    /// Lists for children that are more than a node may have.
    pub(crate) wides: Vec<Vec<Child<A>, A>, A>,
    /// For the nodes that are to come.
    pub(crate) shells: Vec<Shell<A>, A>,
}

/// So many lists, each with places for so many children.
fn lists<A: Allocator + Copy>(
    alloc: A,
    count: usize,
    places: usize,
) -> Result<Vec<Vec<Child<A>, A>, A>, AllocError>
    ensures { IfOk result (λ lists. AreLists count places lists.items) }
{
    let mut lists = Vec::with_capacity(alloc, count)?;
    for i in 0..count {
        lists.push(Vec::with_capacity(alloc, places)?)?;
    }
    Ok(lists)
}

/// So many shells for nodes of a shape.
fn shells<A: Allocator + Copy>(
    alloc: A,
    count: usize,
    shape: Shape,
) -> Result<Vec<Shell<A>, A>, AllocError>
    ensures { IfOk result (λ shells. AreShells count shape shells.items) }
{
    let mut shells = Vec::with_capacity(alloc, count)?;
    for i in 0..count {
        shells.push(Shell::new(alloc, shape)?)?;
    }
    Ok(shells)
}

impl<A: Allocator + Copy> Room<A> {
    /// Room for so many new nodes of a shape, on so many levels, and for so many children of each.
    pub(crate) fn new(
        alloc: A,
        shape: Shape,
        nodes: usize,
        levels: usize,
        places: usize,
    ) -> Result<Room<A>, AllocError>
        ensures room { IfOk result (IsRoom shape nodes levels places) }
        ensures came { IfOk result (λ room. room.came.items ≡ []) }
    {
        Ok(Room {
            came: Vec::with_capacity(alloc, places)?,
            wides: lists(alloc, levels, places)?,
            shells: shells(alloc, nodes, shape)?,
        })
    }

    /// Room for nothing, which asks for no memory.
    pub(crate) fn none(alloc: A) -> Room<A>
        ensures room { (shape : Shape) → IsRoom shape 0 0 0 result }
        ensures came { result.came.items ≡ [] }
    {
        Room {
            came: Vec::new(alloc),
            wides: Vec::new(alloc),
            shells: Vec::new(alloc),
        }
    }

    /// What a new node takes.
    pub(crate) fn shell(&mut self) -> Shell<A>
        requires { 0 < length self.old.shells.items }
        ensures shell { (shape : Shape) (nodes : ℕ)
            → AreShells (suc nodes) shape self.old.shells.items
            → (result ≡ shape) × AreShells nodes shape self.new.shells.items }
        ensures came { self.new.came ≡ self.old.came }
        ensures wides { self.new.wides ≡ self.old.wides }
    {
        match self.shells.pop() {
            Some(shell) => shell,
            None => unreachable!(),
        }
    }

    /// A list for children.
    pub(crate) fn wide(&mut self) -> Vec<Child<A>, A>
        requires { 0 < length self.old.wides.items }
        ensures wide { (levels places : ℕ) → AreLists (suc levels) places self.old.wides.items
            → IsList places result × AreLists levels places self.new.wides.items }
        ensures came { self.new.came ≡ self.old.came }
        ensures shells { self.new.shells ≡ self.old.shells }
    {
        match self.wides.pop() {
            Some(wide) => wide,
            None => unreachable!(),
        }
    }

    /// Puts a node before those that came.
    pub(crate) fn bring(&mut self, node: Node<A>)
        requires { vec_len self.old.came < vec_capacity self.old.came }
        ensures came { self.new.came.items ≡ in_child.Node node ∷ self.old.came.items }
        ensures capacity { vec_capacity self.old.came ≤ vec_capacity self.new.came }
        ensures wides { self.new.wides ≡ self.old.wides }
        ensures shells { self.new.shells ≡ self.old.shells }
    {
        self.came.insert(0, Child::Node(node)).unwrap();
    }
}
