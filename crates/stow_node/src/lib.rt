//! Inner nodes of the buffered tree (Brodal and Fagerberg 2003; Bender and others 2015), and the way of messages down it.
//!
//! A `Node` is seen as a `Subtree`: its own buffer, the messages in the buffers below it, the leaves from the lowest, and
//! its shape. Its type keeps that all leaves stand at one depth, that it has a child at least and each node below it one to
//! fan-out children, that the children share out the keys by their fences, that each buffer's block has the node size or isn't
//! there (`HasNodeBlock`), that each message of a key is newer than those below it, and that a leaf above the leaf target has one key.
//!
//! `step` moves messages one edge towards the leaves, or merges all messages for a leaf into it, which gives way to any
//! number of leaves; neighbours of which one page is below a quarter of the leaf target become one leaf, where both fit
//! it (`stow_leaves`). A child right above leaves that holds an eighth of their bytes once messages moved into it (`IsLaden`)
//! merges all that it has into them in the same step; where it had none before, straight from the buffer above it
//! (`take_down`), so that nothing is written to its block. A node below a root has a block while it holds messages: it gets it before
//! any come in (`gets_room`), and gives it back when its parent settles (`close_children`). Then nodes regroup, level by level up to new roots: a node that has
//! too many children is cut into as few as hold them (`settle`), evenly, or full ones first where the new children stand at
//! its upper end; and a root with others behind it gets one above it (`rise`). A root always has its block. All memory is got before
//! a merge changes anything (`room_for`); then nothing can fail. So where memory is refused messages have moved into a child's buffer at
//! most. The root means the same under the pins, its messages are fewer or nearer to the leaves (`Flushes`), and no node is
//! too wide. `buffer` and `children` lend what reads go by.
//!
//! `drop_superseded` drops those of a node's own messages that newer ones of its own supersede under the pins, where a quarter of its
//! block is free then (`stow_superseded`): the node means the same under the pins. `drop_hidden` drops one of them that the next one hides.
//! Bodies that do nothing meet their contracts.
//!
//! `plan` gives a job for a flush outside the lock, or none exactly where no buffer holds a message: of the deepest buffer
//! that holds one, of equals the fullest or the emptiest (`Pick`), from which the messages for the heaviest child move down first, into empty buffers, where it stands above
//! nodes; all messages for one leaf are copied (`specs/Plans.antt`). `CanInstall` (`specs/Installs.antt`) is that none of the
//! causes is there for which a job's result is stale, and a job is planned so. What the node means stays, also after an `Err`.
//!
//! `install` puts a job's pages in its leaf's place and takes its batch out of the buffer right above the leaf, or answers that the
//! result is stale: that exactly where `CanInstall` doesn't hold, and then nothing changes. Of each key newer messages stay.
//! Then nodes regroup as after a step. The root means the same under the present pins (`KeepsRoot`), and no message of the
//! batch is left right above the leaves (`BatchIsGone`). Where memory is refused the result comes back, and the node is as it was.
//! Behind a result that came in a root that is more than half full is eased (`Eases`): messages for one child move into its
//! buffer, or into one further down where they don't fit; where a block is refused nothing moves. A body of `ease` that does nothing
//! meets its contract: `bench/flushers` tells it. So does one of `close` (`bench/memory` and `bench/full` tell it), and a `Pick` that is not asked for.
//!
//! Which way a step goes stands in `specs/Ways.antt`, and `step` promises it (`StepsDown`): to the child for which most
//! bytes are buffered, the leftmost of equals. A node gets all its messages, and merges all that it has then if it is
//! laden; or, where it lacks room, the step is its own. A leaf has all its messages merged, no two neighbours are left under
//! its node that are to become one, and the cache loses the leaves that had messages merged and those that were joined, and
//! no other. A root gets others above it only where nodes come behind it, at most one for each. A merged leaf within the leaf target is one leaf. Leaves under two nodes stay
//! apart. How evenly children are shared out stands in the contract of `share_of_last` of `stow_groups` alone. After an
//! `Err` the cache may have lost more. A body of `first`, `step`, `plan` or `install` that always answers `AllocError` meets its contract:
//! tests call each with ample memory and with each request refused. `step` and `install` answer `AllocError` too where there are
//! more than 2^63 levels, or where more than 2^32 nodes would come: no memory holds them.
#![tactic(auto)]

mod absorbing;
pub mod child;
mod child_words;
mod coming;
mod counting;
mod fence;
pub mod installed;
mod installing;
mod merging;
mod moving;
pub mod node;
pub mod pick;
mod planning;
mod room;
pub mod shape;
mod shell;
mod superseding;

pub use stow_leaves::{stow_leaf, stow_leaf_cache, stow_merge, stow_message, stow_page, stow_raw};
pub use stow_superseded;
