//! How many leaves and buffered messages stand below a node.
ghost use Rattle.std.specs.Prelude.{◌≡◌};
ghost use Rattle.stow_tree.specs.Reports.{CountsAre, counts_both};

use std::alloc::Allocator;
use stow_flush::stow_node::child::Child;
use stow_flush::stow_node::node::Node;

/// How many leaves there are, and messages in buffers. A count above 2^64 - 1 is told as that.
#[derive(Clone, Copy)]
pub(crate) struct Counts {
    pub(crate) leaves: u64,
    pub(crate) buffered: u64,
}

impl Counts {
    /// Those of two places together.
    fn plus(self, other: Counts) -> Counts
        ensures { result ≡ counts_both self other }
    {
        Counts {
            leaves: self.leaves.saturating_add(other.leaves),
            buffered: self.buffered.saturating_add(other.buffered),
        }
    }
}

/// What stands in a node and below it.
#[cycle(counts)]
pub(crate) fn counts_of<A: Allocator>(node: &Node<A>) -> Counts
    ensures { CountsAre node.now result }
{
    let children = node.children();
    let mut counts = Counts {
        leaves: 0,
        buffered: node.buffer().len() as u64,
    };
    for i in 0..children.len() {
        let below = match &children[i] {
            Child::Leaf(_) => Counts {
                leaves: 1,
                buffered: 0,
            },
            Child::Node(lower) => counts_of(lower),
        };
        counts = counts.plus(below);
    }
    counts
}
