//! How large the parts of a tree may grow, and its cache.
ghost use Rattle.std.specs.Prelude.{◌≡◌, ◌↔◌, IsTrue};
ghost use Rattle.stow_tree.specs.Shapes.{IsInRange, nodes_of};

use stow_bytes::limits::CACHE_LIMIT;
use stow_flush::stow_merge::flush_target::{GREATEST_LEAF_TARGET, LEAST_LEAF_TARGET};
use stow_flush::stow_node::shape::Shape;

/// The fewest bytes of a node's buffer.
pub const LEAST_BUFFER: u32 = 2_097_152;
/// The most bytes of a node's buffer.
pub const MOST_BUFFER: u32 = 4_194_304;
/// The fewest bytes of a page that a leaf is cut by.
pub const LEAST_LEAF: u32 = LEAST_LEAF_TARGET;
/// The most bytes of a page that a leaf is cut by.
pub const MOST_LEAF: u32 = GREATEST_LEAF_TARGET;
/// The fewest children that a node may be let have.
pub const LEAST_FAN_OUT: u32 = 4;
/// The most children that a node may be let have.
pub const MOST_FAN_OUT: u32 = 256;
/// The most leaves that may be held unpacked.
pub const MOST_CACHE: u32 = CACHE_LIMIT;

/// How large the parts of a tree may grow, and its cache.
#[derive(Clone, Copy)]
pub struct TreeShape {
    /// The bytes of a node's buffer.
    pub buffer: u32,
    /// The bytes of a page that a leaf is cut by.
    pub leaf: u32,
    /// The most children that a node may have.
    pub fan_out: u32,
    /// The most leaves that are held unpacked.
    pub cache: u32,
}

impl TreeShape {
    /// The sizes of a tree where none are named.
    pub const USUAL: TreeShape = TreeShape {
        buffer: LEAST_BUFFER,
        leaf: 65_536,
        fan_out: 16,
        cache: 1024,
    };

    /// Each size is the least.
    pub const SMALLEST: TreeShape = TreeShape {
        buffer: LEAST_BUFFER,
        leaf: LEAST_LEAF,
        fan_out: LEAST_FAN_OUT,
        cache: 0,
    };

    /// Whether each size is within its limits.
    pub fn is_in_range(self) -> bool
        ensures { IsTrue result ↔ IsInRange self }
    {
        LEAST_BUFFER <= self.buffer
            && self.buffer <= MOST_BUFFER
            && LEAST_LEAF <= self.leaf
            && self.leaf <= MOST_LEAF
            && LEAST_FAN_OUT <= self.fan_out
            && self.fan_out <= MOST_FAN_OUT
            && self.cache <= MOST_CACHE
    }

    /// The sizes of its nodes and leaves.
    pub(crate) fn nodes(self) -> Shape
        ensures { result ≡ nodes_of self }
    {
        Shape {
            buffer: self.buffer,
            leaf: self.leaf,
            fan_out: self.fan_out,
        }
    }
}
