//! Sizes within their range and out of it.
use std::alloc::Allocator;
use std::test::Fail;
use stow_dropping::stow_tree::shape_report::ShapeReport;
use stow_dropping::stow_tree::tree::Tree;
use stow_dropping::stow_tree::tree_fault::TreeFault;
use stow_dropping::stow_tree::tree_shape::{
    MOST_BUFFER, MOST_CACHE, MOST_FAN_OUT, MOST_LEAF, TreeShape,
};
use stow_refusing::Refusing;

/// Each size is the most.
pub(crate) const LARGEST: TreeShape = TreeShape {
    buffer: MOST_BUFFER,
    leaf: MOST_LEAF,
    fan_out: MOST_FAN_OUT,
    cache: MOST_CACHE,
};

/// The bytes of a buffer and of a leaf, the fan-out and the leaves that are held; whether there is a tree of these.
const SIZES: [(u32, u32, u32, u32, bool); 9] = [
    (2_097_152, 4_096, 4, 0, true),
    (4_194_304, 1_048_576, 256, 65_536, true),
    (2_097_151, 4_096, 4, 0, false),
    (2_097_152, 4_095, 4, 0, false),
    (2_097_152, 4_096, 3, 0, false),
    (4_194_305, 1_048_576, 256, 65_536, false),
    (4_194_304, 1_048_577, 256, 65_536, false),
    (4_194_304, 1_048_576, 257, 65_536, false),
    (4_194_304, 1_048_576, 256, 65_537, false),
];

/// How large a new tree of the shape is.
pub(crate) fn new_report<A: Allocator + Copy>(
    alloc: A,
    shape: TreeShape,
) -> Result<ShapeReport, TreeFault> {
    Ok(Tree::new(alloc, shape)?.shape())
}

/// How many rows come before the first of which there is a tree or none wrongly.
fn held<A: Allocator + Copy>(alloc: A) -> usize {
    for i in 0..SIZES.len() {
        let (buffer, leaf, fan_out, cache, is_tree) = SIZES[i];
        let shape = TreeShape {
            buffer,
            leaf,
            fan_out,
            cache,
        };
        let wanted = if is_tree {
            Ok(ShapeReport {
                height: 1,
                leaves: 1,
                buffered: 0,
                cached: 0,
            })
        } else {
            Err(TreeFault::Shape)
        };
        if new_report(alloc, shape) != wanted {
            return i;
        }
    }
    SIZES.len()
}

#[test]
fn sizes_are_within_their_range(rt: HostRuntime) -> Result<(), Fail> {
    let heap = Refusing::new(rt.alloc());
    assert_eq!(rt; held(&heap), SIZES.len());
    Ok(())
}
