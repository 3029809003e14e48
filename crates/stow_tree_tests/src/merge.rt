//! What no clause says: that a leaf's pages are filled evenly.
use std::alloc::{AllocError, Allocator};
use std::test::Fail;
use stow_merge::cutting::cut;
use stow_refusing::Refusing;

/// Sizes, and where they are cut into pages of ten.
const CUTS: [(&[u32], &[usize]); 4] = [
    (&[], &[]),
    (&[4, 4], &[2]),
    (&[5, 5, 5, 5, 30, 1], &[2, 4, 5, 6]),
    (&[6, 2, 2, 2], &[1, 4]),
];

/// Whether sizes are cut at these places.
fn are_cut<A: Allocator + Copy>(
    alloc: A,
    sizes: &[u32],
    ends: &[usize],
) -> Result<bool, AllocError> {
    Ok(cut(alloc, sizes, 10)?.as_slice() == ends)
}

#[test]
fn leaves_are_cut_between_keys(rt: HostRuntime) -> Result<(), Fail> {
    let heap = Refusing::new(rt.alloc());
    for (sizes, ends) in CUTS {
        assert!(rt; are_cut(&heap, sizes, ends)?);
    }
    Ok(())
}
