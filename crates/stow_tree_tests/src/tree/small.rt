//! Scripts of small trees: each call, and results that come late, twice, and from another tree.
use crate::tree::run::Course;
use crate::tree::trees::{Call, Trees, Want};
use std::alloc::{AllocError, Allocator};
use std::test::Fail;
use stow_dropping::stow_tree::tree_shape::{MOST_LEAF, TreeShape};
use stow_refusing::Refusing;

/// The smallest tree, and three keys of each tenant.
pub(crate) const COURSE: Course = Course {
    shape: TreeShape::SMALLEST,
    letters: b"abc",
    tails: b"",
    longest: 8_000,
    filler: 0,
    number: 1,
};

const SMALLEST: TreeShape = TreeShape::SMALLEST;

/// One leaf has all keys.
const LARGE_LEAF: TreeShape = TreeShape {
    leaf: MOST_LEAF,
    ..TreeShape::SMALLEST
};

/// A key is written, removed, and appended to: the value goes that the removal hides.
const AGAIN: [Call; 7] = [
    Call::Want(Want::Sizes(1, 1, 0)),
    Call::Put(0, 1),
    Call::Gone(0),
    Call::Want(Want::Sizes(1, 1, 2)),
    Call::Append(0, 1),
    Call::Want(Want::Sizes(1, 1, 2)),
    Call::Want(Want::Agrees),
];

/// Appends to a long value.
const APPENDED: [Call; 4] = [
    Call::Put(0, 60_000),
    Call::Append(0, 100),
    Call::Want(Want::Sizes(1, 1, 101)),
    Call::Want(Want::Agrees),
];

/// The messages of one key, which would fill the root twice: before each the last but one goes, but for what a pin shows and what was
/// ordered as dead bytes were dropped, which happens before the sixth and the ninth. None goes to the leaf.
const OFTEN: [Call; 13] = [
    Call::Put(0, 10),
    Call::Pin(1),
    Call::Put(0, 500_000),
    Call::Put(0, 500_001),
    Call::Put(0, 500_002),
    Call::Put(0, 500_003),
    Call::Put(0, 500_004),
    Call::Put(0, 500_005),
    Call::Put(0, 500_006),
    Call::Put(0, 500_007),
    Call::Put(0, 500_008),
    Call::Want(Want::Sizes(1, 1, 5)),
    Call::Want(Want::Agrees),
];

/// The same where each is ordered for a job: they stay until the root is full, and are dropped together.
const ORDERED: [Call; 17] = [
    Call::Put(0, 10),
    Call::Pin(1),
    Call::Put(0, 500_000),
    Call::Plan,
    Call::Put(0, 500_001),
    Call::Plan,
    Call::Put(0, 500_002),
    Call::Plan,
    Call::Put(0, 500_003),
    Call::Plan,
    Call::Want(Want::Sizes(1, 1, 5)),
    Call::Put(0, 500_004),
    Call::Want(Want::Sizes(1, 1, 3)),
    Call::Plan,
    Call::Put(0, 500_005),
    Call::Want(Want::Sizes(1, 1, 4)),
    Call::Want(Want::Agrees),
];

/// Two keys are removed together.
const TOGETHER: [Call; 6] = [
    Call::Put(0, 1),
    Call::Put(1, 1),
    Call::Pin(1),
    Call::GoneBoth(0),
    Call::Want(Want::Sizes(1, 1, 4)),
    Call::Want(Want::Agrees),
];

/// A leaf changes its format as a long value comes and goes.
const FORMATS: [Call; 26] = [
    Call::Put(0, 1),
    Call::Plan,
    Call::Merge,
    Call::Want(Want::Format(1)),
    Call::Install(0),
    Call::Put(1, 65_536),
    Call::Plan,
    Call::Merge,
    Call::Want(Want::Format(2)),
    Call::Install(0),
    Call::Put(2, 1),
    Call::Plan,
    Call::Merge,
    Call::Want(Want::Format(2)),
    Call::Install(0),
    Call::Put(1, 65_535),
    Call::Plan,
    Call::Merge,
    Call::Want(Want::Format(1)),
    Call::Install(0),
    Call::Put(0, 70_000),
    Call::Plan,
    Call::Merge,
    Call::Want(Want::Format(2)),
    Call::Install(0),
    Call::Want(Want::Agrees),
];

/// The second result of a plan comes after the first, and a newer message between them.
const TWICE: [Call; 10] = [
    Call::Put(0, 1),
    Call::Plan,
    Call::Merge,
    Call::Plan,
    Call::Merge,
    Call::Append(0, 1),
    Call::Install(0),
    Call::Install(0),
    Call::Want(Want::Came(1, 1)),
    Call::Want(Want::Agrees),
];

/// The other tree has the oldest of the messages here.
const SAME: [Call; 10] = [
    Call::Put(0, 1),
    Call::There,
    Call::Put(0, 1),
    Call::Plan,
    Call::Merge,
    Call::Here,
    Call::Append(0, 1),
    Call::Install(0),
    Call::Want(Want::Came(1, 0)),
    Call::Want(Want::Agrees),
];

/// The other tree has an append without the value that it is to come after, which is buffered here.
const WITHOUT_VALUE: [Call; 12] = [
    Call::There,
    Call::Gone(0),
    Call::Drain,
    Call::Append(0, 1),
    Call::Plan,
    Call::Merge,
    Call::Here,
    Call::Put(0, 1),
    Call::Append(0, 1),
    Call::Install(0),
    Call::Want(Want::Came(0, 1)),
    Call::Want(Want::Agrees),
];

/// The other tree doesn't have the pin.
const PINNED: [Call; 12] = [
    Call::Put(0, 1),
    Call::Pin(1),
    Call::Gone(0),
    Call::There,
    Call::Put(0, 1),
    Call::Gone(0),
    Call::Plan,
    Call::Merge,
    Call::Here,
    Call::Install(0),
    Call::Want(Want::Came(0, 1)),
    Call::Want(Want::Agrees),
];

/// Twelve keys, of which four fit a leaf: it is emptied by each flush, and joined with a neighbour.
// A page of four keys with values of 1,000 bytes has 4,077 bytes: two of them are more than the target, and one fits with an
// empty one.
const WIDTHS: [Call; 16] = [
    Call::PutAll(1_000),
    Call::Drain,
    Call::Want(Want::Sizes(1, 3, 0)),
    Call::GoneFrom(0, 12),
    Call::Want(Want::Sizes(1, 3, 12)),
    Call::Plan,
    Call::Merge,
    Call::Install(0),
    Call::Want(Want::Sizes(1, 2, 8)),
    Call::Plan,
    Call::Merge,
    Call::Install(0),
    Call::Want(Want::Sizes(1, 1, 4)),
    Call::Drain,
    Call::Want(Want::Sizes(1, 1, 0)),
    Call::Want(Want::Agrees),
];

/// Each row takes a leaf of its own, so nine leaves stand under three nodes, and these under a root.
const APART: [Call; 4] = [
    Call::PutAll(3_000),
    Call::Drain,
    Call::Want(Want::Sizes(2, 9, 0)),
    Call::Want(Want::Agrees),
];

/// A small leaf without long values is joined with one that has some, and then one that has some too.
const JOINED: [Call; 18] = [
    Call::Put(0, 500_000),
    Call::Put(1, 400_000),
    Call::Put(2, 400_000),
    Call::Drain,
    Call::Want(Want::Sizes(1, 2, 0)),
    Call::Put(1, 1),
    Call::Put(2, 1),
    Call::Drain,
    Call::Want(Want::Sizes(1, 1, 0)),
    Call::Put(1, 400_000),
    Call::Put(2, 400_000),
    Call::Drain,
    Call::Want(Want::Sizes(1, 2, 0)),
    Call::Put(1, 70_000),
    Call::Put(2, 70_000),
    Call::Drain,
    Call::Want(Want::Sizes(1, 1, 0)),
    Call::Want(Want::Agrees),
];

/// Twelve keys.
const OF_TWELVE: Course = Course {
    letters: b"abcd",
    ..COURSE
};

const SIXTEEN: TreeShape = TreeShape {
    fan_out: 16,
    ..TreeShape::SMALLEST
};

const SCRIPTS: [(Course, TreeShape, &[Call]); 13] = [
    (OF_TWELVE, SIXTEEN, &WIDTHS),
    (COURSE, SMALLEST, &APART),
    (COURSE, LARGE_LEAF, &JOINED),
    (COURSE, SMALLEST, &AGAIN),
    (COURSE, SMALLEST, &APPENDED),
    (COURSE, SMALLEST, &OFTEN),
    (COURSE, SMALLEST, &ORDERED),
    (COURSE, SMALLEST, &TOGETHER),
    (COURSE, LARGE_LEAF, &FORMATS),
    (COURSE, SMALLEST, &TWICE),
    (COURSE, SMALLEST, &SAME),
    (COURSE, SMALLEST, &WITHOUT_VALUE),
    (COURSE, SMALLEST, &PINNED),
];

/// How many calls come before the first of which not holds what is wanted.
pub(crate) fn held<A: Allocator + Copy>(
    alloc: A,
    courses: (Course, Course),
    calls: &[Call],
) -> Result<usize, AllocError> {
    Trees::new(alloc, courses)?.call_all(alloc, calls)
}

/// The first script of which not all holds, and how far it does.
pub(crate) fn first_other<A: Allocator + Copy>(
    alloc: A,
    scripts: &[(Course, TreeShape, &'static [Call])],
) -> Result<Option<(usize, usize)>, AllocError> {
    for i in 0..scripts.len() {
        let (course, shape, calls) = scripts[i];
        let course = Course { shape, ..course };
        let held = held(alloc, (course, course), calls)?;
        if held < calls.len() {
            return Ok(Some((i, held)));
        }
    }
    Ok(None)
}

#[test]
fn each_call_of_a_small_tree(rt: HostRuntime) -> Result<(), Fail> {
    let heap = Refusing::new(rt.alloc());
    assert_eq!(rt; first_other(&heap, &SCRIPTS)?, None);
    Ok(())
}
