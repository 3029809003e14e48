//! Trees that grow through all their shapes, and shrink.
use crate::tree::run::Course;
use crate::tree::shapes::LARGEST;
use crate::tree::small::{COURSE, first_other};
use crate::tree::trees::{Call, Want};
use std::test::Fail;
use stow_dropping::stow_tree::tree_shape::TreeShape;
use stow_refusing::Refusing;

const SMALLEST: TreeShape = TreeShape::SMALLEST;

/// A hundred and one letters.
pub(crate) const LETTERS: &[u8] =
    b"\x01\x02\x03\x04\x05\x06\x07!\"#$%&'()*+,-./0123456789:;<=>?@ABCDEFGHIJKLMNOPQRSTUVWXYZ[\\]^_`abcdefghijklmnopqrstuvwxyz{|}~";

/// A tree of 303 rows.
const OF_ROWS: Course = Course {
    letters: LETTERS,
    ..COURSE
};

/// A small tree of forty keys of each tenant.
pub(crate) const OF_FORTY: Course = Course {
    letters: b"0123456789ABCDEFGHIJKLMNOPQRSTUVWXYZabcd",
    longest: 4_000,
    filler: 240_000,
    number: 7,
    ..COURSE
};

/// A tree of 3,333 rows.
const OF_MANY: Course = Course {
    letters: LETTERS,
    tails: b"0123456789a",
    ..COURSE
};

/// A tree of eight keys of each tenant, whose values are long.
const OF_LONG: Course = Course {
    letters: b"abcdefgh",
    longest: 300_000,
    number: 7,
    ..COURSE
};

/// Shapes that hold leaves, and that have wide nodes.
const HOLDING_ONE: TreeShape = TreeShape {
    cache: 1,
    ..SMALLEST
};

const HOLDING: TreeShape = TreeShape {
    cache: 1_000,
    ..SMALLEST
};

const WIDE: TreeShape = TreeShape {
    fan_out: 256,
    ..SMALLEST
};

const WIDE_HOLDING: TreeShape = TreeShape {
    fan_out: 256,
    ..HOLDING
};

const EIGHT: TreeShape = TreeShape {
    fan_out: 8,
    ..SMALLEST
};

/// Rows are put, which are more than a small buffer holds, and read; then most of them removed.
const HOLDS_NONE: [Call; 7] = [
    Call::PutAll(10_000),
    Call::Want(Want::Grown(1, 2)),
    Call::Want(Want::Agrees),
    Call::Want(Want::Cached(0, 0)),
    Call::GoneFrom(50, 250),
    Call::Drain,
    Call::Want(Want::Agrees),
];

const HOLDS_ONE: [Call; 4] = [
    Call::PutAll(10_000),
    Call::Want(Want::Grown(1, 2)),
    Call::Want(Want::Agrees),
    Call::Want(Want::Cached(1, 1)),
];

/// As above; then the limit changes.
const HOLDS_MANY: [Call; 11] = [
    Call::PutAll(10_000),
    Call::Want(Want::Grown(1, 2)),
    Call::Want(Want::Agrees),
    Call::Want(Want::Cached(3, 1_000)),
    Call::Resize(1),
    Call::Want(Want::Cached(1, 1)),
    Call::Resize(0),
    Call::Want(Want::Cached(0, 0)),
    Call::Resize(3),
    Call::Want(Want::Agrees),
    Call::Want(Want::Cached(3, 3)),
];

/// All rows stay in the root.
const IN_ROOT: [Call; 3] = [
    Call::PutAll(10_000),
    Call::Want(Want::Sizes(1, 1, 303)),
    Call::Want(Want::Agrees),
];

const ROWS: [(Course, TreeShape, &[Call]); 6] = [
    (OF_ROWS, SMALLEST, &HOLDS_NONE),
    (OF_ROWS, HOLDING_ONE, &HOLDS_ONE),
    (OF_ROWS, HOLDING, &HOLDS_MANY),
    (OF_ROWS, WIDE, &HOLDS_NONE),
    (OF_ROWS, WIDE_HOLDING, &HOLDS_MANY),
    (OF_ROWS, LARGEST, &IN_ROOT),
];

#[test]
fn rows_are_read_in_each_shape(rt: HostRuntime) -> Result<(), Fail> {
    let heap = Refusing::new(rt.alloc());
    assert_eq!(rt; first_other(&heap, &ROWS)?, None);
    Ok(())
}

/// A tree of three levels.
const HIGH: [Call; 5] = [
    Call::Random(500),
    Call::Want(Want::Agrees),
    Call::Random(500),
    Call::Want(Want::Grown(3, 12)),
    Call::Want(Want::Agrees),
];

const LONG: [Call; 3] = [
    Call::Random(200),
    Call::Want(Want::Grown(1, 12)),
    Call::Want(Want::Agrees),
];

const LARGE: [Call; 3] = [
    Call::Random(200),
    Call::Want(Want::Grown(1, 2)),
    Call::Want(Want::Agrees),
];

const RANDOM: [(Course, TreeShape, &[Call]); 5] = [
    (OF_FORTY, SMALLEST, &HIGH),
    (OF_FORTY, HOLDING_ONE, &HIGH),
    (OF_FORTY, HOLDING, &HIGH),
    (OF_LONG, SMALLEST, &LONG),
    (OF_LONG, LARGEST, &LARGE),
];

#[test]
fn a_tree_tells_what_a_list_does(rt: HostRuntime) -> Result<(), Fail> {
    let heap = Refusing::new(rt.alloc());
    assert_eq!(rt; first_other(&heap, &RANDOM)?, None);
    Ok(())
}

/// A tree of eleven levels, through which other values then flow.
// Each row takes a leaf of its own. From the last key down each new leaf comes behind the first: of five children a node keeps
// three. So the root of so many levels is cut at 5, 11, 23, .. leaves: that of ten at 3,071.
const HIGHEST: [Call; 6] = [
    Call::PutDown(3_000),
    Call::Want(Want::Sizes(11, 3_333, 0)),
    Call::Want(Want::Agrees),
    Call::PutAll(2_999),
    Call::Want(Want::Grown(11, 3_333)),
    Call::Want(Want::Agrees),
];

const HIGH_ROWS: [(Course, TreeShape, &[Call]); 1] = [(OF_MANY, SMALLEST, &HIGHEST)];

#[test]
fn a_tree_grows_past_ten_levels(rt: HostRuntime) -> Result<(), Fail> {
    let heap = Refusing::new(rt.alloc());
    assert_eq!(rt; first_other(&heap, &HIGH_ROWS)?, None);
    Ok(())
}

/// Nearly all rows of a tree of three levels go.
const SHRINKS: [Call; 6] = [
    Call::Random(1_250),
    Call::Want(Want::Grown(3, 50)),
    Call::Unpin,
    Call::Shrink(40, false),
    Call::Want(Want::Shrunk(2)),
    Call::Want(Want::Agrees),
];

/// All jobs are installed.
const SHRINKS_BY_JOBS: [Call; 6] = [
    Call::Random(1_250),
    Call::Want(Want::Grown(3, 50)),
    Call::Unpin,
    Call::Shrink(4, true),
    Call::Want(Want::Shrunk(3)),
    Call::Want(Want::Agrees),
];

/// Nodes are not joined, so at a fan-out of 4 the leaves become fewer and not few.
const SHRINKS_LESS: [Call; 6] = [
    Call::Random(1_250),
    Call::Want(Want::Grown(3, 50)),
    Call::Unpin,
    Call::Shrink(4, true),
    Call::Want(Want::Shrunk(2)),
    Call::Want(Want::Agrees),
];

const SHRINKING: [(Course, TreeShape, &[Call]); 1] = [(OF_FORTY, EIGHT, &SHRINKS)];

const SHRINKING_BY_JOBS: [(Course, TreeShape, &[Call]); 1] = [(OF_FORTY, EIGHT, &SHRINKS_BY_JOBS)];

const SHRINKING_LESS: [(Course, TreeShape, &[Call]); 1] = [(OF_FORTY, SMALLEST, &SHRINKS_LESS)];

#[test]
fn leaves_become_few_again(rt: HostRuntime) -> Result<(), Fail> {
    let heap = Refusing::new(rt.alloc());
    assert_eq!(rt; first_other(&heap, &SHRINKING)?, None);
    Ok(())
}

#[test]
fn leaves_become_few_where_all_jobs_are_installed(rt: HostRuntime) -> Result<(), Fail> {
    let heap = Refusing::new(rt.alloc());
    assert_eq!(rt; first_other(&heap, &SHRINKING_BY_JOBS)?, None);
    Ok(())
}

#[test]
fn leaves_become_fewer_under_many_nodes(rt: HostRuntime) -> Result<(), Fail> {
    let heap = Refusing::new(rt.alloc());
    assert_eq!(rt; first_other(&heap, &SHRINKING_LESS)?, None);
    Ok(())
}
