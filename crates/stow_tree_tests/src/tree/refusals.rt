//! Calls of trees with each request for memory refused in turn.
use crate::tree::growing::OF_FORTY;
use crate::tree::run::{Course, Read};
pub(crate) use crate::tree::shapes::new_report;
use crate::tree::small::COURSE;
use crate::tree::trees::{Call, Trees, Want};
use std::alloc::{AllocError, Allocator};
use std::test::Fail;
use stow_dropping::stow_tree::shape_report::ShapeReport;
use stow_dropping::stow_tree::tree_shape::TreeShape;
use stow_refusing::{Plan, Refusing};

/// What comes before, the calls of which each request is refused then, and how many requests the one with most of them makes,
/// at least and at most.
type Row = (Course, &'static [Call], &'static [Call], u64, u64);

/// Thirty-four keys of each tenant, of which each row takes a page of its own.
const SPREAD: Course = Course {
    letters: b"0123456789ABCDEFGHIJKLMNOPQRSTUVWX",
    ..COURSE
};

/// Leaves may be held, so a read whose request for one is refused holds none.
const HOLDING: Course = Course {
    shape: TreeShape {
        cache: 8,
        ..TreeShape::SMALLEST
    },
    ..COURSE
};

const ROOT: [Call; 2] = [Call::PutAll(2_100), Call::Want(Want::Sizes(1, 1, 102))];

/// Most messages of the root are such that no newer one supersedes them, so that none is dropped and all have to move.
const HIGH: [Call; 5] = [
    Call::Random(988),
    Call::Want(Want::Grown(3, 12)),
    Call::Append(5, 80),
    Call::Append(50, 80),
    Call::Append(100, 80),
];

/// Messages of which few are above the leaves.
const APPENDED: [Call; 4] = [
    Call::PutAll(2_000),
    Call::Drain,
    Call::Append(0, 20),
    Call::Append(1, 20),
];

/// Four keys to a leaf, and messages that remove them.
const EMPTIED: [Call; 4] = [
    Call::PutAll(1_000),
    Call::Drain,
    Call::Want(Want::Grown(1, 20)),
    Call::GoneFrom(1, 102),
];

/// What fills buffers is removed at once, since the list doesn't have it.
const FILLS: [Call; 17] = [
    Call::Fill(0, 480_000),
    Call::Fill(0, 0),
    Call::Random(1),
    Call::Fill(30, 480_000),
    Call::Fill(30, 0),
    Call::Random(1),
    Call::Fill(60, 480_000),
    Call::Fill(60, 0),
    Call::Random(1),
    Call::Fill(90, 480_000),
    Call::Fill(90, 0),
    Call::Random(1),
    Call::Fill(110, 480_000),
    Call::Fill(110, 0),
    Call::GoneBoth(7),
    Call::Fill(20, 480_000),
    Call::Fill(20, 0),
];

const READS: [Call; 4] = [
    Call::Read(Read::Get, 0),
    Call::Read(Read::Versions, 1),
    Call::Read(Read::Range, 0),
    Call::Read(Read::Walk, 0),
];

/// Room for a message moves all others to the leaves.
const MAKES_ROOM: [Call; 4] = [
    Call::Fill(100, 1_000_000),
    Call::Fill(100, 0),
    Call::Fill(101, 1_000_000),
    Call::Want(Want::Sizes(4, 102, 1)),
];

// 102 leaves stand under 26 nodes, these under 7, these under 2, and these under a new root.
const INSTALLS: [Call; 4] = [
    Call::Plan,
    Call::Merge,
    Call::Install(0),
    Call::Want(Want::Sizes(4, 102, 0)),
];

const FLUSHES: [Call; 6] = [
    Call::Plan,
    Call::Merge,
    Call::Install(0),
    Call::Plan,
    Call::Merge,
    Call::Install(0),
];

/// Calls that take no memory: it is all refused to a put.
const PUTS: [Call; 2] = [Call::Put(0, 1), Call::Gone(0)];

/// Rows of few requests.
const FEW: [Row; 5] = [
    (COURSE, &[], &PUTS, 0, 0),
    (COURSE, &[], &[Call::Pin(2)], 2, 9),
    (COURSE, &APPENDED, &READS, 2, 1_000),
    (HOLDING, &APPENDED, &READS, 3, 1_000),
    (HOLDING, &APPENDED, &[Call::Resize(1)], 0, 9),
];

const HIGH_TREE: [Row; 1] = [(OF_FORTY, &HIGH, &FILLS, 50, 10_000)];

const EMPTIED_LEAVES: [Row; 1] = [(SPREAD, &EMPTIED, &FLUSHES, 10, 10_000)];

const ROOM: [Row; 1] = [(SPREAD, &ROOT, &MAKES_ROOM, 301, 10_000)];

const JOBS: [Row; 1] = [(SPREAD, &ROOT, &INSTALLS, 301, 10_000)];

/// What became of a call whose nth request was refused.
#[derive(Clone, Copy)]
enum Tried {
    /// It makes fewer, and did what is wanted.
    Done,
    /// It was refused, and nothing changed that is told.
    Stands,
    /// The same, and the tree has another size.
    Moved,
    Other,
}

/// What became of a call that was refused, if it was, in a tree that was so large before.
fn refused<A: Allocator + Copy>(
    alloc: A,
    trees: &mut Trees<A>,
    before: ShapeReport,
    n: u64,
) -> Result<Tried, AllocError> {
    if !trees.stands(alloc, n)? {
        return Ok(Tried::Other);
    }
    let shape = ShapeReport {
        cached: before.cached,
        ..trees.shape()
    };
    Ok(if shape == before {
        Tried::Stands
    } else {
        Tried::Moved
    })
}

/// Whether a call does what is wanted, and is refused, and whether it makes fewer requests than the refused one.
fn carry_out<A: Allocator + Copy, B: Allocator>(
    heap: &Refusing<B>,
    alloc: A,
    trees: &mut Trees<A>,
    (call, n): (Call, u64),
) -> (bool, bool, bool) {
    heap.set(Plan::RefuseAt(n));
    let done = trees.call(alloc, call);
    let is_over = heap.asked() <= n;
    heap.set(Plan::Grant);
    match done {
        Ok(is_done) => (is_done, false, is_over),
        Err(_) => (false, true, is_over),
    }
}

/// Carries out a call with its nth request refused, where no leaf is held.
fn try_call<A: Allocator + Copy, B: Allocator>(
    heap: &Refusing<B>,
    alloc: A,
    trees: &mut Trees<A>,
    (call, is_holding, n): (Call, bool, u64),
) -> Result<Tried, AllocError> {
    trees.forget()?;
    let before = trees.shape();
    match carry_out(heap, alloc, trees, (call, n)) {
        (true, _, true) => Ok(Tried::Done),
        (_, _, true) => Ok(Tried::Other),
        (_, is_refused, false) if is_refused || is_holding => refused(alloc, trees, before, n),
        _ => Ok(Tried::Other),
    }
}

/// Carries out a call with its first request refused, then with its second, and so on, until it makes fewer, and from the first
/// again where a refused call changed how large the tree is. Whether it is refused each time but the last and nothing changes
/// that is told, and how many requests it makes at most; else which request it doesn't withstand.
fn asked_by<A: Allocator + Copy, B: Allocator>(
    heap: &Refusing<B>,
    alloc: A,
    trees: &mut Trees<A>,
    (call, is_holding): (Call, bool),
) -> Result<(bool, u64), AllocError> {
    let (mut n, mut most) = (0u64, 0u64);
    for _ in 0..20_000u32 {
        match try_call(heap, alloc, trees, (call, is_holding, n))? {
            Tried::Done => return Ok((true, most)),
            Tried::Stands => n = n.saturating_add(1),
            Tried::Moved => n = 0,
            Tried::Other => return Ok((false, n)),
        }
        most = most.max(n);
    }
    Ok((false, n))
}

/// How many of the calls withstand each refusal before the first that does not, and how many requests one of them makes at most,
/// or else which it doesn't withstand.
fn withstood<A: Allocator + Copy, B: Allocator>(
    heap: &Refusing<B>,
    alloc: A,
    trees: &mut Trees<A>,
    (calls, is_holding): (&[Call], bool),
) -> Result<(usize, u64), AllocError> {
    let mut most = 0u64;
    for i in 0..calls.len() {
        let (withstands, asked) = asked_by(heap, alloc, trees, (calls[i], is_holding))?;
        if !withstands {
            return Ok((i, asked));
        }
        most = most.max(asked);
    }
    Ok((calls.len(), most))
}

/// The same of a row's calls, after what comes before them.
fn withstood_after<A: Allocator + Copy, B: Allocator>(
    heap: &Refusing<B>,
    alloc: A,
    trees: &mut Trees<A>,
    (before, calls, is_holding): (&[Call], &[Call], bool),
) -> Result<(usize, u64), AllocError> {
    if trees.call_all(alloc, before)? != before.len() {
        return Err(AllocError);
    }
    withstood(heap, alloc, trees, (calls, is_holding))
}

/// The same in new trees.
fn withstood_anew<A: Allocator + Copy, B: Allocator>(
    heap: &Refusing<B>,
    alloc: A,
    (course, before, calls): (Course, &[Call], &[Call]),
) -> Result<(usize, u64), AllocError> {
    heap.set(Plan::Grant);
    let row = (before, calls, course.shape.cache > 0);
    withstood_after(heap, alloc, &mut Trees::new(alloc, (course, course))?, row)
}

/// The first row whose calls don't withstand each refusal, or make more requests or fewer, and what is told of it.
fn first_other<A: Allocator + Copy, B: Allocator>(
    heap: &Refusing<B>,
    alloc: A,
    rows: &[Row],
) -> Result<Option<(usize, usize, u64)>, AllocError> {
    for i in 0..rows.len() {
        let (course, before, calls, least, most) = rows[i];
        let (count, asked) = withstood_anew(heap, alloc, (course, before, calls))?;
        if count < calls.len() || asked < least || asked > most {
            return Ok(Some((i, count, asked)));
        }
    }
    Ok(None)
}

#[test]
fn reads_and_puts_may_be_refused(rt: HostRuntime) -> Result<(), Fail> {
    let heap = Refusing::new(rt.alloc());
    assert_eq!(rt; first_other(&heap, &heap, &FEW)?, None);
    Ok(())
}

#[test]
fn puts_that_flush_may_be_refused(rt: HostRuntime) -> Result<(), Fail> {
    let heap = Refusing::new(rt.alloc());
    assert_eq!(rt; first_other(&heap, &heap, &HIGH_TREE)?, None);
    Ok(())
}

#[test]
fn jobs_that_empty_leaves_may_be_refused(rt: HostRuntime) -> Result<(), Fail> {
    let heap = Refusing::new(rt.alloc());
    assert_eq!(rt; first_other(&heap, &heap, &EMPTIED_LEAVES)?, None);
    Ok(())
}

#[test]
fn room_that_makes_a_high_tree_may_be_refused(rt: HostRuntime) -> Result<(), Fail> {
    let heap = Refusing::new(rt.alloc());
    assert_eq!(rt; first_other(&heap, &heap, &ROOM)?, None);
    Ok(())
}

#[test]
fn a_job_that_makes_a_high_tree_may_be_refused(rt: HostRuntime) -> Result<(), Fail> {
    let heap = Refusing::new(rt.alloc());
    assert_eq!(rt; first_other(&heap, &heap, &JOBS)?, None);
    Ok(())
}
