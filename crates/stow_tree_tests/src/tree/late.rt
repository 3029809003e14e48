//! Random changes in two trees, and results of both that come late, twice, and from the other.
use crate::tree::run::Course;
use crate::tree::small::{COURSE, held};
use crate::tree::trees::{Call, Want};
use std::test::Fail;
use stow_refusing::Refusing;

const HERE: Course = Course {
    letters: b"abcdefgh",
    ..COURSE
};

/// The same changes, and others.
const THERE: [Course; 2] = [HERE, Course { number: 2, ..HERE }];

const LATE: [Call; 3] = [
    Call::Late(100),
    Call::Want(Want::Both),
    Call::Want(Want::Agrees),
];

#[test]
fn results_come_late(rt: HostRuntime) -> Result<(), Fail> {
    let heap = Refusing::new(rt.alloc());
    for there in THERE {
        assert_eq!(rt; held(&heap, (HERE, there), &LATE)?, LATE.len());
    }
    Ok(())
}
