//! Results of another core's job.
use crate::making::{installed, lend, merged, new_core};
use crate::text::{is_told, row_of};
use std::alloc::{AllocError, Allocator, Global};
use std::test::Fail;
use stow_house::stow_core::Core;
use stow_house::stow_node::installed::Installed;

/// Whether what came of a job of another core, in which tenant 1 wrote `x` to the key `a`, is installed in a core in which it
/// asked this.
fn is_installed<A: Allocator + Copy>(
    core: &mut Core<A>,
    other: &mut Core<A>,
    alloc: A,
    line: &str,
) -> Result<bool, AllocError> {
    let _answered = is_told(core, alloc, 1, line, "OK")?;
    let _done = is_told(other, alloc, 1, "SET a x", "OK")?;
    match merged(other, alloc)? {
        Some(merge) => Ok(installed(core, alloc, merge)? == Installed::Done),
        None => Err(AllocError),
    }
}

/// Whether it is just where the tenant's rows are then these.
fn is_row<A: Allocator + Copy>(
    core: &mut Core<A>,
    other: &mut Core<A>,
    alloc: A,
    row: &'static str,
) -> Result<bool, AllocError> {
    let (line, rows) = row_of(row);
    Ok(
        is_installed(core, other, alloc, line)? == (rows == "[$a $x ]")
            && is_told(core, alloc, 1, "RANGE '' '' 9", rows)?,
    )
}

/// The same of a core and another new one.
fn is_row_beside<A: Allocator + Copy>(
    core: &mut Core<A>,
    (alloc, global): (A, Global),
    row: &'static str,
) -> Result<bool, AllocError> {
    lend(
        new_core(alloc, global),
        |other| is_row(core, other, alloc, row),
    )
}

/// The same of two new cores.
fn is_row_of_new<A: Allocator + Copy>(
    alloc: A,
    global: Global,
    row: &'static str,
) -> Result<bool, AllocError> {
    lend(
        new_core(alloc, global),
        |core| is_row_beside(core, (alloc, global), row),
    )
}

/// What the tenant asked, and its rows.
const ROWS: &str = "PING => []
SET b x => [$b $x ]
SET a y => [$a $y ]
SET a x => [$a $x ]";

// A job of another core is installed just where the same message stands here: not where nothing was written, and not where
// another key was or another value.
#[test]
fn results_of_another_core_are_stale(rt: HostRuntime) -> Result<(), Fail> {
    for row in ROWS.lines() {
        assert!(rt; is_row_of_new(rt.alloc(), rt.alloc(), row)?, "{row}");
    }
    Ok(())
}
