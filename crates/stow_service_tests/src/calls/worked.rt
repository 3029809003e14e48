//! Each tenant's own keys, snapshots and quota, the last key beside other tenants' first, the longest value, and many suffixes
//! to a long one.
use crate::making::{call, give, lend, new_core, shape_of};
use crate::text::{first_other, is_row_told, is_told, told};
use std::alloc::{AllocError, Allocator, Global};
use std::test::Fail;
use stow_house::stow_core::Core;
use stow_house::stow_tree::shape_report::ShapeReport;
use stow_model::words::Words;
use stow_testing::lines::{repeated, words_of};
use stow_testing::replies::{is_text, reply_text};

/// Rows of a tenant, its words, and what it is told.
const OWN_KEYS: &str = "1 PING => PONG
1 PING hello => $hello
1 SET k one => OK
2 GET k => nil
2 SET k two => OK
1 GET k => $one
1 SET l more => OK
1 DEL l k none l => :2
1 DEL l => :0
1 GET k => nil
2 GET k => $two
1 AUTH ann bc => ERR unknown command
0 PING => NOAUTH Authentication required.
4 PING => NOAUTH Authentication required.";

// The last key that there can be, beside the first key of the tenants around it.
const LAST: &str = "1 SET LAST A => OK
2 SET '' B => OK
1 RANGE '' '' 1024 => [$LAST $A ]
2 RANGE '' '' 1024 => [$ $B ]
3 RANGE '' '' 1024 => []
1 RANGE LAST '' 1024 => [$LAST $A ]
2 RANGE LAST '' 1024 => []
1 RANGE '' LAST 1024 => []
2 RANGE '' LAST 1024 => [$ $B ]
3 SET '' C => OK
2 DEL '' => :1
2 RANGE '' '' 1024 => []";

// Each tenant counts its snapshots from 1, and lists its own. What is written later is not shown, and neither is another
// tenant's row of the key.
const OWN_SNAPSHOTS: &str = "1 SNAPSHOT TAKE => :1
1 SNAPSHOT TAKE => :2
2 SNAPSHOT TAKE => :1
2 SNAPSHOT LIST => [:1 ]
1 SNAPSHOT LIST => [:1 :2 ]
2 SET a two => OK
1 SNAPSHOT GET 2 a => nil
2 SNAPSHOT GET 1 a => nil
2 SNAPSHOT TAKE => :2
1 SET a one => OK
2 SNAPSHOT RANGE 2 '' '' 9 => [$a $two ]
1 SNAPSHOT GET 3 a => ERR no such snapshot
1 USAGE => U 1 20 1000000 1 7 0 2";

// A suffix that came after a snapshot is not shown there.
const APPENDED: &str = "1 SET a x => OK
1 APPEND a y => :2
1 SNAPSHOT TAKE => :1
1 APPEND a z => :3
1 GET a => $xyz
1 SNAPSHOT GET 1 a => $xy
1 USAGE => U 1 39 1000000 3 7 0 1";

// The row fills the quota, so a byte more is refused, and the refusal is counted.
const FULL: &str =
    "3 SET a xxxxxxxxxxxxxxxxxxxxxxxxxxxxxxxxxxxxxxxxxxxxxxxxxxxxxxxxxxxxxxxxxxxxxxxxxxxxxxxxxxx => OK
3 APPEND a y => QUOTA byte quota exceeded
3 STRLEN a => :83
3 USAGE => U 1 100 100 1 4 1 0";

const TABLES: [&str; 5] = [OWN_KEYS, LAST, OWN_SNAPSHOTS, APPENDED, FULL];

/// The first row of a table that a new core tells otherwise.
fn told_otherwise<A: Allocator + Copy>(
    alloc: A,
    global: Global,
    table: &'static str,
) -> Result<Option<&'static str>, AllocError> {
    first_other(&mut new_core(alloc, global)?, alloc, table)
}

#[test]
fn each_tenant_has_its_own_keys(rt: HostRuntime) -> Result<(), Fail> {
    for table in TABLES {
        let other = told_otherwise(rt.alloc(), rt.alloc(), table)?;
        assert!(rt; other.is_none(), "{other:?}");
    }
    Ok(())
}

/// Whether tenant 1's next snapshot has this id.
fn takes<A: Allocator + Copy>(core: &mut Core<A>, alloc: A, id: u32) -> Result<bool, AllocError> {
    let want = format!(in alloc; ":{id}")?;
    is_told(core, alloc, 1, "SNAPSHOT TAKE", want.as_str())
}

// There are 64 snapshots, and one is taken in the place of a dropped one.
const PAST_THE_MOST: &str = "1 SNAPSHOT TAKE => ERR too many snapshots
1 SNAPSHOT DROP 7 => OK
1 SNAPSHOT DROP 7 => ERR no such snapshot
1 SNAPSHOT TAKE => :65";

/// Whether tenant 1 takes as many snapshots as it may, and then one in the place of a dropped one.
fn takes_all<A: Allocator + Copy>(core: &mut Core<A>, alloc: A) -> Result<bool, AllocError> {
    for id in 1..65u32 {
        if !takes(core, alloc, id)? {
            return Ok(false);
        }
    }
    Ok(first_other(core, alloc, PAST_THE_MOST)?.is_none())
}

/// Whether a new core's does.
fn are_all_taken<A: Allocator + Copy>(alloc: A, global: Global) -> Result<bool, AllocError> {
    lend(new_core(alloc, global), |core| takes_all(core, alloc))
}

#[test]
fn snapshots_have_a_limit(rt: HostRuntime) -> Result<(), Fail> {
    assert!(rt; are_all_taken(rt.alloc(), rt.alloc())?);
    Ok(())
}

// The operator lowers cap's quota to 50.
const LOWERED: &str =
    "3 SET a xxxxxxxxxxxxxxxxxxxxxxxxxxxxxxxxxxxxxxxxxxxxxxxxxxxxxxxxxxxxxxxxxxxxxxxxxxxxxxxxxxx => OK
3 QUOTA 50 => OK
3 USAGE => U 1 100 50 1 2 0 0
3 SET b '' => QUOTA byte quota exceeded
3 APPEND a '' => :83
3 SET a x => OK
3 SET a xxxxxxxxxxxxxxxxxxxxxxxxxxxxxxxxxx => QUOTA byte quota exceeded
3 SET a xxxxxxxxxxxxxxxxxxxxxxxxxxxxxxxxx => OK
3 USAGE => U 1 50 50 4 8 2 0";

/// The first of these rows that a core tells otherwise, where ann's quota becomes 0 before the one at a place.
fn other_lowered<A: Allocator + Copy>(
    core: &mut Core<A>,
    alloc: A,
    place: usize,
) -> Result<Option<&'static str>, AllocError> {
    for (i, row) in LOWERED.lines().enumerate() {
        if i == place {
            give(core, 1, 0);
        }
        if !is_row_told(core, alloc, row)? {
            return Ok(Some(row));
        }
    }
    Ok(None)
}

/// The same of a new core.
fn lowered_otherwise<A: Allocator + Copy>(
    alloc: A,
    global: Global,
    place: usize,
) -> Result<Option<&'static str>, AllocError> {
    other_lowered(&mut new_core(alloc, global)?, alloc, place)
}

// A write that lowers the charge is served above the quota too, and another tenant's quota shows nowhere.
#[test]
fn quotas_rise_and_fall(rt: HostRuntime) -> Result<(), Fail> {
    for place in 0..10usize {
        let other = lowered_otherwise(rt.alloc(), rt.alloc(), place)?;
        assert!(rt; other.is_none(), "{other:?}");
    }
    Ok(())
}

/// The words that set `v` to so many bytes.
fn long_words<A: Allocator + Copy>(alloc: A, len: usize) -> Result<Words<A>, AllocError> {
    let mut words = words_of(alloc, "SET v")?;
    words.push(repeated(alloc, b'x', len)?.as_slice())?;
    Ok(words)
}

/// Whether tenant 1 may set `v` to so many bytes.
fn sets_long<A: Allocator + Copy>(
    core: &mut Core<A>,
    alloc: A,
    len: usize,
) -> Result<bool, AllocError> {
    let reply = call(core, alloc, 1, &long_words(alloc, len)?);
    is_text(alloc, &reply, "OK")
}

const AT_THE_LIMIT: &str = "1 APPEND v x => ERR value is too long
1 STRLEN v => :1048576";

/// Whether a core takes a value at its limit, and not one byte more.
fn keeps_limit<A: Allocator + Copy>(core: &mut Core<A>, alloc: A) -> Result<bool, AllocError> {
    give(core, 1, 2_000_000);
    Ok(sets_long(core, alloc, 1_048_576)? && first_other(core, alloc, AT_THE_LIMIT)?.is_none())
}

/// Whether a new core does.
fn has_limit<A: Allocator + Copy>(alloc: A, global: Global) -> Result<bool, AllocError> {
    lend(new_core(alloc, global), |core| keeps_limit(core, alloc))
}

// A value at its limit, and one byte more.
#[test]
fn values_have_a_limit(rt: HostRuntime) -> Result<(), Fail> {
    assert!(rt; has_limit(rt.alloc(), rt.alloc())?);
    Ok(())
}

/// Appends a byte to `v` so many times.
fn append_all<A: Allocator + Copy>(
    core: &mut Core<A>,
    alloc: A,
    count: u32,
) -> Result<(), AllocError> {
    for _ in 0..count {
        let _reply = told(core, alloc, 1, "APPEND v y")?;
    }
    Ok(())
}

/// The text of `v`, of 60,000 bytes and so many that were appended.
fn appended<A: Allocator + Copy>(alloc: A, count: usize) -> Result<Vec<u8, A>, AllocError> {
    let mut text = Vec::from_slice(alloc, b"$")?;
    text.resize(60_001, b'x')?;
    text.resize(count.saturating_add(60_001), b'y')?;
    Ok(text)
}

/// Whether `v` has these.
fn is_appended<A: Allocator + Copy>(
    core: &mut Core<A>,
    alloc: A,
    count: usize,
) -> Result<bool, AllocError> {
    let text = reply_text(alloc, &told(core, alloc, 1, "GET v")?)?;
    Ok(text.as_slice() == appended(alloc, count)?.as_slice())
}

/// Whether `v` has them, and is so long.
fn has_appended<A: Allocator + Copy>(core: &mut Core<A>, alloc: A) -> Result<bool, AllocError> {
    Ok(is_told(core, alloc, 1, "STRLEN v", ":60100")? && is_appended(core, alloc, 100)?)
}

/// The shape of a core's tree after a SET of 60,000 bytes and 100 APPENDs of one, where the value is then read.
fn appended_shape<A: Allocator + Copy>(
    core: &mut Core<A>,
    alloc: A,
) -> Result<Option<ShapeReport>, AllocError> {
    let is_set = sets_long(core, alloc, 60_000)?;
    append_all(core, alloc, 100)?;
    let shape = shape_of(core);
    let is_read = has_appended(core, alloc)?;
    Ok((is_set && is_read).then_some(shape))
}

/// The same of a new core.
fn new_appended_shape<A: Allocator + Copy>(
    alloc: A,
    global: Global,
) -> Result<Option<ShapeReport>, AllocError> {
    lend(new_core(alloc, global), |core| appended_shape(core, alloc))
}

// An APPEND's message has its suffix alone, so a buffer has room for many to one long value.
#[test]
fn appends_put_their_suffix_alone(rt: HostRuntime) -> Result<(), Fail> {
    let shape = new_appended_shape(rt.alloc(), rt.alloc())?;
    let want = ShapeReport {
        height: 1,
        leaves: 1,
        buffered: 101,
        cached: 0,
    };
    assert!(rt; shape == Some(want), "{shape:?}");
    Ok(())
}
