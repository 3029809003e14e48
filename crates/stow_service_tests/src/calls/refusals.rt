//! Each request for memory of each command, refused in turn.
use crate::making::{call, give, lend, new_core, shape_of};
use crate::text::{is_told, number};
use std::alloc::{AllocError, Allocator, Global};
use stow_house::stow_core::Core;
use stow_model::words::Words;
use stow_refusing::{Plan, Refusing};
use stow_testing::lines::words_of;
use stow_testing::replies::is_text;

/// A request of tenant 1, its reply, and what then stands at the keys `a` and `b`, the first of which had "old".
#[derive(Clone, Copy)]
pub(crate) struct Case<'a> {
    pub(crate) line: &'static str,
    told: &'static str,
    a: &'static str,
    b: &'static str,
    /// A long value, if the request is one more of it; else it has no bytes.
    long: &'a [u8],
    /// How many long values are put before.
    keys: u32,
    /// How many requests for memory it makes, of a long value at least.
    pub(crate) asked: u32,
}

/// Cases, with how many requests for memory each makes. No prepare asks for more than it takes: a sum's digits, what a reply
/// copies, the way that a range goes down with a key of each of its leaves, and the
/// place of a snapshot. A write's value is lent, and its keys stand where those of the last write stood.
pub(crate) const CASES: &str = "SET a new|OK|$new|nil|0
SET b new|OK|$old|$new|0
SET b new NX|OK|$old|$new|0
SET a new NX|nil|$old|nil|0
SET a new XX|OK|$new|nil|0
GET a|$old|$old|nil|1
MGET a b a|[$old nil $old ]|$old|nil|2
EXISTS a b a|:2|$old|nil|0
STRLEN a|:3|$old|nil|0
RANGE '' '' 9|[$a $old ]|$old|nil|7
PING hello|$hello|$old|nil|1
ECHO hello|$hello|$old|nil|1
APPEND a er|:5|$older|nil|0
APPEND b er|:2|$old|$er|0
INCR b|:1|$old|$1|0
DECR b|:-1|$old|$-1|0
INCRBY b 12|:12|$old|$12|0
INCR a|ERR value is not an integer or out of range|$old|nil|0
DEL b a|:1|nil|nil|0
SNAPSHOT TAKE|:1|$old|nil|5
SNAPSHOT LIST|[]|$old|nil|0
USAGE|[$rows :1 $charge :20 $quota :100000000 $writes :1 $commands :6 $refusals :0 $snapshots :0 ]|$old|nil|2";

/// The case of a row.
pub(crate) fn case_of(row: &'static str) -> Option<Case<'static>> {
    let (line, rest) = row.split_once("|")?;
    let (told, rest) = rest.split_once("|")?;
    let (a, rest) = rest.split_once("|")?;
    let (b, asked) = rest.split_once("|")?;
    Some(Case {
        line,
        told,
        a,
        b,
        long: b"",
        keys: 0,
        asked: number(asked),
    })
}

/// One more long value above so many.
pub(crate) fn long_case(long: &[u8], keys: u32) -> Case<'_> {
    Case {
        line: "SET",
        told: "OK",
        a: "$old",
        b: "nil",
        long,
        keys,
        asked: 11,
    }
}

/// The words that put a long value.
fn long_words<A: Allocator + Copy>(
    alloc: A,
    key: u32,
    long: &[u8],
) -> Result<Words<A>, AllocError> {
    let mut words = words_of(alloc, format!(in alloc; "SET {key}")?.as_str())?;
    words.push(long)?;
    Ok(words)
}

/// The words of a case.
fn words_of_case<A: Allocator + Copy>(alloc: A, case: Case<'_>) -> Result<Words<A>, AllocError> {
    if case.long.is_empty() {
        words_of(alloc, case.line)
    } else {
        long_words(alloc, case.keys, case.long)
    }
}

/// Bytes of a quota that no number of long values here reaches.
const AMPLE_QUOTA: u32 = 100_000_000;

/// Puts a long value at a key of tenant 1's.
fn put_long<A: Allocator + Copy>(
    core: &mut Core<A>,
    alloc: A,
    key: u32,
    long: &[u8],
) -> Result<(), AllocError> {
    let _reply = call(core, alloc, 1, &long_words(alloc, key, long)?);
    Ok(())
}

/// Gives tenant 1 so many long values.
fn fill<A: Allocator + Copy>(
    core: &mut Core<A>,
    alloc: A,
    (long, keys): (&[u8], u32),
) -> Result<(), AllocError> {
    for key in 0..keys {
        put_long(core, alloc, key, long)?;
    }
    Ok(())
}

/// Gives tenant 1 "old" at the key `a`, and tenant 2 "other".
fn start<A: Allocator + Copy>(core: &mut Core<A>, alloc: A) -> Result<(), AllocError> {
    give(core, 1, AMPLE_QUOTA);
    let _done = is_told(core, alloc, 1, "SET a old", "OK")?;
    let _done = is_told(core, alloc, 2, "SET a other", "OK")?;
    Ok(())
}

/// Whether tenant 1 has a long value at a key just where it is to.
fn has_long<A: Allocator + Copy>(
    core: &mut Core<A>,
    alloc: A,
    key: u32,
    is_put: bool,
) -> Result<bool, AllocError> {
    let line = format!(in alloc; "STRLEN {key}")?;
    let want = if is_put { ":300000" } else { ":0" };
    is_told(core, alloc, 1, line.as_str(), want)
}

/// Whether tenant 1 has these values at the keys `a` and `b`, and tenant 2 what it had.
fn stands<A: Allocator + Copy>(
    core: &mut Core<A>,
    alloc: A,
    (a, b): (&str, &str),
) -> Result<bool, AllocError> {
    Ok(
        is_told(core, alloc, 1, "GET a", a)?
            && is_told(core, alloc, 1, "GET b", b)?
            && is_told(core, alloc, 2, "RANGE '' '' 9", "[$a $other ]")?,
    )
}

/// Whether tenant 1 has the long values before a case, and the case's own one just where it is put.
fn are_long<A: Allocator + Copy>(
    core: &mut Core<A>,
    alloc: A,
    case: Case<'_>,
    is_put: bool,
) -> Result<bool, AllocError> {
    Ok(
        has_long(core, alloc, 5, case.keys > 5)?
            && has_long(core, alloc, case.keys, is_put && !case.long.is_empty())?,
    )
}

/// Whether the prepare is refused memory. It is, just where it asks for the request that is refused to it.
fn is_refused<A: Allocator + Copy, B: Allocator>(
    heap: &Refusing<B>,
    alloc: A,
    core: &mut Core<A>,
    (words, at): (&Words<A>, u64),
) -> bool {
    heap.set(Plan::RefuseAt(at));
    let refused = core.prepare(alloc, 1, words).is_err();
    heap.set(Plan::Grant);
    refused
}

/// Whether the words are prepared with memory, and then committed with none, and told this.
fn commits<A: Allocator + Copy, B: Allocator>(
    heap: &Refusing<B>,
    alloc: A,
    core: &mut Core<A>,
    (words, told): (&Words<A>, &str),
) -> Result<bool, AllocError> {
    let prepared = core.prepare(alloc, 1, words)?;
    let is_foretold = matches!(is_text(alloc, prepared.reply(), told), Ok(true));
    heap.set(Plan::RefuseAll);
    let reply = core.commit(prepared);
    let is_free = heap.asked() == 0;
    heap.set(Plan::Grant);
    Ok(is_foretold && is_free && matches!(is_text(alloc, &reply, told), Ok(true)))
}

/// Whether a case that was refused memory left what stood, and is carried out with memory.
fn is_carried_out<A: Allocator + Copy, B: Allocator>(
    heap: &Refusing<B>,
    alloc: A,
    core: &mut Core<A>,
    (words, case): (&Words<A>, Case<'_>),
) -> Result<Option<bool>, AllocError> {
    Ok(Some(
        stands(core, alloc, ("$old", "nil"))?
            && are_long(core, alloc, case, false)?
            && commits(heap, alloc, core, (words, case.told))?
            && stands(core, alloc, (case.a, case.b))?
            && are_long(core, alloc, case, true)?,
    ))
}

/// Whether words withstand the refusal of this request for memory, or `None` if their prepare asks for fewer.
fn words_withstand<A: Allocator + Copy, B: Allocator>(
    heap: &Refusing<B>,
    alloc: A,
    core: &mut Core<A>,
    (words, case, at): (&Words<A>, Case<'_>, u64),
) -> Result<Option<bool>, AllocError> {
    start(core, alloc)?;
    fill(core, alloc, (case.long, case.keys))?;
    if !is_refused(heap, alloc, core, (words, at)) {
        return Ok(None);
    }
    is_carried_out(heap, alloc, core, (words, case))
}

/// Whether a case does in a new core.
pub(crate) fn withstands<A: Allocator + Copy, B: Allocator>(
    heap: &Refusing<B>,
    (alloc, global): (A, Global),
    case: Case<'_>,
    at: u64,
) -> Result<Option<bool>, AllocError> {
    heap.set(Plan::Grant);
    let words = words_of_case(alloc, case)?;
    lend(
        new_core(alloc, global),
        |core| words_withstand(heap, alloc, core, (&words, case, at)),
    )
}

/// Whether what a refused case left stands, and a small write is carried out, of a key of its own, so that it supersedes no other.
fn goes_on<A: Allocator + Copy>(
    core: &mut Core<A>,
    alloc: A,
    (case, at): (Case<'_>, u64),
) -> Result<bool, AllocError> {
    let line = format!(in alloc; "SET small{at} x")?;
    Ok(
        stands(core, alloc, ("$old", "nil"))?
            && are_long(core, alloc, case, false)?
            && is_told(core, alloc, 1, line.as_str(), "OK")?,
    )
}

/// How many requests for memory the words' prepare makes, if it withstands the refusal of each in turn in one core.
fn asked_in_turn<A: Allocator + Copy, B: Allocator>(
    heap: &Refusing<B>,
    alloc: A,
    core: &mut Core<A>,
    (words, case): (&Words<A>, Case<'_>),
) -> Result<Option<u64>, AllocError> {
    for at in 0..1_000u64 {
        if !is_refused(heap, alloc, core, (words, at)) {
            return Ok(Some(at));
        }
        if !goes_on(core, alloc, (case, at))? {
            return Ok(None);
        }
    }
    Ok(None)
}

/// The same, if they are then carried out.
fn words_withstand_each<A: Allocator + Copy, B: Allocator>(
    heap: &Refusing<B>,
    alloc: A,
    core: &mut Core<A>,
    (words, case): (&Words<A>, Case<'_>),
) -> Result<Option<u64>, AllocError> {
    start(core, alloc)?;
    fill(core, alloc, (case.long, case.keys))?;
    let asked = asked_in_turn(heap, alloc, core, (words, case))?;
    let is_done = is_carried_out(heap, alloc, core, (words, case))?;
    Ok(if is_done == Some(true) { asked } else { None })
}

/// The same of a case in a new core.
pub(crate) fn withstands_each<A: Allocator + Copy, B: Allocator>(
    heap: &Refusing<B>,
    (alloc, global): (A, Global),
    case: Case<'_>,
) -> Result<Option<u64>, AllocError> {
    heap.set(Plan::Grant);
    let words = words_of_case(alloc, case)?;
    lend(
        new_core(alloc, global),
        |core| words_withstand_each(heap, alloc, core, (&words, case)),
    )
}

/// How many requests for memory the call of these words makes.
fn asked_by<A: Allocator + Copy, B: Allocator>(
    heap: &Refusing<B>,
    alloc: A,
    core: &mut Core<A>,
    words: &Words<A>,
) -> Result<u64, AllocError> {
    start(core, alloc)?;
    heap.set(Plan::Grant);
    let _reply = call(core, alloc, 1, words);
    Ok(heap.asked())
}

/// How many a line's call makes.
pub(crate) fn asked_by_call<A: Allocator + Copy, B: Allocator>(
    heap: &Refusing<B>,
    (alloc, global): (A, Global),
    line: &str,
) -> Result<u64, AllocError> {
    heap.set(Plan::Grant);
    let words = words_of(alloc, line)?;
    lend(
        new_core(alloc, global),
        |core| asked_by(heap, alloc, core, &words),
    )
}

/// Whether one more long value, above two levels of nodes, is what brings more leaves.
fn reaches_leaves<A: Allocator + Copy>(
    core: &mut Core<A>,
    alloc: A,
    key: u32,
    long: &[u8],
) -> Result<bool, AllocError> {
    let before = shape_of(core);
    put_long(core, alloc, key, long)?;
    Ok(before.height == 2 && shape_of(core).leaves > before.leaves)
}

/// How many long values a core is given where one more reaches the leaves below two levels, if fewer than forty.
fn reaching<A: Allocator + Copy>(
    core: &mut Core<A>,
    alloc: A,
    long: &[u8],
) -> Result<Option<u32>, AllocError> {
    start(core, alloc)?;
    for key in 0..40u32 {
        if reaches_leaves(core, alloc, key, long)? {
            return Ok(Some(key));
        }
    }
    Ok(None)
}

/// The same of a new core.
pub(crate) fn new_reaching<A: Allocator + Copy>(
    alloc: A,
    global: Global,
    long: &[u8],
) -> Result<Option<u32>, AllocError> {
    lend(new_core(alloc, global), |core| reaching(core, alloc, long))
}
