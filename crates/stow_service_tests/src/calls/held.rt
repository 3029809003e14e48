//! Memory is given back: rounds of equal requests on keys of their own leave no more of it held than the first did.
use crate::making::{call, give, installed, lend, merged, new_core, shape_of};
use linked_list_allocator::LocalHeap;
use std::alloc::{AllocError, Allocator, Global};
use std::test::Fail;
use stow_house::stow_core::Core;
use stow_model::refusal::Refusal;
use stow_model::reply::Reply;
use stow_model::words::Words;
use stow_testing::lines::{push_word, words_of};
use stow_testing::random::Random;

/// Requests in a round.
const REQUESTS: u32 = 4_000;

/// Keys of a round, each tenant's as many.
const KEYS: u32 = 100;

/// Keys of a round of long values: more than one buffer and the leaves of one node hold.
const LONG_KEYS: u32 = 9;

/// The quota of a tenant with long values, which no round reaches.
const LONG_QUOTA: u32 = 15_000_000;

const VALUES: [&str; 4] = ["''", "7", "x", "a_longer_value_of_thirty_bytes"];

/// A request's line: `k` and `l` are keys, and `v` a value.
const LINES: [&str; 12] = [
    "MGET k l k",
    "EXISTS k l",
    "RANGE k l 9",
    "SET k v NX",
    "SET k v XX",
    "SET k v XY",
    "APPEND k v",
    "INCR k",
    "DEL k l k",
    "STRLEN k",
    "GET k",
    "SET k v",
];

/// Adds what a word of a line stands for.
fn push_letter<A: Allocator + Copy>(
    words: &mut Words<A>,
    alloc: A,
    word: &str,
    (k, l, v): (u32, u32, &str),
) -> Result<(), AllocError> {
    match word {
        "k" => push_word(words, alloc, format!(in alloc; "{k}")?.as_str()),
        "l" => push_word(words, alloc, format!(in alloc; "{l}")?.as_str()),
        "v" => push_word(words, alloc, v),
        _ => push_word(words, alloc, word),
    }
}

/// A line's words with what its letters stand for.
fn filled_words<A: Allocator + Copy>(
    alloc: A,
    line: &str,
    letters: (u32, u32, &str),
) -> Result<Words<A>, AllocError> {
    let mut words = Words::new(alloc);
    for word in line.split_whitespace() {
        push_letter(&mut words, alloc, word, letters)?;
    }
    Ok(words)
}

/// A random request's words, on keys from this one on.
fn random_words<A: Allocator + Copy>(
    alloc: A,
    random: &mut Random,
    first: u32,
) -> Result<Words<A>, AllocError> {
    let k = first.saturating_add(random.below(KEYS));
    let l = first.saturating_add(random.below(KEYS));
    let v = random.one_of(&VALUES);
    filled_words(alloc, random.one_of(&LINES), (k, l, v))
}

/// One request, to which no memory is refused.
fn ask<A: Allocator + Copy>(
    core: &mut Core<A>,
    alloc: A,
    tenant: u32,
    words: &Words<A>,
) -> Result<(), AllocError> {
    match call(core, alloc, tenant, words) {
        Reply::Error(Refusal::OutOfMemory) => Err(AllocError),
        _ => Ok(()),
    }
}

/// Random requests of three tenants on keys from this one on.
fn ask_all<A: Allocator + Copy>(
    core: &mut Core<A>,
    alloc: A,
    first: u32,
) -> Result<(), AllocError> {
    let mut random = Random::new(11);
    for _ in 0..REQUESTS {
        let tenant = 1 + random.below(3);
        ask(
            core,
            alloc,
            tenant,
            &random_words(alloc, &mut random, first)?,
        )?;
    }
    Ok(())
}

/// A request of words and a number behind them.
fn ask_of<A: Allocator + Copy>(
    core: &mut Core<A>,
    alloc: A,
    tenant: u32,
    (word, key, value): (&str, u32, &str),
) -> Result<(), AllocError> {
    let line = format!(in alloc; "{word} {key} {value}")?;
    ask(core, alloc, tenant, &words_of(alloc, line.as_str())?)
}

/// The deletion of a key, for each tenant.
fn delete<A: Allocator + Copy>(core: &mut Core<A>, alloc: A, key: u32) -> Result<(), AllocError> {
    for tenant in 1..4u32 {
        ask_of(core, alloc, tenant, ("DEL", key, ""))?;
    }
    Ok(())
}

/// Random requests on keys from this one on, and then the deletion of all rows.
fn round<A: Allocator + Copy>(core: &mut Core<A>, alloc: A, first: u32) -> Result<(), AllocError> {
    ask_all(core, alloc, first)?;
    for place in 0..KEYS {
        delete(core, alloc, first.saturating_add(place))?;
    }
    Ok(())
}

/// Whether a core holds no more of the heap after a second round, on other keys, than after the first.
fn holds_no_more<A: Allocator + Copy>(
    heap: &LocalHeap,
    alloc: A,
    core: &mut Core<A>,
) -> Result<bool, AllocError> {
    round(core, alloc, 1_000)?;
    let held = heap.used();
    round(core, alloc, 2_000)?;
    Ok(heap.used() <= held)
}

/// Whether a new core does.
fn new_holds_no_more<A: Allocator + Copy>(
    heap: &LocalHeap,
    (alloc, global): (A, Global),
) -> Result<bool, AllocError> {
    lend(
        new_core(alloc, global),
        |core| holds_no_more(heap, alloc, core),
    )
}

#[test]
fn rounds_hold_no_more_than_the_first(rt: HostRuntime) -> Result<(), Fail> {
    let heap = LocalHeap::new(rt.alloc(), 100_663_296)?;
    assert!(rt; new_holds_no_more(&heap, (&heap, rt.alloc()))?);
    Ok(())
}

/// The next flush in two steps. Whether there was one.
fn flush<A: Allocator + Copy>(core: &mut Core<A>, alloc: A) -> Result<bool, AllocError> {
    match merged(core, alloc)? {
        Some(merge) => {
            let _installed = installed(core, alloc, merge)?;
            Ok(true)
        }
        None => Ok(false),
    }
}

/// Flushes until no buffer holds a message, in at most so many steps.
fn flush_all<A: Allocator + Copy>(core: &mut Core<A>, alloc: A) -> Result<(), AllocError> {
    for _ in 0..1_000 {
        if !flush(core, alloc)? {
            return Ok(());
        }
    }
    Err(AllocError)
}

/// Puts long values of a tenant's, and flushes.
fn put_all<A: Allocator + Copy>(core: &mut Core<A>, alloc: A) -> Result<(), AllocError> {
    for key in 0..LONG_KEYS {
        ask_of(core, alloc, 1, ("SET", key, "LONG"))?;
    }
    flush_all(core, alloc)
}

/// Deletes them, and flushes.
fn delete_all<A: Allocator + Copy>(core: &mut Core<A>, alloc: A) -> Result<(), AllocError> {
    for key in 0..LONG_KEYS {
        delete(core, alloc, key)?;
    }
    flush_all(core, alloc)
}

/// Long values of a tenant's, which split nodes, and then the deletion of all.
fn long_round<A: Allocator + Copy>(core: &mut Core<A>, alloc: A) -> Result<(), AllocError> {
    put_all(core, alloc)?;
    delete_all(core, alloc)
}

/// Whether flushes split nodes in a round of long values, and a core then holds no more of the heap after a third round than
/// after the second.
fn flushes_hold_no_more<A: Allocator + Copy>(
    heap: &LocalHeap,
    alloc: A,
    core: &mut Core<A>,
) -> Result<bool, AllocError> {
    give(core, 1, LONG_QUOTA);
    long_round(core, alloc)?;
    long_round(core, alloc)?;
    let held = heap.used();
    long_round(core, alloc)?;
    Ok(shape_of(core).height > 1 && heap.used() <= held)
}

/// Whether a new core does.
fn new_flushes_hold_no_more<A: Allocator + Copy>(
    heap: &LocalHeap,
    (alloc, global): (A, Global),
) -> Result<bool, AllocError> {
    lend(
        new_core(alloc, global),
        |core| flushes_hold_no_more(heap, alloc, core),
    )
}

#[test]
fn flushes_leave_no_more_than_before(rt: HostRuntime) -> Result<(), Fail> {
    let heap = LocalHeap::new(rt.alloc(), 268_435_456)?;
    assert!(rt; new_flushes_hold_no_more(&heap, (&heap, rt.alloc()))?);
    Ok(())
}
