//! A core whose memory was filled until a SET was told want of it: all that it has can be deleted, and it can be filled again.
use crate::making::{call, give, lend, new_core};
use linked_list_allocator::LocalHeap;
use std::alloc::{AllocError, Allocator, Global};
use std::test::Fail;
use stow_house::stow_core::Core;
use stow_model::refusal::Refusal;
use stow_model::reply::Reply;
use stow_model::words::Words;
use stow_testing::lines::{push_word, words_of};

/// Bytes of the heap.
const HEAP: usize = 134_217_728;

/// A quota that the heap doesn't hold.
const AMPLE_QUOTA: u32 = 1_000_000_000;

/// Keys of one deletion.
const DELETED: u32 = 64;

/// More keys than the heap has room for.
const MOST: u32 = 1_000;

/// Whether a request of tenant 1 was answered with memory.
fn is_answered<A: Allocator + Copy>(core: &mut Core<A>, alloc: A, words: &Words<A>) -> bool {
    !matches!(
        call(core, alloc, 1, words),
        Reply::Error(Refusal::OutOfMemory)
    )
}

/// Gives the key a long value. Whether there was memory for it and its words.
fn is_set<A: Allocator + Copy>(core: &mut Core<A>, alloc: A, key: u32) -> Result<bool, AllocError> {
    let line = format!(in alloc; "SET {key} LONG")?;
    match words_of(alloc, line.as_str()) {
        Ok(words) => Ok(is_answered(core, alloc, &words)),
        Err(_) => Ok(false),
    }
}

/// How many keys have a value once the next one was refused memory.
fn filled<A: Allocator + Copy>(core: &mut Core<A>, alloc: A) -> Result<u32, AllocError> {
    for key in 0..MOST {
        if !is_set(core, alloc, key)? {
            return Ok(key);
        }
    }
    Err(AllocError)
}

/// The words that delete as many keys as one deletion has, from this one on.
fn deletion<A: Allocator + Copy>(alloc: A, first: u32) -> Result<Words<A>, AllocError> {
    let mut words = words_of(alloc, "DEL")?;
    for place in 0..DELETED {
        let key = first.saturating_add(place);
        let key = format!(in alloc; "{key}")?;
        push_word(&mut words, alloc, key.as_str())?;
    }
    Ok(words)
}

/// How many deletions of all these keys were refused memory.
fn refused<A: Allocator + Copy>(
    core: &mut Core<A>,
    alloc: A,
    keys: u32,
) -> Result<u32, AllocError> {
    let mut refused = 0u32;
    for turn in 0..keys / DELETED + 1 {
        let words = deletion(alloc, turn.saturating_mul(DELETED))?;
        if !is_answered(core, alloc, &words) {
            refused = refused.saturating_add(1);
        }
    }
    Ok(refused)
}

/// How far a core is filled, where no deletion is refused memory behind that, nor behind what then fills it again, nine tenths as
/// far or more.
fn filled_and_emptied<A: Allocator + Copy>(
    core: &mut Core<A>,
    alloc: A,
) -> Result<Option<u32>, AllocError> {
    give(core, 1, AMPLE_QUOTA);
    let first = filled(core, alloc)?;
    if refused(core, alloc, first)? > 0 {
        return Ok(None);
    }
    let second = filled(core, alloc)?;
    if refused(core, alloc, second)? > 0 {
        return Ok(None);
    }
    if second.saturating_mul(10) < first.saturating_mul(9) {
        return Ok(None);
    }
    Ok(Some(first))
}

/// Whether a new core is filled beyond what one deletion has, and emptied again.
fn is_emptied<A: Allocator + Copy>((alloc, global): (A, Global)) -> Result<bool, AllocError> {
    let first = lend(
        new_core(alloc, global),
        |core| filled_and_emptied(core, alloc),
    )?;
    Ok(first.unwrap_or(0) > DELETED)
}

#[test]
fn a_full_core_is_emptied_and_filled_again(rt: HostRuntime) -> Result<(), Fail> {
    let heap = LocalHeap::new(rt.alloc(), HEAP)?;
    assert!(rt; is_emptied((&heap, rt.alloc()))?);
    Ok(())
}
