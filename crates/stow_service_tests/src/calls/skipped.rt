//! Each worked list with each of its requests for memory refused in turn: a request that is told want of memory is as if it
//! had not been asked.
use crate::calls::alone::is_alike;
use crate::making::{call, lend, new_core};
use crate::refused::{left_after, plan_of};
use std::alloc::{AllocError, Allocator, Global};
use stow_house::stow_core::Core;
use stow_model::refusal::Refusal;
use stow_model::reply::Reply;
use stow_model::words::Words;
use stow_plain::plain_store::PlainStore;
use stow_refusing::{Plan, Refusing};
use stow_testing::lines::words_of;
use stow_testing::rows::Told;
use stow_testing::tenants::QUOTA;

/// What a core tells tenant 1's words with one request for memory refused, where so many come before it, and how many it makes.
fn told_refused<A: Allocator + Copy, B: Allocator>(
    heap: &Refusing<B>,
    alloc: A,
    core: &mut Core<A>,
    (words, left): (&Words<A>, Option<u64>),
) -> (Reply<A>, u64) {
    heap.set(plan_of(left));
    let reply = call(core, alloc, 1, words);
    let asked = heap.asked();
    heap.set(Plan::Grant);
    (reply, asked)
}

/// Whether the tenant's own store, in which memory is refused to the same request, then tells the same, and how many requests
/// for memory the core makes.
fn told_alike<A: Allocator + Copy, B: Allocator>(
    heap: &Refusing<B>,
    alloc: A,
    (core, store): (&mut Core<A>, &mut PlainStore<A>),
    (line, left): (&str, Option<u64>),
) -> Result<(bool, u64), AllocError> {
    let words = words_of(alloc, line)?;
    let (told, asked) = told_refused(heap, alloc, core, (&words, left));
    let is_refused = matches!(told, Reply::Error(Refusal::OutOfMemory));
    let alike = is_alike(store, alloc, &told, (words, is_refused))?;
    Ok((alike, asked))
}

/// Whether a list whose nth request for memory is refused is told so; `None` where it asks for fewer.
fn are_told_alike<A: Allocator + Copy, B: Allocator>(
    heap: &Refusing<B>,
    alloc: A,
    (core, store): (&mut Core<A>, &mut PlainStore<A>),
    (row, n): (&[Told], u64),
) -> Result<Option<bool>, AllocError> {
    let mut left = Some(n);
    for (line, _) in row {
        let (alike, asked) = told_alike(heap, alloc, (&mut *core, &mut *store), (line, left))?;
        left = left_after(left, asked);
        if !alike {
            return Ok(Some(false));
        }
    }
    Ok(if left.is_some() { None } else { Some(true) })
}

/// The same of a new core.
pub(crate) fn withstands<A: Allocator + Copy, B: Allocator>(
    heap: &Refusing<B>,
    (alloc, global): (A, Global),
    row: &[Told],
    n: u64,
) -> Result<Option<bool>, AllocError> {
    heap.set(Plan::Grant);
    let store = &mut PlainStore::new(alloc, QUOTA);
    lend(
        new_core(alloc, global),
        |core| are_told_alike(heap, alloc, (core, store), (row, n)),
    )
}
