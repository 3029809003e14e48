//! Where a merged leaf is cut into pages.
ghost use Rattle.std.specs.Bool.{OnFalse};
ghost use Rattle.std.specs.Prelude.{◌≡◌, ◌⊎◌, ℕ, ◌+◌, ◌^◌, ◌<◌, ◌≤◌, [], ◌∷◌, length, min, IfOk};
ghost use Rattle.stow_merge.specs.Cuts.{size_between, ArePages};

use crate::filling::Filling;
use std::alloc::{AllocError, Allocator};

/// Where pages end that are about even (`cut_by`).
pub fn cut<A: Allocator + Copy>(
    alloc: A,
    sizes: &[u32],
    room: u32,
) -> Result<Vec<usize, A>, AllocError>
    ensures pages { IfOk result (λ ends. ArePages sizes.now room 0 ends.items (length sizes.now)) }
    ensures one { size_between sizes.now 0 (length sizes.now) ≤ room
        → IfOk result (λ ends. length ends.items ≤ 1) }
{
    cut_by(alloc, sizes, room, Filling::Even)
}

/// Where pages end, by the sizes of the keys in order, in bytes: each page has a key at least, and a page above the
/// room has one alone. There are no pages where there are no keys, and no more than one where all fit the room. Pages are
/// as full as `filling` says.
pub(crate) fn cut_by<A: Allocator + Copy>(
    alloc: A,
    sizes: &[u32],
    room: u32,
    filling: Filling,
) -> Result<Vec<usize, A>, AllocError>
    ensures pages { IfOk result (λ ends. ArePages sizes.now room 0 ends.items (length sizes.now)) }
    ensures one { size_between sizes.now 0 (length sizes.now) ≤ room
        → IfOk result (λ ends. length ends.items ≤ 1) }
{
    let total = total(sizes);
    if total <= u64::from(room) {
        return one_page(alloc, sizes.len());
    }
    let aims = filling.page_sizes(sizes.len() as u64, total, u64::from(room));
    let mut ends = Vec::new(alloc);
    let mut from = 0;
    let mut page = 0u64;
    for i in 0..sizes.len() {
        let size = u64::from(sizes[i]);
        if from < i && is_end(page, size, u64::from(room), aims.after(ends.len())) {
            ends.push(i)?;
            from = i;
            page = 0;
        }
        page += size;
    }
    if from < sizes.len() {
        ends.push(sizes.len())?;
    }
    Ok(ends)
}

/// Where the one page of all keys ends, if there are any.
fn one_page<A: Allocator + Copy>(alloc: A, keys: usize) -> Result<Vec<usize, A>, AllocError>
    ensures some { 0 < keys → IfOk result (λ ends. ends.items ≡ keys ∷ []) }
    ensures none { keys ≡ 0 → IfOk result (λ ends. ends.items ≡ []) }
{
    let mut ends = Vec::new(alloc);
    if keys > 0 {
        ends.push(keys)?;
    }
    Ok(ends)
}

/// The sum, at most the highest number that there is.
fn total(sizes: &[u32]) -> u64
    ensures { result ≡ min (size_between sizes.now 0 (length sizes.now)) 18446744073709551615 }
{
    let mut total = 0u64;
    for i in 0..sizes.len() {
        total = total.saturating_add(u64::from(sizes[i]));
    }
    total
}

/// Whether a page ends before one more key.
fn is_end(page: u64, size: u64, room: u64, aim: u64) -> bool
    requires { page + size < 2 ^ 64 }
    ensures { OnFalse result (page + size ≤ room) }
{
    page + size > room || is_full(page, size, aim)
}

/// Whether the page is nearer to the size without one more key than with it.
fn is_full(page: u64, size: u64, aim: u64) -> bool {
    page >= aim || page.saturating_add(size).saturating_sub(aim) > aim - page
}
