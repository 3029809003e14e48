//! Pages of the versions that stand in one block.
ghost use Rattle.std.specs.Prelude.{◌≡◌, ◌<◌, ◌≤◌, IfOk, IfSome, IsTrue, length, map, take, drop};
ghost use Rattle.std.specs.List.{AllByRecursion};
ghost use Rattle.stow_merge.specs.Cuts.{ArePages};
ghost use Rattle.stow_merge.specs.Pages.{ArePagesOf};
ghost use Rattle.stow_merge.specs.Parts.{alone, parts_at};
ghost use Rattle.stow_merge.specs.Writing.{AreSizes, CanPack};
ghost use Rattle.stow_page.specs.Format.{format_of};
ghost use Rattle.stow_page.specs.Rows.{AreApart};

use crate::cutting::cut_by;
use crate::filling::Filling;
use crate::merging::{HEADER_SIZE, at_least_one};
use crate::writing::page_size;
use std::alloc::{AllocError, Allocator};
use stow_page::entry::entry_size;
use stow_page::packed_rows::PackedRows;
use stow_page::rows::Rows;

/// The pages of a block's versions, cut between keys by the leaf target, in bytes of a page. `None` where two versions are of one key.
pub(crate) fn cut_block<A: Allocator + Copy>(
    alloc: A,
    block: &PackedRows<A>,
    filling: Filling,
    target: u32,
) -> Result<Option<Vec<Rows<A>, A>>, AllocError>
    ensures { IfOk result (λ cut. IfSome cut (λ pages. ArePagesOf block.now target pages.items)) }
{
    let _known = block.len();
    if !are_apart(block) {
        return Ok(None);
    }
    let sizes = entry_sizes(alloc, block)?;
    let room = target.saturating_sub(HEADER_SIZE);
    let ends = cut_by(alloc, sizes.as_slice(), room, filling)?;
    let pages = parts(alloc, block, sizes.as_slice(), room, ends.as_slice())?;
    Ok(Some(at_least_one(alloc, pages)?))
}

/// Whether versions beside each other are of different keys.
fn are_apart<A: Allocator>(block: &PackedRows<A>) -> bool
    ensures { IsTrue result → AreApart block.now }
{
    for i in 1..block.len() {
        if block.get(i - 1).key.is_same(block.get(i).key) {
            return false;
        }
    }
    true
}

/// How many bytes each version's entry has.
fn entry_sizes<A: Allocator + Copy>(
    alloc: A,
    block: &PackedRows<A>,
) -> Result<Vec<u32, A>, AllocError>
    ensures { IfOk result (λ sizes.
        AreSizes (format_of block.now) (map alone block.now) sizes.items) }
{
    let format = block.format();
    let mut sizes = Vec::with_capacity(alloc, block.len())?;
    for i in 0..block.len() {
        sizes.push(entry_size(format, block.get(i)) as u32)?;
    }
    Ok(sizes)
}

/// The pages of a block's versions, each up to before one of these places.
fn parts<A: Allocator + Copy>(
    alloc: A,
    block: &PackedRows<A>,
    sizes: &[u32],
    room: u32,
    ends: &[usize],
) -> Result<Vec<Rows<A>, A>, AllocError>
    requires sizes { AreSizes (format_of block.now) (map alone block.now) sizes.now }
    requires ends { ArePages sizes.now room 0 ends.now (length sizes.now) }
    requires pack { AllByRecursion CanPack (parts_at block.now 0 ends.now) }
    ensures { IfOk result (λ pages. pages.items ≡ parts_at block.now 0 ends.now) }
{
    let mut pages = Vec::with_capacity(alloc, ends.len())?;
    let mut from = 0;
    for i in 0..ends.len() {
        let size = page_size(sizes, from, ends[i]);
        let page = part(alloc, block, from, ends[i], size)?;
        pages.push(Rows::new(alloc, page)?)?;
        from = ends[i];
    }
    Ok(pages)
}

/// A block's versions from one place on up to before another, in a block of so many bytes.
fn part<A: Allocator + Copy>(
    alloc: A,
    block: &PackedRows<A>,
    from: usize,
    to: usize,
    size: usize,
) -> Result<PackedRows<A>, AllocError>
    requires order { from ≤ to }
    requires within { to ≤ length block.now }
    requires pack { CanPack (drop from (take to block.now)) }
    ensures { IfOk result (λ part. part ≡ drop from (take to block.now)) }
{
    let mut part = PackedRows::with_room(alloc, size, to - from)?;
    if part.can_take(block, from, to) {
        part.push_rows(block, from, to)?;
        return Ok(part);
    }
    for i in from..to {
        part.push(block.get(i))?;
    }
    Ok(part)
}
