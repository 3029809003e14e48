//! The merge of a leaf with a batch.
ghost use Rattle.std.specs.Prelude.{◌≡◌, ◌≤◌, length, map, IfOk, IfSome};
ghost use Rattle.stow_merge.specs.Pages.{HaveShortValues, ArePagesOf};
ghost use Rattle.stow_merge.specs.Pins.{pins_in};
ghost use Rattle.stow_merge.specs.Writing.{versions_in, CanMerge, at_least_one_page};
ghost use Rattle.stow_page.specs.Format.{packed_page};
ghost use Rattle.stow_page.specs.StowTreeModel.Merged.{merged};
ghost use Rattle.stow_page.specs.StowTreeModel.Order.{MessagesRise};
ghost use Rattle.stow_page.specs.StowTreeModel.TreeMessage.{message_of};

use crate::by_keys::merged_by_keys;
use crate::cutting::cut_by;
use crate::filling::Filling;
use crate::lending::lent_rows;
use crate::measuring::{format_of, sizes_of};
use crate::parts::cut_block;
use crate::pins::Pins;
use crate::survey::{Survey, survey_of};
use crate::writing::{by_key, write_pages};
use std::alloc::{AllocError, Allocator};
use stow_page::packed_rows::PackedRows;
use stow_page::rows::Rows;
use stow_page::stow_tree_model::message::Message;

/// The bytes of a page before its first entry.
pub(crate) const HEADER_SIZE: u32 = 5;

/// The pages of a leaf's rows after a batch under pins, cut between keys by the leaf target, in bytes of a page. Where
/// no version stays there is one page, which is empty. Where the batch stands above or below all rows, pages are filled up,
/// and else even. `Err` where memory was refused.
pub fn merge_into_pages<A: Allocator + Copy, B: Allocator + Copy, C: Allocator>(
    alloc: A,
    rows: &Rows<C>,
    batch: &[Message<'_>],
    pins: &Pins<B>,
    target: u32,
) -> Result<Vec<Rows<A>, A>, AllocError>
    requires batch { MessagesRise (map message_of batch.now) }
    requires values { HaveShortValues
        (merged rows.now (map message_of batch.now) (pins_in pins.now)) }
    ensures { IfOk result (λ pages. ArePagesOf
        (merged rows.now (map message_of batch.now) (pins_in pins.now)) target pages.items) }
{
    if let Some(pages) = pages_by_keys(alloc, rows, batch, pins, target)? {
        return Ok(pages);
    }
    let lent = lent_rows(alloc, rows)?;
    let survey = survey_of(alloc, lent.as_slice(), batch, pins)?;
    let filling = Filling::beside(rows, batch);
    paged(alloc, &survey, filling, target)
}

/// The same, where keys can be merged one after another into a block, of which the pages are cut. `None` where they can't.
fn pages_by_keys<A: Allocator + Copy, B: Allocator + Copy, C: Allocator>(
    alloc: A,
    rows: &Rows<C>,
    batch: &[Message<'_>],
    pins: &Pins<B>,
    target: u32,
) -> Result<Option<Vec<Rows<A>, A>>, AllocError>
    requires batch { MessagesRise (map message_of batch.now) }
    requires values { HaveShortValues
        (merged rows.now (map message_of batch.now) (pins_in pins.now)) }
    ensures { IfOk result (λ cut. IfSome cut (λ pages. ArePagesOf
        (merged rows.now (map message_of batch.now) (pins_in pins.now)) target pages.items)) }
{
    let Some(block) = merged_by_keys(alloc, rows, batch, pins)? else {
        return Ok(None);
    };
    if block.as_bytes().len() <= target as usize {
        return Ok(Some(one_page(alloc, &block, target)?));
    }
    cut_block(alloc, &block, Filling::beside(rows, batch), target)
}

/// The one page of a block's versions, which is within the target.
fn one_page<A: Allocator + Copy>(
    alloc: A,
    block: &PackedRows<A>,
    target: u32,
) -> Result<Vec<Rows<A>, A>, AllocError>
    requires { length (packed_page block.now) ≤ target }
    ensures { IfOk result (λ pages. ArePagesOf block.now target pages.items) }
{
    let mut pages = Vec::new(alloc);
    pages.push(Rows::new(alloc, block.exact(alloc)?)?)?;
    Ok(pages)
}

/// The kept versions in pages.
fn paged<A: Allocator + Copy, B: Allocator + Copy>(
    alloc: A,
    survey: &Survey<'_, B>,
    filling: Filling,
    target: u32,
) -> Result<Vec<Rows<A>, A>, AllocError>
    requires { CanMerge (versions_in survey.now survey.now.kept.items) }
    ensures { let versions = versions_in survey.now survey.now.kept.items in
        IfOk result (λ pages. ArePagesOf versions target pages.items) }
{
    let keys = by_key(alloc, survey.kept.as_slice())?;
    let format = format_of(survey);
    let sizes = sizes_of(alloc, survey, keys.as_slice(), format)?;
    let ends = cut_by(
        alloc,
        sizes.as_slice(),
        target.saturating_sub(HEADER_SIZE),
        filling,
    )?;
    let pages = write_pages(
        alloc,
        survey,
        keys.as_slice(),
        ends.as_slice(),
        sizes.as_slice(),
    )?;
    at_least_one(alloc, pages)
}

/// The pages, or an empty one where there are none.
pub(crate) fn at_least_one<A: Allocator + Copy>(
    alloc: A,
    mut pages: Vec<Rows<A>, A>,
) -> Result<Vec<Rows<A>, A>, AllocError>
    ensures { IfOk result (λ filled. filled.items ≡ at_least_one_page pages.items) }
{
    if pages.is_empty() {
        let page = Rows::new(alloc, PackedRows::new(alloc)?)?;
        pages.push(page)?;
    }
    Ok(pages)
}
