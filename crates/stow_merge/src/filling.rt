//! How full the pages of a merge are to be.
use crate::page_sizes::PageSizes;
use std::alloc::Allocator;
use stow_page::rows::Rows;
use stow_page::stow_bytes::compare::compare;
use stow_page::stow_tree_model::message::Message;
use stow_page::stow_tree_model::tenant_key::TenantKey;

/// How full pages are to be, by where more keys are likely to come.
#[derive(Clone, Copy)]
pub(crate) enum Filling {
    /// Anywhere: the pages are about even.
    Even,
    /// Above all keys: each page is full but the last, which gets what is left.
    Upwards,
    /// Below all keys: each page is full but the first, which gets what is left.
    Downwards,
}

impl Filling {
    /// By where a batch stands beside a leaf's rows. Keys that came above or below all others come there again.
    pub(crate) fn beside<A: Allocator>(rows: &Rows<A>, batch: &[Message<'_>]) -> Filling {
        if is_above(rows, batch) {
            Filling::Upwards
        } else if is_below(rows, batch) {
            Filling::Downwards
        } else {
            Filling::Even
        }
    }

    /// The sizes of pages of at most `room` bytes, for so many keys of so many bytes in all, which are more.
    pub(crate) fn page_sizes(self, keys: u64, total: u64, room: u64) -> PageSizes {
        match self {
            Filling::Even => PageSizes::even(total, room),
            Filling::Upwards => PageSizes::all_full(room),
            Filling::Downwards => PageSizes::rest_first(keys, total, room),
        }
    }
}

/// Whether there are messages, and all keys of rows are below theirs.
fn is_above<A: Allocator>(rows: &Rows<A>, batch: &[Message<'_>]) -> bool {
    let Some(first) = batch.first() else {
        return false;
    };
    let len = rows.len();
    len == 0 || is_lower(rows.get(len - 1).key, first.key)
}

/// Whether there are rows and messages, and all keys of rows are above those of messages.
fn is_below<A: Allocator>(rows: &Rows<A>, batch: &[Message<'_>]) -> bool {
    let Some(last) = batch.last() else {
        return false;
    };
    !rows.is_empty() && is_lower(last.key, rows.get(0).key)
}

fn is_lower(low: TenantKey<'_>, high: TenantKey<'_>) -> bool {
    compare(low.bytes, high.bytes).is_lt()
}
