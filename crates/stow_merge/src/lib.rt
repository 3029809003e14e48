//! A leaf with a batch of messages under pins.
//!
//! `merge_into_pages` merges a leaf's rows with messages that a buffer lends, and writes what stays into pages. Read in
//! order these hold exactly what the definition of a merge keeps; no key stands in two of them, one above the leaf
//! target holds one key, there is one alone where all fits the target, and one is empty only where nothing stays (`specs/Pages.antt`).
//!
//! Where each row is a value and alone of its key, the merge goes from one message's key to the next (`merged_by_keys`): rows of keys without
//! messages are copied in runs, as they stand, each other key is merged for itself, and pages are cut of the block in which all stands then
//! (`cut_block`). Else one walk over rows and messages finds what stays (`survey_of`), two over what stays find its format, its sizes and the
//! cuts, and one writes: a value that one message carries goes from there into the page, and only appends are folded before.
//!
//! A body of `merged_by_keys` that always answers `None` meets its contract: that costs time alone.
//!
//! A caller knows that the merged values are within the limit, or asks `has_short_values`.
//!
//! A page with a long value has format 2, which takes two bytes more to tell the length of a value (`stow_page`). What
//! is merged is measured in one format, that of a page which holds all of it, and cut by these sizes. So there is one
//! page exactly where that page is within the target, and each of more pages is no larger than it was measured: its own
//! format is no wider.
//!
//! `FlushJob` is such a leaf and batch, with the pins and the target of a plan, to be merged apart from the tree: with no
//! lock, and with nobody waiting. Its type keeps what a merge asks (`specs/Mergeable.antt`, for which `is_mergeable` is
//! the test), so `FlushJob::merge` asks nothing. A `FlushResult` holds its job, and its type keeps that its pages are that
//! job's merge, so what installs them needs nobody's word for it. Where memory is refused the job comes back whole.
//! `FlushJob::covers` tells whether pins that came after the plan see nothing that the merge left out (`specs/Covering.antt`).
//!
//! A call that asks for memory may be refused it at any time, so a body that always answers `AllocError` meets
//! its contract: tests call each with ample memory. How full pages are (`Filling`) stands in no contract.
#![tactic(auto)]

mod by_keys;
mod covering;
pub mod cutting;
mod filling;
pub mod fitting;
pub mod flush_job;
pub mod flush_result;
pub mod flush_target;
pub mod joining;
pub mod keeping;
pub mod kept_version;
mod lending;
mod measuring;
pub mod merging;
mod one_key;
mod page_sizes;
mod parts;
pub mod pins;
pub mod survey;
mod writing;

pub use stow_message;
pub use stow_message::stow_raw;
pub use stow_page;
pub use stow_page::stow_tree_model;
