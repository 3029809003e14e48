//! What a flush job was merged into.
ghost use Rattle.stow_merge.specs.FlushJobs.{IsMergeOf};
ghost use Rattle.stow_merge.specs.Pages.{ArePagesOf-prop};

use crate::flush_job::FlushJob;
use std::alloc::{Allocator, Global};
use stow_page::rows::Rows;

/// A job with its pages, which read in order are its merge.
#[derive(Drop)]
pub struct FlushResult<A: Allocator = Global> {
    pub job: FlushJob<A>,
    pub pages: Vec<Rows<A>, A>,
    pub ghost are_merged: { IsMergeOf job pages.items } by { Prim.hlevel ArePagesOf-prop },
}
