//! One tenant's own run over a list of requests.
ghost use Rattle.std.specs.Prelude.{◌≡◌, ◌≤◌, IfOk, map, reverse};
ghost use Rattle.stow_bytes.specs.Limits.{number_limit};
ghost use Rattle.stow_model.specs.Store.{store_after, replies_after};
ghost use Rattle.stow_model.specs.Reply.{reply_of};
ghost use Rattle.stow_plain.specs.OwnRun.{asked, store_of};

use crate::plain_request::PlainRequest;
use crate::plain_run::PlainRun;
use crate::plain_store::PlainStore;
use std::alloc::{AllocError, Allocator};

/// The last store and the replies of a store that serves the requests in order, from the empty store.
pub fn own_run<A: Allocator + Copy>(
    alloc: A,
    quota: u64,
    requests: &[PlainRequest<A>],
) -> Result<PlainRun<A>, AllocError>
    requires { quota ≤ number_limit }
    ensures store { IfOk result (λ run. store_of run.store
        ≡ store_after quota (reverse (map asked requests.now))) }
    ensures replies { IfOk result (λ run. reverse (map reply_of run.replies.items)
        ≡ replies_after quota (reverse (map asked requests.now))) }
{
    let mut store = PlainStore::new(alloc, quota);
    let mut replies = Vec::new(alloc);
    for request in requests {
        replies.push(store.step(alloc, request)?)?;
    }
    Ok(PlainRun { store, replies })
}
