//! How a block comes from its allocator and goes back.
ghost use Rattle.std.specs.Prelude.{◌≡◌, ℕ, ◌^◌, ◌<◌, None, length, replicate, IfSome};
ghost use base.Fml.{ftrue};
ghost use denote.RawPtr.{Ptr};
ghost use Rattle.stow_raw.specs.Lease.{lease_owned};

use crate::cells::Cells;
use std::alloc::Allocator;
use std::marker::{Model, PhantomData, Send, Sync};

/// The right to give the block of `len` bytes at `at` back to `alloc`. It takes no space.
pub struct Lease<A: Allocator> {
    mark: PhantomData<*const A>,
    ghost at: { Ptr },
    ghost len: { ℕ },
    ghost alloc: { A },
}

impl<A: Allocator> Model for Lease<A> {
    ghost also_owns = { λ l. lease_owned (A.dealloc_token l.alloc) l.at l.len };

    ghost also_shares = { λ _ _ _. ftrue };
}

unsafe impl<A: Allocator + Send> Send for Lease<A> {}

unsafe impl<A: Allocator> Sync for Lease<A> {}

impl<A: Allocator> Lease<A> {
    ghost use Rattle.stow_raw.specs.Frees.{Frees};

    /// A block of `len` bytes, none of them written, or `None` where memory is refused.
    pub(crate) fn take(alloc: &A, len: usize) -> Option<(Cells, Lease<A>)>
        requires { len < 2 ^ 63 }
        ensures { IfSome result (λ r. (r.0.bytes ≡ replicate len None)
            × Frees r.1 r.0.ptr len alloc.now) }
    {
        match alloc.allocate(len, 1) {
            Ok(ptr) => Some((Cells { ptr }, Lease { mark: PhantomData })),
            Err(_) => None,
        }
    }

    /// Gives the block back.
    pub(crate) fn give_back(self, cells: Cells, len: usize, alloc: &A)
        requires { Frees self cells.ptr len alloc.now × (length cells.bytes ≡ len) }
    {
        let Lease { mark: _ } = self;
        let Cells { ptr } = cells;
        unsafe { alloc.deallocate(ptr, len, 1) }
    }
}
