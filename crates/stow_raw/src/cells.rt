//! The bytes of a block, each written or not. Raw pointers stand here and in `lease` alone: six functions, proved by hand.
ghost use Rattle.std.specs.Prelude.{◌≡◌, ℕ, ◌+◌, ◌<◌, ◌≤◌, [], List, Option, Some, length, slice_set};
ghost use Rattle.std.specs.Borrow.{sem};
ghost use Rattle.stow_raw.specs.Cells.{bytes_owned, bytes_lent, run, written, IsWritten};

use std::marker::{Model, Send, Sync};

/// The bytes at `ptr`. To let them go frees nothing: their block goes back with its lease, which can't be let go.
#[derive(Drop)]
pub struct Cells {
    pub(crate) ptr: *mut u8,
    ghost bytes: { List (Option ℕ) },
}

impl Model for Cells {
    ghost also_owns = { λ c. bytes_owned c.ptr c.bytes };

    ghost also_shares = { λ c _ κ. bytes_lent c.ptr c.bytes κ };
}

unsafe impl Send for Cells {}

unsafe impl Sync for Cells {}

impl Cells {
    ghost use Rattle.stow_raw.specs.CellsLends.{lends_run, with_bytes};

    /// No bytes.
    pub(crate) fn none() -> Cells
        ensures { result.bytes ≡ [] }
    {
        let none: [u8; 0] = [];
        Cells {
            ptr: &raw const none as *const u8 as *mut u8,
        }
    }

    /// Writes one byte, whether or not it was written before.
    pub(crate) fn write(&mut self, index: usize, byte: u8)
        requires { index < length self.old.bytes }
        ensures { self.new ≡ with_bytes self.old (slice_set self.old.bytes index (Some byte)) }
    {
        unsafe { self.ptr.add(index).write(byte) }
    }

    /// The `len` bytes from `from` on, which are written.
    pub(crate) fn slice(&self, from: usize, len: usize) -> &[u8]
        requires { (from + len ≤ length self.now.bytes) × IsWritten (run self.now.bytes from len) }
        ensures { result.now ≡ written (run self.now.bytes from len) }
    {
        unsafe { std::slice::from_raw_parts(self.ptr.add(from), len) }
    }

    /// The same, to be written over.
    pub(crate) fn slice_mut(&mut self, from: usize, len: usize) -> &mut [u8]
        requires { (from + len ≤ length self.old.bytes) × IsWritten (run self.old.bytes from len) }
        ensures* writes_back { sem 𝓛 (lends_run self.entry from len result) }
        ensures value { result.now ≡ written (run self.old.bytes from len) }
    {
        unsafe { std::slice::from_raw_parts_mut(self.ptr.add(from), len) }
    }
}
