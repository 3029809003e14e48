//! Memory that is held back for removals.
use std::alloc::{AllocError, Allocator, Global};
use stow_ledger::charge::Charge;

/// How many blocks are held back where there are no rows.
const BLOCKS: u64 = 16;

/// How many bytes more for each row: about what the message that removes it takes.
const EACH_ROW: u64 = 64;

/// The smallest piece that is got, in bytes.
const LEAST_PIECE: u64 = 8_192;

/// Pieces of memory that are got and left unused, so that removals have it where no other is left. What they hold means nothing.
#[derive(Drop)]
pub struct HeldBack<A: Allocator = Global> {
    /// The bytes of the largest piece.
    block: u64,
    /// How many bytes are wanted.
    wanted: u64,
    /// How many bytes the pieces have.
    held: u64,
    /// What all tenants are charged together.
    charged: u64,
    /// What they were charged when memory was first refused, or leaves last drained.
    full: u64,
    /// The least that they were charged since then.
    least: u64,
    pieces: Vec<Vec<u8, A>, A>,
}

impl<A: Allocator + Copy> HeldBack<A> {
    /// What is held back where there are no rows, in blocks of so many bytes.
    pub(crate) fn new(alloc: A, block: u32) -> Result<HeldBack<A>, AllocError> {
        let block = u64::from(block);
        let mut held = HeldBack {
            block,
            wanted: block.saturating_mul(BLOCKS),
            held: 0,
            charged: 0,
            full: 0,
            least: 0,
            pieces: Vec::new(alloc),
        };
        held.fill(alloc)?;
        Ok(held)
    }

    /// A tenant's charge and rows are others now: what is wanted grows and shrinks with the rows.
    pub(crate) fn count(&mut self, before: Charge, after: Charge) {
        let more = self
            .wanted
            .saturating_add(after.rows.saturating_mul(EACH_ROW));
        self.wanted = more.saturating_sub(before.rows.saturating_mul(EACH_ROW));
        let more = self.charged.saturating_add(after.charge);
        self.charged = more.saturating_sub(before.charge);
        self.least = self.least.min(self.charged);
    }

    /// Whether an eighth of what tenants were charged when memory was first refused, or leaves last drained, came or went since
    /// then. If so, what they are charged now is kept for the next time.
    pub(crate) fn is_due(&mut self) -> bool {
        let is_first = self.full == 0;
        let eighth = self.full / 8;
        let has_come = self.charged > self.full.saturating_add(eighth);
        let has_gone = self.least.saturating_add(eighth) < self.full;
        if is_first || has_come || has_gone {
            self.full = self.charged;
            self.least = self.charged;
        }
        !is_first && (has_come || has_gone)
    }

    /// Whether less than a block of what is wanted is missing.
    pub(crate) fn is_whole(&self) -> bool {
        self.held.saturating_add(self.block) > self.wanted
    }

    /// Gets what is missing, in blocks, and in smaller pieces where no block is left. Where memory is refused it keeps what
    /// was got.
    pub(crate) fn fill(&mut self, alloc: A) -> Result<(), AllocError> {
        let mut size = self.block;
        for _ in 0..u64::MAX {
            if self.is_whole() {
                return Ok(());
            }
            if let Err(refused) = self.get(alloc, size) {
                size /= 2;
                if size < LEAST_PIECE {
                    return Err(refused);
                }
            }
        }
        Ok(())
    }

    /// Gets one more piece, of so many bytes.
    fn get(&mut self, alloc: A, size: u64) -> Result<(), AllocError> {
        self.pieces.reserve(1)?;
        self.pieces.push(Vec::with_capacity(alloc, size as usize)?)?;
        self.held = self.held.saturating_add(size);
        Ok(())
    }

    /// Gives all of it up.
    pub(crate) fn give_up(&mut self) {
        self.pieces.clear();
        self.held = 0;
    }
}
