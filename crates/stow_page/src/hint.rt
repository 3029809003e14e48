//! Where the rows of a block may be found by their keys.
use crate::guess::Guess;
use crate::hint_cell::HintCell;
use std::alloc::{AllocError, Allocator, Global};
use stow_filter::hash::hash;

/// The fewest rows among which a search isn't short.
const FEWEST: usize = 16;

/// The most rows that can have a cell each.
const MOST: usize = 50_000;

/// How many cells may be a key's.
const PROBES: usize = 24;

/// Cells in which a key's newest row is found by the hash of the key. A cell is a guess, which is believed only after a look at the
/// row, so nothing is claimed of it.
#[derive(Drop)]
pub(crate) struct Hint<A: Allocator = Global> {
    /// None, or three for two rows, and behind them those that only the keys of the last ones reach.
    cells: Vec<HintCell, A>,
}

impl<A: Allocator> Hint<A> {
    /// No cells.
    pub(crate) fn new(alloc: A) -> Hint<A> {
        Hint {
            cells: Vec::new(alloc),
        }
    }

    /// Makes cells for so many rows, if a search among them isn't short and each can have one.
    pub(crate) fn reserve(&mut self, rows: usize) -> Result<(), AllocError> {
        if rows < FEWEST || rows > MOST {
            return Ok(());
        }
        self.cells
            .resize(rows + rows / 2 + PROBES, HintCell::free())
    }

    /// The number of the first cell that may be a key's of this hash.
    #[inline(always)]
    fn first_for(&self, hash: u64) -> usize {
        let count = self.cells.len().saturating_sub(PROBES) as u64;
        ((hash & 0xffff_ffff).wrapping_mul(count) >> 32) as usize
    }

    /// Writes the index of the newest row of a key, which has this hash, and where its entry begins into the first of the key's cells
    /// that is free, if one is.
    pub(crate) fn note(&mut self, hash: u64, index: usize, place: u32) {
        let first = self.first_for(hash);
        let Ok(named) = u16::try_from(index.saturating_add(1)) else {
            return;
        };
        for probe in 0..PROBES {
            let Some(cell) = self.cells.get_mut(first.saturating_add(probe)) else {
                return;
            };
            if cell.named == 0 {
                *cell = HintCell {
                    named,
                    tag: tag_of(hash),
                    place,
                };
                return;
            }
        }
    }

    /// Where the key's newest row may stand.
    #[inline(always)]
    pub(crate) fn guess(&self, key: &[u8]) -> Guess {
        let hash = hash(key);
        let first = self.first_for(hash);
        let tag = tag_of(hash);
        for probe in 0..PROBES {
            let Some(cell) = self.cells.get(first.saturating_add(probe)) else {
                return Guess::none();
            };
            if cell.named == 0 {
                return Guess::none();
            }
            if cell.tag == tag {
                return Guess {
                    index: usize::from(cell.named) - 1,
                    place: cell.place as usize,
                };
            }
        }
        Guess::none()
    }
}

/// The bits of a hash that stand in a cell.
fn tag_of(hash: u64) -> u16 {
    (hash >> 48) as u16
}
