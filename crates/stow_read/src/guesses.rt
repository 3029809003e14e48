//! Where searches ended, so that the next ones are short.

/// How many levels of the tree have a place.
const LEVELS: usize = 32;

/// Where the last search of each level ended: in the buffers from the top on, and in the leaf's rows below them. A search
/// finds the same wherever it begins.
#[derive(Clone, Copy)]
pub(crate) struct Guesses {
    places: [usize; LEVELS],
}

impl Guesses {
    /// Before any search.
    pub(crate) fn none() -> Guesses {
        Guesses {
            places: [usize::MAX; LEVELS],
        }
    }

    /// Where the level's last search ended.
    pub(crate) fn at(&self, level: usize) -> usize {
        self.places.get(level).copied().unwrap_or(usize::MAX)
    }

    /// The level's search ended here.
    pub(crate) fn set(&mut self, level: usize, place: usize) {
        if let Some(held) = self.places.get_mut(level) {
            *held = place;
        }
    }
}
