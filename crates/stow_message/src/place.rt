//! A place among messages.

/// Where a message stands, or may come to stand: behind so many others, of which so many have young slots. Both are guesses, which make a
/// search short where they are right.
#[derive(Clone, Copy)]
pub struct Place {
    pub count: usize,
    pub young: usize,
}

impl Place {
    /// No guess.
    pub fn none() -> Place {
        Place {
            count: usize::MAX,
            young: 0,
        }
    }

    /// The same once a young message before it is gone.
    pub fn one_fewer(&self) -> Place {
        Place {
            count: self.count.saturating_sub(1),
            young: self.young.saturating_sub(1),
        }
    }
}
