//! What a bad line of a script stumbles on.
use crate::text::escape;
use arrayvec::ArrayVec;
use std::alloc::{AllocError, Global};

/// The most bytes that are shown of a word.
const SHOWN: usize = 40;

/// The front of a word of a script's line, and whether the word goes on behind it.
#[derive(Clone, Debug, Drop)]
pub struct Stumble {
    front: ArrayVec<u8, SHOWN>,
    goes_on: bool,
}

impl Stumble {
    pub fn new(word: &[u8]) -> Stumble {
        let count = word.len().min(SHOWN);
        let mut front = ArrayVec::new();
        let _ = front.try_extend_from_slice(&word[..count]);
        Stumble {
            front,
            goes_on: count < word.len(),
        }
    }

    /// The word as a script writes it, and dots where it goes on.
    pub fn text(&self, alloc: Global) -> Result<String, AllocError> {
        let mut bytes = Vec::new(alloc);
        escape(self.front.as_slice(), &mut bytes)?;
        if self.goes_on {
            bytes.extend_from_slice(b"...")?;
        }
        String::from_utf8_lossy(alloc, bytes.as_slice())
    }
}
