//! Random numbers that are the same in each run.
ghost use Rattle.std.specs.Prelude.{◌<◌};

use rand_core::Rng;
use rand_pcg::Pcg32;

/// A source of random numbers.
#[derive(Drop)]
pub struct Random {
    source: Pcg32,
}

impl Random {
    /// The source of this number.
    pub fn new(number: u64) -> Random {
        Random {
            source: Pcg32::new(number, 1),
        }
    }

    /// A number below `end`.
    pub fn below(&mut self, end: u32) -> u32
        requires { 0 < end }
        ensures { result < end }
    {
        self.source.next_u32() % end
    }

    /// One of the words; the empty one where there are none.
    pub fn one_of(&mut self, words: &[&'static str]) -> &'static str {
        if words.is_empty() || words.len() > 1_000 {
            return "";
        }
        words[self.below(words.len() as u32) as usize]
    }
}
