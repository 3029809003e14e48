//! Words of where children begin, by which the way down looks at few of them.
use crate::child::Child;
use std::alloc::Allocator;
use stow_leaves::stow_message::key_word::{front_of, own, shared_of};
use stow_tree_model::tenant_key::TenantKey;

/// How many words there are.
const WORDS: usize = 16;

/// Above the words of all keys.
const TOP: u64 = 1 << 63;

/// Fronts of the words of the keys at which children begin, from the second child on: of each, or where there are more children, of those that
/// stand so far apart. They are a hint: nothing is known of them, and what is found by them is looked at.
#[derive(Clone, Copy)]
pub(crate) struct ChildWords {
    words: [u64; WORDS],
    /// How many own bytes all these keys share.
    shared: usize,
    /// How far apart the children stand that have a word.
    step: usize,
}

/// How many own bytes the keys share at which these begin, but for the first.
fn shared_by<A: Allocator>(children: &[Child<A>]) -> usize {
    let Some(second) = children.get(1) else {
        return 0;
    };
    let first = own(second.low().bytes);
    let mut shared = first.len();
    for i in 1..children.len() {
        shared = shared_of(own(children[i].low().bytes), first, shared);
    }
    shared
}

impl ChildWords {
    /// No word.
    pub(crate) fn none() -> ChildWords {
        ChildWords {
            words: [TOP; WORDS],
            shared: 0,
            step: 1,
        }
    }

    /// The words of these children.
    pub(crate) fn of<A: Allocator>(children: &[Child<A>]) -> ChildWords {
        let mut words = ChildWords::none();
        words.shared = shared_by(children);
        words.step = children.len().saturating_sub(2) / WORDS + 1;
        for i in 0..WORDS {
            if let Some(child) = children.get((i + 1).saturating_mul(words.step)) {
                words.words[i] = front_of(child.low().bytes, words.shared);
            }
        }
        words
    }

    /// Between which children the key's may stand: from the first place on, before the second. No branch is taken by what is found.
    #[inline(always)]
    pub(crate) fn span_for(&self, key: TenantKey<'_>) -> (usize, usize) {
        let above = front_of(key.bytes, self.shared).wrapping_add(1);
        let mut count = 0;
        for i in 0..WORDS {
            count = u64::wrapping_add(count, self.words[i].wrapping_sub(above) >> 63);
        }
        let from = (count as usize).saturating_mul(self.step);
        (from, from.saturating_add(self.step))
    }
}
