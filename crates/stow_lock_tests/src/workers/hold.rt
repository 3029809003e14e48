//! A gate that holds a call and a merge until others were answered.
use crate::workers::held::Held;
use std::sync::atomic::{AtomicU64, Ordering};
use std::time::Clock;
use stow_workers::gate::Gate;
use stow_workers::place::Place;

/// After so many replies a merge must have begun.
const REPLIES: u64 = 100_000;

/// Holds the first call until a reply after it, and, where there is a flusher, the first merge until ten more.
#[derive(Drop)]
pub struct Hold<'a, R: Clock> {
    rt: &'a R,
    replies: AtomicU64,
    call: Held,
    merge: Held,
    has_flusher: bool,
}

impl<'a, R: Clock> Hold<'a, R> {
    pub fn new(rt: &'a R, has_flusher: bool) -> Hold<'a, R> {
        Hold {
            rt,
            replies: AtomicU64::new(0),
            call: Held::until(1),
            merge: Held::until(10),
            has_flusher,
        }
    }

    /// Whether nothing is held any more, or no merge comes.
    pub fn is_over(&self) -> bool {
        let is_late = self.replies.load(Ordering::SeqCst) >= REPLIES && !self.merge.is_passed();
        is_late || self.call.is_over() && (self.merge.is_over() || !self.has_flusher)
    }

    pub fn were_answered(&self) -> bool {
        self.call.was_answered() && (self.merge.was_answered() || !self.has_flusher)
    }
}

impl<R: Clock> Gate for Hold<'_, R> {
    fn pass(&self, place: Place) {
        match place {
            Place::BeforeCall => self.call.pass(self.rt, &self.replies),
            Place::Replied => {
                self.replies.fetch_add(1, Ordering::SeqCst);
            }
            Place::BeforeMerge => self.merge.pass(self.rt, &self.replies),
        }
    }
}
