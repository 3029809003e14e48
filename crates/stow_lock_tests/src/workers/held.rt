//! A thread that is held at its first passing.
use std::sync::atomic::{AtomicU64, Ordering};
use std::thread;
use std::time::{Clock, Duration};

/// How many milliseconds it is held at most.
const TURNS: u64 = 10_000;

/// Holds the first that passes until so many replies after it, or until it has waited too long.
#[derive(Drop)]
pub struct Held {
    replies: u64,
    passed: AtomicU64,
    /// 0 while it is held, 1 after the replies came, 2 after they didn't.
    outcome: AtomicU64,
}

impl Held {
    pub fn until(replies: u64) -> Held {
        Held {
            replies,
            passed: AtomicU64::new(0),
            outcome: AtomicU64::new(0),
        }
    }

    pub fn is_passed(&self) -> bool {
        self.passed.load(Ordering::SeqCst) != 0
    }

    pub fn is_over(&self) -> bool {
        self.outcome.load(Ordering::SeqCst) != 0
    }

    pub fn was_answered(&self) -> bool {
        self.outcome.load(Ordering::SeqCst) == 1
    }

    /// Passes, where so many replies came so far.
    pub fn pass<R: Clock>(&self, rt: &R, replied: &AtomicU64) {
        if self.passed.fetch_add(1, Ordering::SeqCst) != 0 {
            return;
        }
        let want = replied.load(Ordering::SeqCst).saturating_add(self.replies);
        for _ in 0..TURNS {
            if replied.load(Ordering::SeqCst) >= want {
                self.outcome.store(1, Ordering::SeqCst);
                return;
            }
            thread::sleep(rt, Duration::from_millis(1));
        }
        self.outcome.store(2, Ordering::SeqCst);
    }
}
