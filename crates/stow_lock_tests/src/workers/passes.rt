//! A gate that counts who passes.
use std::cell::Cell;
use stow_workers::gate::Gate;
use stow_workers::place::Place;

/// How often each place was passed.
#[derive(Drop)]
pub struct Passes {
    pub calls: Cell<usize>,
    pub replies: Cell<usize>,
}

impl Gate for Passes {
    fn pass(&self, place: Place) {
        let count = match place {
            Place::Replied => &self.replies,
            _ => &self.calls,
        };
        count.set(count.get().saturating_add(1));
    }
}
