//! Where a write's messages may come to stand.
use stow_dropping::stow_message::place::Place;

/// How many keys of a write have a place.
const KEYS: usize = 4;

/// Where the messages of a write's first keys may come to stand, each a guess.
#[derive(Clone, Copy)]
pub struct Places {
    places: [Place; KEYS],
}

impl Places {
    /// No guess.
    pub fn none() -> Places {
        Places {
            places: [Place::none(); KEYS],
        }
    }

    /// Where the message of the key at the index may come to stand, if a guess was made.
    pub fn of(&self, index: usize) -> Place {
        match self.places.get(index) {
            Some(held) => *held,
            None => Place::none(),
        }
    }

    /// The message of the key at the index may come to stand here.
    pub fn set(&mut self, index: usize, place: Place) {
        if let Some(held) = self.places.get_mut(index) {
            *held = place;
        }
    }
}
