//! What workers pass on their way.
use crate::place::Place;

/// What workers pass on their way. A test may hold them there.
pub trait Gate {
    fn pass(&self, place: Place);
}
