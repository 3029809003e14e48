//! The gate of the program.
use crate::gate::Gate;
use crate::place::Place;

/// A gate that holds nobody.
#[derive(Clone, Copy, Debug)]
pub struct OpenGate;

impl Gate for OpenGate {
    fn pass(&self, _place: Place) {}
}
