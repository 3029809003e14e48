//! What the program is run for.
use crate::serving::Serving;

/// What is done with standard input.
#[derive(Clone, Copy, Debug, PartialEq, Eq)]
pub enum Task {
    /// Standard input is one connection.
    Pipe,
    /// Standard input is a script of events.
    Script,
    /// Standard input is a script of events, and what each tenant uses after them is told.
    Usage,
}

/// What the program is run for.
#[derive(Clone, Copy, Debug, PartialEq, Eq)]
pub enum Job {
    /// Something is done with standard input.
    Input(Task),
    /// Connections are served.
    Serve(Serving),
}
