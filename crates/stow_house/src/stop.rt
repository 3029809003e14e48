//! Why a conversation goes no further.
ghost use Rattle.std.specs.Prelude.{◌≡◌};
ghost use Rattle.stow_house.specs.Conversations.{status_at};
ghost use Rattle.stow_house.specs.Seen.{status_by};

use stow_model::stream_fault::StreamFault;

/// Why a conversation goes no further.
#[derive(Clone, Copy)]
pub enum Stop {
    /// The next message isn't whole yet.
    More,
    /// The client wished to quit.
    Quit,
    /// The stream has a fault.
    Faulted(StreamFault),
    /// Memory was refused to what came, or to a reply.
    NoMemory,
}

impl Stop {
    /// Whether more can be heard, where it stops so.
    pub fn stays_open(stop: Option<Stop>) -> bool
        ensures { status_by result ≡ status_at stop }
    {
        match stop {
            None | Some(Stop::More | Stop::NoMemory) => true,
            Some(Stop::Quit | Stop::Faulted(_)) => false,
        }
    }
}
