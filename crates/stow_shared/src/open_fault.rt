//! Why no lock was opened.
ghost use Rattle.std.specs.Prelude.{◌≡◌};

/// Why a core was not opened for threads.
#[derive(Clone, Copy, Debug, PartialEq, Eq)]
pub enum OpenFault {
    /// There are fewer seats than 1 or more than 1,024.
    SeatCount,
    OutOfMemory,
}

impl OpenFault {
    ghost use Rattle.stow_shared.specs.Opened.{fault_number};

    /// Its number: 1 for the number of seats, 2 for memory.
    pub fn number(self) -> u32
        ensures { result ≡ fault_number self }
    {
        match self {
            OpenFault::SeatCount => 1,
            OpenFault::OutOfMemory => 2,
        }
    }
}
