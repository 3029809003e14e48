//! What is wrong with bytes that are no page.
ghost use Rattle.std.specs.Prelude.{◌≡◌};
ghost use Rattle.stow_page.specs.FaultNumber.{fault_number};

use std::alloc::{AllocError, AllocFailed};
use thiserror::Error;

/// Why bytes are not unpacked. Of several faults the first in reading order is told.
#[derive(Clone, Copy, Debug, PartialEq, Eq, Error)]
pub enum PageFault {
    #[error("another format byte")]
    FormatByte,
    #[error("the bytes end too early")]
    Truncated,
    #[error("an entry doesn't stand above the one before it")]
    Order,
    #[error("a field is out of its range, or bytes follow the last entry")]
    LengthOrField,
    #[error("memory was refused")]
    Memory,
}

impl PageFault {
    /// The number by which the fault is told.
    pub fn number(self) -> u8
        ensures { result ≡ fault_number self }
    {
        match self {
            PageFault::FormatByte => 1,
            PageFault::Truncated => 2,
            PageFault::Order => 3,
            PageFault::LengthOrField => 4,
            PageFault::Memory => 5,
        }
    }
}

impl From<AllocError> for PageFault {
    ghost use Rattle.std.specs.Prelude.{◌≡◌};
    ghost use Rattle.stow_page.specs.declared.page_fault.PageFault.TheVariants.{Memory};

    ghost from_gives = { λ _ e. e ≡ Memory };

    fn from(_error: AllocError) -> PageFault {
        PageFault::Memory
    }
}

impl<T: Drop> From<AllocFailed<T>> for PageFault {
    ghost use Rattle.std.specs.Prelude.{◌≡◌};
    ghost use Rattle.stow_page.specs.declared.page_fault.PageFault.TheVariants.{Memory};

    ghost from_gives = { λ _ e. e ≡ Memory };

    fn from(_error: AllocFailed<T>) -> PageFault {
        PageFault::Memory
    }
}
