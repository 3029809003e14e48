//! Why a change of a row leads to nothing.
use std::alloc::AllocError;
use stow_model::refusal::Refusal;
use thiserror::Error;

/// Why a change of a row leads to nothing.
#[derive(Clone, Copy, Debug, PartialEq, Eq, Error)]
pub enum OutcomeFault {
    /// The change is refused: `NotAnInteger`, `Overflow` or `ValueTooLong`.
    #[error("the change is refused")]
    Refused(Refusal),
    #[error("memory was refused")]
    OutOfMemory,
}

impl From<AllocError> for OutcomeFault {
    ghost use Rattle.std.specs.Prelude.{◌≡◌};
    ghost use Rattle.stow_commands.specs.declared.outcome_fault.OutcomeFault.TheVariants.{OutOfMemory};

    ghost from_gives = { λ _ fault. fault ≡ OutOfMemory };

    fn from(_error: AllocError) -> OutcomeFault {
        OutcomeFault::OutOfMemory
    }
}
