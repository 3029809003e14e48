//! The status that the program ends with, and what is told of it.
ghost use Rattle.std.specs.Prelude.{◌≡◌};
ghost use Rattle.stow_run.specs.Statuses.{status_after, status_of};

use crate::failure::Failure;
use std::alloc::Global;
use std::io::Write;

/// The status of what the program came to, which is told where it is a failure.
pub fn conclude<E: Write>(
    alloc: Global,
    outcome: Result<(), Failure<'_>>,
    explain: bool,
    errors: &mut E,
) -> u8
    ensures { result ≡ status_after outcome.entry }
{
    match outcome {
        Ok(()) => 0,
        Err(failure) => tell(alloc, &failure, explain, errors),
    }
}

/// Tells why the program ends early, and more of it where that was asked for. A text that can't be written is dropped.
fn tell<E: Write>(alloc: Global, failure: &Failure<'_>, explain: bool, errors: &mut E) -> u8
    ensures { result ≡ status_of failure.now }
{
    if let Ok(text) = failure.text(alloc) {
        let _ = errors.write_all(text.as_bytes());
    }
    if explain {
        if let Ok(Some(text)) = failure.explanation(alloc) {
            let _ = errors.write_all(text.as_bytes());
        }
    }
    failure.status()
}
