//! Why the program ends early.
ghost use Rattle.std.specs.Prelude.{◌≡◌, ◌≢◌, IfOk, MatchResult, string_bytes};
ghost use Rattle.stow_run.specs.Statuses.{failure_at, status_of, text_of_failure};

use std::alloc::{AllocError, Global};
use std::io;
use stow_script::stow_login::tenants_fault::TenantsFault;
use stow_script::stumble::Stumble;

/// The status after refused arguments and a bad script.
pub const REFUSED: u8 = 2;
/// The status after a refused tenant file.
pub const TENANTS: u8 = 3;
/// The status after input or output that failed.
pub const INPUT_OUTPUT: u8 = 4;
/// The status after want of memory.
pub const MEMORY: u8 = 5;

/// Where bytes are read or written.
#[derive(Clone, Copy, Debug)]
pub enum Endpoint<'a> {
    /// The file of this path.
    File(&'a str),
    Input,
    Output,
    /// The address that connections come to.
    Network,
    /// The system's random source.
    Random,
}

/// Why the program ends early.
#[derive(Debug, Drop)]
pub enum Failure<'a> {
    /// The arguments are refused: the parser's text for standard error.
    Arguments(String),
    /// The address to listen at is no IP address with a port.
    BadAddress,
    /// The tenant file is refused, and where, if there was memory to tell it.
    Tenants(TenantsFault, Option<String>),
    /// The script's line of this number, counted from 1, is none, and what it stumbles on.
    BadLine(usize, Stumble),
    /// Bytes can't be read or written there, for this reason.
    InputOutput(Endpoint<'a>, io::Error),
    Memory,
}

impl<'a> Failure<'a> {
    /// Reading or writing failed there.
    pub fn at(place: Endpoint<'a>, error: io::Error) -> Failure<'a>
        ensures { result ≡ failure_at place.entry error }
    {
        if error.kind() == io::ErrorKind::OutOfMemory {
            Failure::Memory
        } else {
            Failure::InputOutput(place, error)
        }
    }

    /// The tenant file is refused, and where.
    pub fn tenants(fault: TenantsFault, place: Option<String>) -> Failure<'a>
        ensures memory { fault ≡ TenantsFault.OutOfMemory → result ≡ Failure.Memory }
        ensures tenants { fault ≢ TenantsFault.OutOfMemory → result ≡ Failure.Tenants fault place }
    {
        match fault {
            TenantsFault::OutOfMemory => Failure::Memory,
            _ => Failure::Tenants(fault, place),
        }
    }

    /// The status that the program ends with.
    pub fn status(&self) -> u8
        ensures { result ≡ status_of self.now }
    {
        match self {
            Failure::Arguments(_) | Failure::BadAddress | Failure::BadLine(_, _) => REFUSED,
            Failure::Tenants(_, _) => TENANTS,
            Failure::InputOutput(_, _) => INPUT_OUTPUT,
            Failure::Memory => MEMORY,
        }
    }

    /// What is told of it: the argument parser's text, or one line.
    pub fn text(&self, alloc: Global) -> Result<String, AllocError>
        ensures { IfOk result (λ text. string_bytes text ≡ text_of_failure self.now) }
    {
        match self {
            Failure::Arguments(text) => String::from_str(alloc, text.as_str()),
            Failure::BadAddress => String::from_str(alloc, "stow: bad address\n"),
            Failure::Tenants(fault, _) => {
                format!(in alloc; "stow: tenant file refused: fault {}\n", fault.number())
            }
            Failure::BadLine(number, _) => format!(in alloc; "stow: bad line {number}\n"),
            Failure::InputOutput(_, _) => String::from_str(alloc, "stow: input or output failed\n"),
            Failure::Memory => String::from_str(alloc, "stow: memory was refused\n"),
        }
    }

    /// The second line, for whoever asks why; none where nothing more is known.
    pub fn explanation(&self, alloc: Global) -> Result<Option<String>, AllocError> {
        match self {
            Failure::Tenants(_, Some(text)) => Ok(Some(format!(in alloc; "stow: {text}\n")?)),
            Failure::BadLine(_, stumble) => {
                let word = stumble.text(alloc)?;
                Ok(Some(format!(in alloc; "stow: it stumbles on \"{word}\"\n")?))
            }
            Failure::InputOutput(place, error) => {
                let place = place.name();
                Ok(Some(format!(in alloc; "stow: {place}: {error}\n")?))
            }
            _ => Ok(None),
        }
    }
}

impl<'a> Endpoint<'a> {
    /// What was read or written there, or the failure that it ended with.
    pub fn check<T: Drop>(self, outcome: io::Result<T>) -> Result<T, Failure<'a>>
        ensures { MatchResult outcome (λ value. result ≡ Ok value)
            (λ error. result ≡ Err (failure_at self.entry error)) }
    {
        match outcome {
            Ok(value) => Ok(value),
            Err(error) => Err(Failure::at(self, error)),
        }
    }

    fn name(self) -> &'a str {
        match self {
            Endpoint::File(path) => path,
            Endpoint::Input => "standard input",
            Endpoint::Output => "standard output",
            Endpoint::Network => "the address",
            Endpoint::Random => "the random source",
        }
    }
}

impl From<AllocError> for Failure<'_> {
    ghost use Rattle.std.specs.Prelude.{◌≡◌};
    ghost use Rattle.stow_run.specs.declared.failure.Failure.TheVariants.{Memory};

    ghost from_gives = { λ _ failure. failure ≡ Memory };

    fn from(_error: AllocError) -> Self {
        Failure::Memory
    }
}
