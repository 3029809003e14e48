//! Why a tenant file is refused.
ghost use Rattle.std.specs.Prelude.{◌≡◌};
ghost use Rattle.stow_login.specs.TenantFile.{fault_number};

use std::alloc::{AllocError, AllocFailed};
use thiserror::Error;

/// What is wrong with a tenant file. Of several faults the first is told: those of the whole file, and
/// then those of each tenant in turn.
#[derive(Clone, Copy, Debug, PartialEq, Eq, Error)]
pub enum TenantsFault {
    #[error("the file is no TOML text")]
    NotToml,
    #[error("a key is missing, unknown or of another type")]
    WrongShape,
    #[error("the name is used by an earlier tenant")]
    NameUsed,
    #[error("a name has 1 to 64 ASCII letters, digits, '-', '_' and '.'")]
    BadName,
    #[error("a salt is 0 to 64 bytes in hexadecimal digits, a digest 32")]
    BadHexadecimal,
    #[error("a quota is 0 or more")]
    QuotaOutOfRange,
    #[error("a file has 1 to 65,535 tenants")]
    WrongCount,
    #[error("memory was refused")]
    OutOfMemory,
}

impl TenantsFault {
    /// The number by which an operator is told of the fault.
    pub fn number(self) -> u8
        ensures { result ≡ fault_number self }
    {
        match self {
            TenantsFault::NotToml => 1,
            TenantsFault::WrongShape => 2,
            TenantsFault::NameUsed => 3,
            TenantsFault::BadName => 4,
            TenantsFault::BadHexadecimal => 5,
            TenantsFault::QuotaOutOfRange => 6,
            TenantsFault::WrongCount => 7,
            TenantsFault::OutOfMemory => 8,
        }
    }
}

impl From<AllocError> for TenantsFault {
    ghost use Rattle.std.specs.Prelude.{◌≡◌};
    ghost use Rattle.stow_login.specs.declared.tenants_fault.TenantsFault.TheVariants.{OutOfMemory};

    ghost from_gives = { λ _ e. e ≡ OutOfMemory };

    fn from(_error: AllocError) -> TenantsFault {
        TenantsFault::OutOfMemory
    }
}

impl<T: Drop> From<AllocFailed<T>> for TenantsFault {
    ghost use Rattle.std.specs.Prelude.{◌≡◌};
    ghost use Rattle.stow_login.specs.declared.tenants_fault.TenantsFault.TheVariants.{OutOfMemory};

    ghost from_gives = { λ _ e. e ≡ OutOfMemory };

    fn from(_error: AllocFailed<T>) -> TenantsFault {
        TenantsFault::OutOfMemory
    }
}
