//! What stops a report.

ghost use Rattle.std.specs.Prelude.{◌≡◌};
ghost use Rattle.rpm_select.specs.Picks as picks;
ghost use Rattle.rpm_check.specs.Prelude.{check_fault, NoMemory};

use rpm_select::PickFault;
use std::alloc::{AllocError, AllocFailed};
use thiserror::Error;

/// Why there is no report.
#[derive(Clone, Copy, Debug, PartialEq, Eq, Error)]
pub enum CheckFault {
    /// The index is broken at this unit.
    #[error("Hindex.db is damaged")]
    BadIndex { unit: u64 },
    /// A call of the disk failed.
    #[error("the database could not be read or written")]
    DiskFault,
    /// There was no memory for a package, a requirement or the list.
    #[error("out of memory")]
    NoMemory,
}

/// What stops a report where a picker fails.
impl From<PickFault> for CheckFault {
    ghost from_gives = { λ fault e. e ≡ check_fault fault };

    fn from(fault: PickFault) -> CheckFault {
        match fault {
            PickFault::BadIndex { unit } => CheckFault::BadIndex { unit },
            PickFault::DiskFault => CheckFault::DiskFault,
            PickFault::NoMemory => CheckFault::NoMemory,
        }
    }
}

impl From<AllocError> for CheckFault {
    ghost from_gives = { λ _ e. e ≡ NoMemory };

    fn from(_: AllocError) -> CheckFault {
        CheckFault::NoMemory
    }
}

impl<T: Drop> From<AllocFailed<T>> for CheckFault {
    ghost from_gives = { λ _ e. e ≡ NoMemory };

    fn from(_: AllocFailed<T>) -> CheckFault {
        CheckFault::NoMemory
    }
}
