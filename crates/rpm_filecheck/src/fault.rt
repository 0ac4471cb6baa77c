//! Why there is no report.

ghost use Rattle.std.specs.Prelude.{◌≡◌};

use std::alloc::AllocError;
use thiserror::Error;

/// Why there is no report.
#[derive(Clone, Copy, Debug, PartialEq, Eq, Error)]
pub enum FileCheckFault {
    /// A call of the disk failed.
    #[error("the database could not be read or written")]
    DiskFault,
    /// There was no memory for what the packages say.
    #[error("out of memory")]
    NoMemory,
}

impl From<AllocError> for FileCheckFault {
    ghost use Rattle.rpm_filecheck.specs.declared.fault.FileCheckFault.TheVariants.{NoMemory};

    ghost from_gives = { λ _ e. e ≡ NoMemory };

    fn from(_: AllocError) -> FileCheckFault {
        FileCheckFault::NoMemory
    }
}
