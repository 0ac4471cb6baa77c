//! Why a database isn't changed.

ghost use Rattle.std.specs.Prelude.{◌≡◌};
ghost use Rattle.rpm_db.specs.Prelude.{BadHeader};

use rpm_header::HeaderFault;
use thiserror::Error;

/// Why a database isn't changed. After each but `DiskFault` its files are as they were.
#[derive(Clone, Copy, Debug, PartialEq, Eq, Error)]
pub enum ChangeFault {
    /// The blob is no header: its first fault.
    #[error("{0}")]
    BadHeader(HeaderFault),
    /// There is no package of this number.
    #[error("no such package")]
    NoSuch,
    /// No package number is left.
    #[error("no package number is left")]
    NumbersSpent,
    /// No generation is left.
    #[error("no generation is left")]
    GenerationSpent,
    /// There is no room for the blob in `Packages.db`.
    #[error("Packages.db is full")]
    StoreFull,
    /// The index needs so many units after the change: too many.
    #[error("Hindex.db is full")]
    IndexFull { needed: u64 },
    /// A chain of the index isn't well formed: the unit of its first fault; or unit 1 counts too little.
    #[error("Hindex.db is damaged")]
    BadIndex { unit: u64 },
    /// An earlier changing call of this value failed at the disk, or a batch of changes of it goes on.
    #[error("the database was stopped")]
    Stopped,
    /// A call of the disk failed.
    #[error("the database could not be read or written")]
    DiskFault,
    /// There was no memory.
    #[error("out of memory")]
    NoMemory,
}

/// A fault of a header is that of the blob.
impl From<HeaderFault> for ChangeFault {
    ghost from_gives = { λ fault e. e ≡ BadHeader fault };

    fn from(fault: HeaderFault) -> ChangeFault {
        ChangeFault::BadHeader(fault)
    }
}
