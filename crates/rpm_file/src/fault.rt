//! Why a package file or a header list isn't read.

ghost use Rattle.std.specs.Prelude.{◌≡◌};
ghost use Rattle.rpm_file.specs.Prelude.{Main};

use rpm_header::HeaderFault;
use thiserror::Error;

/// Why a package file isn't read. The faults of its bytes are looked for from the front.
#[derive(Clone, Copy, Debug, PartialEq, Eq, Error)]
pub enum FileFault {
    /// It ends within the lead, within a header, or within the padding between the two.
    #[error("file is cut short")]
    Short,
    /// It doesn't begin with the magic of a lead, or its signature isn't of type 5.
    #[error("not an rpm package")]
    NotAPackage,
    /// The magic of a header doesn't stand where one begins.
    #[error("bad header magic")]
    BadMagic,
    /// The first fault of the signature header. It is named where it is found, since a fault by itself is one of the
    /// main header.
    #[error("signature header: {0}")]
    Signature(HeaderFault),
    /// The first fault of the main header.
    #[error("header: {0}")]
    Main(HeaderFault),
    /// The main header with the entries that join it would pass a limit of a header.
    #[error("header too large")]
    TooLarge,
    /// A read of the shelf failed.
    #[error("input could not be read")]
    ReadFault,
    /// No memory was found.
    #[error("out of memory")]
    NoMemory,
}

/// A fault of a header is one of the main header.
impl From<HeaderFault> for FileFault {
    ghost from_gives = { λ fault e. e ≡ Main fault };

    fn from(fault: HeaderFault) -> FileFault {
        FileFault::Main(fault)
    }
}

/// Why the next header of a list isn't read. The faults of its bytes are looked for from the front.
#[derive(Clone, Copy, Debug, PartialEq, Eq, Error)]
pub enum ListFault {
    /// The list ends within a header.
    #[error("list is cut short")]
    Short,
    /// The magic of a header doesn't stand where one begins.
    #[error("bad header magic")]
    BadMagic,
    /// The header says that it has more than 65,535 entries.
    #[error("too many entries")]
    TooManyEntries,
    /// The header says that it has more than 67,108,864 bytes of data.
    #[error("too much data")]
    TooMuchData,
    /// A read of the shelf failed.
    #[error("input could not be read")]
    ReadFault,
    /// No memory was found.
    #[error("out of memory")]
    NoMemory,
}

/// Which of the two headers of a package file.
#[derive(Clone, Copy)]
pub enum HeaderKind {
    Signature,
    Main,
}
