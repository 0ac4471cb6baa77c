//! How a command line ended.

ghost use Rattle.std.specs.Prelude.{◌≡◌};
ghost use Rattle.rpm_effects.specs.Prelude.{status_of, why_of_halt};

use crate::tally::Halt;
use rpm_db::Damage;
use rpm_qfparse::FormatFault;
use rpm_words::WordsFault;

/// Why a command ended.
#[derive(Clone, Copy, Debug, PartialEq, Eq)]
pub enum Why {
    /// The command was done, and no argument failed.
    Done,
    /// It was done, and so many arguments failed.
    Failed(u32),
    /// The words break this rule. Nothing was done.
    Usage(WordsFault),
    /// Their format has this fault. Nothing was done.
    BadFormat(FormatFault),
    /// `Hlog.db` is malformed at this unit.
    BadLog { unit: u64 },
    /// `Packages.db` is damaged.
    Damaged(Damage),
    /// No package number is left.
    NumbersSpent,
    /// No generation is left.
    GenerationSpent,
    /// There is no room in `Packages.db`.
    StoreFull,
    /// The exercise asks for a database without packages, and there are some: the least number.
    NotEmpty(u32),
    /// `Hindex.db` is malformed at this unit: in the chain of a key that was asked, or that changes, or for a report of
    /// any key; or unit 1 counts too little.
    BadIndex { unit: u64 },
    /// An index of the packages needs so many units, more than `Hindex.db` may have.
    IndexFull { needed: u64 },
    /// The changes of the command need so many units of `Hlog.db`, more than it may have.
    LogFull { needed: u64 },
    /// The database could not be read or written.
    DiskFault,
    /// A package file could not be read.
    ShelfFault,
    /// Standard output could not be written.
    OutFault,
    /// Standard error could not be written.
    ErrFault,
    /// Memory was wanting.
    NoMemory,
}

/// The ending of a command that was halted.
impl From<Halt> for Why {
    ghost from_gives = { λ halt why. why ≡ why_of_halt halt };

    fn from(halt: Halt) -> Why {
        match halt {
            Halt::NumbersSpent => Why::NumbersSpent,
            Halt::GenerationSpent => Why::GenerationSpent,
            Halt::StoreFull => Why::StoreFull,
            Halt::IndexFull { needed } => Why::IndexFull { needed },
            Halt::BadIndex { unit } => Why::BadIndex { unit },
            Halt::DiskFault => Why::DiskFault,
            Halt::ShelfFault => Why::ShelfFault,
            Halt::OutFault => Why::OutFault,
            Halt::ErrFault => Why::ErrFault,
            Halt::NoMemory => Why::NoMemory,
        }
    }
}

/// How a command line ended.
#[derive(Clone, Copy, Debug, PartialEq, Eq)]
pub struct Outcome {
    /// The exit status: 0 where all was done, the number of failed arguments up to 250, 251 for words that break a
    /// rule and for a format with a fault, 252 for the database, 253 for input and output, 254 for want of memory.
    pub status: u8,
    pub why: Why,
    /// How many packages were added, replaced or erased.
    pub changes: u32,
}

/// The exit status of an ending.
pub fn status_of(why: Why) -> u8
    ensures { result ≡ status_of why }
{
    match why {
        Why::Done => 0,
        Why::Failed(failed) => failed.min(250) as u8,
        Why::Usage(_) => 251,
        Why::BadFormat(_) => 251,
        Why::BadLog { .. } | Why::Damaged(_) | Why::DiskFault => 252,
        Why::NumbersSpent | Why::GenerationSpent | Why::StoreFull | Why::NotEmpty(_) => 252,
        Why::BadIndex { .. } | Why::IndexFull { .. } | Why::LogFull { .. } => 252,
        Why::ShelfFault | Why::OutFault | Why::ErrFault => 253,
        Why::NoMemory => 254,
    }
}
