//! How a command that changes ends.

ghost use Rattle.std.specs.Prelude.{◌≡◌};
ghost use Rattle.rpm_effects.specs.Prelude.{halt_of_pick, IsOfPrint, NoMemory};

use rpm_select::PickFault;
use std::alloc::AllocError;

/// How many arguments of a command failed, and how many changes it made.
#[derive(Clone, Copy, PartialEq, Eq)]
pub struct Tally {
    pub failed: u32,
    pub changes: u32,
}

/// Nothing failed, and nothing was changed.
pub const IDLE: Tally = Tally {
    failed: 0,
    changes: 0,
};

/// One change was made.
pub const CHANGED: Tally = Tally {
    failed: 0,
    changes: 1,
};

/// An argument failed.
pub const FAILED: Tally = Tally {
    failed: 1,
    changes: 0,
};

/// Why a command was stopped before its end.
#[derive(Clone, Copy, PartialEq, Eq)]
pub enum Halt {
    /// No package number is left.
    NumbersSpent,
    /// No generation is left.
    GenerationSpent,
    /// There is no room in `Packages.db`.
    StoreFull,
    /// The index would need so many units: too many.
    IndexFull { needed: u64 },
    /// A chain of the index isn't well formed: the unit of its first fault; or unit 1 counts too little.
    BadIndex { unit: u64 },
    /// A call of the disk failed.
    DiskFault,
    /// A read of the shelf failed.
    ShelfFault,
    /// A write to `out` failed.
    OutFault,
    /// A write to `err` failed.
    ErrFault,
    /// There was no memory.
    NoMemory,
}

impl From<AllocError> for Halt {
    ghost from_gives = { λ _ e. e ≡ NoMemory };

    fn from(_: AllocError) -> Halt {
        Halt::NoMemory
    }
}

/// What halts a command where a picker fails.
pub fn halt_of_pick(fault: PickFault) -> Halt
    ensures value { result ≡ halt_of_pick fault }
    ensures class { IsOfPrint result }
{
    match fault {
        PickFault::BadIndex { unit } => Halt::BadIndex { unit },
        PickFault::DiskFault => Halt::DiskFault,
        PickFault::NoMemory => Halt::NoMemory,
    }
}
