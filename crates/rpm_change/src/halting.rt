//! How a change that is refused stops a command.

ghost use Rattle.std.specs.Prelude.{◌≡◌};
ghost use Rattle.rpm_change.specs.Prelude.{IsHalting, halt_of};

use rpm_db::ChangeFault;
use rpm_effects::Halt;

/// What stops a command whose change is refused, or not made. A header that was read, the number of a package, and a
/// database that can be changed are refused for none of the three other faults.
pub fn halt_of(fault: ChangeFault) -> Halt
    requires halting { IsHalting fault }
    ensures { result ≡ halt_of fault }
{
    match fault {
        ChangeFault::NumbersSpent => Halt::NumbersSpent,
        ChangeFault::GenerationSpent => Halt::GenerationSpent,
        ChangeFault::StoreFull => Halt::StoreFull,
        ChangeFault::IndexFull { needed } => Halt::IndexFull { needed },
        ChangeFault::BadIndex { unit } => Halt::BadIndex { unit },
        ChangeFault::DiskFault => Halt::DiskFault,
        ChangeFault::NoMemory => Halt::NoMemory,
        ChangeFault::BadHeader(_) | ChangeFault::NoSuch | ChangeFault::Stopped => unreachable!(),
    }
}
