//! The endings of a command whose database isn't recovered, loaded or opened.

ghost use Rattle.std.specs.Prelude.{◌≡◌};
ghost use Rattle.rpm_effects.specs.Prelude.{unless_starved, why_of_load, why_of_open, why_of_recover};

use crate::answer::Why;
use rpm_db::DbOpenFault;
use rpm_group::{LoadFault, RecoverFault};

/// The ending of a command whose database isn't recovered.
pub fn why_of_recover(fault: RecoverFault) -> Why
    ensures { result ≡ why_of_recover fault }
{
    match fault {
        RecoverFault::BadLog { unit } => Why::BadLog { unit },
        RecoverFault::DiskFault => Why::DiskFault,
    }
}

/// The ending of a command whose database isn't loaded.
pub fn why_of_load(fault: LoadFault) -> Why
    ensures { result ≡ why_of_load fault }
{
    match fault {
        LoadFault::BadLog { unit } => Why::BadLog { unit },
        LoadFault::DiskFault => Why::DiskFault,
        LoadFault::NoMemory => Why::NoMemory,
    }
}

/// The ending of a command on an overlay: only the disk below counts.
pub fn unless_starved(is_starved: bool, why: Why) -> Why
    ensures { result ≡ unless_starved is_starved why }
{
    match why {
        Why::DiskFault if is_starved => Why::NoMemory,
        other => other,
    }
}

/// The ending of a command whose database isn't opened.
pub fn why_of_open(fault: DbOpenFault) -> Why
    ensures { result ≡ why_of_open fault }
{
    match fault {
        DbOpenFault::Damaged(damage) => Why::Damaged(damage),
        DbOpenFault::IndexFull { needed } => Why::IndexFull { needed },
        DbOpenFault::DiskFault => Why::DiskFault,
        DbOpenFault::NoMemory => Why::NoMemory,
    }
}
