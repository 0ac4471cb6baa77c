//! Why a database isn't opened.

ghost use Rattle.std.specs.Prelude.{◌≡◌};
ghost use Rattle.rpm_db.specs.Prelude.{Damaged, store_fault};

use rpm_pkgdb::{Damage, OpenFault};
use thiserror::Error;

/// Why a database isn't opened.
#[derive(Clone, Copy, Debug, PartialEq, Eq, Error)]
pub enum DbOpenFault {
    /// `Packages.db` isn't a store: its first damage.
    #[error("Packages.db is damaged")]
    Damaged(Damage),
    /// The index has to be made, and needs so many units: too many.
    #[error("Hindex.db is full")]
    IndexFull { needed: u64 },
    /// A call of the disk failed.
    #[error("the database could not be read or written")]
    DiskFault,
    /// There was no memory.
    #[error("out of memory")]
    NoMemory,
}

/// Damage is that of the store.
impl From<Damage> for DbOpenFault {
    ghost from_gives = { λ damage e. e ≡ Damaged damage };

    fn from(damage: Damage) -> DbOpenFault {
        DbOpenFault::Damaged(damage)
    }
}

/// Why the store of a database isn't opened.
impl From<OpenFault> for DbOpenFault {
    ghost from_gives = { λ fault e. e ≡ store_fault fault };

    fn from(fault: OpenFault) -> DbOpenFault {
        match fault {
            OpenFault::Damaged(damage) => DbOpenFault::from(damage),
            OpenFault::DiskFault => DbOpenFault::DiskFault,
            OpenFault::NoMemory => DbOpenFault::NoMemory,
        }
    }
}
