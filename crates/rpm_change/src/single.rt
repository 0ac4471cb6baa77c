//! One change of the database, while a batch goes on.

ghost use Rattle.std.specs.Prelude.{◌≡◌, true, Ok};
ghost use Rattle.rpm_change.specs.Prelude.{change_at, Erase, GathersOne, header, holds, IsGathering, HasTarget, read_again};

use crate::halting::halt_of;
use rpm_db::{Batch, Db};
use rpm_effects::{CHANGED, Halt, Tally};
use rpm_header::View;
use rpm_outside::Disk;
use std::alloc::Global;

/// Puts a header under a new number, or in place of the package that this number has, while a batch goes on. Counts one
/// change.
///
/// # Errors
///
/// The first of these limits that it meets: `NumbersSpent`, under a new number alone; `GenerationSpent`; `StoreFull`;
/// `IndexFull`. Besides `BadIndex` and `DiskFault`; and `NoMemory` where the change finds none.
pub fn put_within<D: Disk>(
    alloc: Global,
    db: &mut Db,
    disk: &mut D,
    batch: &mut Batch,
    number: Option<u32>,
    blob: &[u8],
) -> Result<Tally, Halt>
    requires gathering { IsGathering D.Disk disk.old db.old batch.old }
    requires held { HasTarget number db.old }
    requires own { header blob.now ≡ Ok (read_again blob.now) }
    ensures { GathersOne D.Disk (change_at number blob.now) disk.old disk.new db.old db.new batch.old batch.new result }
{
    let view = View::of_checked(blob);
    match number {
        None => match batch.add_view(alloc, db, disk, &view) {
            Ok(_) => Ok(CHANGED),
            Err(fault) => Err(halt_of(fault)),
        },
        Some(n) => match batch.replace_view(alloc, db, disk, n, &view) {
            Ok(()) => Ok(CHANGED),
            Err(fault) => Err(halt_of(fault)),
        },
    }
}

/// Takes the package that this number has out, Good or Bad, while a batch goes on. Counts one change.
///
/// # Errors
///
/// `GenerationSpent`; besides `DiskFault`, and `NoMemory` where the change finds none.
pub fn take_within<D: Disk>(
    alloc: Global,
    db: &mut Db,
    disk: &mut D,
    batch: &mut Batch,
    number: u32,
) -> Result<Tally, Halt>
    requires gathering { IsGathering D.Disk disk.old db.old batch.old }
    requires held { holds number db.old ≡ true }
    ensures { GathersOne D.Disk (Erase number) disk.old disk.new db.old db.new batch.old batch.new result }
{
    match batch.erase(alloc, db, disk, number) {
        Ok(()) => Ok(CHANGED),
        Err(fault) => Err(halt_of(fault)),
    }
}
