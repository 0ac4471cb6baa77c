//! Erasing packages.

ghost use Rattle.std.specs.Prelude.{◌≡◌, ℕ, ◌+◌, ◌^◌, ◌<◌, length, IsTrue, Err, IfOk, IfErr};
ghost use Rattle.rpm_change.specs.Prelude.{EndedOnErr, erase, erase_one, Hand, IsGathering, IsOfErasing, IsReady, state_in, ProgressInBoth, ProgressOwing};

use crate::halting::halt_of;
use crate::missing::put_missing;
use rpm_db::{Batch, Db};
use rpm_effects::{CHANGED, Halt, Tally};
use rpm_outside::{Buffered, Disk, Sink};
use std::alloc::Global;

/// Takes the package of a number out, or writes to err that there is none.
fn erase_one<D: Disk, E: Sink + Drop>(
    alloc: Global,
    db: &mut Db,
    disk: &mut D,
    batch: &mut Batch,
    number: u32,
    err: &mut Buffered<E>,
) -> Result<Tally, Halt>
    requires gathering { IsGathering D.Disk disk.old db.old batch.old }
    ensures went { (j : ℕ) → ProgressOwing D.Disk (IsTrue D.tells) disk.old disk.new db.old db.new batch.old batch.new result
        (EndedOnErr E.Sink err.old err.new) (erase_one (state_in D.Disk disk.old db.old) j number) }
    ensures one { IfOk result (λ tally. tally.failed + tally.changes ≡ 1) }
    ensures kinds { IfErr result IsOfErasing }
    ensures err { Hand E.Sink (result ≡ Err Halt.ErrFault) err.old err.new }
{
    if db.holds(number) {
        match batch.erase(alloc, db, disk, number) {
            Ok(()) => Ok(CHANGED),
            Err(fault) => Err(halt_of(fault)),
        }
    } else {
        put_missing(alloc, err, number)
    }
}

/// Takes the packages of these numbers out, one after the other, while a batch goes on.
fn erase_each<D: Disk, E: Sink + Drop>(
    alloc: Global,
    db: &mut Db,
    disk: &mut D,
    batch: &mut Batch,
    numbers: &[u32],
    err: &mut Buffered<E>,
) -> Result<Tally, Halt>
    requires few { length numbers.now < 2 ^ 32 }
    requires gathering { IsGathering D.Disk disk.old db.old batch.old }
    ensures went { ProgressOwing D.Disk (IsTrue D.tells) disk.old disk.new db.old db.new batch.old batch.new result
        (EndedOnErr E.Sink err.old err.new) (erase (state_in D.Disk disk.old db.old) numbers.now) }
    ensures kinds { IfErr result IsOfErasing }
    ensures err { Hand E.Sink (result ≡ Err Halt.ErrFault) err.old err.new }
{
    let mut failed = 0u32;
    let mut changes = 0u32;
    for number in numbers {
        let tally = erase_one(alloc, db, disk, batch, *number, err)?;
        failed += tally.failed;
        changes += tally.changes;
    }
    Ok(Tally { failed, changes })
}

/// Erases the packages of these numbers, one after the other, each Good or Bad. A number that no package has at its
/// turn has a line on `err`, and its argument fails; so a number that is named twice is missing the second time. Of
/// `Packages.db` the blocks of each package that is erased are read once. Nothing of a package is kept in memory but
/// its rows: the index is changed and sealed once, after the last.
///
/// The disk may be an overlay: then all changes can be committed as one. After an `Err` the database isn't to be used
/// further.
///
/// # Errors
///
/// Going through the numbers in order, the first whose package is refused decides, and of it the first of these two
/// limits that it meets:
///
/// - `GenerationSpent` where the generation is 4294967295; each package that is erased raises it by one.
/// - `IndexFull` where the rows after it need more than 268435456 units, with that number: so where the index held the
///   rows at the start.
///
/// And besides:
///
/// - `BadIndex` never where the index held the rows of the packages at the start, or was well formed as a whole; `unit`
///   has the first fault of a chain, or is 1, which counts too little.
/// - `DiskFault` and `ErrFault` only where that object's count of faults rose.
/// - `NoMemory` where a change or a line finds no memory. It answers nothing else.
pub fn erase_numbers<D: Disk, E: Sink + Drop>(
    alloc: Global,
    db: &mut Db,
    disk: &mut D,
    numbers: &[u32],
    err: &mut Buffered<E>,
) -> Result<Tally, Halt>
    requires few { length numbers.now < 2 ^ 32 }
    requires ready { IsReady D.Disk disk.old db.old }
    ensures went { ProgressInBoth D.Disk (IsTrue D.tells) disk.old disk.new db.old db.new result
        (EndedOnErr E.Sink err.old err.new) (erase (state_in D.Disk disk.old db.old) numbers.now) }
    ensures kinds { IfErr result IsOfErasing }
    ensures err { Hand E.Sink (result ≡ Err Halt.ErrFault) err.old err.new }
{
    let mut batch = Batch::begin(alloc, db);
    let tally = erase_each(alloc, db, disk, &mut batch, numbers, err)?;
    match batch.finish(alloc, db, disk) {
        Ok(()) => Ok(tally),
        Err(fault) => Err(halt_of(fault)),
    }
}
