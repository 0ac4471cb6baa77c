//! Making the index anew, and dropping the packages that can't be read.

ghost use Rattle.std.specs.Prelude.{◌≡◌, ◌+◌, ◌≤◌, true, IsTrue, Some, Err, IfOk, IfErr, OnOk};
ghost use Rattle.std.specs.FinMap as finite;
ghost use Rattle.rpm_change.specs.Prelude.{Bad, DiskFault, dropped_course, dropped_line, EndedOnOut, limit_of_command, Hand, holds, is_indexed, IsCurrent, IsGathering, IsOfRebuilding, IsReady, next_stores, Package, ChangesReachAnew, rebuild, store_of, RoomBecomes, Runs, SameLog, state_in, MeetsLimit, ProgressInBoth, ProgressOwing};

use crate::halting::halt_of;
use crate::single::take_within;
use itoa::Buffer;
use rpm_db::{Batch, Db, GetFault};
use rpm_effects::{Halt, IDLE, Tally};
use rpm_outside::{Buffered, Disk, Sink, put_and_flush};
use std::alloc::{AllocError, Global};
use std::mem;

/// The line of a package that is dropped.
#[tactic(auto, unfolding(crate::specs::Rebuilding::dropped_line))]
fn dropped_line(alloc: Global, number: u32) -> Result<Vec<u8>, AllocError>
    ensures { IfOk result (λ line. line.items ≡ dropped_line number) }
{
    let mut digits = Buffer::new();
    let mut line = Vec::new(alloc);
    line.extend_from_slice(b"package ")?;
    line.extend_from_slice(digits.format(number).as_bytes())?;
    line.extend_from_slice(b": dropped\n")?;
    Ok(line)
}

/// Erases a package that is Bad while a batch goes on, and then writes to out that it is dropped.
fn drop_bad<D: Disk, O: Sink + Drop>(
    alloc: Global,
    db: &mut Db,
    disk: &mut D,
    batch: &mut Batch,
    number: u32,
    out: &mut Buffered<O>,
) -> Result<Tally, Halt>
    requires held { holds number db.old ≡ true }
    requires gathering { IsGathering D.Disk disk.old db.old batch.old }
    ensures went { ProgressOwing D.Disk (IsTrue D.tells) disk.old disk.new db.old db.new batch.old batch.new result
        (EndedOnOut O.Sink out.old out.new) (dropped_course number Bad) }
    ensures one { IfOk result (λ tally. tally ≡ record { failed = 0; changes = 1 }) }
    ensures kinds { IfErr result IsOfRebuilding }
    ensures out { Hand O.Sink (result ≡ Err Halt.OutFault) out.old out.new }
{
    let line = dropped_line(alloc, number)?;
    let tally = take_within(alloc, db, disk, batch, number)?;
    out.clear();
    match put_and_flush(out, &line) {
        Ok(()) => Ok(tally),
        Err(_) => Err(Halt::OutFault),
    }
}

/// Drops a package where it is Bad, while a batch goes on. It is read into `buffer`.
fn drop_one<D: Disk, O: Sink + Drop>(
    alloc: Global,
    db: &mut Db,
    disk: &mut D,
    batch: &mut Batch,
    number: u32,
    buffer: &mut Vec<u8>,
    out: &mut Buffered<O>,
) -> Result<Tally, Halt>
    requires held { holds number db.old ≡ true }
    requires gathering { IsGathering D.Disk disk.old db.old batch.old }
    ensures went { (p : Package) → ProgressOwing D.Disk
        (IsTrue D.tells × (finite.get (state_in D.Disk disk.old db.old).packages number ≡ Some p))
        disk.old disk.new db.old db.new batch.old batch.new result (EndedOnOut O.Sink out.old out.new) (dropped_course number p) }
    ensures one { IfOk result (λ tally. tally.failed + tally.changes ≤ 1) }
    ensures kinds { IfErr result IsOfRebuilding }
    ensures out { Hand O.Sink (result ≡ Err Halt.OutFault) out.old out.new }
{
    let held = mem::replace(buffer, Vec::new(alloc));
    match db.get_in(disk, number, held) {
        Ok(good) => {
            *buffer = good;
            Ok(IDLE)
        }
        Err(GetFault::Bad) => drop_bad(alloc, db, disk, batch, number, out),
        Err(GetFault::DiskFault) => Err(Halt::DiskFault),
        Err(GetFault::NoMemory) => Err(Halt::NoMemory),
        Err(GetFault::NoSuch) => unreachable!(),
    }
}

/// Drops each package that is Bad, by rising number, while a batch goes on.
fn drop_each<D: Disk, O: Sink + Drop>(
    alloc: Global,
    db: &mut Db,
    disk: &mut D,
    batch: &mut Batch,
    out: &mut Buffered<O>,
) -> Result<Tally, Halt>
    requires gathering { IsGathering D.Disk disk.old db.old batch.old }
    ensures went { ProgressOwing D.Disk (IsTrue D.tells) disk.old disk.new db.old db.new batch.old batch.new result
        (EndedOnOut O.Sink out.old out.new) (rebuild (state_in D.Disk disk.old db.old)) }
    ensures kinds { IfErr result IsOfRebuilding }
    ensures out { Hand O.Sink (result ≡ Err Halt.OutFault) out.old out.new }
{
    let mut number = 0u32;
    let mut failed = 0u32;
    let mut changes = 0u32;
    let mut buffer = Vec::new(alloc);
    while let Some(next) = db.next_above(number) {
        let tally = drop_one(alloc, db, disk, batch, next, &mut buffer, out)?;
        number = next;
        failed += tally.failed;
        changes += tally.changes;
    }
    Ok(Tally { failed, changes })
}

/// Drops the packages that are Bad, by rising number, all in one batch.
fn drop_all<D: Disk, O: Sink + Drop>(
    alloc: Global,
    db: &mut Db,
    disk: &mut D,
    out: &mut Buffered<O>,
) -> Result<Tally, Halt>
    requires ready { IsReady D.Disk disk.old db.old }
    ensures went { ProgressInBoth D.Disk (IsTrue D.tells) disk.old disk.new db.old db.new result
        (EndedOnOut O.Sink out.old out.new) (rebuild (state_in D.Disk disk.old db.old)) }
    ensures kinds { IfErr result IsOfRebuilding }
    ensures out { Hand O.Sink (result ≡ Err Halt.OutFault) out.old out.new }
{
    let mut batch = Batch::begin(alloc, db);
    let tally = drop_each(alloc, db, disk, &mut batch, out)?;
    match batch.finish(alloc, db, disk) {
        Ok(()) => Ok(tally),
        Err(fault) => Err(halt_of(fault)),
    }
}

/// Makes the index anew, whatever it was, and then erases each package that is Bad, by rising number: each has a line
/// on `out`, for which nothing fails. Reads the blocks of each package twice, and those of one that is erased once
/// more; but for the rows of the index nothing but the present package is in memory. The erased are one batch: the index
/// is changed and sealed once for all of them.
///
/// The disk may be an overlay: then all changes can be committed as one. After an `Err` the database isn't to be used
/// further.
///
/// # Errors
///
/// `IndexFull` comes before all else where the rows of the packages as they are need more than 268435456 units, with
/// that number. Then, going through the packages that are Bad by rising number, the first that is refused decides, and
/// of it the first of these two limits:
///
/// - `GenerationSpent` where the generation is 4294967295; each package that is erased raises it by one.
/// - `IndexFull` where the rows after it need more than 268435456 units, with that number.
///
/// And besides:
///
/// - `BadIndex` never where the disk's contents are told.
/// - `DiskFault` and `OutFault` only where that object's count of faults rose.
/// - `NoMemory` where a package, the rows, a change or a line finds no memory. It answers nothing else.
pub fn rebuild<D: Disk, O: Sink + Drop>(
    alloc: Global,
    db: &mut Db,
    disk: &mut D,
    out: &mut Buffered<O>,
) -> Result<Tally, Halt>
    requires ready { IsReady D.Disk disk.old db.old }
    ensures ended { IsTrue D.tells → EndedOnOut O.Sink out.old out.new (rebuild (state_in D.Disk disk.old db.old))
        (state_in D.Disk disk.old db.old) (state_in D.Disk disk.new db.new) result }
    ensures limits { IsTrue D.tells → MeetsLimit true (limit_of_command true (state_in D.Disk disk.old db.old) (store_of db.old)
        (rebuild (state_in D.Disk disk.old db.old)).changes) result }
    ensures current { IfOk result (λ _tally. IsCurrent D.Disk disk.new db.new) }
    ensures indexed { is_indexed db.new ≡ true }
    ensures stores { OnOk result (IsTrue D.tells
        → RoomBecomes (next_stores (rebuild (state_in D.Disk disk.old db.old)).changes (store_of db.old)) (store_of db.old)
        (store_of db.new)) }
    ensures reach { OnOk result (IsTrue D.tells → ChangesReachAnew (state_in D.Disk disk.old db.old) (store_of db.old)
        (rebuild (state_in D.Disk disk.old db.old)).changes (D.files disk.old) (D.files disk.new)) }
    ensures kinds { IfErr result IsOfRebuilding }
    ensures runs { Runs D.Disk SameLog disk.old disk.new }
    ensures disk { DiskFault D.Disk (result ≡ Err Halt.DiskFault) disk.old disk.new }
    ensures out { Hand O.Sink (result ≡ Err Halt.OutFault) out.old out.new }
{
    match db.rebuild(alloc, disk) {
        Ok(()) => drop_all(alloc, db, disk, out),
        Err(fault) => Err(halt_of(fault)),
    }
}
