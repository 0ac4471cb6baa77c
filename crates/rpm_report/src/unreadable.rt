//! What the reports share: why a question halts them, a package that is read into a room, and the lines of the
//! packages that can't be read.

ghost use Rattle.std.specs.Prelude.{◌≡◌, IsTrue, IfOk};
ghost use Rattle.std.specs.FinMap as finite;
ghost use Rattle.rpm_report.specs.Prelude.{Anywhere, bad_at, bad_parts, ErrTakes, IsAskable, IsOfPrint, IsPackageRead, packages_in, PartIs, ReadsBy, halt_of_check, TellsErr};

use rpm_check::CheckFault;
use rpm_db::{Db, GetFault};
use rpm_effects::{Halt, put_line};
use rpm_outside::{Buffered, Disk, Sink};
use rpm_print::put_bad;
use std::alloc::Global;
use std::mem::replace;

/// What halts a report where a question fails.
pub fn halt_of_check(fault: CheckFault) -> Halt
    ensures value { result ≡ halt_of_check fault }
    ensures class { IsOfPrint result }
{
    match fault {
        CheckFault::BadIndex { unit } => Halt::BadIndex { unit },
        CheckFault::DiskFault => Halt::DiskFault,
        CheckFault::NoMemory => Halt::NoMemory,
    }
}

/// Reads into this room the bytes that a package is read from, each of its blocks once; no bytes where there are none.
pub fn read_into<D: Disk>(
    alloc: Global,
    db: &Db,
    disk: &mut D,
    number: u32,
    room: &mut Vec<u8>,
) -> Result<(), Halt>
    requires asked { IsAskable D.Disk disk.old db.now }
    ensures told { IfOk result (λ _done. IsTrue D.tells → IsPackageRead (packages_in D.Disk disk.old db.now) number room.new.items) }
    ensures reads { ReadsBy D.Disk result disk.old disk.new }
{
    match db.read_in(disk, number, replace(room, Vec::new(alloc))) {
        Ok(blob) => {
            *room = blob;
            Ok(())
        }
        Err(GetFault::NoSuch) => Ok(()),
        Err(GetFault::Bad) => Ok(()),
        Err(GetFault::DiskFault) => Err(Halt::DiskFault),
        Err(GetFault::NoMemory) => Err(Halt::NoMemory),
    }
}

/// Tells a package that can't be read. Says whether the argument fails for it. A package that can be read is read into
/// this room.
fn tell_bad<D: Disk, E: Sink + Drop>(
    alloc: Global,
    db: &Db,
    disk: &mut D,
    number: u32,
    room: &mut Vec<u8>,
    err: &mut Buffered<E>,
) -> Result<bool, Halt>
    requires asked { IsAskable D.Disk disk.old db.now }
    ensures went { IsTrue D.tells → ErrTakes E.Sink (λ old new. PartIs
        (bad_at number (finite.get (packages_in D.Disk disk.old db.now) number)) result old new Anywhere)
        err.old err.new }
    ensures tells { TellsErr D.Disk E.Sink result disk.old disk.new err.old err.new }
{
    match db.get_in(disk, number, replace(room, Vec::new(alloc))) {
        Ok(blob) => {
            *room = blob;
            Ok(false)
        }
        Err(GetFault::NoSuch) => Ok(false),
        Err(GetFault::Bad) => {
            put_bad(alloc, err, number)?;
            Ok(true)
        }
        Err(GetFault::DiskFault) => Err(Halt::DiskFault),
        Err(GetFault::NoMemory) => Err(Halt::NoMemory),
    }
}

/// Tells each package that can't be read, by rising number. Says whether there is one. Reads the blocks of each
/// package once, all of them into one room.
pub fn tell_each_bad<D: Disk, E: Sink + Drop>(
    alloc: Global,
    db: &Db,
    disk: &mut D,
    err: &mut Buffered<E>,
) -> Result<bool, Halt>
    requires asked { IsAskable D.Disk disk.old db.now }
    ensures went { IsTrue D.tells → ErrTakes E.Sink (λ old new. PartIs (bad_parts (packages_in D.Disk disk.old db.now))
        result old new Anywhere) err.old err.new }
    ensures tells { TellsErr D.Disk E.Sink result disk.old disk.new err.old err.new }
{
    let mut room = Vec::new(alloc);
    let mut number = 0;
    let mut fails = false;
    while let Some(next) = db.next_above(number) {
        let bad = tell_bad(alloc, db, disk, next, &mut room, err)?;
        number = next;
        fails |= bad;
    }
    Ok(fails)
}
