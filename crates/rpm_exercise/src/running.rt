//! The exercise as a whole.

ghost use Rattle.std.specs.Prelude.{◌≡◌, ℕ, ◌≤◌, Bool, List, true, IsTrue, Ok, Err, OnOk, IfOk, IfErr};
ghost use Rattle.rpm_exercise.specs.Prelude.{changes, DiskFault, CourseProgress, EndedOnOut, exercise, Hand, is_indexed, IsCurrent, IsNext, IsOfQuestion, IsReady, IsRefused, IsStop, LimitsTurn, OnceBegun, ReachesMade, Remade, HoldsAfterRebuild, store_of, Runs, SameLog, state_in, units_needed, ProgressInBoth, with_out};
ghost use Rattle.rpm_db.specs.Database as database;

use crate::rounds::change_all;
use crate::summary::summary;
use rpm_db::{ChangeFault, Db};
use rpm_effects::{Halt, Tally};
use rpm_outside::{Buffered, Disk, Sink, put_and_flush};
use std::alloc::Global;

/// Why the exercise isn't done.
#[derive(Clone, Copy, PartialEq, Eq)]
pub enum ExerciseFault {
    /// The database has packages: the least number.
    NotEmpty { number: u32 },
    /// It was stopped.
    Halted(Halt),
}

/// Makes the changes, and writes to out what is told of the packages that are left.
fn change_and_tell<D: Disk, O: Sink + Drop>(
    alloc: Global,
    db: &mut Db,
    disk: &mut D,
    n: u32,
    out: &mut Buffered<O>,
) -> Result<Tally, Halt>
    requires few { n ≤ 100000 }
    requires current { IsCurrent D.Disk disk.old db.old }
    ensures went { ProgressInBoth D.Disk (IsTrue D.tells) disk.old disk.new db.old db.new result
        (EndedOnOut O.Sink out.old out.new) (exercise n (state_in D.Disk disk.old db.old)) }
    ensures stop { IfErr result (IsStop db.new) }
    ensures out { Hand O.Sink (result ≡ Err Halt.OutFault) out.old out.new }
{
    let tally = change_all(alloc, db, disk, n)?;
    let text = summary(alloc, db, disk)?;
    out.clear();
    match put_and_flush(out, &text) {
        Ok(()) => Ok(tally),
        Err(_) => Err(Halt::OutFault),
    }
}

/// Makes the index anew, whatever it was. There are no packages, so it has room.
fn renew<D: Disk>(alloc: Global, db: &mut Db, disk: &mut D) -> Result<(), Halt>
    requires ready { IsReady D.Disk disk.old db.old }
    ensures store { store_of db.new ≡ store_of db.old }
    ensures indexed { is_indexed db.new ≡ true }
    ensures current { OnOk result (IsCurrent D.Disk disk.new db.new) }
    ensures reach { OnOk result (IsTrue D.tells → ReachesMade (units_needed (D.files disk.old).pkg (Ok (store_of db.old)))
        (D.files disk.old).idx (D.files disk.new).idx) }
    ensures kinds { IfErr result IsOfQuestion }
    ensures runs { Runs D.Disk Remade disk.old disk.new }
    ensures disk { DiskFault D.Disk (result ≡ Err Halt.DiskFault) disk.old disk.new }
{
    match db.rebuild(alloc, disk) {
        Ok(()) => Ok(()),
        Err(ChangeFault::DiskFault) => Err(Halt::DiskFault),
        Err(_) => Err(Halt::NoMemory),
    }
}

/// Makes the index anew, and the changes, and writes to out what is told of the packages that are left.
fn exercise_all<D: Disk, O: Sink + Drop>(
    alloc: Global,
    db: &mut Db,
    disk: &mut D,
    n: u32,
    out: &mut Buffered<O>,
) -> Result<Tally, Halt>
    requires few { n ≤ 100000 }
    requires ready { IsReady D.Disk disk.old db.old }
    ensures ended { IsTrue D.tells → EndedOnOut O.Sink out.old out.new (exercise n (state_in D.Disk disk.old db.old))
        (state_in D.Disk disk.old db.old) (state_in D.Disk disk.new db.new) result }
    ensures limits { IsTrue D.tells → HoldsAfterRebuild (units_needed (D.files disk.old).pkg (Ok (store_of db.old)))
        (λ mid. LimitsTurn true (state_in D.Disk disk.old db.old) (store_of db.old) (store_of db.new) mid (D.files disk.new)
        (changes n (state_in D.Disk disk.old db.old)) result) (D.files disk.old) }
    ensures current { IfOk result (λ _tally. IsCurrent D.Disk disk.new db.new) }
    ensures stop { IfErr result (IsStop db.new) }
    ensures runs { Runs D.Disk SameLog disk.old disk.new }
    ensures disk { DiskFault D.Disk (result ≡ Err Halt.DiskFault) disk.old disk.new }
    ensures out { Hand O.Sink (result ≡ Err Halt.OutFault) out.old out.new }
{
    renew(alloc, db, disk)?;
    change_and_tell(alloc, db, disk, n, out)
}

/// The exercise: on a database without packages it makes the changes of `n` headers, and then writes to `out` how many
/// packages are left, how many provide each of the seven capabilities, and the SHA-256 of what an export of them would
/// write, in one piece.
///
/// It adds the headers 1 to `n` with the leading number 1, then puts each that is divisible by 3 in its own place with
/// the leading number 2, then erases each that is divisible by 5: `n + n / 3 + n / 5` changes, and nothing fails. The
/// next number may be any; so the headers may begin anywhere. First the index is rebuilt, from no packages, so that
/// what is told doesn't rest on what it was. What is told is asked of the database with that index, as any question is:
/// all packages are read once, to count them and for the digest, and the candidates of each capability once. One
/// header is held at a time, and the lines.
///
/// The disk may be an overlay: then all changes can be committed as one. After an `Err` but `NotEmpty` the database
/// isn't to be used further. The headers, the rounds and the lines are this project's own.
///
/// # Errors
///
/// `NotEmpty` comes exactly where there is a package, with the least number; nothing is done then. Else, going through
/// the changes in order, the first that is refused decides, and of it the first of these four limits that it meets:
///
/// - `NumbersSpent` where a header is to be added and the next number is 4294967295.
/// - `GenerationSpent` where the generation is 4294967295; each change raises it by one.
/// - `StoreFull` where a header, or a package in the way of its slot page, fits nowhere below 4 GiB.
/// - `IndexFull` where the rows after it need more than 268435456 units, with that number.
///
/// And besides:
///
/// - `BadIndex` never where the disk's contents are told: the index holds the rows.
/// - `DiskFault` and `OutFault` only where that object's count of faults rose. Before `OutFault` the first bytes of the
///   lines were written.
/// - `NoMemory` where a header, a change, a question or the lines find no memory; also where a number that was given
///   isn't there or is too great, which takes a disk that doesn't keep what it is given. It answers nothing else.
pub fn exercise<D: Disk, O: Sink + Drop>(
    alloc: Global,
    db: &mut Db,
    disk: &mut D,
    n: u32,
    out: &mut Buffered<O>,
) -> Result<Tally, ExerciseFault>
    requires few { n ≤ 100000 }
    requires ready { IsReady D.Disk disk.old db.old }
    ensures empty { IsRefused (IsNext (λ m. database.holds m db.old) 0) result }
    ensures refused { (number : ℕ) → result ≡ Err (ExerciseFault.NotEmpty number) → (db.new ≡ db.old) × (disk.new ≡ disk.old) × (out.new ≡ out.old) }
    ensures ended { IsTrue D.tells → (err_tells : Bool) (err : List ℕ)
        → OnceBegun (λ r. CourseProgress (exercise n (state_in D.Disk disk.old db.old)) (state_in D.Disk disk.old db.old)
        (state_in D.Disk disk.new db.new) r (with_out O.Sink err_tells err out.old)
        (with_out O.Sink err_tells err out.new)) result }
    ensures limits { IsTrue D.tells → OnceBegun
        (λ r. HoldsAfterRebuild (units_needed (D.files disk.old).pkg (Ok (store_of db.old)))
        (λ mid. LimitsTurn true (state_in D.Disk disk.old db.old) (store_of db.old) (store_of db.new) mid (D.files disk.new)
        (changes n (state_in D.Disk disk.old db.old)) r) (D.files disk.old)) result }
    ensures current { IfOk result (λ _tally. IsCurrent D.Disk disk.new db.new) }
    ensures stop { OnceBegun (λ r. IfErr r (IsStop db.new)) result }
    ensures runs { Runs D.Disk SameLog disk.old disk.new }
    ensures disk { DiskFault D.Disk (result ≡ Err (ExerciseFault.Halted Halt.DiskFault)) disk.old disk.new }
    ensures out { Hand O.Sink (result ≡ Err (ExerciseFault.Halted Halt.OutFault)) out.old out.new }
{
    if let Some(number) = db.next_above(0) {
        return Err(ExerciseFault::NotEmpty { number });
    }
    match exercise_all(alloc, db, disk, n, out) {
        Ok(tally) => Ok(tally),
        Err(halt) => Err(ExerciseFault::Halted(halt)),
    }
}
