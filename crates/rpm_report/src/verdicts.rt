//! `AnswersPlain` of the theorem: what verifying says of all packages.

ghost use Rattle.std.specs.Prelude.{◌≡◌, ◌≢◌, ◌+◌, ◌≤◌, [], ◌∷◌, true, false, IsTrue, Err, IfErr};
ghost use Rattle.rpm_report.specs.Prelude.{bearer, package_cost, packages_cost, DiskFault, Everything, Hand, is_foreign, is_of_opening, IsAskable, IsOfPrint, OnlyReads, OutTakes, PartIs, Pkg, pkg_read, PutsOut, reached_by, store_of, unsound, verdict, verdict_part, verify, CommandProgress};
ghost use Rattle.rpm_db.specs.Database as database;

use itoa::Buffer;
use rpm_db::{Db, GetFault, Verdict};
use rpm_effects::{Halt, Why, put_out};
use rpm_outside::{Buffered, Disk, File, Sink};
use std::alloc::Global;

/// Writes the line of a package that isn't sound, for which the argument fails.
fn put_unsound<O: Sink + Drop>(
    out: &mut Buffered<O>,
    number: u32,
    text: &[u8],
) -> Result<bool, Halt>
    ensures part { OutTakes O.Sink (λ old new. PartIs (unsound number text.now) result old new (λ for. for ≡ bearer 0 number)) out.old out.new }
    ensures puts { PutsOut O.Sink result out.old out.new }
{
    let mut digits = Buffer::new();
    let number = digits.format(number).as_bytes();
    put_out(out, &[b"package ", number, b": ", text, b"\n"])
}

/// Verifies a package that is there, and tells its verdict where it isn't sound. Says whether the argument fails for
/// it. It is read into the room of the one before.
fn verify_one<D: Disk, O: Sink + Drop>(
    alloc: Global,
    db: &Db,
    disk: &mut D,
    number: u32,
    room: &mut Vec<u8>,
    out: &mut Buffered<O>,
) -> Result<bool, Halt>
    requires asked { IsAskable D.Disk disk.old db.now }
    requires there { database.holds number db.now ≡ true }
    ensures went { IsTrue D.tells → OutTakes O.Sink (λ old new. PartIs
        (verdict_part number (verdict (D.files disk.old).pkg db.now number)) result old new
        (λ for. for ≡ bearer 0 number)) out.old out.new }
    ensures looks { OnlyReads D.Disk Pkg (package_cost number db.now) disk.old disk.new }
    ensures class { IfErr result IsOfPrint }
    ensures no_err { result ≢ Err Halt.ErrFault }
    ensures disk { DiskFault D.Disk (result ≡ Err Halt.DiskFault) disk.old disk.new }
    ensures out { Hand O.Sink (result ≡ Err Halt.OutFault) out.old out.new }
{
    match db.verify_in(alloc, disk, number, room) {
        Ok(Verdict::Sound) => Ok(false),
        Ok(Verdict::BadHeader) => put_unsound(out, number, b"header cannot be read"),
        Ok(Verdict::BadChecksum) => put_unsound(out, number, b"checksum differs"),
        Ok(Verdict::BadDigest) => put_unsound(out, number, b"header digest differs"),
        Err(GetFault::NoSuch) => unreachable!(),
        // A header that is none is a verdict.
        Err(GetFault::Bad) => unreachable!(),
        Err(GetFault::DiskFault) => Err(Halt::DiskFault),
        Err(GetFault::NoMemory) => Err(Halt::NoMemory),
    }
}

/// Verifies all packages, by rising number, and tells the verdict of each that isn't sound.
pub fn report<D: Disk, O: Sink + Drop>(
    alloc: Global,
    db: &Db,
    disk: &mut D,
    out: &mut Buffered<O>,
) -> Why
    requires asked { IsAskable D.Disk disk.old db.now }
    ensures went { IsTrue D.tells → OutTakes O.Sink (λ old new. CommandProgress (verify (D.files disk.old).pkg (store_of db.now)) result
        old new (λ for. pkg_read D.Disk disk.new ≤ pkg_read D.Disk disk.old + reached_by (Everything ∷ []) db.now for))
        out.old out.new }
    ensures done { is_foreign result ≡ false }
    ensures opened { is_of_opening result ≡ false }
    ensures looks { OnlyReads D.Disk Pkg (packages_cost db.now) disk.old disk.new }
    ensures no_err { result ≢ Why.ErrFault }
    ensures disk { DiskFault D.Disk (result ≡ Why.DiskFault) disk.old disk.new }
    ensures out { Hand O.Sink (result ≡ Why.OutFault) out.old out.new }
{
    let mut room = Vec::new(alloc);
    let mut number = 0;
    let mut fails = false;
    while let Some(next) = db.next_above(number) {
        number = next;
        match verify_one(alloc, db, disk, next, &mut room, out) {
            Ok(unsound) => fails |= unsound,
            Err(halt) => return Why::from(halt),
        }
    }
    if fails { Why::Failed(1) } else { Why::Done }
}
