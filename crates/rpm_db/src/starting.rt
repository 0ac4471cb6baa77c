//! Making a database.

ghost use Rattle.std.specs.Prelude.{◌≡◌, ◌≢◌, ℕ, ◌+◌, ◌≤◌, [], IsTrue, true, false, Err, Ok, IfOk, IfErr};
ghost use Rattle.rpm_db.specs.Prelude.{CanMake, DiskFault, Idx, images, is_blank_database, IsEmptyIndex, IsEmptyStill, IsInit, IsInitFault, IsMadeEmpty, IsRebuildRefused, IsDurable, IsThere, CrashLeaves, made_new, Pkg, ReachesMade, ReachesTo, ReadAtMost, Remade, Runs, SameLog, IsStoppedByFault, units_for};
ghost use Rattle.rpm_db.specs.Database.{Keeps};

use crate::change_fault::ChangeFault;
use crate::database::Db;
use crate::indexing::seal_index;
use rpm_hindex::{Hindex, IndexDiskFault, RewriteFault, Rows};
use rpm_outside::Disk;
use rpm_pkgdb::PkgDb;
use std::alloc::Global;

/// An index without rows, which isn't sealed.
fn empty_index<D: Disk>(alloc: Global, disk: &mut D) -> Result<Hindex, RewriteFault>
    ensures room { (needed : ℕ) → result ≢ Err (RewriteFault.IndexFull needed) }
    ensures empty { IfOk result (IsEmptyIndex D.Disk disk.old disk.new) }
    ensures refused { IfErr result (λ e. IsRebuildRefused e → (IsTrue D.tells → D.files disk.new ≡ D.files disk.old)
        × (D.moment disk.new ≡ D.moment disk.old)) }
    ensures units { D.bytes_read disk.new Idx ≤ D.bytes_read disk.old Idx + 32 }
    ensures unread { D.bytes_read disk.new Pkg ≤ D.bytes_read disk.old Pkg }
    ensures runs { Runs D.Disk Remade disk.old disk.new }
    ensures cause { DiskFault D.Disk (result ≡ Err RewriteFault.DiskFault) disk.old disk.new }
{
    let mut index = match Hindex::open(disk) {
        Ok(index) => index,
        Err(IndexDiskFault) => return Err(RewriteFault::DiskFault),
    };
    let rows = Rows::new(alloc);
    match index.rewrite_owned(alloc, disk, rows) {
        Ok(()) => Ok(index),
        Err(fault) => Err(fault),
    }
}

/// Makes the files of a database without packages, and the index first, so that a made store never stands beside an
/// older index.
pub fn make_files<D: Disk>(
    alloc: Global,
    disk: &mut D,
    store: &mut PkgDb,
) -> Result<Hindex, RewriteFault>
    requires can { CanMake D.Disk disk.old store.old }
    ensures room { (needed : ℕ) → result ≢ Err (RewriteFault.IndexFull needed) }
    ensures made { IfOk result (λ _index. store.new ≡ made_new store.old) }
    ensures empty { IfOk result (λ index. IsMadeEmpty D.Disk disk.new store.new index) }
    ensures refused { IfErr result (λ e. IsRebuildRefused e → (store.new ≡ store.old)
        × (IsTrue D.tells → D.files disk.new ≡ D.files disk.old) × (D.moment disk.new ≡ D.moment disk.old)) }
    ensures crashes { IsTrue D.tells → CrashLeaves D.Disk disk.old disk.new (IsEmptyStill (images D.Disk disk.old)) }
    ensures reach { IfOk result (λ _index. IsTrue D.tells → ReachesMade (units_for []) (D.files disk.old).idx (D.files disk.new).idx) }
    ensures end { IfOk result (λ _index. IsTrue D.tells → ReachesTo store.new (D.files disk.old).pkg (D.files disk.new).pkg) }
    ensures reads { ReadAtMost Idx 32 (D.bytes_read disk.old) (D.bytes_read disk.new) }
    ensures runs { Runs D.Disk SameLog disk.old disk.new }
    ensures cause { DiskFault D.Disk (result ≡ Err RewriteFault.DiskFault) disk.old disk.new }
{
    let mut index = match empty_index(alloc, disk) {
        Ok(index) => index,
        Err(fault) => return Err(fault),
    };
    let Ok(()) = store.make(disk) else {
        return Err(RewriteFault::DiskFault);
    };
    match seal_index(disk, &mut index, 1) {
        Ok(()) => Ok(index),
        Err(IndexDiskFault) => Err(RewriteFault::DiskFault),
    }
}

impl Db {
    /// Makes a database where there is none yet, and its index, and answers whether it did. What it says stays: no
    /// package, and the number field 1.
    ///
    /// Writes the index without rows and makes it durable, then the first page, and then the seal; reads two units of
    /// `Hindex.db`, and takes all memory before the first write. A crash at any moment leaves a blank database, or
    /// one that is made and empty.
    ///
    /// # Errors
    ///
    /// - `Stopped` exactly where an earlier changing call failed at the disk, or a batch goes on.
    /// - `DiskFault` only where the disk's count of faults rose. The value is stopped then.
    /// - `NoMemory` where the index finds no memory. It answers no other fault.
    pub fn init<D: Disk>(&mut self, alloc: Global, disk: &mut D) -> Result<bool, ChangeFault>
        requires keeps { self.old.stopped ≡ false → IsTrue D.tells → Keeps (D.files disk.old).pkg self.old }
        requires pkg { self.old.stopped ≡ false → is_blank_database self.old ≡ true → IsTrue D.tells → IsDurable D.Disk Pkg disk.old }
        ensures made { IfOk result (IsThere D.Disk disk.old disk.new self.old self.new) }
        ensures done { result ≡ Ok true → IsInit D.Disk disk.old disk.new self.old self.new }
        ensures same { result ≡ Ok false → (self.new ≡ self.old) × (disk.new ≡ disk.old) }
        ensures refused { IfErr result (λ e. e ≢ ChangeFault.DiskFault → (self.new ≡ self.old)
            × (IsTrue D.tells → D.files disk.new ≡ D.files disk.old) × (D.moment disk.new ≡ D.moment disk.old)) }
        ensures reads { ReadAtMost Idx 32 (D.bytes_read disk.old) (D.bytes_read disk.new) }
        ensures kinds { IfErr result IsInitFault }
        ensures stopped { IsStoppedByFault self.old self.new result }
        ensures crashes { IsTrue D.tells → self.old.stopped ≡ false → is_blank_database self.old ≡ true
            → CrashLeaves D.Disk disk.old disk.new (IsEmptyStill (images D.Disk disk.old)) }
        ensures runs { Runs D.Disk SameLog disk.old disk.new }
        ensures cause { DiskFault D.Disk (result ≡ Err ChangeFault.DiskFault) disk.old disk.new }
    {
        if self.is_stopped {
            return Err(ChangeFault::Stopped);
        }
        if !self.store.is_blank() {
            return Ok(false);
        }
        match make_files(alloc, disk, &mut self.store) {
            Ok(index) => {
                self.index = Some(index);
                Ok(true)
            }
            Err(RewriteFault::IndexFull { .. }) => unreachable!(),
            Err(RewriteFault::NoMemory) => Err(ChangeFault::NoMemory),
            Err(RewriteFault::DiskFault) => {
                self.is_stopped = true;
                Err(ChangeFault::DiskFault)
            }
        }
    }
}
