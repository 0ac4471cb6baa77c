//! Making the index anew.

ghost use Rattle.std.specs.Prelude.{◌≡◌, ◌⊎◌, ℕ, ◌+◌, ◌≤◌, IsTrue, true, false, is_some, None, Err, OnOk, IfErr};
ghost use Rattle.rpm_db.specs.Prelude.{DiskFault, FullIs, is_indexed, IsRebuilt, IsRebuildRefused, IsRemade, IsRenewed, IsStill, KeepsIndex, KeepsUnits, packages, Pkg, ReachesMade, ReadAtMost, RebuildIs, Remade, rows, Runs, StaysLawful, units_for};
ghost use Rattle.rpm_db.specs.Database.{Keeps, packages_cost};
ghost use Rattle.rpm_pkgdb.specs.Costs as costs;
ghost use Rattle.rpm_pkgdb.specs.Store as pkgdb;

use crate::change_fault::ChangeFault;
use crate::database::Db;
use crate::indexing::{make_index, sync_both};
use rpm_hindex::{Hindex, RewriteFault};
use rpm_outside::Disk;
use rpm_pkgdb::PkgDb;
use std::alloc::Global;

/// Makes both files durable, and the index from the packages.
fn remake<D: Disk>(
    alloc: Global,
    disk: &mut D,
    store: &PkgDb,
    index: &mut Option<Hindex>,
) -> Result<(), RewriteFault>
    requires some { is_some index.old ≡ true }
    requires keeps { IsTrue D.tells → pkgdb.KeepsStore (D.files disk.old).pkg store.now }
    requires index { IsTrue D.tells → KeepsUnits (D.files disk.old).idx index.old }
    ensures full { IsTrue D.tells → FullIs (units_for (rows (packages (D.files disk.old).pkg store.now))) result }
    ensures some { is_some index.new ≡ true }
    ensures remade { OnOk result (IsRemade D.Disk disk.new store.now.generation index.new) }
    ensures refused { IfErr result (λ e. IsRebuildRefused e → (index.new ≡ index.old) × (IsTrue D.tells → D.files disk.new ≡ D.files disk.old)) }
    ensures reach { OnOk result (IsTrue D.tells
        → ReachesMade (units_for (rows (packages (D.files disk.old).pkg store.now))) (D.files disk.old).idx
        (D.files disk.new).idx) }
    ensures reads { ReadAtMost Pkg (costs.cost_all store.now) (D.bytes_read disk.old) (D.bytes_read disk.new) }
    ensures runs { Runs D.Disk Remade disk.old disk.new }
    ensures cause { DiskFault D.Disk (result ≡ Err RewriteFault.DiskFault) disk.old disk.new }
{
    let Ok(()) = sync_both(disk) else {
        return Err(RewriteFault::DiskFault);
    };
    match index {
        Some(index) => make_index(alloc, disk, store, index),
        None => unreachable!(),
    }
}

impl Db {
    /// Makes the index from the packages, whatever it was, and seals it at the present generation.
    ///
    /// Makes both files durable first, and reads the blocks of each package once. All memory is taken before the first
    /// write. A crash at any moment leaves the packages as they were, and an index that is as it was, void, or
    /// current with the rows of the packages. Then the value serves: it can be changed.
    ///
    /// # Errors
    ///
    /// - `Stopped` exactly where an earlier changing call failed at the disk, or a batch goes on.
    /// - `IndexFull` exactly where the index needs more than 268435456 units.
    /// - `DiskFault` only where the disk's count of faults rose. The value is stopped then.
    /// - `NoMemory` where a package or the rows find no memory. It answers no other fault.
    pub fn rebuild<D: Disk>(&mut self, alloc: Global, disk: &mut D) -> Result<(), ChangeFault>
        requires indexed { is_indexed self.old ≡ true }
        requires keeps { self.old.stopped ≡ false → IsTrue D.tells → Keeps (D.files disk.old).pkg self.old }
        requires index { self.old.stopped ≡ false → IsTrue D.tells → KeepsIndex (D.files disk.old).idx self.old }
        ensures causes { RebuildIs self.old result }
        ensures rebuilt { IsTrue D.tells → IsRebuilt (D.files disk.old) (D.files disk.new) self.old self.new result }
        ensures still { IsStill self.old self.new result }
        ensures renewed { OnOk result (IsRenewed D.Disk disk.old disk.new self.old self.new) }
        ensures crashes { IsTrue D.tells → StaysLawful D.Disk disk.old disk.new }
        ensures reads { ReadAtMost Pkg (packages_cost self.old) (D.bytes_read disk.old) (D.bytes_read disk.new) }
        ensures runs { Runs D.Disk Remade disk.old disk.new }
        ensures cause { DiskFault D.Disk (result ≡ Err ChangeFault.DiskFault) disk.old disk.new }
    {
        if self.is_stopped {
            return Err(ChangeFault::Stopped);
        }
        match remake(alloc, disk, &self.store, &mut self.index) {
            Ok(()) => Ok(()),
            Err(RewriteFault::IndexFull { needed }) => Err(ChangeFault::IndexFull { needed }),
            Err(RewriteFault::NoMemory) => Err(ChangeFault::NoMemory),
            Err(RewriteFault::DiskFault) => {
                self.is_stopped = true;
                Err(ChangeFault::DiskFault)
            }
        }
    }
}
