//! Making the index from the packages.

ghost use Rattle.std.specs.Prelude.{◌≡◌, ◌≢◌, ℕ, ◌+◌, ◌≤◌, ◌<◌, max, IsTrue, true, not, Err, OnOk, IfOk, IfErr, if◌then◌else◌};
ghost use Rattle.rpm_db.specs.Prelude.{CanIndex, cost_all, Damage, DiskCause, DiskFault, Files, FullIs, FullOpenIs, Idx, images, is_current_at, IsIndexFor, IsOfRows, IsRebuildRefused, IsSealedHere, IsDurable, IsUnsealed, KeepsStore, packages, Pkg, ReachesMade, ReadAtMost, Remade, rows, Runs, units_for, WritesNothing};
ghost use Rattle.rpm_hindex.specs.State as hindex;

use crate::open_fault::DbOpenFault;
use crate::rows::rows_of;
use rpm_hindex::{Hindex, IndexDiskFault, RewriteFault, Rows};
use rpm_outside::{Disk, Failed, File};
use rpm_pkgdb::PkgDb;
use std::alloc::Global;

/// Makes both files durable.
pub fn sync_both<D: Disk>(disk: &mut D) -> Result<(), Failed>
    ensures same { IsTrue D.tells → D.files disk.new ≡ D.files disk.old }
    ensures pkg { OnOk result (IsTrue D.tells → IsDurable D.Disk Pkg disk.new) }
    ensures idx { OnOk result (IsTrue D.tells → IsDurable D.Disk Idx disk.new) }
    ensures unread { (f : File) → D.bytes_read disk.new f ≡ D.bytes_read disk.old f }
    ensures runs { Runs D.Disk Remade disk.old disk.new }
    ensures cause { DiskCause D.Disk result disk.old disk.new }
{
    disk.sync(File::Pkg)?;
    disk.sync(File::Idx)
}

/// Seals an index that is written, once it is durable, and makes the seal durable.
pub fn seal_index<D: Disk>(
    disk: &mut D,
    index: &mut Hindex,
    generation: u32,
) -> Result<(), IndexDiskFault>
    requires written { 0 < index.old.pending }
    requires ordered { hindex.is_ordered index.old.pending index.old.second index.old.units ≡ true }
    requires keeps { IsTrue D.tells → hindex.KeepsIndexValue (D.files disk.old).idx index.old }
    requires durable { IsTrue D.tells → IsDurable D.Disk Idx disk.old }
    requires here { IsTrue D.tells → IsUnsealed generation index.old.pending (D.files disk.old).pkg (D.files disk.old).idx }
    requires each { IsTrue D.tells → (image : Files) → images D.Disk disk.old image
        → IsUnsealed generation index.old.pending image.pkg (D.files disk.old).idx }
    ensures sealed { OnOk result (IsSealedHere D.Disk disk.new generation index.new) }
    ensures units { OnOk result (index.new.units ≡ index.old.units) }
    ensures unread { (f : File) → D.bytes_read disk.new f ≤ D.bytes_read disk.old f }
    ensures runs { Runs D.Disk Remade disk.old disk.new }
    ensures cause { DiskCause D.Disk result disk.old disk.new }
{
    index.seal(disk, generation)
}

/// Writes the index of these rows from scratch, and seals it. The rows are freed as their records are made.
fn write_index<D: Disk>(
    alloc: Global,
    disk: &mut D,
    index: &mut Hindex,
    rows: Rows,
    generation: u32,
) -> Result<(), RewriteFault>
    requires keeps { IsTrue D.tells → hindex.KeepsIndexValue (D.files disk.old).idx index.old }
    requires durable { IsTrue D.tells → IsDurable D.Disk Pkg disk.old }
    requires rows { IsTrue D.tells → IsOfRows generation rows (D.files disk.old).pkg }
    ensures full { FullIs (units_for rows) result }
    ensures sealed { OnOk result (IsSealedHere D.Disk disk.new generation index.new) }
    ensures refused { IfErr result (λ e. IsRebuildRefused e → (index.new ≡ index.old) × (disk.new ≡ disk.old)) }
    ensures grows { OnOk result (index.new.units ≤ max index.old.units (units_for rows)) }
    ensures unread { (f : File) → D.bytes_read disk.new f ≤ D.bytes_read disk.old f }
    ensures runs { Runs D.Disk Remade disk.old disk.new }
    ensures cause { DiskFault D.Disk (result ≡ Err RewriteFault.DiskFault) disk.old disk.new }
{
    index.rewrite_owned(alloc, disk, rows)?;
    match seal_index(disk, index, generation) {
        Ok(()) => Ok(()),
        Err(IndexDiskFault) => Err(RewriteFault::DiskFault),
    }
}

/// Makes the index from the packages, and seals it at the store's generation.
///
/// Reads the blocks of each package once. All memory is taken before the first write.
pub fn make_index<D: Disk>(
    alloc: Global,
    disk: &mut D,
    store: &PkgDb,
    index: &mut Hindex,
) -> Result<(), RewriteFault>
    requires keeps { IsTrue D.tells → KeepsStore (D.files disk.old).pkg store.now }
    requires index { IsTrue D.tells → hindex.KeepsIndexValue (D.files disk.old).idx index.old }
    requires durable { IsTrue D.tells → IsDurable D.Disk Pkg disk.old }
    ensures full { IsTrue D.tells → FullIs (units_for (rows (packages (D.files disk.old).pkg store.now))) result }
    ensures sealed { OnOk result (IsSealedHere D.Disk disk.new store.now.generation index.new) }
    ensures refused { IfErr result (λ e. IsRebuildRefused e → (index.new ≡ index.old)
        × (IsTrue D.tells → D.files disk.new ≡ D.files disk.old) × (D.moment disk.new ≡ D.moment disk.old)) }
    ensures reach { OnOk result (IsTrue D.tells
        → ReachesMade (units_for (rows (packages (D.files disk.old).pkg store.now))) (D.files disk.old).idx
        (D.files disk.new).idx) }
    ensures reads { ReadAtMost Pkg (cost_all store.now) (D.bytes_read disk.old) (D.bytes_read disk.new) }
    ensures runs { Runs D.Disk Remade disk.old disk.new }
    ensures cause { DiskFault D.Disk (result ≡ Err RewriteFault.DiskFault) disk.old disk.new }
{
    let rows = rows_of(alloc, disk, store)?;
    write_index(alloc, disk, index, rows, store.generation())
}

/// The index of a store, which is made from the packages where it isn't current.
pub fn index_for<D: Disk>(alloc: Global, disk: &mut D, store: &PkgDb) -> Result<Hindex, DbOpenFault>
    requires can { CanIndex D.Disk disk.old store.now }
    ensures full { IsTrue D.tells → FullOpenIs (not (is_current_at store.now.generation (D.files disk.old).idx))
        (units_for (rows (packages (D.files disk.old).pkg store.now))) result }
    ensures undamaged { (d : Damage) → result ≢ Err (DbOpenFault.Damaged d) }
    ensures same { IsTrue D.tells → WritesNothing (not (is_current_at store.now.generation (D.files disk.old).idx))
        result → D.files disk.new ≡ D.files disk.old }
    ensures refused { IfErr result (λ e. e ≢ DbOpenFault.DiskFault → D.moment disk.new ≡ D.moment disk.old) }
    ensures index { IfOk result (IsIndexFor D.Disk disk.old disk.new store.now) }
    ensures reach { IfOk result (λ _index. IsTrue D.tells
        → ReachesMade (units_for (rows (packages (D.files disk.old).pkg store.now))) (D.files disk.old).idx
        (D.files disk.new).idx) }
    ensures reads { IsTrue D.tells → D.bytes_read disk.new Pkg ≤ D.bytes_read disk.old Pkg
        + (if not (is_current_at store.now.generation (D.files disk.old).idx) then cost_all store.now else 0) }
    ensures units { D.bytes_read disk.new Idx ≤ D.bytes_read disk.old Idx + 32 }
    ensures runs { Runs D.Disk Remade disk.old disk.new }
    ensures cause { DiskFault D.Disk (result ≡ Err DbOpenFault.DiskFault) disk.old disk.new }
{
    let mut index = match Hindex::open(disk) {
        Ok(index) => index,
        Err(IndexDiskFault) => return Err(DbOpenFault::DiskFault),
    };
    if index.is_current(store.generation()) {
        return Ok(index);
    }
    match make_index(alloc, disk, store, &mut index) {
        Ok(()) => Ok(index),
        Err(RewriteFault::IndexFull { needed }) => Err(DbOpenFault::IndexFull { needed }),
        Err(RewriteFault::DiskFault) => Err(DbOpenFault::DiskFault),
        Err(RewriteFault::NoMemory) => Err(DbOpenFault::NoMemory),
    }
}
