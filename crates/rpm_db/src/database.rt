//! An opened database.

ghost use Rattle.std.specs.Prelude.{◌≡◌, ◌≢◌, ℕ, ◌+◌, ◌^◌, ◌≤◌, IsTrue, true, false, is_some, None, Err, IfOk, IfErr};
ghost use Rattle.std.specs.FinMap as finite;
ghost use Rattle.rpm_db.specs.Prelude.{DiskFault, holds, Idx, is_blank_database, is_indexed, IsNext, IsOpened, IsOpenedOn, IsDurable, OnlyReads, next, next_package_number, opening_cost, OpeningReads, DatabaseOpenIs, Pkg, Remade, store_of, Runs, slot_with, state, StaysLawful, store, StoreIs, Units};
ghost use Rattle.rpm_db.specs.Database.{Keeps};
ghost use Rattle.rpm_pkgdb.specs.Store as pkgdb;

use crate::indexing::{index_for, sync_both};
use crate::open_fault::DbOpenFault;
use rpm_hindex::Hindex;
use rpm_outside::{Disk, File};
use rpm_pkgdb::PkgDb;
use std::alloc::Global;
use std::marker::Model;

/// A database, opened on a disk that each call takes again.
#[derive(Drop)]
pub struct Db {
    pub(crate) store: PkgDb,
    pub(crate) index: Option<Hindex>,
    pub(crate) is_stopped: bool,
}

impl Model for Db {
    ghost use Rattle.std.specs.Prelude.{Bool, Option, refl};
    ghost use Rattle.std.specs.Coded.{code_by, codes};
    ghost use Rattle.rpm_hindex.specs.State.{IndexState};
    ghost use Rattle.rpm_pkgdb.specs.Store.{Store};
    ghost use Rattle.rpm_db.specs.Database.{Database, database_of, IsConsistent, store_of};

    ghost Value = { Database };

    ghost coded = { code_by (Store × Option IndexState × Bool) (Prim.hlevel codes) (λ db. (store_of db, db.index, db.stopped))
        (λ p. database_of p.0 p.1 p.2) (λ _. refl) };

    ghost view = { λ s. database_of s.store s.index s.is_stopped };

    ghost invariant = { λ s. IsConsistent s.store s.index s.is_stopped };
}

/// The store, as it is opened for a database.
fn open_store<D: Disk>(alloc: Global, disk: &mut D) -> Result<PkgDb, DbOpenFault>
    ensures store { IsTrue D.tells → StoreIs (store (D.files disk.old).pkg) result }
    ensures no_index { (needed : ℕ) → result ≢ Err (DbOpenFault.IndexFull needed) }
    ensures kept { IfOk result (λ value. IsTrue D.tells → pkgdb.KeepsStore (D.files disk.new).pkg value) }
    ensures from_one { IfOk result (λ value. slot_with 0 value.slots ≡ None) }
    ensures going { IfOk result (λ value. value.is_stopped ≡ false) }
    ensures reads { IsTrue D.tells → D.bytes_read disk.new File.Pkg ≤ D.bytes_read disk.old File.Pkg + opening_cost (D.files disk.old).pkg }
    ensures looks { OnlyReads D.Disk Pkg (2 ^ 32) disk.old disk.new }
    ensures cause { DiskFault D.Disk (result ≡ Err DbOpenFault.DiskFault) disk.old disk.new }
{
    let store = PkgDb::open(alloc, disk)?;
    Ok(store)
}

impl Db {
    /// Makes both files durable, and opens the database with its index, which is made from the packages where it isn't
    /// current. A database that is blank is opened without an index, and nothing is written.
    ///
    /// Beside the two syncs it does what `open_durable` does, and answers what that answers.
    pub fn open<D: Disk>(alloc: Global, disk: &mut D) -> Result<Db, DbOpenFault>
        ensures opened { IsTrue D.tells → IsOpened (D.files disk.old) (D.files disk.new) result }
        ensures served { IfOk result (IsOpenedOn D.Disk disk.old disk.new) }
        ensures crashes { IsTrue D.tells → StaysLawful D.Disk disk.old disk.new }
        ensures reads { IsTrue D.tells → OpeningReads (D.files disk.old) (D.bytes_read disk.old File.Pkg) (D.bytes_read disk.new File.Pkg) }
        ensures units { D.bytes_read disk.new File.Idx ≤ D.bytes_read disk.old File.Idx + 32 }
        ensures runs { Runs D.Disk Remade disk.old disk.new }
        ensures cause { DiskFault D.Disk (result ≡ Err DbOpenFault.DiskFault) disk.old disk.new }
    {
        match sync_both(disk) {
            Ok(()) => Db::open_durable(alloc, disk),
            Err(_) => Err(DbOpenFault::DiskFault),
        }
    }

    /// Opens the database with its index on files that are durable already, as `rpm_group::recover` leaves them: the
    /// index is made from the packages where it isn't current. A database that is blank is opened without an index,
    /// and nothing is written.
    ///
    /// No file is synced but an index that is made. Reads the slot pages of `Packages.db`, each byte once, and two
    /// units of `Hindex.db`; and where the index must be made the blocks of each package, each once. All memory is
    /// taken before the first write. A crash at any moment leaves the packages as they were, and an index that is as
    /// it was, void, or current with the rows of the packages.
    ///
    /// # Errors
    ///
    /// - `Damaged` exactly where the file isn't a store: its first damage.
    /// - `IndexFull` exactly where the index has to be made and needs more than 268435456 units.
    /// - `DiskFault` only where the disk's count of faults rose.
    /// - `NoMemory` where there is none for the slots, a package or the rows. After each but `DiskFault` the files
    ///   are as they were.
    pub fn open_durable<D: Disk>(alloc: Global, disk: &mut D) -> Result<Db, DbOpenFault>
        requires pkg { IsTrue D.tells → IsDurable D.Disk Pkg disk.old }
        requires idx { IsTrue D.tells → IsDurable D.Disk Idx disk.old }
        ensures opened { IsTrue D.tells → IsOpened (D.files disk.old) (D.files disk.new) result }
        ensures refused { IfErr result (λ e. e ≢ DbOpenFault.DiskFault → D.moment disk.new ≡ D.moment disk.old) }
        ensures served { IfOk result (IsOpenedOn D.Disk disk.old disk.new) }
        ensures crashes { IsTrue D.tells → StaysLawful D.Disk disk.old disk.new }
        ensures reads { IsTrue D.tells → OpeningReads (D.files disk.old) (D.bytes_read disk.old File.Pkg) (D.bytes_read disk.new File.Pkg) }
        ensures units { D.bytes_read disk.new File.Idx ≤ D.bytes_read disk.old File.Idx + 32 }
        ensures runs { Runs D.Disk Remade disk.old disk.new }
        ensures cause { DiskFault D.Disk (result ≡ Err DbOpenFault.DiskFault) disk.old disk.new }
    {
        let store = open_store(alloc, disk)?;
        if store.is_blank() {
            return Ok(Db {
                store,
                index: None,
                is_stopped: false,
            });
        }
        let index = index_for(alloc, disk, &store)?;
        Ok(Db {
            store,
            index: Some(index),
            is_stopped: false,
        })
    }

    /// Reads the store alone. Nothing is written and no file is synced, and the value has no index.
    ///
    /// Reads the slot pages of `Packages.db`, each byte once, and of the other files nothing.
    ///
    /// # Errors
    ///
    /// - `Damaged` exactly where the file isn't a store: its first damage.
    /// - `DiskFault` only where the disk's count of faults rose.
    /// - `NoMemory` where there is none for the slots. It never answers `IndexFull`.
    pub fn open_unindexed<D: Disk>(alloc: Global, disk: &mut D) -> Result<Db, DbOpenFault>
        ensures store { IsTrue D.tells → DatabaseOpenIs (store (D.files disk.old).pkg) result }
        ensures no_index { (needed : ℕ) → result ≢ Err (DbOpenFault.IndexFull needed) }
        ensures kept { IfOk result (λ db. IsTrue D.tells → Keeps (D.files disk.new).pkg db) }
        ensures from_one { IfOk result (λ db. holds 0 db ≡ false) }
        ensures unindexed { IfOk result (λ db. is_indexed db ≡ false) }
        ensures runs { IfOk result (λ db. db.stopped ≡ false) }
        ensures reads { IsTrue D.tells → D.bytes_read disk.new File.Pkg ≤ D.bytes_read disk.old File.Pkg + opening_cost (D.files disk.old).pkg }
        ensures looks { OnlyReads D.Disk Pkg (2 ^ 32) disk.old disk.new }
        ensures cause { DiskFault D.Disk (result ≡ Err DbOpenFault.DiskFault) disk.old disk.new }
    {
        let store = open_store(alloc, disk)?;
        Ok(Db {
            store,
            index: None,
            is_stopped: false,
        })
    }

    /// Whether no database was made yet.
    pub fn is_blank(&self) -> bool
        ensures { result ≡ is_blank_database self.now }
    {
        self.store.is_blank()
    }

    /// Whether an index is kept. No blank database has one.
    pub fn is_indexed(&self) -> bool
        ensures kept { result ≡ is_indexed self.now }
        ensures not_blank { is_indexed self.now ≡ true → is_blank_database self.now ≡ false }
    {
        self.index.is_some()
    }

    /// Whether a changing call of this value failed at the disk, or a batch goes on.
    pub fn is_stopped(&self) -> bool
        ensures { result ≡ self.now.stopped }
    {
        self.is_stopped
    }

    /// The number of the next package: the greater of the number field and one above the greatest number.
    pub fn next_number(&self) -> u32
        ensures number { result ≡ next_package_number self.now }
        ensures told { (file : Units) → result ≡ next (state file (store_of self.now)) }
    {
        self.store.next_number()
    }

    /// Whether a package has this number, Good or Bad. Reads nothing, and takes log n steps.
    pub fn holds(&self, n: u32) -> bool
        ensures held { result ≡ holds n self.now }
        ensures told { (file : Units) → result ≡ is_some (finite.get (state file (store_of self.now)).packages n) }
    {
        self.store.holds(n)
    }

    /// The least number above this one that a package has, Good or Bad; `None` where there is none. Takes log n steps.
    pub fn next_above(&self, n: u32) -> Option<u32>
        ensures next { IsNext (λ m. holds m self.now) n result }
        ensures told { (file : Units) → IsNext (λ m. is_some (finite.get (state file (store_of self.now)).packages m)) n result }
    {
        self.store.next_above(n)
    }
}
