//! A batch of changes of a database: the store changes at each, and the index once for all.

ghost use Rattle.std.specs.Prelude.{◌≡◌, ◌⊎◌, ◌+◌, ◌++◌, ◌≤◌, [], length, IsTrue, true, false, Ok, Err, OnOk, IfOk, IfErr};
ghost use Rattle.std.specs.FinMap as finite;
ghost use Rattle.rpm_db.specs.Prelude.{Add, AddAnswer, AreLawful, package_cost, CrashLeaves, DiskFault, Erase, EraseAnswer, Gathers, generation_of, has_failed, HasItsRows, header, Header, HeaderFault, images, is_indexed, IsGathering, IsLawfulStill, IsLeftSuspended, IsOfIndex, IsOfReading, IsOfStoreErasing, IsOrdered, IsWholeIndex, next_package_number, no_row_changes, OwesOn, packages_in, Pkg, Put, PutAnswer, ReachesTo, ReadsAtMost, resumed_database, rows_at, Runs, SameLog, sealed_in, StaysWhole, store_of, suspended_database, WholeCause, with_room};

use crate::change_fault::ChangeFault;
use crate::database::Db;
use crate::netting::RowChange;
use crate::planning::PackageChange;
use crate::writing::fill_index;
use rpm_header::View;
use rpm_outside::Disk;
use std::alloc::Global;
use std::marker::Model;

/// A batch of changes that goes on: the rows that its index is to drop and to add. The database takes no other change
/// until it is over, and none any more where one of the batch failed.
///
/// The store's part of each change is made at its turn, and refused at its turn. The index gets the rows of all at the
/// end: it is changed once, and sealed once. What it drops comes by rising number, so a chain in which the packages stand
/// by number is walked once, however many of its rows go. Rows of a package that is added, and replaced or erased, within
/// the batch are never written.
///
/// Where each image at the start is lawful, a crash at any moment of a change leaves a database that is lawful, with
/// the packages from before it or after it.
#[derive(Drop)]
pub struct Batch {
    pub(crate) owed: RowChange,
}

impl Model for Batch {
    ghost use Rattle.rpm_db.specs.declared.netting.RowChange.{RowChange};

    ghost Value = { RowChange };

    ghost view = { λ s. s.owed };
}

impl Batch {
    /// Begins a batch.
    pub fn begin(alloc: Global, db: &mut Db) -> Batch
        requires indexed { is_indexed db.old ≡ true }
        requires going { db.old.stopped ≡ false }
        ensures none { result ≡ no_row_changes }
        ensures same { db.new ≡ suspended_database db.old }
        ensures goes { has_failed db.old ≡ false }
        ensures order { IsOrdered db.old.index }
        ensures sealed { sealed_in db.old.index ≡ generation_of db.old }
    {
        db.is_stopped = true;
        Batch {
            owed: RowChange::none(alloc),
        }
    }

    /// Adds a header under the next number, and answers it: writes it to the store, under a raised generation, and
    /// gathers its rows. Bytes after the header aren't kept. The index isn't written, and is read only where its counts
    /// leave it open whether it has room for the rows.
    ///
    /// # Errors
    ///
    /// Those of [`Db::add`], in the same order, and `IndexFull` exactly so where the index held the rows as the batch
    /// began. After `BadHeader` all is as it was; after any other but `DiskFault` the files are, and the batch isn't to
    /// be used further.
    pub fn add<D: Disk>(
        &mut self,
        alloc: Global,
        db: &mut Db,
        disk: &mut D,
        blob: &[u8],
    ) -> Result<u32, ChangeFault>
        requires gathering { IsGathering D.Disk disk.old db.old self.old }
        ensures causes { AddAnswer (resumed_database db.old) blob.now result }
        ensures number { IfOk result (λ n. n ≡ next_package_number db.old) }
        ensures gathers { (h : Header) → header blob.now ≡ Ok h → Gathers D.Disk disk.old disk.new (Add h.blob) db.old db.new self.old self.new result }
        ensures whole { IsTrue D.tells → IsWholeIndex (D.files disk.old).idx → IfErr result WholeCause }
        ensures refused { (fault : HeaderFault) → result ≡ Err (ChangeFault.BadHeader fault)
            → (disk.new ≡ disk.old) × (db.new ≡ db.old) × (self.new ≡ self.old) }
        ensures left { IsLeftSuspended D.Disk disk.old disk.new db.new (with_room (store_of db.new).spare db.old) self.old.drops result }
        ensures index { IsTrue D.tells → (D.files disk.new).idx ≡ (D.files disk.old).idx }
        ensures end { OnOk result (IsTrue D.tells → ReachesTo (store_of db.new) (D.files disk.old).pkg (D.files disk.new).pkg) }
        ensures runs { Runs D.Disk SameLog disk.old disk.new }
        ensures cause { DiskFault D.Disk (result ≡ Err ChangeFault.DiskFault) disk.old disk.new }
    {
        let view = View::parse(blob)?;
        self.add_view(alloc, db, disk, &view)
    }

    /// Adds a header that was parsed under the next number, and answers it: what [`Batch::add`] does of the header's own
    /// bytes, which aren't checked again. It writes and reads as much, and leaves as much after a crash.
    ///
    /// # Errors
    ///
    /// Those of [`Batch::add`] but `BadHeader`, in the same order. After `NumbersSpent` all is as it was; after any other
    /// but `DiskFault` the files are, and the batch isn't to be used further.
    pub fn add_view<D: Disk>(
        &mut self,
        alloc: Global,
        db: &mut Db,
        disk: &mut D,
        view: &View<'_>,
    ) -> Result<u32, ChangeFault>
        requires gathering { IsGathering D.Disk disk.old db.old self.old }
        requires own { header view.now.blob ≡ Ok view.now }
        ensures causes { AddAnswer (resumed_database db.old) view.now.blob result }
        ensures number { IfOk result (λ n. n ≡ next_package_number db.old) }
        ensures gathers { Gathers D.Disk disk.old disk.new (Add view.now.blob) db.old db.new self.old self.new result }
        ensures whole { IsTrue D.tells → IsWholeIndex (D.files disk.old).idx → IfErr result WholeCause }
        ensures refused { result ≡ Err ChangeFault.NumbersSpent → (disk.new ≡ disk.old) × (db.new ≡ db.old) × (self.new ≡ self.old) }
        ensures left { IsLeftSuspended D.Disk disk.old disk.new db.new (with_room (store_of db.new).spare db.old) self.old.drops result }
        ensures index { IsTrue D.tells → (D.files disk.new).idx ≡ (D.files disk.old).idx }
        ensures end { OnOk result (IsTrue D.tells → ReachesTo (store_of db.new) (D.files disk.old).pkg (D.files disk.new).pkg) }
        ensures runs { Runs D.Disk SameLog disk.old disk.new }
        ensures cause { DiskFault D.Disk (result ≡ Err ChangeFault.DiskFault) disk.old disk.new }
    {
        let number = db.store.next_number();
        if number == u32::MAX {
            return Err(ChangeFault::NumbersSpent);
        }
        match self.change(alloc, db, disk, PackageChange::Put(None, view)) {
            Ok(()) => Ok(number),
            Err(fault) => Err(fault),
        }
    }

    /// Puts a header in place of the package that a number has, Good or Bad: writes it to the store, under a raised
    /// generation, and gathers its rows beside those that go. Bytes after the header aren't kept. Reads the blocks of the
    /// old package, each once. The index isn't written, and is read only where its counts leave it open whether it has
    /// room for the rows.
    ///
    /// # Errors
    ///
    /// Those of [`Db::put`], in the same order, and `IndexFull` exactly so where the index held the rows as the batch
    /// began. After `BadHeader` and `NoSuch` all is as it was; after any other but `DiskFault` the files are, and the
    /// batch isn't to be used further.
    pub fn replace<D: Disk>(
        &mut self,
        alloc: Global,
        db: &mut Db,
        disk: &mut D,
        n: u32,
        blob: &[u8],
    ) -> Result<(), ChangeFault>
        requires gathering { IsGathering D.Disk disk.old db.old self.old }
        ensures causes { PutAnswer (resumed_database db.old) n blob.now result }
        ensures gathers { (h : Header) → header blob.now ≡ Ok h → Gathers D.Disk disk.old disk.new (Put n h.blob) db.old db.new self.old self.new result }
        ensures whole { IsTrue D.tells → IsWholeIndex (D.files disk.old).idx → IfErr result WholeCause }
        ensures refused { (result ≡ Err ChangeFault.NoSuch) ⊎ ((fault : HeaderFault) × (result ≡ Err (ChangeFault.BadHeader fault)))
            → (disk.new ≡ disk.old) × (db.new ≡ db.old) × (self.new ≡ self.old) }
        ensures left { IsLeftSuspended D.Disk disk.old disk.new db.new (with_room (store_of db.new).spare db.old)
            (self.old.drops ++ rows_at n (finite.get (packages_in D.Disk disk.old db.old) n)) result }
        ensures index { IsTrue D.tells → (D.files disk.new).idx ≡ (D.files disk.old).idx }
        ensures end { OnOk result (IsTrue D.tells → ReachesTo (store_of db.new) (D.files disk.old).pkg (D.files disk.new).pkg) }
        ensures reads { D.bytes_read disk.new Pkg ≤ D.bytes_read disk.old Pkg + package_cost n db.old }
        ensures runs { Runs D.Disk SameLog disk.old disk.new }
        ensures cause { DiskFault D.Disk (result ≡ Err ChangeFault.DiskFault) disk.old disk.new }
    {
        let view = View::parse(blob)?;
        self.replace_view(alloc, db, disk, n, &view)
    }

    /// Puts a header that was parsed in place of the package that a number has, Good or Bad: what [`Batch::replace`] does
    /// of the header's own bytes, which aren't checked again. It writes and reads as much, and leaves as much where the
    /// machine crashes.
    ///
    /// # Errors
    ///
    /// Those of [`Batch::replace`] but `BadHeader`, in the same order. After `NoSuch` all is as it was; after any other
    /// but `DiskFault` the files are, and the batch isn't to be used further.
    pub fn replace_view<D: Disk>(
        &mut self,
        alloc: Global,
        db: &mut Db,
        disk: &mut D,
        n: u32,
        view: &View<'_>,
    ) -> Result<(), ChangeFault>
        requires gathering { IsGathering D.Disk disk.old db.old self.old }
        requires own { header view.now.blob ≡ Ok view.now }
        ensures causes { PutAnswer (resumed_database db.old) n view.now.blob result }
        ensures gathers { Gathers D.Disk disk.old disk.new (Put n view.now.blob) db.old db.new self.old self.new result }
        ensures whole { IsTrue D.tells → IsWholeIndex (D.files disk.old).idx → IfErr result WholeCause }
        ensures refused { result ≡ Err ChangeFault.NoSuch → (disk.new ≡ disk.old) × (db.new ≡ db.old) × (self.new ≡ self.old) }
        ensures left { IsLeftSuspended D.Disk disk.old disk.new db.new (with_room (store_of db.new).spare db.old)
            (self.old.drops ++ rows_at n (finite.get (packages_in D.Disk disk.old db.old) n)) result }
        ensures index { IsTrue D.tells → (D.files disk.new).idx ≡ (D.files disk.old).idx }
        ensures end { OnOk result (IsTrue D.tells → ReachesTo (store_of db.new) (D.files disk.old).pkg (D.files disk.new).pkg) }
        ensures reads { D.bytes_read disk.new Pkg ≤ D.bytes_read disk.old Pkg + package_cost n db.old }
        ensures runs { Runs D.Disk SameLog disk.old disk.new }
        ensures cause { DiskFault D.Disk (result ≡ Err ChangeFault.DiskFault) disk.old disk.new }
    {
        if !db.store.holds(n) {
            return Err(ChangeFault::NoSuch);
        }
        self.change(alloc, db, disk, PackageChange::Put(Some(n), view))
    }

    /// Takes the package that a number has out, Good or Bad: out of the store, under a raised generation, and gathers
    /// its rows. Reads the package's blocks, each once. The index is neither read nor written.
    ///
    /// # Errors
    ///
    /// The first of these that holds; it answers nothing else, since the rows that are left need no more units than those
    /// before:
    ///
    /// - `NoSuch` exactly where there is no package of this number.
    /// - `GenerationSpent` exactly where the generation is 4294967295. After these two all is as it was.
    ///
    /// `DiskFault` only where the disk's count of faults rose. `NoMemory` where the package or its rows find no memory:
    /// the files are as they were, and the batch isn't to be used further.
    pub fn erase<D: Disk>(
        &mut self,
        alloc: Global,
        db: &mut Db,
        disk: &mut D,
        n: u32,
    ) -> Result<(), ChangeFault>
        requires gathering { IsGathering D.Disk disk.old db.old self.old }
        ensures causes { EraseAnswer (resumed_database db.old) n result }
        ensures gathers { Gathers D.Disk disk.old disk.new (Erase n) db.old db.new self.old self.new result }
        ensures kinds { IfErr result IsOfStoreErasing }
        ensures refused { (result ≡ Err ChangeFault.NoSuch) ⊎ (result ≡ Err ChangeFault.GenerationSpent)
            → (disk.new ≡ disk.old) × (db.new ≡ db.old) × (self.new ≡ self.old) }
        ensures left { IsLeftSuspended D.Disk disk.old disk.new db.new db.old [] result }
        ensures index { IsTrue D.tells → (D.files disk.new).idx ≡ (D.files disk.old).idx }
        ensures end { OnOk result (IsTrue D.tells → length (D.files disk.new).pkg ≤ length (D.files disk.old).pkg) }
        ensures reads { D.bytes_read disk.new Pkg ≤ D.bytes_read disk.old Pkg + package_cost n db.old }
        ensures runs { Runs D.Disk SameLog disk.old disk.new }
        ensures cause { DiskFault D.Disk (result ≡ Err ChangeFault.DiskFault) disk.old disk.new }
    {
        if db.store.holds(n) {
            return self.change(alloc, db, disk, PackageChange::Erase(n));
        }
        Err(ChangeFault::NoSuch)
    }

    /// Ends the batch: the index drops and adds the rows that it is owed, and is sealed once. Where there were no
    /// changes nothing is written.
    ///
    /// Until the seal is written the index is that of an earlier generation, or has none. Where each image at the start
    /// is lawful, and the index held the rows as the batch began, a crash at any moment leaves the packages as they are,
    /// and a database that is lawful.
    ///
    /// # Errors
    ///
    /// After each but `DiskFault` the files are as they were, and so is the value.
    ///
    /// - `BadIndex` only where a chain of the index isn't well formed, or unit 1 counts less than the batch drops; and
    ///   it or `IndexFull` never where the index held the rows as the batch began.
    /// - `DiskFault` only where the disk's count of faults rose.
    /// - `NoMemory` where the change finds no memory. It answers nothing else.
    pub fn finish<D: Disk>(
        self,
        alloc: Global,
        db: &mut Db,
        disk: &mut D,
    ) -> Result<(), ChangeFault>
        requires gathering { IsGathering D.Disk disk.old db.old self }
        ensures has_rows { OnOk result (HasItsRows D.Disk disk.old disk.new db.old db.new self) }
        ensures full { IsTrue D.tells → OwesOn D.Disk disk.old db.old self → IfErr result IsOfReading }
        ensures whole { IsTrue D.tells → IsWholeIndex (D.files disk.old).idx → StaysWhole (D.files disk.new).idx result }
        ensures kinds { IfErr result IsOfIndex }
        ensures unwritten { sealed_in db.old.index ≡ generation_of db.old → disk.new ≡ disk.old }
        ensures store { store_of db.new ≡ store_of db.old }
        ensures packages { IsTrue D.tells → (D.files disk.new).pkg ≡ (D.files disk.old).pkg }
        ensures left { IsLeftSuspended D.Disk disk.old disk.new db.new db.old self.drops result }
        ensures crashes { IsTrue D.tells → AreLawful (images D.Disk disk.old) → OwesOn D.Disk disk.old db.old self
            → CrashLeaves D.Disk disk.old disk.new (IsLawfulStill (images D.Disk disk.old)) }
        ensures runs { Runs D.Disk SameLog disk.old disk.new }
        ensures cause { DiskFault D.Disk (result ≡ Err ChangeFault.DiskFault) disk.old disk.new }
    {
        let generation = db.store.generation();
        let Some(index) = &mut db.index else {
            unreachable!()
        };
        match fill_index(alloc, disk, index, self.owed, generation) {
            Ok(()) => {
                db.is_stopped = false;
                Ok(())
            }
            Err(fault) => Err(fault),
        }
    }
}
