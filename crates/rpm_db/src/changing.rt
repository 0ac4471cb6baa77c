//! Adding, putting and erasing: one change of both files.

ghost use Rattle.std.specs.Prelude.{◌≡◌, ◌+◌, ◌≤◌, [], length, IsTrue, true, false, None, Ok, Err, OnOk, IfOk};
ghost use Rattle.std.specs.FinMap as finite;
ghost use Rattle.rpm_db.specs.Prelude.{Add, AddAnswer, BadIndexIs, CanTake, change_asked, package_cost, DiskFault, EndsAsked, Erase, EraseAnswer, generation_of, Header, header, images, is_indexed, is_stopping, IsFullFor, IsLeft, IsOwnHeader, IsReady, IsServing, LaterIs, Makes, next_package_number, number_asked, old_rows, packages_in, Pkg, Put, PutAnswer, ReachesTo, ReadsAtMost, refused_database, store_of, rows_at, Runs, SameLog, with_room};

use crate::change_fault::ChangeFault;
use crate::database::Db;
use crate::planning::PackageChange;
use crate::writing::change_both;
use rpm_header::View;
use rpm_outside::Disk;
use std::alloc::Global;

/// Whether a value is stopped by this fault.
fn is_stopping(fault: ChangeFault) -> bool
    ensures { result ≡ is_stopping fault }
{
    matches!(fault, ChangeFault::DiskFault)
}

impl Db {
    /// Adds a header under the next number, and answers it. Bytes after the header aren't kept.
    ///
    /// Both files are planned first, and all memory is taken. Then the generation rises; the blob, its slot and the
    /// number field are written; then its rows; and then the seal. Where no slot is free a slot page is added before,
    /// and the blobs in its way move: each of their blocks is read once. Nothing else of `Packages.db` is read.
    /// Verifying says of each other package what it said before, and of this one that its bytes are whole.
    ///
    /// Where each image at the start is lawful, a crash at any moment leaves a database that is lawful, with the
    /// packages from before or with this one.
    ///
    /// # Errors
    ///
    /// The first of these that holds:
    ///
    /// - `Stopped` exactly where an earlier changing call failed at the disk, or a batch goes on.
    /// - `BadHeader` exactly where the bytes are no header: its first fault.
    /// - `NumbersSpent` exactly where the next number is 4294967295.
    /// - `GenerationSpent` exactly where the generation is 4294967295.
    /// - `StoreFull` exactly where the blob, or one in the way of its slot page, fits nowhere below 4 GiB.
    /// - `IndexFull`, where the index holds the rows, exactly where those after the change need more than 268435456
    ///   units.
    /// - `BadIndex` only where a chain of the index isn't well formed; never where the index holds the rows.
    ///
    /// `DiskFault` only where the disk's count of faults rose: the value is stopped then. `NoMemory` where the change
    /// finds no memory.
    pub fn add<D: Disk>(
        &mut self,
        alloc: Global,
        disk: &mut D,
        blob: &[u8],
    ) -> Result<u32, ChangeFault>
        requires indexed { is_indexed self.old ≡ true }
        requires serving { self.old.stopped ≡ false → IsTrue D.tells → IsServing (D.files disk.old) (images D.Disk disk.old) self.old }
        ensures causes { AddAnswer self.old blob.now result }
        ensures number { IfOk result (λ n. n ≡ next_package_number self.old) }
        ensures makes { (h : Header) → header blob.now ≡ Ok h → Makes D.Disk disk.old disk.new (Add h.blob) self.old self.new result }
        ensures left { IsLeft D.Disk disk.old disk.new self.old self.new (with_room (store_of self.new).spare self.old) result }
        ensures end { OnOk result (IsTrue D.tells → ReachesTo (store_of self.new) (D.files disk.old).pkg (D.files disk.new).pkg) }
        ensures bad { IsTrue D.tells → BadIndexIs [] (D.files disk.old).idx result }
        ensures reads { ReadsAtMost None (store_of self.old) (D.bytes_read disk.old Pkg) (D.bytes_read disk.new Pkg) }
        ensures runs { Runs D.Disk SameLog disk.old disk.new }
        ensures cause { DiskFault D.Disk (result ≡ Err ChangeFault.DiskFault) disk.old disk.new }
    {
        if self.is_stopped {
            return Err(ChangeFault::Stopped);
        }
        let view = View::parse(blob)?;
        self.add_view(alloc, disk, &view)
    }

    /// Puts a header in place of the package that a number has, Good or Bad. Bytes after the header aren't kept.
    ///
    /// Both files are planned first, and all memory is taken; of `Packages.db` the blocks of the old package are
    /// read, each once. Then the generation rises; the blob and its slot are written; then the rows that change; and
    /// then the seal. Verifying says of each other package what it said before, and of this one that its bytes are
    /// whole.
    ///
    /// Where each image at the start is lawful, a crash at any moment leaves a database that is lawful, with the old
    /// package or the new one.
    ///
    /// # Errors
    ///
    /// The first of these that holds:
    ///
    /// - `Stopped` exactly where an earlier changing call failed at the disk, or a batch goes on.
    /// - `BadHeader` exactly where the bytes are no header: its first fault.
    /// - `NoSuch` exactly where there is no package of this number.
    /// - `GenerationSpent` exactly where the generation is 4294967295.
    /// - `StoreFull` exactly where the blob, as it replaces the old one, fits nowhere below 4 GiB.
    /// - `IndexFull`, where the index holds the rows, exactly where those after the change need more than 268435456
    ///   units.
    /// - `BadIndex` only where a chain of the index isn't well formed, or unit 1 counts less than the rows that go; never
    ///   where the index holds the rows.
    ///
    /// `DiskFault` only where the disk's count of faults rose: the value is stopped then. `NoMemory` where the change
    /// finds no memory.
    pub fn put<D: Disk>(
        &mut self,
        alloc: Global,
        disk: &mut D,
        n: u32,
        blob: &[u8],
    ) -> Result<(), ChangeFault>
        requires indexed { is_indexed self.old ≡ true }
        requires serving { self.old.stopped ≡ false → IsTrue D.tells → IsServing (D.files disk.old) (images D.Disk disk.old) self.old }
        ensures causes { PutAnswer self.old n blob.now result }
        ensures makes { (h : Header) → header blob.now ≡ Ok h → Makes D.Disk disk.old disk.new (Put n h.blob) self.old self.new result }
        ensures left { IsLeft D.Disk disk.old disk.new self.old self.new (with_room (store_of self.new).spare self.old) result }
        ensures end { OnOk result (IsTrue D.tells → ReachesTo (store_of self.new) (D.files disk.old).pkg (D.files disk.new).pkg) }
        ensures bad { IsTrue D.tells → BadIndexIs (rows_at n (finite.get (packages_in D.Disk disk.old self.old) n))
            (D.files disk.old).idx result }
        ensures reads { D.bytes_read disk.new Pkg ≤ D.bytes_read disk.old Pkg + package_cost n self.old }
        ensures runs { Runs D.Disk SameLog disk.old disk.new }
        ensures cause { DiskFault D.Disk (result ≡ Err ChangeFault.DiskFault) disk.old disk.new }
    {
        if self.is_stopped {
            return Err(ChangeFault::Stopped);
        }
        let view = View::parse(blob)?;
        self.put_view(alloc, disk, n, &view)
    }

    /// Takes the package that a number has out, Good or Bad.
    ///
    /// The index is planned first, and all memory is taken; of `Packages.db` the blocks of the package are read, each
    /// once. Then the generation rises; the slot is set free and the blocks become zeros; then the rows are taken
    /// out; and then the seal is written. Verifying says of each other package what it said before.
    ///
    /// Where each image at the start is lawful, a crash at any moment leaves a database that is lawful, with the
    /// package or without it.
    ///
    /// # Errors
    ///
    /// The first of these that holds:
    ///
    /// - `Stopped` exactly where an earlier changing call failed at the disk, or a batch goes on.
    /// - `NoSuch` exactly where there is no package of this number.
    /// - `GenerationSpent` exactly where the generation is 4294967295.
    /// - `IndexFull`, where the index holds the rows, exactly where those after the change need more than 268435456
    ///   units.
    /// - `BadIndex` only where a chain of the index isn't well formed, or unit 1 counts less than the rows that go; never
    ///   where the index holds the rows.
    ///
    /// `DiskFault` only where the disk's count of faults rose: the value is stopped then. `NoMemory` where the change
    /// finds no memory.
    pub fn erase<D: Disk>(&mut self, alloc: Global, disk: &mut D, n: u32) -> Result<(), ChangeFault>
        requires indexed { is_indexed self.old ≡ true }
        requires serving { self.old.stopped ≡ false → IsTrue D.tells → IsServing (D.files disk.old) (images D.Disk disk.old) self.old }
        ensures causes { EraseAnswer self.old n result }
        ensures makes { Makes D.Disk disk.old disk.new (Erase n) self.old self.new result }
        ensures left { IsLeft D.Disk disk.old disk.new self.old self.new self.old result }
        ensures end { OnOk result (IsTrue D.tells → length (D.files disk.new).pkg ≤ length (D.files disk.old).pkg) }
        ensures bad { IsTrue D.tells → BadIndexIs (rows_at n (finite.get (packages_in D.Disk disk.old self.old) n))
            (D.files disk.old).idx result }
        ensures reads { D.bytes_read disk.new Pkg ≤ D.bytes_read disk.old Pkg + package_cost n self.old }
        ensures runs { Runs D.Disk SameLog disk.old disk.new }
        ensures cause { DiskFault D.Disk (result ≡ Err ChangeFault.DiskFault) disk.old disk.new }
    {
        if self.is_stopped {
            return Err(ChangeFault::Stopped);
        }
        if !self.store.holds(n) {
            return Err(ChangeFault::NoSuch);
        }
        self.change(alloc, disk, PackageChange::Erase(n))
    }

    /// Adds a header that was parsed under the next number, and answers it: what [`Db::add`] does of the header's own
    /// bytes, which aren't checked again. It writes and reads as much, and leaves as much after a crash.
    ///
    /// # Errors
    ///
    /// Those of [`Db::add`] but `BadHeader`, in the same order: `Stopped`, `NumbersSpent`, `GenerationSpent`,
    /// `StoreFull`, `IndexFull`, `BadIndex`. `DiskFault` only where the disk's count of faults rose: the value is
    /// stopped then. `NoMemory` where the change finds no memory.
    pub fn add_view<D: Disk>(
        &mut self,
        alloc: Global,
        disk: &mut D,
        view: &View<'_>,
    ) -> Result<u32, ChangeFault>
        requires indexed { is_indexed self.old ≡ true }
        requires serving { self.old.stopped ≡ false → IsTrue D.tells → IsServing (D.files disk.old) (images D.Disk disk.old) self.old }
        requires own { header view.now.blob ≡ Ok view.now }
        ensures causes { AddAnswer self.old view.now.blob result }
        ensures number { IfOk result (λ n. n ≡ next_package_number self.old) }
        ensures makes { Makes D.Disk disk.old disk.new (Add view.now.blob) self.old self.new result }
        ensures left { IsLeft D.Disk disk.old disk.new self.old self.new (with_room (store_of self.new).spare self.old) result }
        ensures end { OnOk result (IsTrue D.tells → ReachesTo (store_of self.new) (D.files disk.old).pkg (D.files disk.new).pkg) }
        ensures bad { IsTrue D.tells → BadIndexIs [] (D.files disk.old).idx result }
        ensures reads { ReadsAtMost None (store_of self.old) (D.bytes_read disk.old Pkg) (D.bytes_read disk.new Pkg) }
        ensures runs { Runs D.Disk SameLog disk.old disk.new }
        ensures cause { DiskFault D.Disk (result ≡ Err ChangeFault.DiskFault) disk.old disk.new }
    {
        if self.is_stopped {
            return Err(ChangeFault::Stopped);
        }
        let number = self.store.next_number();
        if number == u32::MAX {
            return Err(ChangeFault::NumbersSpent);
        }
        match self.change(alloc, disk, PackageChange::Put(None, view)) {
            Ok(()) => Ok(number),
            Err(fault) => Err(fault),
        }
    }

    /// Puts a header that was parsed in place of the package that a number has, Good or Bad: what [`Db::put`] does of
    /// the header's own bytes, which aren't checked again. It writes and reads as much, and leaves as much where the
    /// machine crashes.
    ///
    /// # Errors
    ///
    /// Those of [`Db::put`] but `BadHeader`, in the same order: `Stopped`, `NoSuch`, `GenerationSpent`, `StoreFull`,
    /// `IndexFull`, `BadIndex`. `DiskFault` only where the disk's count of faults rose: the value is stopped then.
    /// `NoMemory` where the change finds no memory.
    pub fn put_view<D: Disk>(
        &mut self,
        alloc: Global,
        disk: &mut D,
        n: u32,
        view: &View<'_>,
    ) -> Result<(), ChangeFault>
        requires indexed { is_indexed self.old ≡ true }
        requires serving { self.old.stopped ≡ false → IsTrue D.tells → IsServing (D.files disk.old) (images D.Disk disk.old) self.old }
        requires own { header view.now.blob ≡ Ok view.now }
        ensures causes { PutAnswer self.old n view.now.blob result }
        ensures makes { Makes D.Disk disk.old disk.new (Put n view.now.blob) self.old self.new result }
        ensures left { IsLeft D.Disk disk.old disk.new self.old self.new (with_room (store_of self.new).spare self.old) result }
        ensures end { OnOk result (IsTrue D.tells → ReachesTo (store_of self.new) (D.files disk.old).pkg (D.files disk.new).pkg) }
        ensures bad { IsTrue D.tells → BadIndexIs (rows_at n (finite.get (packages_in D.Disk disk.old self.old) n))
            (D.files disk.old).idx result }
        ensures reads { D.bytes_read disk.new Pkg ≤ D.bytes_read disk.old Pkg + package_cost n self.old }
        ensures runs { Runs D.Disk SameLog disk.old disk.new }
        ensures cause { DiskFault D.Disk (result ≡ Err ChangeFault.DiskFault) disk.old disk.new }
    {
        if self.is_stopped {
            return Err(ChangeFault::Stopped);
        }
        if !self.store.holds(n) {
            return Err(ChangeFault::NoSuch);
        }
        self.change(alloc, disk, PackageChange::Put(Some(n), view))
    }

    /// Changes both files as it is asked.
    fn change<D: Disk>(
        &mut self,
        alloc: Global,
        disk: &mut D,
        request: PackageChange<'_, '_>,
    ) -> Result<(), ChangeFault>
        requires ready { IsReady D.Disk disk.old self.old }
        requires takes { CanTake (number_asked request) (store_of self.old) }
        requires own { IsOwnHeader request }
        ensures later { LaterIs (generation_of self.old) (IsFullFor request.entry (store_of self.old)) result }
        ensures makes { Makes D.Disk disk.old disk.new (change_asked request.entry) self.old self.new result }
        ensures left { IsLeft D.Disk disk.old disk.new self.old self.new (refused_database request.entry (store_of self.new).spare self.old) result }
        ensures end { OnOk result (IsTrue D.tells → EndsAsked request.entry (store_of self.new) (D.files disk.old).pkg (D.files disk.new).pkg) }
        ensures bad { IsTrue D.tells → BadIndexIs (old_rows (number_asked request.entry) (packages_in D.Disk disk.old self.old)) (D.files disk.old).idx result }
        ensures reads { ReadsAtMost (number_asked request.entry) (store_of self.old) (D.bytes_read disk.old Pkg) (D.bytes_read disk.new Pkg) }
        ensures runs { Runs D.Disk SameLog disk.old disk.new }
        ensures cause { DiskFault D.Disk (result ≡ Err ChangeFault.DiskFault) disk.old disk.new }
    {
        let Some(index) = &mut self.index else {
            unreachable!()
        };
        match change_both(alloc, disk, &mut self.store, index, request) {
            Ok(()) => Ok(()),
            Err(fault) => {
                self.is_stopped = is_stopping(fault);
                Err(fault)
            }
        }
    }
}
