//! Writing a change: the store after a raise of its generation, and then the index.

ghost use Rattle.std.specs.Prelude.{◌≡◌, ℕ, ◌+◌, ◌<◌, ◌≤◌, ◌^◌, IsTrue, true, false, Err, OnOk, OnErr, IfOk, IfErr};
ghost use Rattle.std.specs.FinMap as finite;
ghost use Rattle.rpm_db.specs.Prelude.{Anything, AreLawful, AreOfRows, BadIndexIs, Balances, blobs, blobs_asked, BlobsTo, CanApply, CanChange, CanEdit, CanFill, CanPutAside, CanTake, change_asked, CrashLeaves, DiskFault, edit_cost, edited_blobs, edited_number, EditReaches, EditsTo, EndsAsked, field_edited, field_for, FitsAsked, FullCause, HasEdit, HasRows, Idx, images, IndexIs, IndexTo, IsApplied, IsChangedStill, IsDone, IsEdited, IsFilled, IsForeseen, IsFullFor, IsLawfulStill, IsOfAside, IsOfIndex, IsOwnHeader, IsPutAside, IsQuiet, IsRefusal, IsStoreWritten, IsTornOnly, IsWholeIndex, KeepsSums, LaterIs, live_of, nat_cmp, next_store, number_asked, number_for, old_rows, owed_with, Package, packages, packages_of, Pkg, raised_store, ReadsAtMost, refused_store, RoomIs, rows, rows_asked, Runs, RunsOr, SameFiles, SameLog, state, state_of, StaysWhole, Suits, TakesRows, units_for, Writes};
ghost use Rattle.rpm_outside.specs.Frame.{WritesOr};
ghost use Rattle.rpm_pkgdb.specs.Frame as pkgdb;
ghost use Rattle.rpm_db.specs.inner.Both.{IsBothRefused};
ghost use Rattle.rpm_hindex.specs.State as hindex;

use crate::change_fault::ChangeFault;
use crate::netting::RowChange;
use crate::planning::{PackageChange, bytes_of, gather_rows, plan_edit, prepare_owed};
use rpm_hindex::{Hindex, IndexDiskFault, IndexPlan};
use rpm_outside::Disk;
use rpm_pkgdb::{DiskFault as StoreDiskFault, PkgDb, Plan};
use std::alloc::Global;

/// What becomes of a store: a planned blob is put, or the package of a number is erased.
#[derive(Drop)]
pub enum Edit {
    Put(Plan),
    Erase(u32),
}

/// Puts a planned blob into the store, or erases the package of a number.
///
/// # Errors
///
/// `DiskFault` where the disk failed. The store has as many pages as before.
fn edit_store<D: Disk>(
    disk: &mut D,
    store: &mut PkgDb,
    edit: Edit,
    blob: &[u8],
) -> Result<(), StoreDiskFault>
    requires ready { pkgdb.IsWritable D.Disk disk.old store.old }
    requires suits { Suits edit blob.now store.old }
    requires generation { store.old.generation < 2 ^ 32 }
    ensures edit { OnOk result (HasEdit edit store.old store.new) }
    ensures err { OnErr result (store.new.pages ≡ store.old.pages) }
    ensures edited { OnOk result (IsTrue D.tells → IsEdited D.Disk disk.old disk.new store.old store.new edit blob.now) }
    ensures crashes { IsTrue D.tells → IsQuiet store.old (D.files disk.old) (images D.Disk disk.old)
        → CrashLeaves D.Disk disk.old disk.new (IsTornOnly Pkg (EditsTo store.old edit blob.now (D.files disk.old).pkg)
        (images D.Disk disk.old)) }
    ensures writes { Writes D.Disk Pkg Anything (edit_cost edit store.old) result disk.old disk.new }
{
    match edit {
        Edit::Put(plan) => match store.put(disk, plan, blob) {
            Ok(_) => Ok(()),
            Err(StoreDiskFault) => Err(StoreDiskFault),
        },
        Edit::Erase(n) => store.erase(disk, n),
    }
}

/// Raises the generation of the store, and then puts a planned blob or erases the package of a number.
///
/// # Errors
///
/// `DiskFault` where the disk failed. The store has as many pages as before.
pub fn edit_raised<D: Disk>(
    disk: &mut D,
    store: &mut PkgDb,
    edit: Edit,
    blob: &[u8],
) -> Result<(), StoreDiskFault>
    requires ready { pkgdb.IsWritable D.Disk disk.old store.old }
    requires can { CanEdit edit blob.now store.old }
    ensures edit { OnOk result (HasEdit edit (raised_store store.old) store.new) }
    ensures err { OnErr result (store.new.pages ≡ store.old.pages) }
    ensures stored { OnOk result (IsStoreWritten D.Disk disk.new store.new (edited_blobs edit blob.now (blobs (D.files disk.old).pkg store.old))) }
    ensures images { IsTrue D.tells → IsQuiet store.old (D.files disk.old) (images D.Disk disk.old)
        → CrashLeaves D.Disk disk.old disk.new (IsTornOnly Pkg (BlobsTo store.old.generation store.old.field
        (field_edited edit store.old.field) (blobs (D.files disk.old).pkg store.old)
        (edited_blobs edit blob.now (blobs (D.files disk.old).pkg store.old))) (images D.Disk disk.old)) }
    ensures sums { OnOk result (IsTrue D.tells → KeepsSums (edited_number edit) (D.files disk.old).pkg (D.files disk.new).pkg store.old store.new) }
    ensures end { OnOk result (IsTrue D.tells → EditReaches edit store.new (D.files disk.old).pkg (D.files disk.new).pkg) }
    ensures writes { Writes D.Disk Pkg Anything (edit_cost edit store.old) result disk.old disk.new }
{
    match store.raise(disk) {
        Ok(()) => edit_store(disk, store, edit, blob),
        Err(StoreDiskFault) => Err(StoreDiskFault),
    }
}

/// Writes a change of the index, and seals it once it is durable.
fn apply_sealed<D: Disk>(
    disk: &mut D,
    index: &mut Hindex,
    plan: IndexPlan,
    generation: u32,
) -> Result<(), IndexDiskFault>
    requires change { CanApply index.old.units plan.work }
    requires keeps { IsTrue D.tells → hindex.KeepsIndexValue (D.files disk.old).idx index.old }
    ensures applied { OnOk result (IsApplied D.Disk disk.old disk.new index.old index.new generation plan.work) }
    ensures writes { Writes D.Disk Idx (IndexTo generation plan.work (D.files disk.old).idx) 0 result disk.old disk.new }
{
    let Ok(()) = index.apply(disk, plan) else {
        return Err(IndexDiskFault);
    };
    index.seal(disk, generation)
}

/// Writes a change of the index, and seals it once it is durable.
///
/// # Errors
///
/// `ChangeFault::DiskFault` where the disk failed.
pub fn write_rows<D: Disk>(
    disk: &mut D,
    index: &mut Hindex,
    plan: IndexPlan,
    generation: u32,
) -> Result<(), ChangeFault>
    requires change { CanApply index.old.units plan.work }
    requires keeps { IsTrue D.tells → hindex.KeepsIndexValue (D.files disk.old).idx index.old }
    ensures applied { OnOk result (IsApplied D.Disk disk.old disk.new index.old index.new generation plan.work) }
    ensures kind { IfErr result (λ e. e ≡ ChangeFault.DiskFault) }
    ensures writes { WritesOr D.Disk Idx (IndexTo generation plan.work (D.files disk.old).idx) 0
        (result ≡ Err ChangeFault.DiskFault) disk.old disk.new }
{
    match apply_sealed(disk, index, plan, generation) {
        Ok(()) => Ok(()),
        Err(IndexDiskFault) => Err(ChangeFault::DiskFault),
    }
}

/// Changes the store alone, under a raised generation, and gathers the rows that change with it. Answers what becomes of
/// the index with the rows that it is owed then, at least where that is asked ahead.
pub fn change_store<D: Disk>(
    alloc: Global,
    disk: &mut D,
    store: &mut PkgDb,
    index: &Hindex,
    owed: &mut RowChange,
    request: PackageChange<'_, '_>,
    ahead: bool,
) -> Result<Option<IndexPlan>, ChangeFault>
    requires ready { CanPutAside D.Disk disk.old store.old }
    requires takes { CanTake (number_asked request) store.old }
    requires order { hindex.is_in_order index.now ≡ true }
    requires units { IsTrue D.tells → hindex.KeepsIndexValue (D.files disk.old).idx index.now }
    ensures later { LaterIs store.old.generation (IsFullFor request.entry store.old) result }
    ensures room { RoomIs (next_store (change_asked request.entry) store.old) store.old store.new result }
    ensures made { 1 ≤ store.new.pages }
    ensures done { OnOk result (IsPutAside D.Disk disk.new store.old store.new
        (blobs_asked request.entry (D.files disk.old).pkg store.old) (field_for (number_asked request.entry) store.old)) }
    ensures sums { OnOk result (IsTrue D.tells → KeepsSums (number_for (number_asked request.entry) store.old)
        (D.files disk.old).pkg (D.files disk.new).pkg store.old store.new) }
    ensures gathered { OnOk result (IsTrue D.tells → owed.new ≡ owed_with request.entry (D.files disk.old).pkg store.old owed.old) }
    ensures takes { IsTrue D.tells → TakesRows D.Disk disk.old
        (owed_with request.entry (D.files disk.old).pkg store.old owed.old) (FitsAsked request.entry) result }
    ensures plan { IfOk result (IsForeseen D.Disk disk.old index.now (owed_with request.entry (D.files disk.old).pkg store.old owed.old) ahead) }
    ensures aside { ahead ≡ false → IfErr result (IsOfAside request.entry) }
    ensures end { OnOk result (IsTrue D.tells → EndsAsked request.entry store.new (D.files disk.old).pkg (D.files disk.new).pkg) }
    ensures index { IsTrue D.tells → (D.files disk.new).idx ≡ (D.files disk.old).idx }
    ensures spent { result ≡ Err ChangeFault.GenerationSpent → (disk.new ≡ disk.old) × (store.new ≡ store.old) × (owed.new ≡ owed.old) }
    ensures refused { IfErr result (λ e. IsRefusal e → (store.new ≡ refused_store request.entry store.new.spare store.old)
        × Runs D.Disk SameFiles disk.old disk.new × (D.moment disk.new ≡ D.moment disk.old)) }
    ensures crashes { IsTrue D.tells → AreLawful (images D.Disk disk.old)
        → CrashLeaves D.Disk disk.old disk.new (IsChangedStill (state (D.files disk.old).pkg store.old)
        (state_of (blobs_asked request.entry (D.files disk.old).pkg store.old) (field_for (number_asked request.entry) store.old))
        (images D.Disk disk.old)) }
    ensures reads { ReadsAtMost (number_asked request.entry) store.old (D.bytes_read disk.old Pkg) (D.bytes_read disk.new Pkg) }
    ensures runs { RunsOr D.Disk SameLog (result ≡ Err ChangeFault.DiskFault) disk.old disk.new }
{
    let edit = match plan_edit(alloc, store, request) {
        Ok(edit) => edit,
        Err(fault) => return Err(fault),
    };
    let rows = match gather_rows(alloc, disk, store, index, owed, request, ahead) {
        Ok(rows) => rows,
        Err(fault) => return Err(fault),
    };
    match edit_raised(disk, store, edit, bytes_of(request)) {
        Ok(()) => Ok(rows),
        Err(_) => Err(ChangeFault::DiskFault),
    }
}

/// Changes both files: the store, once it is worked out what becomes of the index; and then the index, which is sealed at
/// the store's generation once it is durable.
///
/// Until the seal is written the index is that of an earlier generation, or has none.
pub fn change_both<D: Disk>(
    alloc: Global,
    disk: &mut D,
    store: &mut PkgDb,
    index: &mut Hindex,
    request: PackageChange<'_, '_>,
) -> Result<(), ChangeFault>
    requires ready { CanChange D.Disk disk.old store.old index.old }
    requires takes { CanTake (number_asked request) store.old }
    requires own { IsOwnHeader request }
    ensures later { LaterIs store.old.generation (IsFullFor request.entry store.old) result }
    ensures room { RoomIs (next_store (change_asked request.entry) store.old) store.old store.new result }
    ensures made { 1 ≤ store.new.pages }
    ensures done { OnOk result (IsDone D.Disk disk.old disk.new store.old store.new index.new
        (blobs_asked request.entry (D.files disk.old).pkg store.old) (field_for (number_asked request.entry) store.old)
        (index.old.units + live_of (rows_asked request.entry store.old))) }
    ensures sums { OnOk result (IsTrue D.tells → KeepsSums (number_for (number_asked request.entry) store.old)
        (D.files disk.old).pkg (D.files disk.new).pkg store.old store.new) }
    ensures index { IndexIs D.Disk disk.old (packages (D.files disk.old).pkg store.old)
        (old_rows (number_asked request.entry) (packages (D.files disk.old).pkg store.old))
        (units_for (rows (packages_of (blobs_asked request.entry (D.files disk.old).pkg store.old)))) result }
    ensures end { OnOk result (IsTrue D.tells → EndsAsked request.entry store.new (D.files disk.old).pkg (D.files disk.new).pkg) }
    ensures refused { IfErr result (λ e. IsRefusal e
        → IsBothRefused D.Disk disk.old disk.new (refused_store request.entry store.new.spare store.old) store.new index.old index.new) }
    ensures crashes { IsTrue D.tells → AreLawful (images D.Disk disk.old)
        → HasRows (packages (D.files disk.old).pkg store.old) (D.files disk.old).idx
        → CrashLeaves D.Disk disk.old disk.new (IsChangedStill (state (D.files disk.old).pkg store.old)
        (state_of (blobs_asked request.entry (D.files disk.old).pkg store.old) (field_for (number_asked request.entry) store.old))
        (images D.Disk disk.old)) }
    ensures reads { ReadsAtMost (number_asked request.entry) store.old (D.bytes_read disk.old Pkg) (D.bytes_read disk.new Pkg) }
    ensures runs { RunsOr D.Disk SameLog (result ≡ Err ChangeFault.DiskFault) disk.old disk.new }
{
    let mut owed = RowChange::none(alloc);
    let plan = match change_store(alloc, disk, store, index, &mut owed, request, true) {
        Ok(Some(plan)) => plan,
        Ok(None) => unreachable!(),
        Err(fault) => return Err(fault),
    };
    write_rows(disk, index, plan, store.generation())
}

/// Puts what the index is owed into it, and seals it at this generation. Where it is sealed there nothing is written.
pub fn fill_index<D: Disk>(
    alloc: Global,
    disk: &mut D,
    index: &mut Hindex,
    owed: RowChange,
    generation: u32,
) -> Result<(), ChangeFault>
    requires ready { CanFill D.Disk disk.old index.old generation owed }
    ensures filled { OnOk result (IsFilled D.Disk disk.old disk.new index.old index.new generation owed) }
    ensures full { IfErr result (λ e. (hindex.sealed_generation index.old.first ≡ generation → ⊥) × (IsTrue D.tells
        → (before after : finite.FinMap nat_cmp Package) → HasRows before (D.files disk.old).idx
        → Balances owed (rows before) (rows after) → FullCause (units_for (rows after)) e)) }
    ensures whole { IsTrue D.tells → IsWholeIndex (D.files disk.old).idx → StaysWhole (D.files disk.new).idx result }
    ensures kinds { IfErr result IsOfIndex }
    ensures unwritten { hindex.sealed_generation index.old.first ≡ generation → disk.new ≡ disk.old }
    ensures store { IsTrue D.tells → (D.files disk.new).pkg ≡ (D.files disk.old).pkg }
    ensures refused { IfErr result (λ e. IsRefusal e → (index.new ≡ index.old)
        × Runs D.Disk SameFiles disk.old disk.new × (D.moment disk.new ≡ D.moment disk.old)) }
    ensures bad { IsTrue D.tells → BadIndexIs owed.drops (D.files disk.old).idx result }
    ensures crashes { IsTrue D.tells → AreLawful (images D.Disk disk.old) → (before after : finite.FinMap nat_cmp Package)
        → HasRows before (D.files disk.old).idx → Balances owed (rows before) (rows after)
        → AreOfRows generation after (images D.Disk disk.old)
        → CrashLeaves D.Disk disk.old disk.new (IsLawfulStill (images D.Disk disk.old)) }
    ensures runs { Runs D.Disk SameLog disk.old disk.new }
    ensures cause { DiskFault D.Disk (result ≡ Err ChangeFault.DiskFault) disk.old disk.new }
{
    if index.is_current(generation) {
        return Ok(());
    }
    let plan = match prepare_owed(alloc, disk, index, owed) {
        Ok(plan) => plan,
        Err(fault) => return Err(fault),
    };
    write_rows(disk, index, plan, generation)
}
