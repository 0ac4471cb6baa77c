//! What is asked of one package, and what is planned before files change: the edit of the store, the rows that go and
//! come, and what becomes of the index.

ghost use Rattle.std.specs.Prelude.{◌≡◌, ◌+◌, ◌++◌, ◌≤◌, IsTrue, true, false, Err, OnOk, IfOk, IfErr};
ghost use Rattle.std.specs.FinMap as finite;
ghost use Rattle.rpm_db.specs.Prelude.{BadIndexIs, Balances, bytes_asked, CanTake, change_asked, cost_before, DiskFault, EndsAsked, FitsAsked, found_rows, FullIndexIs, Gathers, generation_of, HasRoomForRows, HasRows, Idx, IsEditPlanned, IsErasing, IsForeseen, IsFullFor, IsGathering, IsLeftSuspended, IsOfAside, IsOfIndex, IsOfReading, IsOfRoom, IsOwnHeader, IsIndexPlanned, IsWholeIndex, KeepsStore, LaterIs, nat_cmp, number_asked, number_for, old_rows, OnlyReads, OnlyReadsFile, owed_with, Package, packages, packages_in, Pkg, reach_with, ReadsAtMost, refused_database, refused_store, rows, Runs, SameFiles, SameLog, store_of, TakesRows, units_after, units_for, WholeCause, with_spare};
ghost use Rattle.rpm_hindex.specs.State as hindex;

use crate::batch::Batch;
use crate::change_fault::ChangeFault;
use crate::database::Db;
use crate::netting::{RowChange, copy_of, netted};
use crate::rows::{push_header, push_package};
use crate::writing::{Edit, change_store};
use rpm_header::View;
use rpm_hindex::{Hindex, IndexPlan, PrepareFault, RewriteFault, Rows};
use rpm_outside::Disk;
use rpm_pkgdb::{PkgDb, PlanFault};
use std::alloc::{AllocError, Global};

/// What is asked of one package: a header goes under a number that is there, or for `None` under the next one; or the
/// package of a number is taken out.
#[derive(Clone, Copy)]
pub enum PackageChange<'v, 'a> {
    Put(Option<u32>, &'v View<'a>),
    Erase(u32),
}

/// The bytes that are put.
pub fn bytes_of<'a>(request: PackageChange<'_, 'a>) -> &'a [u8]
    ensures { result.now ≡ bytes_asked request.entry }
{
    match request {
        PackageChange::Put(_, view) => view.blob(),
        PackageChange::Erase(_) => &[],
    }
}

/// Plans what is asked in the store. Takes all memory for it.
pub fn plan_edit(
    alloc: Global,
    store: &mut PkgDb,
    request: PackageChange<'_, '_>,
) -> Result<Edit, ChangeFault>
    requires made { 1 ≤ store.old.pages }
    requires takes { CanTake (number_asked request) store.old }
    ensures value { store.new ≡ with_spare store.new.spare store.old }
    ensures same { refused_store request.entry store.new.spare store.old ≡ store.new }
    ensures made { 1 ≤ store.new.pages }
    ensures later { LaterIs store.old.generation (IsFullFor request.entry store.old) result }
    ensures planned { IsEditPlanned request.entry store.old store.new result }
    ensures spent { result ≡ Err ChangeFault.GenerationSpent → store.new ≡ store.old }
    ensures kinds { IfErr result IsOfRoom }
    ensures aside { IfErr result (IsOfAside request.entry) }
{
    if store.generation() == u32::MAX {
        return Err(ChangeFault::GenerationSpent);
    }
    match request {
        PackageChange::Erase(n) => Ok(Edit::Erase(n)),
        PackageChange::Put(n, view) => match store.plan(alloc, n, view.blob().len() as u32) {
            Ok(plan) => Ok(Edit::Put(plan)),
            Err(PlanFault::StoreFull) => Err(ChangeFault::StoreFull),
            Err(PlanFault::NoMemory) => Err(ChangeFault::NoMemory),
            Err(PlanFault::NumbersSpent) => unreachable!(),
        },
    }
}

/// The number that a header goes under: this one, or the next one.
fn number_of(store: &PkgDb, n: Option<u32>) -> u32
    ensures { result ≡ number_for n store.now }
{
    match n {
        Some(m) => m,
        None => store.next_number(),
    }
}

/// Adds the rows of the package that a number has, none for a new number. Reads its blocks, each once.
fn push_before<D: Disk>(
    alloc: Global,
    disk: &mut D,
    store: &PkgDb,
    rows: &mut Rows,
    n: Option<u32>,
) -> Result<(), ChangeFault>
    requires keeps { IsTrue D.tells → KeepsStore (D.files disk.old).pkg store.now }
    ensures rows { OnOk result (IsTrue D.tells → rows.new ≡ rows.old ++ old_rows n (packages (D.files disk.old).pkg store.now)) }
    ensures kinds { IfErr result IsOfReading }
    ensures looks { OnlyReads D.Disk Pkg (cost_before n store.now) disk.old disk.new }
    ensures cause { DiskFault D.Disk (result ≡ Err ChangeFault.DiskFault) disk.old disk.new }
{
    match n {
        None => Ok(()),
        Some(m) => match push_package(alloc, disk, store, rows, m, Vec::new(alloc)) {
            Ok(_) => Ok(()),
            Err(RewriteFault::DiskFault) => Err(ChangeFault::DiskFault),
            Err(RewriteFault::NoMemory) => Err(ChangeFault::NoMemory),
            Err(RewriteFault::IndexFull { .. }) => unreachable!(),
        },
    }
}

/// Gathers the rows of the package that goes, and those of the header that comes. Reads the package's blocks, each once.
fn gather<D: Disk>(
    alloc: Global,
    disk: &mut D,
    store: &PkgDb,
    owed: &mut RowChange,
    request: PackageChange<'_, '_>,
) -> Result<(), ChangeFault>
    requires store { IsTrue D.tells → KeepsStore (D.files disk.old).pkg store.now }
    ensures gathered { OnOk result (IsTrue D.tells → owed.new ≡ owed_with request.entry (D.files disk.old).pkg store.now owed.old) }
    ensures kinds { IfErr result IsOfReading }
    ensures looks { OnlyReads D.Disk Pkg (cost_before (number_asked request.entry) store.now) disk.old disk.new }
    ensures cause { DiskFault D.Disk (result ≡ Err ChangeFault.DiskFault) disk.old disk.new }
{
    match request {
        PackageChange::Erase(n) => push_before(alloc, disk, store, &mut owed.drops, Some(n)),
        PackageChange::Put(n, view) => {
            match push_before(alloc, disk, store, &mut owed.drops, n) {
                Ok(()) => {}
                Err(fault) => return Err(fault),
            }
            match push_header(&mut owed.adds, view, number_of(store, n)) {
                Ok(()) => Ok(()),
                Err(AllocError) => Err(ChangeFault::NoMemory),
            }
        }
    }
}

/// Works out what becomes of the index with the rows that it is owed. Writes nothing, and takes all memory that this needs.
pub fn prepare_owed<D: Disk>(
    alloc: Global,
    disk: &mut D,
    index: &Hindex,
    owed: RowChange,
) -> Result<IndexPlan, ChangeFault>
    requires order { hindex.is_in_order index.now ≡ true }
    requires keeps { IsTrue D.tells → hindex.KeepsIndexValue (D.files disk.old).idx index.now }
    ensures plan { IfOk result (λ plan. IsIndexPlanned D.Disk disk.old index.now owed plan.work) }
    ensures full { IsTrue D.tells → (before after : finite.FinMap nat_cmp Package)
        → HasRows before (D.files disk.old).idx → Balances owed (rows before) (rows after)
        → FullIndexIs (units_for (rows after)) result }
    ensures grows { IfOk result (λ plan. IsTrue D.tells
        → units_after plan.work ≤ reach_with owed.adds (found_rows (D.files disk.old).idx) index.now.units) }
    ensures bad { IsTrue D.tells → BadIndexIs owed.drops (D.files disk.old).idx result }
    ensures kinds { IfErr result IsOfIndex }
    ensures looks { OnlyReadsFile D.Disk Idx disk.old disk.new }
    ensures cause { DiskFault D.Disk (result ≡ Err ChangeFault.DiskFault) disk.old disk.new }
{
    let Ok(net) = netted(alloc, owed) else {
        return Err(ChangeFault::NoMemory);
    };
    let RowChange { drops, adds } = net;
    match index.prepare_owned(alloc, disk, &drops, adds) {
        Ok(plan) => Ok(plan),
        Err(PrepareFault::IndexFull { needed }) => Err(ChangeFault::IndexFull { needed }),
        Err(PrepareFault::BadIndex { unit }) => Err(ChangeFault::BadIndex { unit }),
        Err(PrepareFault::DiskFault) => Err(ChangeFault::DiskFault),
        Err(PrepareFault::NoMemory) => Err(ChangeFault::NoMemory),
    }
}

/// The same change of rows once more.
fn change_of(alloc: Global, owed: &RowChange) -> Result<RowChange, AllocError>
    ensures { IfOk result (λ copy. copy ≡ record { drops = owed.now.drops; adds = owed.now.adds }) }
{
    let drops = copy_of(alloc, &owed.drops)?;
    let adds = copy_of(alloc, &owed.adds)?;
    Ok(RowChange { drops, adds })
}

/// Whether the index surely has room for what it is owed: rows only go, or its counts say so.
fn has_room(index: &Hindex, owed: &RowChange, request: PackageChange<'_, '_>) -> bool
    ensures erasing { IsErasing request.entry → result ≡ true }
    ensures room { result ≡ true → HasRoomForRows request.entry index.now owed.now }
{
    match request {
        PackageChange::Put(..) => index.has_room_for(&owed.adds),
        PackageChange::Erase(_) => true,
    }
}

/// Answers what becomes of the index with the rows that it is owed, where that is asked ahead; else whether it has room
/// for them, and only where its counts leave that open it is worked out, which reads the index.
fn foresee<D: Disk>(
    alloc: Global,
    disk: &mut D,
    index: &Hindex,
    owed: &RowChange,
    request: PackageChange<'_, '_>,
    ahead: bool,
) -> Result<Option<IndexPlan>, ChangeFault>
    requires order { hindex.is_in_order index.now ≡ true }
    requires keeps { IsTrue D.tells → hindex.KeepsIndexValue (D.files disk.old).idx index.now }
    ensures takes { TakesRows D.Disk disk.old owed.now (FitsAsked request.entry) result }
    ensures plan { IfOk result (IsForeseen D.Disk disk.old index.now owed.now ahead) }
    ensures kinds { IfErr result IsOfIndex }
    ensures aside { ahead ≡ false → IfErr result (IsOfAside request.entry) }
    ensures looks { OnlyReadsFile D.Disk Idx disk.old disk.new }
    ensures cause { DiskFault D.Disk (result ≡ Err ChangeFault.DiskFault) disk.old disk.new }
{
    let is_sure = has_room(index, owed, request);
    if is_sure && !ahead {
        return Ok(None);
    }
    let Ok(copy) = change_of(alloc, owed) else {
        return Err(ChangeFault::NoMemory);
    };
    match prepare_owed(alloc, disk, index, copy) {
        Ok(plan) => Ok(Some(plan)),
        Err(fault) => Err(fault),
    }
}

/// Gathers the rows that go and come, and answers what becomes of the index with them, at least where that is asked
/// ahead. Reads the blocks of the package that goes, each once.
pub fn gather_rows<D: Disk>(
    alloc: Global,
    disk: &mut D,
    store: &PkgDb,
    index: &Hindex,
    owed: &mut RowChange,
    request: PackageChange<'_, '_>,
    ahead: bool,
) -> Result<Option<IndexPlan>, ChangeFault>
    requires store { IsTrue D.tells → KeepsStore (D.files disk.old).pkg store.now }
    requires order { hindex.is_in_order index.now ≡ true }
    requires keeps { IsTrue D.tells → hindex.KeepsIndexValue (D.files disk.old).idx index.now }
    ensures gathered { OnOk result (IsTrue D.tells → owed.new ≡ owed_with request.entry (D.files disk.old).pkg store.now owed.old) }
    ensures takes { IsTrue D.tells → TakesRows D.Disk disk.old
        (owed_with request.entry (D.files disk.old).pkg store.now owed.old) (FitsAsked request.entry) result }
    ensures plan { IfOk result (IsForeseen D.Disk disk.old index.now (owed_with request.entry (D.files disk.old).pkg store.now owed.old) ahead) }
    ensures kinds { IfErr result IsOfIndex }
    ensures aside { ahead ≡ false → IfErr result (IsOfAside request.entry) }
    ensures moment { D.moment disk.new ≡ D.moment disk.old }
    ensures reads { D.bytes_read disk.new Pkg ≤ D.bytes_read disk.old Pkg + cost_before (number_asked request.entry) store.now }
    ensures runs { Runs D.Disk SameFiles disk.old disk.new }
    ensures cause { DiskFault D.Disk (result ≡ Err ChangeFault.DiskFault) disk.old disk.new }
{
    match gather(alloc, disk, store, owed, request) {
        Ok(()) => {}
        Err(fault) => return Err(fault),
    }
    foresee(alloc, disk, index, owed, request, ahead)
}

impl Batch {
    /// Changes the store as it is asked, and gathers the rows that change with it.
    pub(crate) fn change<D: Disk>(
        &mut self,
        alloc: Global,
        db: &mut Db,
        disk: &mut D,
        request: PackageChange<'_, '_>,
    ) -> Result<(), ChangeFault>
        requires gathering { IsGathering D.Disk disk.old db.old self.old }
        requires takes { CanTake (number_asked request) (store_of db.old) }
        requires own { IsOwnHeader request }
        ensures later { LaterIs (generation_of db.old) (IsFullFor request.entry (store_of db.old)) result }
        ensures gathers { Gathers D.Disk disk.old disk.new (change_asked request.entry) db.old db.new self.old self.new result }
        ensures whole { IsTrue D.tells → IsWholeIndex (D.files disk.old).idx → IfErr result WholeCause }
        ensures aside { IfErr result (IsOfAside request.entry) }
        ensures spent { result ≡ Err ChangeFault.GenerationSpent → (disk.new ≡ disk.old) × (db.new ≡ db.old) × (self.new ≡ self.old) }
        ensures left { IsLeftSuspended D.Disk disk.old disk.new db.new (refused_database request.entry (store_of db.new).spare db.old)
            (self.old.drops ++ old_rows (number_asked request.entry) (packages_in D.Disk disk.old db.old)) result }
        ensures index { IsTrue D.tells → (D.files disk.new).idx ≡ (D.files disk.old).idx }
        ensures end { OnOk result (IsTrue D.tells → EndsAsked request.entry (store_of db.new) (D.files disk.old).pkg (D.files disk.new).pkg) }
        ensures reads { ReadsAtMost (number_asked request.entry) (store_of db.old) (D.bytes_read disk.old Pkg) (D.bytes_read disk.new Pkg) }
        ensures runs { Runs D.Disk SameLog disk.old disk.new }
        ensures cause { DiskFault D.Disk (result ≡ Err ChangeFault.DiskFault) disk.old disk.new }
    {
        let Some(index) = &db.index else {
            unreachable!()
        };
        match change_store(
            alloc,
            disk,
            &mut db.store,
            index,
            &mut self.owed,
            request,
            false,
        ) {
            Ok(_) => {}
            Err(fault) => return Err(fault),
        }
        Ok(())
    }
}
