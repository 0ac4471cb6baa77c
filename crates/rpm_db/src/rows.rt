//! The rows of packages for the index.

ghost use Rattle.std.specs.Prelude.{◌≡◌, ℕ, ◌++◌, ◌∷◌, [], IsTrue, Err, OnOk, IfOk, IfErr};
ghost use Rattle.std.specs.FinMap as finite;
ghost use Rattle.rpm_db.specs.Prelude.{code_of, cost_all, DiskFault, header, header_rows, IsOutsideRebuild, KeepsStore, kind_rows, OnlyReads, packages, Pkg, rows, rows_at, rows_read};
ghost use Rattle.rpm_pkgdb.specs.Costs.{cost};

use rpm_header::View;
use rpm_hindex::{RewriteFault, Rows};
use rpm_outside::Disk;
use rpm_pkgdb::{GetFault, PkgDb};
use rpm_tags::{Kind, keys};
use std::alloc::{AllocError, Global};

// All kinds, by their codes.
const KINDS: [Kind; 11] = [
    Kind::Name,
    Kind::Basenames,
    Kind::Group,
    Kind::Providename,
    Kind::Requirename,
    Kind::Conflictname,
    Kind::Obsoletename,
    Kind::Triggername,
    Kind::Dirnames,
    Kind::Installtid,
    Kind::Recommendname,
];

/// Adds the row of a key. No header has a key of 256 MiB: it answers as if there were no memory for one.
fn push_key(
    rows: &mut Rows,
    kind: Kind,
    key: &[u8],
    number: u32,
    place: u32,
) -> Result<(), AllocError>
    ensures { OnOk result (rows.new ≡ rows.old ++ record { kind = code_of kind; key = key.now; number = number; place = place } ∷ []) }
{
    if key.len() >= 268_435_456 {
        return Err(AllocError);
    }
    rows.push(kind.code(), key, number, place)
}

/// Adds the rows of a header's keys of one kind.
fn push_kind(rows: &mut Rows, view: &View<'_>, kind: Kind, number: u32) -> Result<(), AllocError>
    ensures { OnOk result (rows.new ≡ rows.old ++ kind_rows number view.now kind) }
{
    for (key, place) in keys(kind, view) {
        push_key(rows, kind, key.bytes(), number, place)?;
    }
    Ok(())
}

/// Adds the rows of a header.
pub fn push_header(rows: &mut Rows, view: &View<'_>, number: u32) -> Result<(), AllocError>
    ensures { OnOk result (rows.new ≡ rows.old ++ header_rows number view.now) }
{
    for kind in KINDS {
        push_kind(rows, view, kind, number)?;
    }
    Ok(())
}

/// Adds the rows of a blob: none where it is no header.
fn push_blob(rows: &mut Rows, blob: &[u8], number: u32) -> Result<(), AllocError>
    ensures { OnOk result (rows.new ≡ rows.old ++ rows_read number (header blob.now)) }
{
    match View::parse(blob) {
        Err(_) => Ok(()),
        Ok(view) => push_header(rows, &view, number),
    }
}

/// Adds the rows of a number's package. Reads its blocks, each once, into a vector of the caller's, and gives one
/// that can be read into again.
pub fn push_package<D: Disk>(
    alloc: Global,
    disk: &mut D,
    store: &PkgDb,
    rows: &mut Rows,
    number: u32,
    room: Vec<u8>,
) -> Result<Vec<u8>, RewriteFault>
    requires keeps { IsTrue D.tells → KeepsStore (D.files disk.old).pkg store.now }
    ensures kept { IsTrue D.tells → KeepsStore (D.files disk.new).pkg store.now }
    ensures rows { OnOk result (IsTrue D.tells → rows.new ≡ rows.old ++ rows_at number
        (finite.get (packages (D.files disk.old).pkg store.now) number)) }
    ensures room { IfErr result IsOutsideRebuild }
    ensures looks { OnlyReads D.Disk Pkg (cost number store.now) disk.old disk.new }
    ensures cause { DiskFault D.Disk (result ≡ Err RewriteFault.DiskFault) disk.old disk.new }
{
    match store.get_in(disk, number, room) {
        Err(GetFault::NoSuch) => Ok(Vec::new(alloc)),
        Err(GetFault::Bad) => Ok(Vec::new(alloc)),
        Err(GetFault::DiskFault) => Err(RewriteFault::DiskFault),
        Err(GetFault::NoMemory) => Err(RewriteFault::NoMemory),
        Ok(blob) => match push_blob(rows, &blob, number) {
            Ok(()) => Ok(blob),
            Err(_) => Err(RewriteFault::NoMemory),
        },
    }
}

/// The rows of all packages. Reads the blocks of each once.
pub fn rows_of<D: Disk>(alloc: Global, disk: &mut D, store: &PkgDb) -> Result<Rows, RewriteFault>
    requires keeps { IsTrue D.tells → KeepsStore (D.files disk.old).pkg store.now }
    ensures kept { IsTrue D.tells → KeepsStore (D.files disk.new).pkg store.now }
    ensures rows { IfOk result (λ all. IsTrue D.tells → all ≡ rows (packages (D.files disk.old).pkg store.now)) }
    ensures room { IfErr result IsOutsideRebuild }
    ensures looks { OnlyReads D.Disk Pkg (cost_all store.now) disk.old disk.new }
    ensures cause { DiskFault D.Disk (result ≡ Err RewriteFault.DiskFault) disk.old disk.new }
{
    let mut rows = Rows::new(alloc);
    let mut room = Vec::new(alloc);
    let mut passed = 0;
    while let Some(number) = store.next_above(passed) {
        room = push_package(alloc, disk, store, &mut rows, number, room)?;
        passed = number;
    }
    Ok(rows)
}
