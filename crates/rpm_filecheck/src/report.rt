//! The report of all conflicts.

ghost use Rattle.std.specs.Prelude.{◌≡◌, ◌<◌, [], IsTrue, false, Some, IfOk, length, slice_get, unwrap_or};
ghost use Rattle.rpm_filecheck.specs.Prelude.{FileQuestion, packages_cost, IsReport, IsStoreKept, packages_in, told_label};
ghost use Rattle.rpm_filecheck.specs.Conflicts as model;

use crate::conflict::Conflict;
use crate::fault::FileCheckFault;
use crate::found::Found;
use crate::gathering::gather;
use crate::labels::Labels;
use rpm_db::Db;
use rpm_outside::Disk;
use std::alloc::Global;
use std::marker::Model;

/// The conflicts of all packages, by path, then by the lesser number, then by the greater one; the numbers of the
/// packages that can't be read; and the labels of the others.
#[derive(Drop)]
pub struct ConflictList {
    conflicts: Vec<Conflict>,
    bad: Vec<u32>,
    labels: Labels,
}

impl Model for ConflictList {
    ghost Value = { model.Report };

    ghost view = { λ s. record { conflicts = s.conflicts.items; bad = s.bad.items; labels = s.labels } };
}

impl ConflictList {
    /// How many conflicts there are.
    pub fn len(&self) -> usize
        ensures { result ≡ length self.now.conflicts }
    {
        self.conflicts.len()
    }

    /// The conflict at a place, from 0.
    pub fn at(&self, i: usize) -> &Conflict
        requires { i < length self.now.conflicts }
        ensures { slice_get self.now.conflicts i ≡ Some result.now }
    {
        &self.conflicts[i]
    }

    /// The numbers of the packages that can't be read, rising.
    pub fn bad(&self) -> &[u32]
        ensures { result.now ≡ self.now.bad }
    {
        &self.bad
    }

    /// The label of a number, as the format `%{NVRA}` prints it. Of a number whose package can't be read or isn't
    /// there, which stands in no conflict, it is empty.
    pub fn label(&self, number: u32) -> &[u8]
        ensures { result.now ≡ unwrap_or (told_label self.now number) [] }
    {
        self.labels.get(number)
    }
}

/// The paths that several packages own and that differ: in the mode, in the digest or in what they link to. Two
/// directories may share a path, and so may a ghost with any other. Of a path that a package has twice its first
/// place counts.
///
/// Reads the blocks of each package, once. Takes memory for each path once and for what each package says of it, and
/// n log n steps in the files, besides one for every two owners of a path of which they neither all say the same nor
/// all are directories: each two may be one of the list. Paths with many owners are mostly directories.
///
/// # Errors
///
/// - `DiskFault` only where the disk's count of faults rose.
/// - `NoMemory` where a package or what it says finds no memory.
pub fn conflicts<D: Disk>(
    alloc: Global,
    db: &Db,
    disk: &mut D,
) -> Result<ConflictList, FileCheckFault>
    requires keeps { IsStoreKept D.Disk disk.old db.now }
    requires runs { db.now.stopped ≡ false }
    ensures told { IfOk result (λ report. IsTrue D.tells → IsReport (packages_in D.Disk disk.old db.now) report) }
    ensures asks { FileQuestion D.Disk (packages_cost db.now) disk.old disk.new db.now result }
{
    let found = gather(alloc, db, disk)?;
    let Found { owned, labels, bad } = found;
    let conflicts = owned.conflicts(alloc)?;
    Ok(ConflictList {
        conflicts,
        bad,
        labels,
    })
}
