//! What is told of the packages that are left.

ghost use Rattle.std.specs.Prelude.{◌≡◌, ◌++◌, ◌<◌, IsTrue, OnOk, IfOk};
ghost use Rattle.rpm_exercise.specs.Prelude.{ExerciseQuestion, capability_line, capability_lines, HasKeptRows, IsAskable, packages_in, result_err, summary};

use crate::lines::{capability_name, push_count, push_digest};
use crate::survey::{count_provided, survey};
use rpm_db::Db;
use rpm_effects::Halt;
use rpm_outside::Disk;
use rpm_select::Selection;
use std::alloc::Global;

/// Appends how many packages provide a capability.
fn push_capability<D: Disk>(
    alloc: Global,
    db: &Db,
    disk: &mut D,
    text: &mut Vec<u8>,
    c: u32,
) -> Result<(), Halt>
    requires few { c < 7 }
    requires asked { IsAskable D.Disk disk.old db.now }
    ensures told { IsTrue D.tells → HasKeptRows D.Disk disk.old db.now
        → OnOk result (text.new.items ≡ text.old.items ++ capability_line (packages_in D.Disk disk.old db.now) c) }
    ensures asks { ExerciseQuestion D.Disk disk.old disk.new db.now (result_err result) }
{
    let name = capability_name(alloc, c)?;
    let count = count_provided(alloc, db, disk, &name)?;
    push_count(text, name.as_bytes(), count)?;
    Ok(())
}

/// Appends the lines of the seven capabilities.
fn push_capabilities<D: Disk>(
    alloc: Global,
    db: &Db,
    disk: &mut D,
    text: &mut Vec<u8>,
) -> Result<(), Halt>
    requires asked { IsAskable D.Disk disk.old db.now }
    ensures told { IsTrue D.tells → HasKeptRows D.Disk disk.old db.now
        → OnOk result (text.new.items ≡ text.old.items ++ capability_lines (packages_in D.Disk disk.old db.now)) }
    ensures asks { ExerciseQuestion D.Disk disk.old disk.new db.now (result_err result) }
{
    for c in 0..7u32 {
        push_capability(alloc, db, disk, text, c)?;
    }
    Ok(())
}

/// How many packages are left, how many provide each capability, and the digest of what an export would write.
pub fn summary<D: Disk>(alloc: Global, db: &Db, disk: &mut D) -> Result<Vec<u8>, Halt>
    requires asked { IsAskable D.Disk disk.old db.now }
    ensures told { IsTrue D.tells → HasKeptRows D.Disk disk.old db.now → IfOk result (λ text. text.items ≡ summary (packages_in D.Disk disk.old db.now)) }
    ensures asks { ExerciseQuestion D.Disk disk.old disk.new db.now (result_err result) }
{
    let mut text = Vec::new(alloc);
    let all = survey(alloc, db, disk, &Selection::All)?;
    push_count(&mut text, b"packages", all.count)?;
    push_capabilities(alloc, db, disk, &mut text)?;
    push_digest(alloc, &mut text, &all.digest)?;
    Ok(text)
}
