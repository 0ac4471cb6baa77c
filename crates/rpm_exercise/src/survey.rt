//! What is found of the packages that a question picks.

ghost use Rattle.std.specs.Prelude.{◌≡◌, ◌++◌, ℕ, List, IsTrue, Ok, IfOk};
ghost use Rattle.rpm_exercise.specs.Prelude.{ExerciseQuestion, capability, capability_named, entry_in, exported_bytes, HasKeptRows, Holds256, IsAskable, IsFound, packages_in, picked_count, result_err};
ghost use Rattle.rpm_select.specs.declared.selection.Selection.TheVariants as question;

use rpm_db::Db;
use rpm_effects::{Halt, halt_of_pick};
use rpm_header::MAGIC;
use rpm_outside::Disk;
use rpm_select::{Capability, Picked, Picker, Selection};
use sha2::{Digest, Sha256};
use std::alloc::Global;

/// What is found of a question: how many packages it picks, and the SHA-256 of what an export of these would write.
#[derive(Clone, Copy)]
pub struct Found {
    pub count: u32,
    pub digest: [u8; 32],
}

/// Feeds a package as it is exported.
fn feed(hasher: &mut Sha256, picked: &Picked)
    ensures { (m : List ℕ) → Holds256 hasher.old m → Holds256 hasher.new (m ++ exported_bytes (entry_in picked.now)) }
{
    match picked {
        Picked::Good { blob, .. } => {
            hasher.update(MAGIC.as_slice());
            hasher.update(blob.as_slice());
        }
        Picked::Bad { .. } => {}
    }
}

/// Goes through the packages that a question picks, one at a time: reads what the question reads.
pub fn survey<D: Disk>(
    alloc: Global,
    db: &Db,
    disk: &mut D,
    selection: &Selection<'_>,
) -> Result<Found, Halt>
    requires asked { IsAskable D.Disk disk.old db.now }
    ensures told { IsTrue D.tells → HasKeptRows D.Disk disk.old db.now → IfOk result (IsFound (packages_in D.Disk disk.old db.now) selection.now) }
    ensures asks { ExerciseQuestion D.Disk disk.old disk.new db.now (result_err result) }
{
    let mut picker = match Picker::new(alloc, db, disk, selection) {
        Ok(picker) => picker,
        Err(fault) => return Err(halt_of_pick(fault)),
    };
    let mut hasher = Sha256::new();
    let mut number = 0;
    let mut count = 0u32;
    loop {
        match picker.next_after(alloc, db, disk, selection, number) {
            Ok(Some(picked)) => {
                feed(&mut hasher, &picked);
                number = picked.into_number();
                count += 1;
            }
            Ok(None) => {
                let digest = hasher.finalize();
                return Ok(Found { count, digest });
            }
            Err(fault) => return Err(halt_of_pick(fault)),
        }
    }
}

/// How many packages provide a capability.
pub fn count_provided<D: Disk>(
    alloc: Global,
    db: &Db,
    disk: &mut D,
    name: &str,
) -> Result<u32, Halt>
    requires named { capability name.now ≡ Ok (capability_named name.now) }
    requires asked { IsAskable D.Disk disk.old db.now }
    ensures told { IsTrue D.tells → HasKeptRows D.Disk disk.old db.now
        → IfOk result (λ count. count ≡ picked_count (packages_in D.Disk disk.old db.now)
        (question.Provides (capability_named name.now))) }
    ensures asks { ExerciseQuestion D.Disk disk.old disk.new db.now (result_err result) }
{
    match Capability::read(name) {
        Ok(capability) => {
            let found = survey(alloc, db, disk, &Selection::Provides(capability))?;
            Ok(found.count)
        }
        Err(_) => unreachable!(),
    }
}
