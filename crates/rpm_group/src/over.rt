//! Reading what is held over what a disk has.

ghost use Rattle.std.specs.Prelude.{◌≡◌, ℕ, ◌+◌, ◌-◌, ◌*◌, ◌/◌, ◌%◌, ◌<◌, ◌≤◌, ◌^◌, IsTrue, length, take, drop, OnOk, IfOk, false};
ghost use Rattle.rpm_group.specs.Prelude.{bytes_for, CountsRead, file_of, Files, is_held, laid_files, ReadsOnly, ReadsOver, RoseBy, unit_at, unit_in, Units, units_of, IsUntouched};

use crate::layers::Layers;
use crate::pages::Pages;
use crate::spared::Spared;
use crate::table::lay;
use rpm_outside::{Disk, Failed, File};

/// Reads units, or none.
fn read_some<D: Disk>(below: &mut D, file: File, unit: u64, into: &mut [u8]) -> Result<(), Failed>
    requires whole { length into.old % 16 ≡ 0 }
    requires within { IsTrue D.tells → 0 < length into.old → unit + length into.old / 16 ≤ length (file_of file (D.files below.old)) }
    ensures units { OnOk result (IsTrue D.tells → units_of into.new ≡ take (length into.old / 16) (drop unit (file_of file (D.files below.old)))) }
    ensures counts { (f : File) → RoseBy (D.bytes_read below.old f) (bytes_for file f (length into.old)) (D.bytes_read below.new f) }
    ensures reads { ReadsOnly D.Disk file (length into.old) result below.old below.new }
{
    if into.is_empty() {
        return Ok(());
    }
    below.read_at(file, unit, into)
}

/// Reads units below, which are zeros past the end. A function of its own, so that a read of a file of which nothing
/// is held stays short.
#[inline(never)]
fn read_below<D: Disk>(
    below: &mut D,
    spared: &mut Spared,
    file: File,
    unit: u64,
    end: u64,
    into: &mut [u8],
) -> Result<(), Failed>
    requires whole { length into.old % 16 ≡ 0 }
    requires end { IsTrue D.tells → end ≡ length (file_of file (D.files below.old)) }
    ensures units { OnOk result (IsTrue D.tells → (k : ℕ) → k < length into.old / 16
        → unit_in into.new k ≡ unit_at (file_of file (D.files below.old)) (unit + k)) }
    ensures counts { CountsRead D.Disk file (length into.old) below.old below.new spared.old spared.new }
    ensures reads { ReadsOnly D.Disk file (length into.old) result below.old below.new }
{
    let there = end.saturating_sub(unit).min(into.len() as u64 / 16) as usize;
    spared.add(file, into.len() - 16 * there);
    into[16 * there..].fill(0);
    read_some(below, file, unit, &mut into[..16 * there])
}

/// Reads units of which some aren't held, over those below.
fn read_partly<D: Disk>(
    layers: &Layers,
    below: &mut D,
    spared: &mut Spared,
    file: File,
    unit: u64,
    into: &mut [u8],
) -> Result<(), Failed>
    requires whole { length into.old % 16 ≡ 0 }
    requires within { IsTrue D.tells → unit + length into.old / 16 ≤ length (file_of file (laid_files layers.now (D.files below.old))) }
    ensures units { OnOk result (IsTrue D.tells → units_of into.new
        ≡ take (length into.old / 16) (drop unit (file_of file (laid_files layers.now (D.files below.old))))) }
    ensures counts { CountsRead D.Disk file (length into.old) below.old below.new spared.old spared.new }
    ensures reads { ReadsOnly D.Disk file (length into.old) result below.old below.new }
{
    let pages = layers.file(file);
    let Ok(end) = below.len(file) else {
        spared.add(file, into.len());
        return Err(Failed);
    };
    let whole = end.max(pages.end);
    // Only the disk below can count the fault of a read past the end.
    if unit > whole || into.len() as u64 / 16 > whole - unit {
        return below.read_at(file, unit, into);
    }
    read_below(below, spared, file, unit, end, into)?;
    lay(&pages.table, unit as usize, into);
    Ok(())
}

/// Reads units over those below, of which nothing is asked where all of these units are held. A function of its own,
/// so that a read of one held unit stays short.
#[inline(never)]
fn read_units<D: Disk>(
    layers: &Layers,
    below: &mut D,
    spared: &mut Spared,
    file: File,
    unit: u64,
    into: &mut [u8],
) -> Result<(), Failed>
    requires whole { length into.old % 16 ≡ 0 }
    requires within { IsTrue D.tells → unit + length into.old / 16 ≤ length (file_of file (laid_files layers.now (D.files below.old))) }
    ensures { ReadsOver D.Disk layers.now file unit (length into.old) into.new result below.old below.new spared.old spared.new }
{
    let pages = layers.file(file);
    if pages.covers(unit, into.len() as u64 / 16) {
        spared.add(file, into.len());
        lay(&pages.table, unit as usize, into);
        return Ok(());
    }
    read_partly(layers, below, spared, file, unit, into)
}

/// Reads units over those below: of a file of which nothing is held, one held unit, as most reads do, or any.
pub fn read_over<D: Disk>(
    layers: &Layers,
    below: &mut D,
    spared: &mut Spared,
    file: File,
    unit: u64,
    into: &mut [u8],
) -> Result<(), Failed>
    requires whole { length into.old % 16 ≡ 0 }
    requires within { IsTrue D.tells → unit + length into.old / 16 ≤ length (file_of file (laid_files layers.now (D.files below.old))) }
    ensures { ReadsOver D.Disk layers.now file unit (length into.old) into.new result below.old below.new spared.old spared.new }
{
    let pages = layers.file(file);
    // A file of which nothing is held reads as below, and its length need not be asked for.
    if pages.end == 0 {
        return below.read_at(file, unit, into);
    }
    if pages.copy_held(unit, into) {
        spared.add(file, into.len());
        return Ok(());
    }
    read_units(layers, below, spared, file, unit, into)
}
