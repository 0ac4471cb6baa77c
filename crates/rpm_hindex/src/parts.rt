//! Writing units of Hindex.db.

ghost use Rattle.std.specs.Prelude.{◌≡◌, ◌+◌, ◌/◌, ◌%◌, ◌^◌, ◌≤◌, ◌<◌, IsTrue, length, OnOk};
ghost use Rattle.rpm_hindex.specs.Prelude.{Idx, IsDurable, IsSame, SameSeal, Torn, units_of, with_units, Writes};

use crate::faults::IndexDiskFault;
use rpm_outside::{Disk, File};

/// Writes units of Hindex.db.
pub fn write_units<D: Disk>(disk: &mut D, unit: u64, bytes: &[u8]) -> Result<(), IndexDiskFault>
    requires some { 0 < length bytes.now }
    requires whole { length bytes.now % 16 ≡ 0 }
    requires room { unit + length bytes.now / 16 ≤ 2 ^ 28 }
    ensures written { OnOk result (IsTrue D.tells → (D.files disk.new).idx ≡ with_units unit (units_of bytes.now) (D.files disk.old).idx) }
    ensures writes { Writes D.Disk Idx (Torn unit (units_of bytes.now)) 0 result disk.old disk.new }
{
    disk.write_at(File::Idx, unit, bytes)
        .map_err(|_| IndexDiskFault)
}

/// Makes Hindex.db durable.
fn sync<D: Disk>(disk: &mut D) -> Result<(), IndexDiskFault>
    ensures same { IsTrue D.tells → (D.files disk.new).idx ≡ (D.files disk.old).idx }
    ensures durable { OnOk result (IsTrue D.tells → IsDurable D.Disk Idx disk.new) }
    ensures writes { Writes D.Disk Idx IsSame 0 result disk.old disk.new }
{
    disk.sync(File::Idx).map_err(|_| IndexDiskFault)
}

/// Writes units of Hindex.db, and makes it durable.
pub fn write_synced<D: Disk>(disk: &mut D, unit: u64, bytes: &[u8]) -> Result<(), IndexDiskFault>
    requires some { 0 < length bytes.now }
    requires whole { length bytes.now % 16 ≡ 0 }
    requires room { unit + length bytes.now / 16 ≤ 2 ^ 28 }
    ensures written { OnOk result (IsTrue D.tells → (D.files disk.new).idx ≡ with_units unit (units_of bytes.now) (D.files disk.old).idx) }
    ensures durable { OnOk result (IsTrue D.tells → IsDurable D.Disk Idx disk.new) }
    ensures writes { Writes D.Disk Idx (Torn unit (units_of bytes.now)) 0 result disk.old disk.new }
{
    write_units(disk, unit, bytes)?;
    sync(disk)
}

// How many bytes of an image go out in one write.
const PART: usize = 65_536;

/// Writes the units of an image from this byte on, and frees them.
fn write_end<D: Disk>(disk: &mut D, bytes: &mut Vec<u8>, keep: usize) -> Result<(), IndexDiskFault>
    requires some { keep < length bytes.old.items }
    requires aligned { keep % 16 ≡ 0 }
    requires whole { length bytes.old.items % 16 ≡ 0 }
    requires room { 1 + length bytes.old.items / 16 ≤ 2 ^ 28 }
    ensures kept { OnOk result (length bytes.new.items ≡ keep) }
    ensures written { OnOk result (IsTrue D.tells → with_units 1 (units_of bytes.new.items) (D.files disk.new).idx
        ≡ with_units 1 (units_of bytes.old.items) (D.files disk.old).idx) }
    ensures writes { Writes D.Disk Idx SameSeal 0 result disk.old disk.new }
{
    write_units(disk, 1 + keep as u64 / 16, &bytes[keep..])?;
    bytes.truncate(keep);
    bytes.shrink_to_fit();
    Ok(())
}

/// Writes an image from unit 1 on, its end first, and frees what is written. Then makes the file durable.
pub fn write_image<D: Disk>(disk: &mut D, image: Vec<u8>) -> Result<(), IndexDiskFault>
    requires some { 0 < length image.items }
    requires whole { length image.items % 16 ≡ 0 }
    requires room { 1 + length image.items / 16 ≤ 2 ^ 28 }
    ensures written { OnOk result (IsTrue D.tells → (D.files disk.new).idx ≡ with_units 1 (units_of image.items) (D.files disk.old).idx) }
    ensures durable { OnOk result (IsTrue D.tells → IsDurable D.Disk Idx disk.new) }
    ensures writes { Writes D.Disk Idx SameSeal 0 result disk.old disk.new }
{
    let mut bytes = image;
    while bytes.len() > PART {
        let keep = bytes.len() - PART;
        write_end(disk, &mut bytes, keep)?;
    }
    write_synced(disk, 1, &bytes)
}
