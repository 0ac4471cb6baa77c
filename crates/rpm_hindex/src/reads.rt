//! Units and keys of Hindex.db, read.

ghost use Rattle.std.specs.Prelude.{◌≡◌, ◌+◌, ◌*◌, ◌/◌, ◌%◌, ◌^◌, ◌≤◌, ◌<◌, IsTrue, length, take, drop, OnOk, IfOk, IfErr, Err};
ghost use Rattle.rpm_hindex.specs.Prelude.{bytes_of, Idx, IsOutsideIndex, ReadsOnly, ReadsOr, units_from, unit_at};

use crate::faults::FindFault;
use rpm_outside::{Disk, Failed, File};
use std::alloc::Global;

/// Reads units of Hindex.db.
fn read_units<D: Disk>(disk: &mut D, unit: u64, into: &mut [u8]) -> Result<(), Failed>
    requires whole { length into.old % 16 ≡ 0 }
    requires within { IsTrue D.tells → unit + length into.old / 16 ≤ length (D.files disk.old).idx }
    ensures bytes { OnOk result (IsTrue D.tells → into.new ≡ bytes_of (take (length into.old / 16) (drop unit (D.files disk.old).idx))) }
    ensures reads { ReadsOnly D.Disk Idx (length into.old) result disk.old disk.new }
{
    disk.read_at(File::Idx, unit, into)?;
    Ok(())
}

/// Reads one unit.
pub fn read_unit<D: Disk>(disk: &mut D, at: u64) -> Result<[u8; 16], Failed>
    requires { IsTrue D.tells → at < length (D.files disk.old).idx }
    ensures unit { IfOk result (λ unit. IsTrue D.tells → unit ≡ unit_at (D.files disk.old).idx at) }
    ensures reads { ReadsOnly D.Disk Idx 16 result disk.old disk.new }
{
    let mut unit = [0u8; 16];
    read_units(disk, at, &mut unit)?;
    Ok(unit)
}

/// Reads one unit of a file of so many, and nothing after its end, where zeros stand.
pub fn unit_or_zeros<D: Disk>(disk: &mut D, units: u64, at: u64) -> Result<[u8; 16], Failed>
    requires { IsTrue D.tells → units ≡ length (D.files disk.old).idx }
    ensures unit { IfOk result (λ unit. IsTrue D.tells → unit ≡ unit_at (D.files disk.old).idx at) }
    ensures reads { ReadsOnly D.Disk Idx 16 result disk.old disk.new }
{
    if at >= units {
        return Ok([0; 16]);
    }
    read_unit(disk, at)
}

/// Reads so many bytes of units to the front of others.
fn read_front<D: Disk>(disk: &mut D, unit: u64, long: usize, into: &mut [u8]) -> Result<(), Failed>
    requires whole { long % 16 ≡ 0 }
    requires room { long ≤ length into.old }
    requires within { IsTrue D.tells → unit + long / 16 ≤ length (D.files disk.old).idx }
    ensures bytes { OnOk result (IsTrue D.tells → take long into.new ≡ bytes_of (take (long / 16) (drop unit (D.files disk.old).idx))) }
    ensures reads { ReadsOnly D.Disk Idx long result disk.old disk.new }
{
    read_units(disk, unit, &mut into[..long])
}

/// Makes a buffer as long as that, where it is shorter.
fn lengthen(buffer: &mut Vec<u8>, long: usize) -> Result<(), FindFault>
    ensures long { OnOk result (long ≤ length buffer.new.items) }
    ensures memory { IfErr result (λ e. e ≡ FindFault.NoMemory) }
{
    if buffer.len() >= long {
        return Ok(());
    }
    buffer.resize(long, 0).map_err(|_| FindFault::NoMemory)
}

/// Reads a key of so many bytes, which begins with this unit, and the zeros after it to the front of a buffer, which
/// grows where it is too short.
pub fn read_key_into<D: Disk>(
    disk: &mut D,
    at: u64,
    size: u32,
    buffer: &mut Vec<u8>,
) -> Result<(), FindFault>
    requires short { size < 2 ^ 28 }
    requires within { IsTrue D.tells → at + (size + 15) / 16 ≤ length (D.files disk.old).idx }
    ensures long { OnOk result (size ≤ length buffer.new.items) }
    ensures bytes { OnOk result (IsTrue D.tells → take size buffer.new.items
        ≡ take size (bytes_of (units_from (unit_at (D.files disk.old).idx) at ((size + 15) / 16)))) }
    ensures outside { IfErr result (λ e. IsOutsideIndex e) }
    ensures reads { ReadsOr D.Disk Idx (16 * ((size + 15) / 16)) (result ≡ Err FindFault.DiskFault) disk.old disk.new }
{
    let long = 16 * ((size as usize + 15) / 16);
    lengthen(buffer, long)?;
    let Ok(()) = read_front(disk, at, long, buffer) else {
        return Err(FindFault::DiskFault);
    };
    Ok(())
}
