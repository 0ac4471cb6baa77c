//! Records: their sizes, their buckets, and those that are to be written.

ghost use Rattle.std.specs.Prelude.{◌≡◌, ◌%◌, ◌^◌, ◌≤◌, ◌<◌, ◌++◌, length, take, OnOk};
ghost use Rattle.rpm_hindex.specs.Prelude.{bucket_count, bytes_of, fnv, hash_of, index_units, is_bucket_count, key_padding, record_of, record_units};

use crate::piece::RowRef;
use rpm_outside::unit_of_words;
use std::alloc::AllocError;

/// The most units that an index has: 4 GiB.
pub const UNITS: u64 = 268_435_456;

/// Whether this is a power of two from 64 to 134217728.
pub fn is_bucket_count(buckets: u32) -> bool
    ensures { result ≡ is_bucket_count buckets }
{
    for k in 0..22u32 {
        if buckets == 64 << k {
            return true;
        }
    }
    false
}

/// The least power of two that is at least 64 and at least half the records.
pub fn bucket_count(records: u64) -> u64
    requires { records ≤ 2 ^ 60 }
    ensures count { result ≡ bucket_count records }
    ensures bound { result ≤ 2 ^ 60 }
{
    let mut buckets = 64u64;
    while 2 * buckets < records {
        buckets *= 2;
    }
    buckets
}

/// The units of an index of so many records, which have so many units, made from scratch: two, one for each four
/// buckets, and those of the records. The buckets are the least power of two that is at least 64 and at least half
/// the records.
pub fn index_units(records: u64, live: u64) -> u64
    requires records { records ≤ 1152921504606846976 }
    requires live { live ≤ 1152921504606846976 }
    ensures { result ≡ index_units records live }
{
    2 + bucket_count(records) / 4 + live
}

/// The units of a record whose key has so many bytes.
pub fn record_units(length: u32) -> u32
    requires { length < 2 ^ 28 }
    ensures { result ≡ record_units length }
{
    1 + (length + 15) / 16
}

/// 32-bit FNV-1a, carried on.
fn fnv(hash: u32, bytes: &[u8]) -> u32
    ensures { result ≡ fnv hash bytes.now }
{
    let mut hash = hash;
    for b in bytes {
        hash = (hash ^ *b as u32).wrapping_mul(16_777_619);
    }
    hash
}

/// The bucket of a key, among so many: by the hash of its kind's byte and then the key.
#[tactic(auto, unfolding(crate::specs::Rows::hash_of))]
pub fn bucket_of(kind: u8, key: &[u8], buckets: u32) -> u32
    requires { 0 < buckets }
    ensures bucket { result ≡ hash_of kind key.now % buckets }
    ensures within { result < buckets }
{
    fnv(fnv(2_166_136_261, &[kind]), key) % buckets
}

/// The first unit of these bytes.
pub fn first_unit(bytes: &[u8]) -> [u8; 16]
    requires { 16 ≤ length bytes.now }
    ensures { result ≡ take 16 bytes.now }
{
    let mut unit = [0u8; 16];
    unit.copy_from_slice(&bytes[..16]);
    unit
}

/// Adds a key, padded with zeros to whole units.
fn push_key(bytes: &mut Vec<u8>, key: &[u8]) -> Result<(), AllocError>
    ensures { OnOk result (bytes.new.items ≡ bytes.old.items ++ key.now ++ key_padding (length key.now)) }
{
    const ZEROS: [u8; 16] = [0; 16];
    bytes.extend_from_slice(key)?;
    let past = key.len() % 16;
    if past > 0 {
        bytes.extend_from_slice(&ZEROS[past..])?;
    }
    Ok(())
}

/// Adds a record.
pub fn push_record(bytes: &mut Vec<u8>, next: u32, row: RowRef<'_>) -> Result<(), AllocError>
    requires kind { row.kind < 16 }
    requires key { length row.key.now < 2 ^ 28 }
    ensures { OnOk result (bytes.new.items ≡ bytes.old.items ++ bytes_of
        (record_of next row.entry.kind row.entry.key.now row.entry.number row.entry.place)) }
{
    let size = row.kind as u32 * 268_435_456 + row.key.len() as u32;
    let head = unit_of_words(next, size, row.number, row.place);
    // its first unit, its key, and at most 15 zeros
    bytes.reserve(row.key.len() + 31)?;
    bytes.extend_from_slice(&head)?;
    push_key(bytes, row.key)
}
