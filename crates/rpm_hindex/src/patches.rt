//! Units that a change writes anew.

ghost use Rattle.std.specs.Prelude.{◌≡◌, ◌+◌, ◌*◌, ◌≤◌, ◌<◌, IsTrue, length, unwrap_or, if◌then◌else◌, ◌==◌, OnOk, IfOk, IfErr, Err};
ghost use Rattle.rpm_hindex.specs.Prelude.{bucket_unit, get, HasWord, Idx, IsHeadWithin, nat_cmp, Puts, PutsWithin, ReadsOr, SetsNext, unit_after, unit_at, Units, Unlinks, word};

use crate::chain::Extent;
use crate::faults::PrepareFault;
use crate::heads::Head;
use crate::reads::read_unit;
use crate::spots::Spot;
use rpm_outside::{Disk, unit_of_words, word};
use std::collections::BTreeMap;

/// Number j of a unit, or another one, where j is k.
fn number_or(words: &[u8], j: u32, k: u32, n: u32) -> u32
    requires { 4 * j + 4 ≤ length words.now }
    ensures { result ≡ (if j == k then n else word j words.now) }
{
    if j == k { n } else { word(words, j as usize) }
}

/// The unit with another number in place of number k.
pub fn with_word(words: &[u8], k: u32, n: u32) -> [u8; 16]
    requires whole { length words.now ≡ 16 }
    requires four { k < 4 }
    ensures { HasWord words.now result k n }
{
    unit_of_words(
        number_or(words, 0, k, n),
        number_or(words, 1, k, n),
        number_or(words, 2, k, n),
        number_or(words, 3, k, n),
    )
}

/// Puts a unit among those that change.
pub fn put_unit(
    units: &mut BTreeMap<u32, [u8; 16]>,
    at: u32,
    unit: [u8; 16],
) -> Result<(), PrepareFault>
    ensures put { OnOk result (Puts (λ q. get nat_cmp units.old q) (λ q. get nat_cmp units.new q) at unit) }
    ensures memory { IfErr result (λ e. e ≡ PrepareFault.NoMemory) }
{
    units.insert(at, unit).map_err(|_| PrepareFault::NoMemory)?;
    Ok(())
}

/// The unit of a bucket's word, as it is changed so far.
pub fn words_of<D: Disk>(
    units: &BTreeMap<u32, [u8; 16]>,
    disk: &mut D,
    bucket: u32,
) -> Result<[u8; 16], PrepareFault>
    requires { IsTrue D.tells → bucket_unit bucket < length (D.files disk.old).idx }
    ensures words { IfOk result (λ w. IsTrue D.tells → w ≡ unit_after (λ q. get nat_cmp units.now q) (D.files disk.old).idx (bucket_unit bucket)) }
    ensures fault { IfErr result (λ e. e ≡ PrepareFault.DiskFault) }
    ensures reads { ReadsOr D.Disk Idx 16 (result ≡ Err PrepareFault.DiskFault) disk.old disk.new }
{
    let unit = 2 + bucket / 4;
    if let Some(words) = units.get(&unit) {
        return Ok(*words);
    }
    read_unit(disk, unit as u64).map_err(|_| PrepareFault::DiskFault)
}

/// A unit as it is changed so far, where these are its words in the file.
fn words_or(units: &BTreeMap<u32, [u8; 16]>, unit: u32, words: &[u8; 16]) -> [u8; 16]
    ensures { result ≡ unwrap_or (get nat_cmp units.now unit) words.now }
{
    match units.get(&unit) {
        Some(changed) => *changed,
        None => *words,
    }
}

/// Lets a record name this unit as its next.
fn set_next(units: &mut BTreeMap<u32, [u8; 16]>, head: Head, next: u32) -> Result<(), PrepareFault>
    ensures sets { OnOk result (SetsNext (λ q. get nat_cmp units.old q) (λ q. get nat_cmp units.new q) head next) }
    ensures memory { IfErr result (λ e. e ≡ PrepareFault.NoMemory) }
{
    let unit = unit_of_words(next, head.size, head.number, head.place);
    put_unit(units, head.at, unit)
}

/// Takes a record out of its chain: the record before it, or the bucket's word, names the one after it.
pub fn unlink(
    units: &mut BTreeMap<u32, [u8; 16]>,
    words: &[u8; 16],
    extent: Extent,
    bucket: u32,
    spot: Spot,
) -> Result<(), PrepareFault>
    requires within { IsHeadWithin extent.used spot.before }
    requires behind { bucket_unit bucket < extent.used }
    ensures puts { OnOk result (PutsWithin extent.used (λ q. get nat_cmp units.old q) (λ q. get nat_cmp units.new q)) }
    ensures sets { OnOk result ((file : Units) → words.now ≡ unit_at file (bucket_unit bucket)
        → Unlinks file (λ q. get nat_cmp units.old q) (λ q. get nat_cmp units.new q) bucket spot.before spot.behind) }
    ensures memory { IfErr result (λ e. e ≡ PrepareFault.NoMemory) }
{
    match spot.before {
        None => {
            let now = words_or(units, 2 + bucket / 4, words);
            put_unit(
                units,
                2 + bucket / 4,
                with_word(&now, bucket % 4, spot.behind),
            )
        }
        Some(head) => set_next(units, head, spot.behind),
    }
}
