//! Ranges of versions: the bits of a sense, and the version that they stand beside.

ghost use Rattle.std.specs.Prelude.{◌≡◌, ◌==◌, ℕ, List, not, bit_and, option_copied};
ghost use Rattle.rpm_version.specs.Prelude.{equal_but_release, evr_order, is_open, ranges_meet, overlaps, share_sense};

use crate::evr::{Evr, compare_evr};
use std::cmp::Ordering;

/// The bit of a sense that takes in the versions below.
pub const LESS: u32 = 2;

/// The bit of a sense that takes in the versions above.
pub const GREATER: u32 = 4;

/// The bit of a sense that takes in the version itself.
pub const EQUAL: u32 = 8;

/// Whether flags have the bit of a sense.
fn has(flags: u32, sense: u32) -> bool
    ensures { result ≡ not (bit_and flags sense == 0) }
{
    flags & sense != 0
}

/// The bits of flags that say a sense.
pub const SENSE: u64 = 14;

/// Whether every version is in a range: it has no sense, or no version.
#[tactic(auto, unfolding(crate::specs::Range::is_open))]
pub fn is_open(flags: u32, text: &[u8]) -> bool
    ensures { result ≡ is_open flags text.now }
{
    !(has(flags, LESS) || has(flags, GREATER) || has(flags, EQUAL)) || text.is_empty()
}

/// Whether two ranges at one version meet there or on one side of it.
#[tactic(auto, unfolding(crate::specs::Range::share_sense))]
fn share_sense(a_flags: u32, b_flags: u32) -> bool
    ensures { result ≡ share_sense a_flags b_flags }
{
    (has(a_flags, EQUAL) && has(b_flags, EQUAL))
        || (has(a_flags, LESS) && has(b_flags, LESS))
        || (has(a_flags, GREATER) && has(b_flags, GREATER))
}

/// Whether one side alone has a release, and the other side has the bit of equal.
#[tactic(auto, unfolding(crate::specs::Range::equal_but_release))]
fn equal_but_release(a_flags: u32, a: Option<&[u8]>, b_flags: u32, b: Option<&[u8]>) -> bool
    ensures { result ≡ equal_but_release a_flags (option_copied a.entry) b_flags (option_copied b.entry) }
{
    match (a, b) {
        (Some(_), None) => has(b_flags, EQUAL),
        (None, Some(_)) => has(a_flags, EQUAL),
        _ => false,
    }
}

/// Whether two ranges meet, neither of which holds every version.
fn meet(a_flags: u32, a: &Evr<'_>, b_flags: u32, b: &Evr<'_>) -> bool
    ensures { result ≡ ranges_meet (evr_order a.now b.now) a_flags a.now b_flags b.now }
{
    match compare_evr(a, b) {
        Ordering::Less => has(a_flags, GREATER) || has(b_flags, LESS),
        Ordering::Equal => {
            share_sense(a_flags, b_flags)
                || equal_but_release(a_flags, a.release(), b_flags, b.release())
        }
        Ordering::Greater => has(a_flags, LESS) || has(b_flags, GREATER),
    }
}

/// Whether two ranges of versions overlap, each given by the flags of its sense and by its version.
///
/// Of the flags the bits 2 (less), 4 (greater) and 8 (equal) count. A range with none of them, or
/// with an empty text, holds every version. Otherwise the order of the two versions and the bits
/// decide; where the versions are equal and one of them alone has a release, the other meets it
/// where it has the bit of equal. From rpm's documentation of dependency versions. Takes time in
/// the sum of the lengths, and copies nothing.
#[tactic(auto, unfolding(crate::specs::Range::overlaps), using(crate::proofs::RangeLaws::symmetric))]
pub fn overlap(a_flags: u32, a: &[u8], b_flags: u32, b: &[u8]) -> bool
    ensures table { result ≡ overlaps a_flags a.now b_flags b.now }
    ensures symmetric { (x y : ℕ) (s t : List ℕ) → overlaps x s y t ≡ overlaps y t x s }
{
    is_open(a_flags, a)
        || is_open(b_flags, b)
        || meet(a_flags, &Evr::read(a), b_flags, &Evr::read(b))
}
