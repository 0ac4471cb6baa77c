//! The order of what is provided under one name.

ghost use Rattle.std.specs.Prelude.{◌≡◌, ◌==◌, ◌≤◌, not, bit_and};
ghost use Rattle.rpm_check.specs.Prelude.{digit, IsPermutation, IsSorted, offer_kind, offer_order};

use crate::offers::Offer;
use rpm_version::{Evr, compare_evr};
use std::cmp::Ordering;

// The bit of a sense that takes in the versions below.
const LESS: u64 = 2;

// The bit of a sense that takes in the versions above.
const GREATER: u64 = 4;

// The bit of a sense that takes in the version itself.
const EQUAL: u64 = 8;

/// Whether flags have the bit of a sense.
fn has(flags: u64, sense: u64) -> bool
    ensures { result ≡ not (bit_and flags sense == 0) }
{
    flags & sense != 0
}

fn digit(bit: bool) -> u8
    ensures value { result ≡ digit bit }
    ensures within { result ≤ 1 }
{
    if bit { 1 } else { 0 }
}

/// The kind of an offer: a number that says which bits of a sense it has, whether it has a version, and whether that
/// has a release.
pub fn kind_of(offer: &Offer) -> u8
    ensures { result ≡ offer_kind offer.now }
{
    let released = Evr::read(&offer.version).release().is_some();
    digit(has(offer.flags, LESS))
        + 2 * digit(has(offer.flags, GREATER))
        + 4 * digit(has(offer.flags, EQUAL))
        + 8 * digit(offer.version.is_empty())
        + 16 * digit(released)
}

/// Which of two offers stands first: by their kinds, and in a kind by their versions.
///
/// Of versions of one kind either all have a release or none has, so that their order is transitive.
fn compare_offers(a: &Offer, b: &Offer) -> Ordering
    ensures { result ≡ offer_order a.now b.now }
{
    let kinds = kind_of(a).cmp(&kind_of(b));
    if kinds.is_ne() {
        return kinds;
    }
    compare_evr(&Evr::read(&a.version), &Evr::read(&b.version))
}

/// Puts offers in order.
pub fn sort_offers(offers: &mut Vec<Offer>)
    ensures sorted { IsSorted offer_order offers.new.items }
    ensures same { IsPermutation offers.old.items offers.new.items }
{
    offers.sort_unstable_by(compare_offers);
}
