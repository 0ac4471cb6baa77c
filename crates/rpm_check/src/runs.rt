//! The runs of what is provided under a name: each run meets a requirement as a whole, or not at all.

ghost use Rattle.std.specs.Prelude.{◌≡◌, ◌++◌, ◌<◌, length};
ghost use Rattle.rpm_check.specs.Prelude.{evr, evr_order, is_of_standing, IsRunOf, IsSorted, offer_order};

use crate::kinds::kind_of;
use crate::offers::Offer;
use rpm_version::{Capability, Evr, compare_evr};
use std::cmp::Ordering;

/// How the version of an offer stands to that of a requirement.
fn order_beside(offer: &Offer, version: &Evr<'_>) -> Ordering
    ensures { result ≡ evr_order (evr offer.now.version.items) version.now }
{
    compare_evr(&Evr::read(&offer.version), version)
}

/// Whether an offer is of a kind, and its version stands so to that of a requirement.
fn is_alike(offer: &Offer, kind: u8, order: Ordering, version: &Evr<'_>) -> bool
    ensures { result ≡ is_of_standing kind order version.now offer.now }
{
    kind_of(offer) == kind && order_beside(offer, version) == order
}

/// The first offers that a requirement doesn't tell apart, and those after them. Log n steps.
///
/// In their order offers of one kind stand together, and of these those below the version of the requirement, those at it,
/// and those above it. Nothing else decides whether a range overlaps.
pub fn split_run<'a>(offers: &'a [Offer], needed: &Capability<'_>) -> (&'a [Offer], &'a [Offer])
    ensures split { offers.now ≡ result.0.now ++ result.1.now }
    ensures run { IsSorted offer_order offers.now → IsRunOf needed.now.flags needed.now.evr result.0.now }
    ensures rest { IsSorted offer_order offers.now → IsSorted offer_order result.1.now }
    ensures shorter { 0 < length offers.now → length result.1.now < length offers.now }
{
    let Some((first, others)) = offers.split_first() else {
        return (offers, offers);
    };
    if others.is_empty() {
        return (offers, others);
    }
    let version = Evr::read(needed.evr());
    let kind = kind_of(first);
    let order = order_beside(first, &version);
    offers.split_at(1 + others.partition_point(|offer| is_alike(offer, kind, order, &version)))
}
