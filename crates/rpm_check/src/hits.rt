//! Which of what is provided under a name meets a requirement of that name.

ghost use Rattle.std.specs.Prelude.{◌≡◌, ◌==◌, ◌&&◌, ◌||◌, ◌++◌, ℕ, IfOk, map, OnOk};
ghost use Rattle.std.specs.List.{list_any};
ghost use Rattle.rpm_check.specs.Prelude.{hits, is_hit, is_in, IsRunOf, IsSorted, IsStrictlyIncreasing, needed_in, offer_in, offer_order, range_in};

use crate::offers::Offer;
use crate::runs::split_run;
use rpm_select::each_once;
use rpm_tags::Dependency;
use rpm_version::{Capability, overlap};
use std::alloc::{AllocError, Global};

/// Whether the range of an offer overlaps the one of a requirement.
fn is_hit(offer: &Offer, needed: &Capability<'_>) -> bool
    ensures { result ≡ is_hit needed.now.flags needed.now.evr (range_in offer.now) }
{
    let provided = Capability::of_range(&[], offer.flags, &offer.version);
    overlap(
        provided.flags(),
        provided.evr(),
        needed.flags(),
        needed.evr(),
    )
}

/// Whether the first of a run of offers, so each of them, meets a requirement.
fn meets(run: &[Offer], needed: &Capability<'_>) -> bool
    ensures { IsRunOf needed.now.flags needed.now.evr run.now
        → result ≡ list_any (λ offer. is_hit needed.now.flags needed.now.evr (range_in offer)) run.now }
{
    match run.first() {
        Some(first) => is_hit(first, needed),
        None => false,
    }
}

/// Adds the numbers of offers.
fn push_numbers(offers: &[Offer], found: &mut Vec<u32>) -> Result<(), AllocError>
    ensures { OnOk result (found.new.items ≡ found.old.items ++ map (λ offer. offer.number) offers.now) }
{
    for offer in offers {
        found.push(offer.number)?;
    }
    Ok(())
}

/// Adds the numbers of a run of offers, where it meets a requirement.
fn push_hits(run: &[Offer], needed: &Capability<'_>, found: &mut Vec<u32>) -> Result<(), AllocError>
    ensures { IsRunOf needed.now.flags needed.now.evr run.now → OnOk result ((n : ℕ) → is_in n found.new.items
        ≡ (is_in n found.old.items || list_any (λ offer. (offer.number == n) && is_hit needed.now.flags needed.now.evr (range_in offer)) run.now)) }
{
    if meets(run, needed) {
        push_numbers(run, found)
    } else {
        Ok(())
    }
}

/// Whether what is offered, in its order, meets a requirement of that name. Log n steps.
pub fn any_hits(offers: &[Offer], needed: &Dependency<'_>) -> bool
    ensures { IsSorted offer_order offers.now
        → result ≡ list_any (λ offer. hits (needed_in needed.now) (offer_in offer)) offers.now }
{
    let wanted = Capability::of_range(needed.name, needed.flags, needed.version);
    let mut rest = offers;
    while !rest.is_empty() {
        let (run, others) = split_run(rest, &wanted);
        if meets(run, &wanted) {
            return true;
        }
        rest = others;
    }
    false
}

/// The numbers of the packages that offer what meets a requirement of that name, rising, each once: of what is offered,
/// in its order. Log n steps, and those that take the numbers.
pub fn numbers_of_hits(
    alloc: Global,
    offers: &[Offer],
    needed: &Dependency<'_>,
) -> Result<Vec<u32>, AllocError>
    ensures rising { IfOk result (λ found. IsStrictlyIncreasing found.items) }
    ensures same { IfOk result (λ found. IsSorted offer_order offers.now → (n : ℕ)
        → is_in n found.items ≡ list_any (λ offer. (offer.number == n) && hits (needed_in needed.now) (offer_in offer)) offers.now) }
{
    let wanted = Capability::of_range(needed.name, needed.flags, needed.version);
    let mut found = Vec::new(alloc);
    let mut rest = offers;
    while !rest.is_empty() {
        let (run, others) = split_run(rest, &wanted);
        push_hits(run, &wanted, &mut found)?;
        rest = others;
    }
    Ok(each_once(found))
}
