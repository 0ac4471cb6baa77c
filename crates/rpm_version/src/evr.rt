//! Texts of an epoch, a version and a release.

ghost use Rattle.std.specs.Prelude.{◌≡◌, ◌≢◌, All, MatchOption, option_copied};
ghost use Rattle.rpm_version.specs.Prelude.{behind_epoch, epoch_of, evr, evr_order, EvrParts, HasDigits, IsLastDash, ordering_reverse, release_of, release_order, unless_empty, version_of};

use crate::order::{compare, compare_numbers};
use crate::segment::leading_digits;
use std::cmp::Ordering;
use std::marker::Model;

/// The parts of a text `epoch:version-release`, borrowed from it. Only the version is always there.
#[derive(Drop)]
pub struct Evr<'a> {
    epoch: Option<&'a [u8]>,
    version: &'a [u8],
    release: Option<&'a [u8]>,
}

impl<'a> Model for Evr<'a> {
    ghost Value = { EvrParts };

    ghost view = { λ s. record { epoch = option_copied s.epoch; version = s.version.now; release = option_copied s.release } };

    ghost invariant = { λ s. HasDigits (option_copied s.epoch) };
}

/// The epoch of a text, and what stands after it.
#[tactic(auto, unfolding(crate::specs::inner::Cuts::has_epoch, crate::specs::inner::Cuts::epoch_of, crate::specs::inner::Cuts::behind_epoch))]
fn split_epoch(text: &[u8]) -> (Option<&[u8]>, &[u8])
    ensures epoch { option_copied result.0 ≡ epoch_of text.now }
    ensures behind { result.1.now ≡ behind_epoch text.now }
    ensures digits { HasDigits (option_copied result.0) }
{
    let (digits, behind) = leading_digits(text);
    match behind {
        [b':', rest @ ..] => (Some(digits), rest),
        _ => (None, text),
    }
}

/// The place of the last dash.
fn last_dash(text: &[u8]) -> Option<usize>
    ensures { MatchOption result (All (λ b. b ≢ 45) text.now) (λ i. IsLastDash i text.now) }
{
    text.iter().rposition(|byte| *byte == b'-')
}

fn unless_empty(text: &[u8]) -> Option<&[u8]>
    ensures { option_copied result ≡ unless_empty text.now }
{
    if text.is_empty() { None } else { Some(text) }
}

/// The version and the release of a text without an epoch.
fn split_release(text: &[u8]) -> (&[u8], Option<&[u8]>)
    ensures version { result.0.now ≡ version_of text.now }
    ensures release { option_copied result.1 ≡ release_of text.now }
{
    match last_dash(text) {
        None => (text, None),
        Some(dash) => (&text[..dash], unless_empty(&text[dash + 1..])),
    }
}

/// The order of two releases: `Equal` unless both are there.
#[tactic(auto, unfolding(crate::specs::Evr::release_order))]
fn compare_releases(a: Option<&[u8]>, b: Option<&[u8]>) -> Ordering
    ensures { result ≡ release_order (option_copied a.entry) (option_copied b.entry) }
{
    match (a, b) {
        (Some(a), Some(b)) => compare(a, b),
        _ => Ordering::Equal,
    }
}

impl<'a> Evr<'a> {
    /// Cuts a text into its parts, as rpm's documentation of dependency versions has them.
    ///
    /// The digits that a text begins with, perhaps none, are its epoch where a colon follows them.
    /// What stands before the last dash after it is the version, and what follows that dash is the
    /// release. Each text has these parts: nothing is refused. Goes over the text twice at most.
    #[tactic(auto, using(crate::proofs::EvrCuts::evr_by_cuts))]
    pub fn read(text: &'a [u8]) -> Self
        ensures { result ≡ evr text.now }
    {
        let (epoch, rest) = split_epoch(text);
        let (version, release) = split_release(rest);
        Evr {
            epoch,
            version,
            release,
        }
    }

    /// The digits before a colon, perhaps none; `None` where the text has no epoch.
    pub fn epoch(&self) -> Option<&'a [u8]>
        ensures { option_copied result ≡ self.now.epoch }
    {
        self.epoch
    }

    /// What stands between the epoch and the last dash.
    pub fn version(&self) -> &'a [u8]
        ensures { result.now ≡ self.now.version }
    {
        self.version
    }

    /// What follows the last dash; `None` where that is nothing, or there is no dash.
    pub fn release(&self) -> Option<&'a [u8]>
        ensures { option_copied result ≡ self.now.release }
    {
        self.release
    }
}

/// Which of two is newer: by their epochs, then their versions, then their releases.
///
/// An epoch is a number of any size, and 0 where it is missing or empty. A missing release equals
/// every release, so equals of one are not equals of each other: `1-1` and `1-2` both equal `1`, and
/// the first is less. From rpm's documentation of dependency versions. Takes time in the sum of the
/// lengths, and copies nothing.
#[tactic(auto, unfolding(crate::specs::Evr::evr_order), using(crate::proofs::EvrLaws::evr_converse))]
pub fn compare_evr(a: &Evr<'_>, b: &Evr<'_>) -> Ordering
    ensures order { result ≡ evr_order a.now b.now }
    ensures converse { (x y : EvrParts) → evr_order x y ≡ ordering_reverse (evr_order y x) }
{
    let epochs = compare_numbers(a.epoch.unwrap_or(&[]), b.epoch.unwrap_or(&[]));
    if epochs.is_ne() {
        return epochs;
    }
    let versions = compare(a.version, b.version);
    if versions.is_ne() {
        return versions;
    }
    compare_releases(a.release, b.release)
}
