//! Versions, ranges and capabilities by worked cases.

use rpm_version::{Capability, Evr, compare, compare_evr, overlap};
use std::cmp::Ordering;

const HUNDRED_DIGITS: &[u8] =
    b"1234567890123456789012345678901234567890123456789012345678901234567890123456789012345678901234567890";

const NEXT_OF_THEM: &[u8] =
    b"1234567890123456789012345678901234567890123456789012345678901234567890123456789012345678901234567891";

// The first eight are this project's worked cases, and the next sixteen are of rpm's own tests of its comparison.
const VERSIONS: &[(&[u8], &[u8], Ordering)] = &[
    (b"1.0", b"1.0.", Ordering::Equal),
    (b"1.01", b"1.1", Ordering::Equal),
    (b"1a", b"1.1", Ordering::Less),
    (b"1.0~rc1", b"1.0", Ordering::Less),
    (b"1.0^git1", b"1.0", Ordering::Greater),
    (b"1.0^git1", b"1.0.1", Ordering::Less),
    (b"", b"~", Ordering::Greater),
    (b"1.0~", b"1.0^", Ordering::Less),
    (b"2.0.1a", b"2.0.1", Ordering::Greater),
    (b"5.5p10", b"5.5p1", Ordering::Greater),
    (b"10xyz", b"10.1xyz", Ordering::Less),
    (b"xyz.4", b"8", Ordering::Less),
    (b"10b2", b"10a1", Ordering::Greater),
    (b"1.0aa", b"1.0a", Ordering::Greater),
    (b"20101121", b"20101122", Ordering::Less),
    (b"2_0", b"2.0", Ordering::Equal),
    (b"6.0.rc1", b"6.0", Ordering::Greater),
    (b"1.0~rc1~git123", b"1.0~rc1", Ordering::Less),
    (b"1.0^", b"1.0", Ordering::Greater),
    (b"1.0^", b"1.0^git1", Ordering::Less),
    (b"1.0^git1", b"1.01", Ordering::Less),
    (b"1.0^20160101^git1", b"1.0^20160101", Ordering::Greater),
    (b"1.0~rc1^git1", b"1.0~rc1", Ordering::Greater),
    (b"1.0^git1~pre", b"1.0^git1", Ordering::Less),
    (HUNDRED_DIGITS, NEXT_OF_THEM, Ordering::Less),
    (HUNDRED_DIGITS, b"9", Ordering::Greater),
    (b"1.0000000000000000000000", b"1.0", Ordering::Equal),
    (b"000", b"", Ordering::Greater),
    (b"1\xff\x800", b"1.0", Ordering::Equal),
    (b".-_+\xe9", b"", Ordering::Equal),
    (b"1.0~~", b"1.0~", Ordering::Less),
    (b"1.0~^", b"1.0~", Ordering::Greater),
    (b"^1", b"1", Ordering::Less),
    (b"~1", b"^", Ordering::Less),
    (b"a", b"1", Ordering::Less),
    (b"Z", b"a", Ordering::Less),
];

const PARTS: &[(&[u8], Option<&[u8]>, &[u8], Option<&[u8]>)] = &[
    (b"0:1-1", Some(b"0"), b"1", Some(b"1")),
    (b":", Some(b""), b"", None),
    (b"00012:5", Some(b"00012"), b"5", None),
    (b"1a:2", None, b"1a:2", None),
    (b"1.0-", None, b"1.0", None),
    (b"-1", None, b"", Some(b"1")),
    (b"1-2-3", None, b"1-2", Some(b"3")),
    (b"1:2:3-4", Some(b"1"), b"2:3", Some(b"4")),
    (b"1-2:3", None, b"1", Some(b"2:3")),
    (b"12", None, b"12", None),
    (b"", None, b"", None),
];

const EPOCHS: &[(&[u8], &[u8], Ordering)] = &[
    (b"1:1", b"2", Ordering::Greater),
    (b"0:1", b"1", Ordering::Equal),
    (b":1", b"1", Ordering::Equal),
    (b"00012:1", b"12:1", Ordering::Equal),
    (b"9:1", b"10:1", Ordering::Less),
    (b"1-1", b"1", Ordering::Equal),
    (b"1-2", b"1-", Ordering::Equal),
    (b"1-1", b"1-2", Ordering::Less),
    (b"2-1", b"1-2", Ordering::Greater),
    (b"1a:1", b"1:1", Ordering::Less),
];

// Two ranges, each of flags and a version, and whether they overlap.
const RANGES: &[(u32, &[u8], u32, &[u8], bool)] = &[
    (4, b"1.0-1", 8, b"1.0", true),
    (4, b"1.0-1", 8, b"1.0-", true),
    (4, b"1.0-1", 8, b"1.0-1", false),
    (12, b"1.0", 8, b"1.0~rc1-1", false),
    (12, b"1.0", 8, b"1.0^git1-1", true),
    (0, b"1.0", 2, b"0.1", true),
    (1 << 24, b"1.0", 2, b"0.1", true),
    (8, b"", 8, b"2", true),
    (8, b"1", 8, b"2", false),
    (4, b"1", 8, b"2", true),
    (8, b"1", 2, b"2", true),
    (2, b"1", 4, b"2", false),
    (2, b"2", 8, b"1", true),
    (8, b"2", 4, b"1", true),
    (4, b"2", 2, b"1", false),
    (2, b"1", 2, b"1", true),
    (4, b"1", 12, b"1", true),
    (2, b"1", 4, b"1", false),
    (2, b"1-1", 4, b"1", false),
];

// Texts with the name, the flags and the version of the capability that each is, if it is one.
const CAPABILITIES: &[(&str, Option<(&[u8], u32, &[u8])>)] = &[
    ("libx", Some((b"libx", 0, b""))),
    (" libx\t", Some((b"libx", 0, b""))),
    ("libx < 1.0", Some((b"libx", 2, b"1.0"))),
    ("libx <= 1.0", Some((b"libx", 10, b"1.0"))),
    ("libx = 1.0-1", Some((b"libx", 8, b"1.0-1"))),
    ("libx >= 1.0", Some((b"libx", 12, b"1.0"))),
    ("libx\t >= \t1.0", Some((b"libx", 12, b"1.0"))),
    ("libx > 1:1.0", Some((b"libx", 4, b"1:1.0"))),
    ("", None),
    (" \t", None),
    ("a b", None),
    ("libx <", None),
    ("a = b c", None),
    ("a == b", None),
    ("a => b", None),
    ("a=b = c d", None),
    ("< = > =", None),
];

/// The first versions of the table that compare otherwise.
fn unlike_versions() -> Option<(&'static [u8], &'static [u8])> {
    for &(a, b, order) in VERSIONS {
        if compare(a, b) != order || compare(b, a) != order.reverse() {
            return Some((a, b));
        }
    }
    None
}

/// The first text of the table that is cut otherwise.
fn unlike_parts() -> Option<&'static [u8]> {
    for &(text, epoch, version, release) in PARTS {
        let parts = Evr::read(text);
        if parts.epoch() != epoch || parts.version() != version || parts.release() != release {
            return Some(text);
        }
    }
    None
}

/// The first texts of the table that compare otherwise.
fn unlike_epochs() -> Option<(&'static [u8], &'static [u8])> {
    for &(a, b, order) in EPOCHS {
        if compare_evr(&Evr::read(a), &Evr::read(b)) != order {
            return Some((a, b));
        }
    }
    None
}

/// The first ranges of the table that overlap and ought not to, or the other way round.
fn unlike_ranges() -> Option<(&'static [u8], &'static [u8])> {
    for &(a_flags, a, b_flags, b, is_met) in RANGES {
        if overlap(a_flags, a, b_flags, b) != is_met || overlap(b_flags, b, a_flags, a) != is_met {
            return Some((a, b));
        }
    }
    None
}

fn is_capability(text: &str, parts: Option<(&[u8], u32, &[u8])>) -> bool {
    match (Capability::read(text), parts) {
        (Ok(read), Some((name, flags, evr))) => {
            read.name() == name && read.flags() == flags && read.evr() == evr
        }
        (read, parts) => read.is_err() && parts.is_none(),
    }
}

/// The first text of the table that is read otherwise.
fn unlike_capability() -> Option<&'static str> {
    for &(text, parts) in CAPABILITIES {
        if !is_capability(text, parts) {
            return Some(text);
        }
    }
    None
}

#[test]
fn versions_ranges_and_capabilities_are_those_by_hand(rt: HostRuntime) {
    let versions = unlike_versions();
    let parts = unlike_parts();
    let epochs = unlike_epochs();
    let ranges = unlike_ranges();
    let capability = unlike_capability();
    let is_same = versions.is_none() && parts.is_none() && epochs.is_none();
    assert!(rt;
        is_same && ranges.is_none() && capability.is_none(),
        "{versions:?} {parts:?} {epochs:?} {ranges:?} {capability:?}"
    );
}
