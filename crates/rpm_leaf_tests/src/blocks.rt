//! Worked places of blocks, and an import of many ranges.

ghost use Rattle.std.specs.Prelude.{◌≡◌, ◌≤◌, IfOk, IfSome, SomeIndex};
ghost use Rattle.rpm_blocks.specs.Blocks.{range_at};

use rpm_blocks::Used;
use std::alloc::{AllocError, Global};

/// The least place from a block on, which is used from then on.
fn take(used: &mut Used, count: u32, from: u32) -> Result<Option<u32>, AllocError>
    requires { 1 ≤ count }
    ensures { IfOk result (λ taken. IfSome taken
        (λ place. SomeIndex used.new.ranges (λ i. (range_at used.new.ranges i).start ≡ place))) }
{
    used.reserve(1)?;
    let Some(place) = used.first_fit(count, from) else {
        return Ok(None);
    };
    used.insert(place, count);
    Ok(Some(place))
}

/// A set that these ranges were put into, one after the other, each of which was free.
fn used_with(alloc: Global, ranges: &[(u32, u32)]) -> Result<Option<Used>, AllocError> {
    let mut used = Used::new(alloc);
    for &(start, count) in ranges {
        if count == 0 || take(&mut used, count, start)? != Some(start) {
            return Ok(None);
        }
    }
    Ok(Some(used))
}

/// The least place in a set that was made.
fn fit(used: &Option<Used>, count: u32, from: u32) -> Option<Option<u32>> {
    match used {
        Some(used) if count > 0 => Some(used.first_fit(count, from)),
        _ => None,
    }
}

// Two ranges that touch, a gap of four blocks, a range, a gap of six, a range.
const GAPS: &[(u32, u32)] = &[(256, 10), (274, 6), (286, 14), (266, 4)];

// All blocks but the last six.
const FULL: &[(u32, u32)] = &[(256, 268_435_194)];

// What is used, how many blocks are sought and from where, and the least place of them.
const PLACES: &[(&[(u32, u32)], u32, u32, Option<u32>)] = &[
    (&[], 1, 0, Some(0)),
    (&[], 268_435_456, 0, Some(0)),
    (&[], 268_435_457, 0, None),
    (&[], 1, 268_435_456, None),
    (&[], u32::MAX, u32::MAX, None),
    (GAPS, 4, 256, Some(270)),
    (GAPS, 5, 256, Some(280)),
    (GAPS, 6, 256, Some(280)),
    (GAPS, 7, 256, Some(300)),
    (GAPS, 257, 0, Some(300)),
    (GAPS, 256, 0, Some(0)),
    (GAPS, 3, 271, Some(271)),
    (GAPS, 4, 271, Some(280)),
    (GAPS, 1, 268, Some(270)),
    (GAPS, 1, 277, Some(280)),
    (GAPS, 1, 280, Some(280)),
    (GAPS, 5, 300, Some(300)),
    (GAPS, 5, 1000, Some(1000)),
    (GAPS, 268_435_156, 256, Some(300)),
    (GAPS, 268_435_157, 256, None),
    (&[(256, 4), (272, 4), (264, 4)], 5, 256, Some(276)),
    (&[(256, 4), (264, 4), (260, 4)], 1, 256, Some(268)),
    (FULL, 6, 256, Some(268_435_450)),
    (FULL, 7, 256, None),
];

/// The least place where these ranges are used.
fn place_in(
    alloc: Global,
    ranges: &[(u32, u32)],
    count: u32,
    from: u32,
) -> Result<Option<Option<u32>>, AllocError> {
    let used = used_with(alloc, ranges)?;
    Ok(fit(&used, count, from))
}

/// A set that these ranges were put into, and one more, which went again.
fn used_without(
    alloc: Global,
    ranges: &[(u32, u32)],
    start: u32,
    count: u32,
) -> Result<Option<Used>, AllocError> {
    let Some(mut used) = used_with(alloc, ranges)? else {
        return Ok(None);
    };
    if count == 0 {
        return Ok(None);
    }
    let Some(place) = take(&mut used, count, start)? else {
        return Ok(None);
    };
    used.remove(place);
    if place == start {
        Ok(Some(used))
    } else {
        Ok(None)
    }
}

// What is used, the range that goes again, how many blocks are sought, and the least place of them.
const REMOVALS: &[(&[(u32, u32)], u32, u32, u32, u32)] = &[
    // Two gaps become one.
    (&[(256, 4), (272, 4)], 264, 4, 12, 260),
    (&[(256, 4), (272, 4)], 264, 4, 13, 276),
    // A run of ranges that touch is split.
    (&[(256, 4), (264, 4)], 260, 4, 4, 260),
    (&[(256, 4), (264, 4)], 260, 4, 5, 268),
];

/// The least place where these ranges are used, and one more is not any longer.
fn place_without(
    alloc: Global,
    ranges: &[(u32, u32)],
    start: u32,
    length: u32,
    count: u32,
) -> Result<Option<Option<u32>>, AllocError> {
    let used = used_without(alloc, ranges, start, length)?;
    Ok(fit(&used, count, 256))
}

/// The least places after 100,000 packages, each of which stands after the one before: in the set and in a copy.
fn import(alloc: Global) -> Result<Option<(u32, u32)>, AllocError> {
    let mut used = Used::new(alloc);
    used.reserve(100_000)?;
    for number in 0..100_000u32 {
        if take(&mut used, 8, 256)? != Some(256 + 8 * number) {
            return Ok(None);
        }
    }
    let copy = used.copy_with_room(alloc, 1)?;
    match (used.first_fit(1, 256), copy.first_fit(1, 256)) {
        (Some(own), Some(copied)) => Ok(Some((own, copied))),
        _ => Ok(None),
    }
}

fn unlike_place(alloc: Global) -> Option<(u32, u32)> {
    for &(ranges, count, from, place) in PLACES {
        if place_in(alloc, ranges, count, from) != Ok(Some(place)) {
            return Some((count, from));
        }
    }
    None
}

fn unlike_removal(alloc: Global) -> Option<(u32, u32)> {
    for &(ranges, start, length, count, place) in REMOVALS {
        if place_without(alloc, ranges, start, length, count) != Ok(Some(Some(place))) {
            return Some((start, count));
        }
    }
    None
}

#[test]
fn least_places_are_found(rt: HostRuntime) {
    let alloc = rt.alloc();
    let place = unlike_place(alloc);
    let removal = unlike_removal(alloc);
    let behind = import(alloc);
    assert!(rt;
        place.is_none() && removal.is_none() && behind == Ok(Some((800_256, 800_256))),
        "{place:?} {removal:?} {behind:?}"
    );
}
