//! Which packages a question picks, with an index and without.

use crate::db_tests::open;
use crate::fixtures::{Draft, generated};
use crate::plain_disk::PlainDisk;
use rpm_db::Db;
use rpm_select::{Capability, Picked, Picker, Selection};
use std::alloc::{AllocError, Global};

// A question by its letter.
fn selection(letter: u8, text: &str) -> Option<Selection<'_>> {
    match letter {
        b'a' => Some(Selection::All),
        b'm' => Some(Selection::Pattern(text)),
        b'l' => Some(Selection::Label(text)),
        b'f' => Some(Selection::Path(text)),
        b'g' => Some(Selection::Group(text)),
        b'd' => Some(Selection::Directory(text)),
        b't' => Some(Selection::Trigger(text)),
        b'p' => Some(Selection::Provides(Capability::read(text).ok()?)),
        b'r' => Some(Selection::Requires(Capability::read(text).ok()?)),
        b'c' => Some(Selection::Conflicts(Capability::read(text).ok()?)),
        b'o' => Some(Selection::Obsoletes(Capability::read(text).ok()?)),
        b'w' => Some(Selection::Recommends(Capability::read(text).ok()?)),
        b'n' => Some(Selection::Number(text.parse::<u32>().ok()?)),
        b'i' => Some(Selection::Tid(text.parse::<u32>().ok()?)),
        _ => None,
    }
}

// Added to the number of a package that can't be read.
const BAD: u32 = 10_000;

fn number_of(picked: &Picked) -> u32 {
    match picked {
        Picked::Good { number, .. } => *number,
        Picked::Bad { number } => number.saturating_add(BAD),
    }
}

// The number that comes next above n; 0 where none does.
fn next(
    alloc: Global,
    disk: &mut PlainDisk,
    db: &Db,
    picker: &mut Picker,
    selection: &Selection<'_>,
    n: u32,
) -> Option<u32> {
    if db.is_stopped() {
        return None;
    }
    match picker.next_after(alloc, db, disk, selection, n) {
        Ok(Some(picked)) => Some(number_of(&picked)),
        Ok(None) => Some(0),
        Err(_) => None,
    }
}

// A database of 600 generated packages, in three pages.
fn many(alloc: Global) -> Result<PlainDisk, AllocError> {
    let mut draft = Draft::new(alloc, 3, 1);
    for i in 1..=600 {
        draft.push(i, &generated(alloc, i)?, 0)?;
    }
    Ok(PlainDisk::new(alloc, draft.finish(alloc, 0xffff)?))
}

// How many packages a question picks, the sum of their numbers, and how many bytes of Packages.db are read for them.
fn tally(
    alloc: Global,
    disk: &mut PlainDisk,
    selection: &Selection<'_>,
    is_indexed: bool,
) -> Option<(u32, u32, u64)> {
    let db = open(alloc, disk, is_indexed)?;
    if db.is_stopped() {
        return None;
    }
    let read = disk.read;
    let mut picker = Picker::new(alloc, &db, disk, selection).ok()?;
    let (mut sum, mut last) = (0u32, 0);
    for count in 0..=600 {
        last = next(alloc, disk, &db, &mut picker, selection, last)?;
        if last == 0 {
            return Some((count, sum, disk.read.saturating_sub(read)));
        }
        sum = sum.wrapping_add(last);
    }
    None
}

// A question, how many of the generated packages it picks, and the sum of their numbers.
const OF_MANY: &[(u8, &str, u32, u32)] = &[
    (b'a', "", 600, 180_300),
    (b'm', "pkg50?", 10, 5045),
    (b'l', "pkg12-1.2-1.noarch", 1, 12),
    (b'f', "/opt/f500", 1, 500),
    (b'g', "cap3", 55, 16_500),
    (b'p', "cap3", 86, 25_843),
    (b'p', "/opt/f500", 1, 500),
    (b'r', "cap3", 86, 25_757),
    (b'c', "cap3", 55, 16_500),
    (b'o', "cap3", 55, 16_500),
    (b't', "cap3", 55, 16_500),
    (b'd', "/opt/", 600, 180_300),
    (b'w', "cap3", 55, 16_500),
    (b'w', "cap11", 0, 0),
    (b'i', "3", 55, 16_500),
];

// The first question that picks otherwise without an index or with one, or reads more with one.
fn other_tally(alloc: Global, disk: &mut PlainDisk) -> Option<usize> {
    for (row, &(letter, text, count, sum)) in OF_MANY.iter().enumerate() {
        let Some(selection) = selection(letter, text) else {
            return Some(row);
        };
        let scanned = tally(alloc, disk, &selection, false);
        let indexed = tally(alloc, disk, &selection, true);
        let is_right = match (scanned, indexed) {
            (Some((a, b, most)), Some((c, d, read))) => {
                a == count && b == sum && c == count && d == sum && read <= most
            }
            _ => false,
        };
        if !is_right {
            return Some(row);
        }
    }
    None
}

#[test]
fn an_index_gives_what_a_scan_gives(rt: HostRuntime) -> Result<(), AllocError> {
    let mut disk = many(rt.alloc())?;
    let other = other_tally(rt.alloc(), &mut disk);
    // the blocks of number 500 alone: a header of 334 bytes, and what frames it
    let one = tally(rt.alloc(), &mut disk, &Selection::Path("/opt/f500"), true);
    assert_eq!(rt; (other, one), (None, Some((1, 500, 368))));
    Ok(())
}
