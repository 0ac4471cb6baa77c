//! The database: what is read of it.

ghost use Rattle.std.specs.Prelude.{◌≡◌, IfSome, false};
ghost use Rattle.rpm_db.specs.Database.{holds};

use crate::fixtures::{Draft, PLAIN, change};
use crate::plain_disk::PlainDisk;
use rpm_db::{Db, GetFault, Hits};
use rpm_outside::Disk;
use rpm_tags::Kind;
use std::alloc::{AllocError, Global};

// The plain header with a region, and after it an entry of tag 273, up to that entry's text of 64 bytes.
const REGION: [u8; 128] = [
    0, 0, 0, 6, 0, 0, 0, 0x59, //
    0, 0, 0, 0x3f, 0, 0, 0, 7, 0, 0, 0, 8, 0, 0, 0, 0x10, //
    0, 0, 3, 0xe8, 0, 0, 0, 6, 0, 0, 0, 0, 0, 0, 0, 1, //
    0, 0, 3, 0xe9, 0, 0, 0, 6, 0, 0, 0, 2, 0, 0, 0, 1, //
    0, 0, 3, 0xea, 0, 0, 0, 6, 0, 0, 0, 4, 0, 0, 0, 1, //
    0, 0, 3, 0xfe, 0, 0, 0, 6, 0, 0, 0, 6, 0, 0, 0, 1, //
    0, 0, 1, 0x11, 0, 0, 0, 6, 0, 0, 0, 0x18, 0, 0, 0, 1, //
    0x61, 0, 0x31, 0, 0x32, 0, 0x78, 0, //
    0, 0, 0, 0x3f, 0, 0, 0, 7, 0xff, 0xff, 0xff, 0xb0, 0, 0, 0, 0x10,
];

// The SHA-256 of the region as it stands in files, and a text that differs from it in its last digit.
const DIGEST: &[u8] = b"3d0d85fe20030bf49852a9bd894c16eaef3594996b7685ce400298d8bbab7e0d\0";

const OTHER: &[u8] = b"3d0d85fe20030bf49852a9bd894c16eaef3594996b7685ce400298d8bbab7e00\0";

// The packages of a store: number, bytes in front and after, the type of the entry 273 (6 is a text, 7 bytes), and
// the checksum. Those that aren't right are 0.
const SEVEN: &[(u32, &[u8], &[u8], u8, u32)] = &[
    (1, &PLAIN, b"more", 6, 0x761f_08a2),
    (2, &REGION, OTHER, 6, 0),
    (3, b"no header", b"", 6, 0),
    (4, &PLAIN, b"", 6, 0),
    (5, &REGION, DIGEST, 6, 0xa550_1ddc),
    (6, &REGION, OTHER, 6, 0xa51c_1da9),
    (7, &REGION, OTHER, 7, 0xa651_1dab),
];

/// A store of seven packages, of which 3 is no header and 4 has no end.
pub fn seven(alloc: Global) -> Result<Vec<u8>, AllocError> {
    let mut draft = Draft::new(alloc, 1, 1);
    for &(number, front, behind, kind, sum) in SEVEN {
        let mut blob = [front, behind].concat(alloc)?;
        if blob.len() > 128 {
            change(&mut blob, 95, &[kind]);
        }
        draft.push(number, &blob, sum)?;
    }
    let mut file = draft.finish(alloc, 4)?;
    change(&mut file, 4591, b"X");
    Ok(file)
}

/// Why a number's header can't be had, and whether it is these bytes.
pub fn header_of<D: Disk>(
    alloc: Global,
    disk: &mut D,
    n: u32,
    bytes: &[u8],
) -> (Option<GetFault>, bool) {
    let Ok(db) = Db::open_unindexed(alloc, disk) else {
        return (None, false);
    };
    match db.get(alloc, disk, n) {
        Ok(header) => (None, header.as_slice() == bytes),
        Err(fault) => (Some(fault), false),
    }
}

/// A database with its index, or without.
pub fn open(alloc: Global, disk: &mut PlainDisk, is_indexed: bool) -> Option<Db>
    ensures runs { IfSome result (λ db. db.stopped ≡ false) }
    ensures from_one { IfSome result (λ db. holds 0 db ≡ false) }
{
    if is_indexed {
        Db::open(alloc, disk).ok()
    } else {
        Db::open_unindexed(alloc, disk).ok()
    }
}

/// How many hits there are, and the sums of their numbers and of their places.
pub type Tally = (usize, u32, u32);

fn tally_of(hits: &Hits) -> Tally {
    let mut tally = (hits.len(), 0u32, 0u32);
    for k in 0..hits.len() {
        tally.1 = tally.1.wrapping_add(hits.at(k).number);
        tally.2 = tally.2.wrapping_add(hits.at(k).place);
    }
    tally
}

/// What the index finds of the name `a`. None where there is no index.
pub fn named<D: Disk>(alloc: Global, disk: &mut D) -> Option<Tally> {
    let db = Db::open(alloc, disk).ok()?;
    if !db.is_indexed() {
        return None;
    }
    let hits = db.find(alloc, disk, Kind::Name, b"a").ok()?;
    Some(tally_of(&hits))
}
