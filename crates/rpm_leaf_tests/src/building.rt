//! Headers that are built. The layouts below were made by a program of a few lines in Python, which
//! packs an entry's numbers after filling up with zeros.

ghost use Rattle.std.specs.Prelude.{◌≡◌, ◌∷◌, [], IfOk};
ghost use Rattle.rpm_header.specs.Build.{IsText};

use crate::fixtures::{
    INSTALLED, LIBRARY, PLAIN, REGION, REGION_INSTALLED, SHELL, SNAPSHOT, bytes_of,
};
use rpm_header::{BuildFault, Builder, Form, TextList, View, with_dribbles};
use std::alloc::{AllocError, Global};

// An entry of each form, of lengths such that zeros stand before each number that has a width.
const ALIGNED: &str = "0000000d 00000050
    000007d0 00000001 00000000 00000001
    000007d1 00000003 00000002 00000001
    000007d2 00000002 00000004 00000001
    000007d3 00000004 00000008 00000001
    000007d4 00000007 0000000c 00000003
    000007d5 00000005 00000010 00000002
    000007d6 00000006 00000020 00000001
    000007d7 00000009 00000022 00000002
    000007d8 00000004 00000028 00000002
    000007d9 00000008 00000030 00000003
    000007da 00000005 00000038 00000001
    000007db 00000001 00000040 00000001
    000007dc 00000005 00000048 00000001
    41008001 01000000 ffffffff dead0000 ffffffff ffffffff 00000000 00000002 78006100 62630000
    00000005 00000006 00797a00 00000000 00000000 00000001 ff000000 00000000 00000000 00000000";

fn pair(alloc: Global, first: &[u8], second: &[u8]) -> Result<TextList, AllocError>
    requires first { IsText first.now }
    requires second { IsText second.now }
    ensures { IfOk result (λ texts. texts ≡ first.now ∷ second.now ∷ []) }
{
    let mut texts = TextList::new(alloc);
    texts.add(first)?;
    texts.add(second)?;
    Ok(texts)
}

fn aligned(alloc: Global) -> Result<Builder, AllocError> {
    let mut builder = Builder::new(alloc);
    builder.push_numbers(2000, Form::Char, &[0x41])?;
    builder.push_numbers(2001, Form::Int16, &[0x8001])?;
    builder.push_numbers(2002, Form::Int8, &[1])?;
    builder.push_numbers(2003, Form::Int32, &[0xffff_ffff])?;
    builder.push_bin(2004, &[0xde, 0xad, 0])?;
    builder.push_numbers(2005, Form::Int64, &[u64::MAX, 2])?;
    push_aligned_texts(alloc, &mut builder)?;
    Ok(builder)
}

fn push_aligned_texts(alloc: Global, builder: &mut Builder) -> Result<(), AllocError> {
    builder.push_text(2006, b"x")?;
    builder.push_texts(2007, Form::I18n, &pair(alloc, b"a", b"bc")?)?;
    builder.push_numbers(2008, Form::Int32, &[5, 6])?;
    let mut texts = pair(alloc, b"", b"yz")?;
    texts.add(b"")?;
    builder.push_texts(2009, Form::Texts, &texts)?;
    builder.push_numbers(2010, Form::Int64, &[1])?;
    builder.push_numbers(2011, Form::Char, &[0xff])?;
    builder.push_numbers(2012, Form::Int64, &[0])
}

/// The entries of a header, its region aside, as they are pushed again.
fn builder_of(alloc: Global, hex: &str) -> Result<Builder, AllocError> {
    let blob = bytes_of(alloc, hex)?;
    let mut builder = Builder::new(alloc);
    if let Ok(view) = View::parse(&blob) {
        for i in 0..view.entries() {
            let entry = view.entry(i);
            let tag = entry.tag();
            if tag != 62 && tag != 63 && entry.form() != Form::Null {
                builder.push_entry(tag, &entry)?;
            }
        }
    }
    Ok(builder)
}

/// Whether a header was made, of these bytes.
fn is_made(
    alloc: Global,
    made: Result<Vec<u8>, BuildFault>,
    hex: &str,
) -> Result<bool, AllocError> {
    match made {
        Ok(blob) => Ok(blob.as_slice() == bytes_of(alloc, hex)?.as_slice()),
        Err(_) => Ok(false),
    }
}

const EMPTY: &str = "00000000 00000000";

// Headers whose entries are laid out, whether with a region, and what they become.
const LAID: &[(&str, bool, &str)] = &[
    (PLAIN, false, PLAIN),
    (PLAIN, true, REGION),
    (REGION, false, PLAIN),
    (SHELL, false, SHELL),
    (LIBRARY, false, LIBRARY),
    (SNAPSHOT, false, SNAPSHOT),
    (ALIGNED, false, ALIGNED),
    (EMPTY, false, EMPTY),
];

/// Whether the entries of a header become another one.
fn is_laid(alloc: Global, hex: &str, has_region: bool, want: &str) -> Result<bool, AllocError> {
    let made = builder_of(alloc, hex)?.finish(alloc, has_region);
    is_made(alloc, made, want)
}

/// Whether the entries of each form become their header.
fn is_aligned(alloc: Global) -> Result<bool, AllocError> {
    let made = aligned(alloc)?.finish(alloc, false);
    is_made(alloc, made, ALIGNED)
}

// The library's snapshot with a number, a text and a number of eight bytes after it.
const SNAPSHOT_INSTALLED: &str = "0000000a 00000040
    000003e8 00000006 00000000 00000001
    000003e9 00000006 00000005 00000001
    000003ea 00000006 0000000e 00000001
    000003fe 00000006 00000010 00000001
    00000417 00000008 00000017 00000001
    00000458 00000004 0000001c 00000001
    00000459 00000008 00000020 00000001
    000003f0 00000004 0000002c 00000001
    00000101 00000006 00000030 00000001
    00000468 00000005 00000038 00000001
    6c696278 00312e30 5e676974 31003100 6e6f6172 6368006c 69627800 00000008 312e305e 67697431
    00000000 00000005 79000000 00000000 00000002 00000000";

// The time and the transaction of an installation, and a number, a text and a number of eight bytes.
const TIMES: &str = "00000002 00000008
    000003f0 00000004 00000000 00000001
    00000468 00000004 00000004 00000001
    00000005 00000005";

const TIMES_AND_TEXT: &str = "00000003 00000010
    000003f0 00000004 00000000 00000001
    00000101 00000006 00000004 00000001
    00000468 00000005 00000008 00000001
    00000005 79000000 00000002 00000000";

// Headers, the entries that come after theirs, and what they become.
const DRIBBLED: &[(&str, &str, &str)] = &[
    (PLAIN, TIMES, INSTALLED),
    (REGION, TIMES, REGION_INSTALLED),
    (SNAPSHOT, TIMES_AND_TEXT, SNAPSHOT_INSTALLED),
    (SNAPSHOT, EMPTY, SNAPSHOT),
];

/// What a header becomes with the entries of another after its own.
fn dribbled(alloc: Global, blob: &[u8], extra: &str) -> Result<Vec<u8>, BuildFault> {
    let Ok(extra) = builder_of(alloc, extra) else {
        return Err(BuildFault::NoMemory);
    };
    match View::parse(blob) {
        Ok(view) => with_dribbles(alloc, &view, &extra),
        Err(_) => Err(BuildFault::NoMemory),
    }
}

/// Whether a header becomes another one with these entries after its own.
fn is_dribbled(alloc: Global, hex: &str, extra: &str, want: &str) -> Result<bool, AllocError> {
    let made = dribbled(alloc, &bytes_of(alloc, hex)?, extra);
    is_made(alloc, made, want)
}

/// Whether a header was made, of so many bytes.
fn has_length(made: Result<Vec<u8>, BuildFault>, length: usize) -> bool {
    match made {
        Ok(blob) => blob.len() == length,
        Err(_) => false,
    }
}

/// Pushes empty texts.
fn push_empty(builder: &mut Builder, count: u32) -> Result<(), AllocError> {
    for _ in 0..count {
        builder.push_text(1000, b"")?;
    }
    Ok(())
}

/// Whether a header of these entries may have two numbers after them, has so many bytes then, and may not have three
/// entries after them.
fn is_full(
    alloc: Global,
    builder: &Builder,
    length: usize,
    fault: BuildFault,
) -> Result<bool, BuildFault> {
    let blob = builder.finish(alloc, false)?;
    let more = dribbled(alloc, &blob, TIMES_AND_TEXT).err();
    Ok(has_length(dribbled(alloc, &blob, TIMES), length) && more == Some(fault))
}

/// Whether as many entries as a header may have are laid out, and one more is refused: after a header, as a region
/// and where the data are too much besides.
fn entries_end(alloc: Global) -> Result<bool, AllocError> {
    let mut many = Builder::new(alloc);
    push_empty(&mut many, 65_533)?;
    let length = 8 + 17 * 65_533 + 3 + 2 * 20;
    let few = is_full(alloc, &many, length, BuildFault::TooManyEntries) == Ok(true);
    push_empty(&mut many, 2)?;
    let most = has_length(many.finish(alloc, false), 8 + 17 * 65_535);
    let region = many.finish(alloc, true).err() == Some(BuildFault::TooManyEntries);
    // With both limits passed, the number of entries is told.
    many.push_bin(1000, &Vec::from_elem(alloc, 0, 67_108_864)?)?;
    let both = many.finish(alloc, false).err() == Some(BuildFault::TooManyEntries);
    Ok(few && most && region && both)
}

/// Whether as many bytes of data as a header may have are laid out, and one more is refused: after a header and as a
/// region.
fn bytes_end(alloc: Global) -> Result<bool, AllocError> {
    let mut much = Builder::new(alloc);
    much.push_bin(1000, &Vec::from_elem(alloc, 0, 67_108_856)?)?;
    let length = 8 + 16 * 3 + 67_108_864;
    let few = is_full(alloc, &much, length, BuildFault::TooMuchData) == Ok(true);
    much.push_numbers(1001, Form::Int64, &[0])?;
    let most = has_length(much.finish(alloc, false), 8 + 16 * 2 + 67_108_864);
    let region = much.finish(alloc, true).err() == Some(BuildFault::TooMuchData);
    Ok(few && most && region)
}

fn unlike_laid(alloc: Global) -> Option<&'static str> {
    for &(hex, has_region, want) in LAID {
        if is_laid(alloc, hex, has_region, want) != Ok(true) {
            return Some(want);
        }
    }
    None
}

fn unlike_dribbled(alloc: Global) -> Option<&'static str> {
    for &(hex, extra, want) in DRIBBLED {
        if is_dribbled(alloc, hex, extra, want) != Ok(true) {
            return Some(want);
        }
    }
    None
}

#[test]
fn headers_are_built_up_to_their_limits(rt: HostRuntime) {
    let alloc = rt.alloc();
    let laid = unlike_laid(alloc);
    let aligned = is_aligned(alloc);
    let dribbled = unlike_dribbled(alloc);
    let entries = entries_end(alloc);
    let bytes = bytes_end(alloc);
    let is_same = laid.is_none() && dribbled.is_none() && aligned == Ok(true);
    assert!(rt;
        is_same && entries == Ok(true) && bytes == Ok(true),
        "{laid:?} {aligned:?} {dribbled:?} {entries:?} {bytes:?}"
    );
}
