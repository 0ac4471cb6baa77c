//! The index of a header, its limits, and the faults of its entries.

ghost use Rattle.std.specs.Prelude.{◌≡◌, true, ◌+◌, ◌*◌, ◌≤◌, ◌<◌, length, drop};
ghost use Rattle.rpm_header.specs.Prelude.{alignment, counts_back, element_fault, fault_at, form_fault, form_of, has_texts, index_entry_at, is_bad_count, is_region_tag, region_fault, section_of};

use crate::bytes::u32_at;
use crate::ends::TextEnds;
use crate::form::{Form, HeaderFault};

/// The most entries that a header has.
pub const MAX_ENTRIES: u32 = 65_535;

/// The most bytes of data that a header has.
pub const MAX_DATA: u32 = 67_108_864;

/// The tag of the region of a signature header.
const SIGNATURE_REGION: u32 = 62;

/// The tag of the region of a main header.
pub const MAIN_REGION: u32 = 63;

/// One entry of the index: four numbers of four bytes.
#[derive(Clone, Copy)]
pub struct IndexEntry {
    pub tag: u32,
    pub kind: u32,
    pub offset: u32,
    pub count: u32,
}

/// The form of a type, and None above 9.
pub fn form_of(kind: u32) -> Option<Form>
    ensures { result ≡ form_of kind }
{
    match kind {
        0 => Some(Form::Null),
        1 => Some(Form::Char),
        2 => Some(Form::Int8),
        3 => Some(Form::Int16),
        4 => Some(Form::Int32),
        5 => Some(Form::Int64),
        6 => Some(Form::Text),
        7 => Some(Form::Bin),
        8 => Some(Form::Texts),
        9 => Some(Form::I18n),
        _ => None,
    }
}

/// The width of a number of this form, of which its offset is a multiple. Of any other form it is
/// 1.
pub fn alignment(form: Form) -> u32
    ensures value { result ≡ alignment form }
    ensures small { result ≤ 8 }
    ensures positive { 0 < result }
{
    match form {
        Form::Int16 => 2,
        Form::Int32 => 4,
        Form::Int64 => 8,
        _ => 1,
    }
}

pub fn has_texts(form: Form) -> bool
    ensures { result ≡ has_texts form }
{
    matches!(form, Form::Text | Form::Texts | Form::I18n)
}

fn is_region_tag(tag: u32) -> bool
    ensures { result ≡ is_region_tag tag }
{
    tag == SIGNATURE_REGION || tag == MAIN_REGION
}

/// The four numbers from a place of the blob on.
pub fn index_entry_at(blob: &[u8], at: usize) -> IndexEntry
    requires { at + 16 ≤ length blob.now }
    ensures { result ≡ index_entry_at blob.now at }
{
    IndexEntry {
        tag: u32_at(blob, at),
        kind: u32_at(blob, at + 4),
        offset: u32_at(blob, at + 8),
        count: u32_at(blob, at + 12),
    }
}

/// Whether so many elements can't stand in these bytes, the data from the entry's offset on. A
/// text's bytes aren't looked at.
fn is_bad_count(form: Form, count: u32, bytes: &[u8]) -> bool
    ensures { result ≡ is_bad_count form count bytes.now }
{
    match form {
        Form::Text => count != 1,
        Form::Texts | Form::I18n => count == 0,
        _ => count == 0 || (bytes.len() as u64) < count as u64 * alignment(form) as u64,
    }
}

/// The fault of an entry of texts, whose bytes are looked at only where there may be as many.
#[inline(always)]
fn text_fault(form: Form, i: u32, entry: IndexEntry, ends: &mut TextEnds<'_>) -> Option<HeaderFault>
    requires texts { has_texts form ≡ true }
    requires within { entry.offset ≤ length ends.old }
    ensures value { result ≡ element_fault form i entry.count (drop entry.offset ends.old) }
    ensures same { ends.new ≡ ends.old }
{
    let offset = entry.offset as usize;
    let section = ends.section();
    if is_bad_count(form, entry.count, &section[offset..]) {
        Some(HeaderFault::BadCount(i))
    } else if !ends.are_ended(entry.count, offset) {
        Some(HeaderFault::NoEnd(i))
    } else {
        None
    }
}

#[inline(always)]
fn element_fault(
    form: Form,
    i: u32,
    entry: IndexEntry,
    ends: &mut TextEnds<'_>,
) -> Option<HeaderFault>
    requires { entry.offset ≤ length ends.old }
    ensures value { result ≡ element_fault form i entry.count (drop entry.offset ends.old) }
    ensures same { ends.new ≡ ends.old }
{
    if has_texts(form) {
        return text_fault(form, i, entry, ends);
    }
    let section = ends.section();
    if is_bad_count(form, entry.count, &section[entry.offset as usize..]) {
        Some(HeaderFault::BadCount(i))
    } else {
        None
    }
}

/// The fault of entry i as any entry may have it, over the whole data.
#[inline(always)]
fn form_fault(
    form: Option<Form>,
    i: u32,
    entry: IndexEntry,
    ends: &mut TextEnds<'_>,
) -> Option<HeaderFault>
    ensures value { result ≡ form_fault form i entry ends.old }
    ensures same { ends.new ≡ ends.old }
{
    let Some(form) = form else {
        return Some(HeaderFault::BadType(i));
    };
    if form == Form::Null {
        return None;
    }
    if entry.offset as usize > ends.section().len() || entry.offset % alignment(form) != 0 {
        return Some(HeaderFault::BadOffset(i));
    }
    element_fault(form, i, entry, ends)
}

/// Whether a number, read as signed, is `-16 * r` for some r from 1 to il.
fn counts_back(il: u32, n: u32) -> bool
    ensures { result ≡ counts_back il n }
{
    let below = (1u64 << 32) - n as u64;
    below % 16 == 0 && below / 16 <= il as u64
}

fn region_fault(il: u32, entry: IndexEntry, section: &[u8]) -> Option<HeaderFault>
    requires { entry.kind ≡ 7 → entry.count ≡ 16 → entry.offset + 16 ≤ length section.now }
    ensures { result ≡ region_fault il entry section.now }
{
    // A Bin of 16 bytes lies within the data: its count was checked before.
    let is_trailer = entry.kind == 7 && entry.count == 16;
    if is_trailer && counts_back(il, u32_at(section, entry.offset as usize + 8)) {
        None
    } else {
        Some(HeaderFault::BadRegion)
    }
}

/// The data of a header of il entries, whose own bytes are the blob.
pub fn section_of(il: u32, blob: &[u8]) -> &[u8]
    requires { 8 + 16 * il ≤ length blob.now }
    ensures { result.now ≡ section_of il blob.now }
{
    &blob[8 + 16 * il as usize..]
}

/// The first fault of entry i of a header of il entries, whose own bytes are the blob. Reads the
/// entry once, and of its texts what `TextEnds` reads.
#[inline(always)]
#[tactic(auto, unfolding(crate::specs::Header::fault_at))]
pub fn fault_at(il: u32, blob: &[u8], i: u32, ends: &mut TextEnds<'_>) -> Option<HeaderFault>
    requires below { i < il }
    requires index { 8 + 16 * il ≤ length blob.now }
    requires section { ends.old ≡ section_of il blob.now }
    ensures value { result ≡ fault_at il blob.now i }
    ensures same { ends.new ≡ ends.old }
{
    let entry = index_entry_at(blob, 8 + 16 * i as usize);
    let fault = form_fault(form_of(entry.kind), i, entry, ends);
    if fault.is_none() && i == 0 && is_region_tag(entry.tag) {
        region_fault(il, entry, ends.section())
    } else {
        fault
    }
}
