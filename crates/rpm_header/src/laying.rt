//! The layout of a header that is made.

ghost use Rattle.std.specs.Prelude.{◌≡◌, true, ◌+◌, ◌-◌, ◌≤◌, ◌<◌, ◌++◌, ◌*◌, ◌^◌, [], replicate, length, OnOk, IfOk, Some, None, nat_lt, if◌then◌else◌};
ghost use Rattle.rpm_header.specs.Prelude.{alignment, data_from, index_bytes, index_from, entry_in_index, kind_of, lengths_of, max_data, max_entries, next_multiple_of, region_item, to_be_bytes, trailer, w32};

use crate::form::Form;
use crate::index::{IndexEntry, MAIN_REGION, MAX_DATA, MAX_ENTRIES, alignment};
use crate::packed::PackedEntry;
use std::alloc::{AllocError, Global};

/// Why a header isn't made. The limits are looked at in the order in which they stand here, before
/// memory is asked for.
#[derive(Clone, Copy, Debug, PartialEq, Eq)]
pub enum BuildFault {
    /// It would have more than 65,535 entries.
    TooManyEntries,
    /// It would have more than 67,108,864 bytes of data.
    TooMuchData,
    /// No memory is found for it.
    NoMemory,
}

/// The two lengths in front of a header: its entries, and its bytes of data.
#[derive(Clone, Copy)]
pub struct Lengths {
    pub entries: u32,
    pub size: u32,
}

/// The type of a form.
fn kind_of(form: Form) -> u32
    ensures value { result ≡ kind_of form }
    ensures small { result < 10 }
{
    match form {
        Form::Null => 0,
        Form::Char => 1,
        Form::Int8 => 2,
        Form::Int16 => 3,
        Form::Int32 => 4,
        Form::Int64 => 5,
        Form::Text => 6,
        Form::Bin => 7,
        Form::Texts => 8,
        Form::I18n => 9,
    }
}

/// The least offset from `at` on that a form's data may begin at.
fn offset_from(at: usize, form: Form) -> usize
    requires { at ≤ max_data }
    ensures value { result ≡ next_multiple_of at (alignment form) }
    ensures near { result < at + 8 }
{
    at.next_multiple_of(alignment(form) as usize)
}

/// The end of the data of these entries, of which `start` bytes stand before. None where it passes
/// the limit.
fn data_end(entries: &[PackedEntry], start: usize) -> Option<usize>
    requires { start ≤ max_data }
    ensures { let end = start + length (data_from start entries.now) in result ≡ (if nat_lt max_data end then None else Some end) }
{
    let mut end = start;
    for entry in entries {
        let offset = offset_from(end, entry.form());
        end = offset + entry.bytes().len();
        if end > MAX_DATA as usize {
            return None;
        }
    }
    Some(end)
}

/// The lengths of a header in which these entries stand after so many others, and their data
/// between so many bytes in front and after; or the first limit that they pass.
pub fn lengths_of(
    others: usize,
    front: usize,
    entries: &[PackedEntry],
    behind: usize,
) -> Result<Lengths, BuildFault>
    requires others { others ≤ max_entries }
    requires front { front ≤ max_data }
    requires behind { behind ≤ 16 }
    ensures { result ≡ lengths_of (others + length entries.now) (front + length (data_from front entries.now) + behind) }
{
    let count = others + entries.len();
    if count > MAX_ENTRIES as usize {
        return Err(BuildFault::TooManyEntries);
    }
    let Some(end) = data_end(entries, front) else {
        return Err(BuildFault::TooMuchData);
    };
    let size = end + behind;
    if size > MAX_DATA as usize {
        return Err(BuildFault::TooMuchData);
    }
    Ok(Lengths {
        entries: count as u32,
        size: size as u32,
    })
}

/// The two lengths, in a buffer with room for the header that they tell.
pub fn begin(alloc: Global, lengths: Lengths) -> Result<Vec<u8>, AllocError>
    requires entries { lengths.entries ≤ max_entries }
    requires size { lengths.size ≤ max_data }
    ensures { IfOk result (λ out. out.items ≡ to_be_bytes w32 lengths.entries ++ to_be_bytes w32 lengths.size) }
{
    let room = 8 + 16 * lengths.entries as usize + lengths.size as usize;
    let mut out = Vec::with_capacity(alloc, room)?;
    append_u32(&mut out, lengths.entries)?;
    append_u32(&mut out, lengths.size)?;
    Ok(out)
}

fn append_u32(out: &mut Vec<u8>, number: u32) -> Result<(), AllocError>
    ensures { OnOk result (out.new.items ≡ out.old.items ++ to_be_bytes w32 number) }
{
    out.extend_from_slice(&number.to_be_bytes())
}

#[tactic(auto, unfolding(crate::specs::Laid::index_bytes))]
fn append_index_entry(out: &mut Vec<u8>, entry: IndexEntry) -> Result<(), AllocError>
    ensures { OnOk result (out.new.items ≡ out.old.items ++ index_bytes entry) }
{
    append_u32(out, entry.tag)?;
    append_u32(out, entry.kind)?;
    append_u32(out, entry.offset)?;
    append_u32(out, entry.count)
}

/// Adds the index of these entries, of which so many bytes of data stand in front.
pub fn append_index(
    out: &mut Vec<u8>,
    entries: &[PackedEntry],
    front: usize,
) -> Result<(), AllocError>
    requires { front + length (data_from front entries.now) ≤ max_data }
    ensures { OnOk result (out.new.items ≡ out.old.items ++ index_from front entries.now) }
{
    let mut end = front;
    for entry in entries {
        let form = entry.form();
        let offset = offset_from(end, form);
        append_index_entry(
            out,
            IndexEntry {
                tag: entry.tag(),
                kind: kind_of(form),
                offset: offset as u32,
                count: entry.count() as u32,
            },
        )?;
        end = offset + entry.bytes().len();
    }
    Ok(())
}

fn append_zeros(out: &mut Vec<u8>, count: usize) -> Result<(), AllocError>
    requires { count < 8 }
    ensures { OnOk result (out.new.items ≡ out.old.items ++ replicate count 0) }
{
    out.extend_from_slice(&[0; 8][..count])
}

/// Adds the data of these entries, of which so many bytes stand in front.
pub fn append_data(
    out: &mut Vec<u8>,
    entries: &[PackedEntry],
    front: usize,
) -> Result<(), AllocError>
    requires { front + length (data_from front entries.now) ≤ max_data }
    ensures { OnOk result (out.new.items ≡ out.old.items ++ data_from front entries.now) }
{
    let mut end = front;
    for entry in entries {
        let offset = offset_from(end, entry.form());
        append_zeros(out, offset - end)?;
        let bytes = entry.bytes();
        out.extend_from_slice(bytes)?;
        end = offset + bytes.len();
    }
    Ok(())
}

/// Adds the index entry of a region whose trailer stands after so many bytes of data.
pub fn append_region_entry(
    out: &mut Vec<u8>,
    region: bool,
    lengths: Lengths,
) -> Result<(), AllocError>
    requires { region ≡ true → 16 ≤ lengths.size }
    ensures { OnOk result (out.new.items ≡ out.old.items
        ++ (if region then index_bytes (entry_in_index (lengths.size - 16) (region_item lengths.entries)) else [])) }
{
    if !region {
        return Ok(());
    }
    append_index_entry(
        out,
        IndexEntry {
            tag: MAIN_REGION,
            kind: 7,
            offset: lengths.size - 16,
            count: 16,
        },
    )
}

/// Adds the trailer of a region of so many entries.
pub fn append_trailer(out: &mut Vec<u8>, region: bool, entries: u32) -> Result<(), AllocError>
    requires some { region ≡ true → 0 < entries }
    requires few { entries ≤ max_entries }
    ensures { OnOk result (out.new.items ≡ out.old.items ++ (if region then trailer entries else [])) }
{
    if !region {
        return Ok(());
    }
    let back = (1u64 << 32) - 16 * entries as u64;
    append_index_entry(
        out,
        IndexEntry {
            tag: MAIN_REGION,
            kind: 7,
            offset: back as u32,
            count: 16,
        },
    )
}
