//! The entries that come after the main header's own: those of the signature header that join it, and the caller's.

ghost use Rattle.std.specs.Prelude.{◌≡◌, ◌<◌, ◌++◌, List, length, false, IfOk, IfSome, OnOk};
ghost use Rattle.rpm_file.specs.Prelude.{and_entries, AnswersBytes, AreStamps, dribbles, HasIndexBytes, HasTags, is_null, is_region_tag, Item, joins_as, JoinsUnder, made_fault, merged_header, stamp_items, header_with_entries};

use crate::fault::FileFault;
use rpm_header::{BuildFault, Builder, Entry, Form, View, with_dribbles};
use std::alloc::{AllocError, Global};

/// An entry of one `Int32` that a caller adds to a package's header.
#[derive(Clone, Copy)]
pub struct Stamp {
    pub tag: u32,
    pub number: u32,
}

/// The tag under which an entry of the signature header joins, by its own tag.
fn joins_as(tag: u32) -> Option<u32>
    ensures value { result ≡ joins_as tag }
    ensures own { IfSome result (λ t. is_region_tag t ≡ false) }
    ensures small { IfSome result (λ t. t < 1047) }
{
    match tag {
        256..=999 => Some(tag),
        1000 => Some(257),
        1004 => Some(261),
        1007 => Some(1046),
        _ => None,
    }
}

// Each tag under which an entry joins is below this.
const TAGS: usize = 1047;

/// For each of these tags, whether the header has it. Reads each entry of its index once, so that no entry of
/// the signature header has to be looked for in it.
fn tags_of(alloc: Global, main: &View<'_>) -> Result<Vec<bool>, AllocError>
    ensures { IfOk result (λ has. HasTags main.now.entries has.items) }
{
    let mut has = Vec::new(alloc);
    has.resize(TAGS, false)?;
    for i in 0..main.entries() {
        let tag = main.entry(i).tag() as usize;
        if tag < TAGS {
            has[tag] = true;
        }
    }
    Ok(has)
}

fn is_null(form: Form) -> bool
    ensures { result ≡ is_null form }
{
    matches!(form, Form::Null)
}

/// The tag under which an entry joins the header of which these are the tags; None where it doesn't join.
fn tag_for(has: &[bool], entry: &Entry<'_>) -> Option<u32>
    requires { length has.now ≡ 1047 }
    ensures { (main : List Item) → HasTags main has.now → JoinsUnder main entry.now result }
{
    if is_null(entry.form()) {
        return None;
    }
    let tag = joins_as(entry.tag())?;
    if has[tag as usize] {
        return None;
    }
    Some(tag)
}

/// The entries of the signature header that join the main header.
fn dribbles_of(alloc: Global, main: &View<'_>, signature: &View<'_>) -> Result<Builder, AllocError>
    ensures { IfOk result (λ b. b ≡ dribbles main.now.entries signature.now.entries) }
{
    let has = tags_of(alloc, main)?;
    let mut builder = Builder::new(alloc);
    for i in 0..signature.entries() {
        let entry = signature.entry(i);
        if let Some(tag) = tag_for(&has, &entry) {
            builder.push_entry(tag, &entry)?;
        }
    }
    Ok(builder)
}

fn fault_of(fault: BuildFault) -> FileFault
    ensures { result ≡ made_fault fault }
{
    match fault {
        BuildFault::TooManyEntries | BuildFault::TooMuchData => FileFault::TooLarge,
        BuildFault::NoMemory => FileFault::NoMemory,
    }
}

/// A header with the builder's entries after its own.
fn with_entries(alloc: Global, main: &View<'_>, more: &Builder) -> Result<Vec<u8>, FileFault>
    ensures { AnswersBytes (header_with_entries main.now more.now) result }
{
    match with_dribbles(alloc, main, more) {
        Ok(blob) => Ok(blob),
        Err(fault) => Err(fault_of(fault)),
    }
}

/// Adds entries of the caller's own after those of a builder.
fn push_stamps(builder: &mut Builder, stamps: &[Stamp]) -> Result<(), AllocError>
    requires { AreStamps stamps.now }
    ensures { OnOk result (builder.new ≡ builder.old ++ stamp_items stamps.now) }
{
    for stamp in stamps {
        builder.push_numbers(stamp.tag, Form::Int32, &[u64::from(stamp.number)])?;
    }
    Ok(())
}

/// All entries that come after the main header's own.
fn joining(
    alloc: Global,
    signature: &View<'_>,
    main: &View<'_>,
    stamps: &[Stamp],
) -> Result<Builder, AllocError>
    requires { AreStamps stamps.now }
    ensures { IfOk result (λ b. b ≡ dribbles main.now.entries signature.now.entries ++ stamp_items stamps.now) }
{
    let mut more = dribbles_of(alloc, main, signature)?;
    push_stamps(&mut more, stamps)?;
    Ok(more)
}

/// The main header with the entries of the signature header that join it, and the caller's own after these. It is
/// laid out once.
///
/// # Errors
///
/// `TooLarge` exactly where it would pass a limit of a header, `NoMemory` where no memory was found.
pub fn merged(
    alloc: Global,
    signature: &View<'_>,
    main: &View<'_>,
    stamps: &[Stamp],
) -> Result<Vec<u8>, FileFault>
    requires index { HasIndexBytes main.now }
    requires stamps { AreStamps stamps.now }
    ensures { AnswersBytes (and_entries (stamp_items stamps.now) (merged_header signature.now.entries main.now)) result }
{
    match joining(alloc, signature, main, stamps) {
        Ok(more) => with_entries(alloc, main, &more),
        Err(AllocError) => Err(FileFault::NoMemory),
    }
}
