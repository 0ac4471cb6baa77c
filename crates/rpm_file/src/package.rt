//! The main header of a package file.

ghost use Rattle.std.specs.Prelude.{◌≡◌, ◌≤◌, IsTrue, length, Ok, Err};
ghost use Rattle.rpm_file.specs.Prelude.{and_entries, AnswersBy, AnswersMade, AnswersPart, AnswersSkip, AnswersTake, AreStamps, behind_lead, behind_padding, behind_signature, Browses, early_fault, extent_behind, fault_in, HasCauseAt, HasIndexBytes, headed_with, Header, header, header_extent, is_lead, bytes_left, max_blob, merged_header, package_extent, package_header, package_with, padding_of, read_again, stamp_items, TakesAtMost};

use crate::bytes::u16_at;
use crate::fault::{FileFault, HeaderKind, ListFault};
use crate::filling::fill;
use crate::list::next_header;
use crate::merging::{Stamp, merged};
use rpm_header::{HeaderFault, View};
use rpm_outside::{Failed, Shelf};
use std::alloc::Global;
use std::marker::Model;

/// The main header of a package file with the entries of the signature header that join it. Contracts see it as a
/// `Header`.
#[derive(Drop)]
pub struct Package {
    blob: Vec<u8>,
}

impl Model for Package {
    ghost Value = { Header };

    ghost view = { λ s. read_again s.blob.items };

    ghost invariant = { λ s. header s.blob.items ≡ Ok (read_again s.blob.items) };
}

impl Package {
    /// The header's own bytes: its two lengths, its index, its data. Read again, they give this header. Takes nothing.
    pub fn header(&self) -> &[u8]
        ensures value { result.now ≡ self.now.blob }
        ensures again { header result.now ≡ Ok self.now }
    {
        &self.blob
    }

    /// The same bytes, in the vector that holds them.
    pub fn into_header(self) -> Vec<u8>
        ensures value { result.items ≡ self.blob }
        ensures again { header result.items ≡ Ok self }
    {
        self.blob
    }
}

/// Takes so many bytes as the buffer has.
fn take_all<S: Shelf>(shelf: &mut S, into: &mut [u8]) -> Result<(), FileFault>
    ensures answers { IsTrue S.tells → AnswersTake (S.rest shelf.old) (S.rest shelf.new) into.new result }
    ensures browses { Browses S.Shelf shelf.old shelf.new }
    ensures cause { HasCauseAt (result ≡ Err FileFault.ReadFault) (S.faults shelf.old) (S.faults shelf.new) }
    ensures extent { IsTrue S.tells → TakesAtMost (length into.old) (S.rest shelf.old) (S.rest shelf.new) }
{
    match fill(shelf, into) {
        Ok(count) => {
            if count == into.len() {
                Ok(())
            } else {
                Err(FileFault::Short)
            }
        }
        Err(Failed) => Err(FileFault::ReadFault),
    }
}

// What a lead begins with.
const LEAD: [u8; 4] = [0xed, 0xab, 0xee, 0xdb];

fn is_lead(lead: &[u8]) -> bool
    requires { 80 ≤ length lead.now }
    ensures { result ≡ is_lead lead.now }
{
    lead.starts_with(&LEAD) && u16_at(lead, 78) == 5
}

fn skip_lead<S: Shelf>(shelf: &mut S) -> Result<(), FileFault>
    ensures answers { IsTrue S.tells → AnswersSkip behind_lead (S.rest shelf.old) (S.rest shelf.new) result }
    ensures browses { Browses S.Shelf shelf.old shelf.new }
    ensures cause { HasCauseAt (result ≡ Err FileFault.ReadFault) (S.faults shelf.old) (S.faults shelf.new) }
    ensures extent { IsTrue S.tells → TakesAtMost 96 (S.rest shelf.old) (S.rest shelf.new) }
{
    let mut lead = [0u8; 96];
    take_all(shelf, &mut lead)?;
    if is_lead(&lead) {
        Ok(())
    } else {
        Err(FileFault::NotAPackage)
    }
}

/// Skips what fills a header of this length up to a multiple of 8.
fn skip_padding<S: Shelf>(shelf: &mut S, blob: &[u8]) -> Result<(), FileFault>
    requires { length blob.now ≤ max_blob }
    ensures answers { IsTrue S.tells → AnswersSkip (behind_padding blob.now) (S.rest shelf.old) (S.rest shelf.new) result }
    ensures browses { Browses S.Shelf shelf.old shelf.new }
    ensures cause { HasCauseAt (result ≡ Err FileFault.ReadFault) (S.faults shelf.old) (S.faults shelf.new) }
    ensures extent { IsTrue S.tells → TakesAtMost (padding_of blob.now) (S.rest shelf.old) (S.rest shelf.new) }
{
    let mut padding = [0u8; 8];
    let count = blob.len().next_multiple_of(8) - blob.len();
    take_all(shelf, &mut padding[..count])
}

fn fault_in(part: HeaderKind, fault: HeaderFault) -> FileFault
    ensures { result ≡ fault_in part fault }
{
    match part {
        HeaderKind::Signature => FileFault::Signature(fault),
        HeaderKind::Main => FileFault::Main(fault),
    }
}

fn early_fault(part: HeaderKind, fault: ListFault) -> FileFault
    ensures { result ≡ early_fault part fault }
{
    match fault {
        ListFault::Short => FileFault::Short,
        ListFault::BadMagic => FileFault::BadMagic,
        ListFault::TooManyEntries => fault_in(part, HeaderFault::TooManyEntries),
        ListFault::TooMuchData => fault_in(part, HeaderFault::TooMuchData),
        ListFault::ReadFault => FileFault::ReadFault,
        ListFault::NoMemory => FileFault::NoMemory,
    }
}

/// The bytes of one of the two headers, which may still have a fault in their entries.
fn read_part<S: Shelf>(alloc: Global, shelf: &mut S, part: HeaderKind) -> Result<Vec<u8>, FileFault>
    ensures answers { IsTrue S.tells → AnswersPart part (S.rest shelf.old) (S.rest shelf.new) result }
    ensures browses { Browses S.Shelf shelf.old shelf.new }
    ensures cause { HasCauseAt (result ≡ Err FileFault.ReadFault) (S.faults shelf.old) (S.faults shelf.new) }
    ensures extent { IsTrue S.tells → TakesAtMost (header_extent (bytes_left (S.rest shelf.old))) (S.rest shelf.old) (S.rest shelf.new) }
{
    match next_header(alloc, shelf) {
        Ok(Some(blob)) => Ok(blob),
        Ok(None) => Err(FileFault::Short),
        Err(fault) => Err(early_fault(part, fault)),
    }
}

/// Reads the main header after a signature header, with the caller's entries after all others.
fn read_main<S: Shelf>(
    alloc: Global,
    shelf: &mut S,
    signature: &View<'_>,
    stamps: &[Stamp],
) -> Result<Package, FileFault>
    requires { AreStamps stamps.now }
    ensures answers { IsTrue S.tells → AnswersBy (λ bytes. headed_with (stamp_items stamps.now) (behind_signature signature.now bytes))
        (S.rest shelf.old) (S.rest shelf.new) result }
    ensures browses { Browses S.Shelf shelf.old shelf.new }
    ensures cause { HasCauseAt (result ≡ Err FileFault.ReadFault) (S.faults shelf.old) (S.faults shelf.new) }
    ensures extent { IsTrue S.tells → TakesAtMost (extent_behind signature.now (bytes_left (S.rest shelf.old))) (S.rest shelf.old) (S.rest shelf.new) }
{
    skip_padding(shelf, signature.blob())?;
    let blob = read_part(alloc, shelf, HeaderKind::Main)?;
    let main = View::parse(&blob)?;
    joined(alloc, signature, &main, stamps)
}

fn joined(
    alloc: Global,
    signature: &View<'_>,
    main: &View<'_>,
    stamps: &[Stamp],
) -> Result<Package, FileFault>
    requires index { HasIndexBytes main.now }
    requires stamps { AreStamps stamps.now }
    ensures { AnswersMade (and_entries (stamp_items stamps.now) (merged_header signature.now.entries main.now)) result }
{
    let blob = merged(alloc, signature, main, stamps)?;
    Ok(Package { blob })
}

/// Reads the package file that is open, up to the end of its main header, and no byte after it. Where it answers a
/// fault no more was taken than up to the end of the part that has it.
///
/// Each header's body is read straight into a vector of its own, as `next_header` does it, and both are checked once.
/// What is handed up is a third vector. Takes time in proportion to the two headers, and to the texts that
/// `View::parse` reads.
///
/// # Errors
///
/// The first of these, in this order: `Short` where the file ends within its lead; `NotAPackage`; for the signature
/// header `Short` where it ends within its first 16 bytes, `BadMagic`, `Signature` with the limit that its two
/// lengths pass, `Short` where its body is cut, `Signature` with its first fault; `Short` where the padding is cut;
/// the same for the main header, with `Main`; `TooLarge` exactly where the header with the entries that join it
/// passes a limit. `ReadFault` only where a read failed, and `NoMemory` where no memory was found.
pub fn read_package<S: Shelf>(alloc: Global, shelf: &mut S) -> Result<Package, FileFault>
    ensures answers { IsTrue S.tells → AnswersBy package_header (S.rest shelf.old) (S.rest shelf.new) result }
    ensures browses { Browses S.Shelf shelf.old shelf.new }
    ensures cause { HasCauseAt (result ≡ Err FileFault.ReadFault) (S.faults shelf.old) (S.faults shelf.new) }
    ensures extent { IsTrue S.tells → TakesAtMost (package_extent (bytes_left (S.rest shelf.old))) (S.rest shelf.old) (S.rest shelf.new) }
{
    read_package_with(alloc, shelf, &[])
}

/// Reads the package file that is open, as `read_package` does, with entries of the caller's own after all others,
/// none of them a region. The header is laid out once.
///
/// # Errors
///
/// Those of `read_package`; `TooLarge` exactly where the header with all these entries passes a limit.
pub fn read_package_with<S: Shelf>(
    alloc: Global,
    shelf: &mut S,
    stamps: &[Stamp],
) -> Result<Package, FileFault>
    requires { AreStamps stamps.now }
    ensures answers { IsTrue S.tells → AnswersBy (package_with (stamp_items stamps.now)) (S.rest shelf.old) (S.rest shelf.new) result }
    ensures browses { Browses S.Shelf shelf.old shelf.new }
    ensures cause { HasCauseAt (result ≡ Err FileFault.ReadFault) (S.faults shelf.old) (S.faults shelf.new) }
    ensures extent { IsTrue S.tells → TakesAtMost (package_extent (bytes_left (S.rest shelf.old))) (S.rest shelf.old) (S.rest shelf.new) }
{
    skip_lead(shelf)?;
    let blob = read_part(alloc, shelf, HeaderKind::Signature)?;
    let signature = View::parse(&blob).map_err(FileFault::Signature)?;
    read_main(alloc, shelf, &signature, stamps)
}
