//! A header that is being made.

ghost use Rattle.std.specs.Prelude.{◌≡◌, ◌≢◌, ◌++◌, ◌∷◌, [], ◌<◌, ◌≤◌, ◌↔◌, length, false, OnOk, OnErr, IfOk, IsTrue, Ok, List};
ghost use Rattle.rpm_header.specs.Prelude.{AllByRecursion, AllFit, bin_item, data_of, has_numbers, header, is_region_tag, is_text_list, IsText, Item, laid_out, lengths_of, max_data, max_entries, numbers_item, ReadsBack, with_tag, text_item, texts_item, with_region};

use crate::entry::Entry;
use crate::form::Form;
use crate::laying::{
    BuildFault, Lengths, append_data, append_index, append_region_entry, append_trailer, begin,
    lengths_of,
};
use crate::packed::PackedEntry;
use crate::text_list::TextList;
use std::alloc::{AllocError, Global};
use std::marker::Model;

/// A header that is being made. Contracts see it as the list of its entries, in the order of their
/// pushes. A push refuses nothing: the limits of a header are looked at where it is laid out.
#[derive(Drop)]
pub struct Builder {
    alloc: Global,
    entries: Vec<PackedEntry>,
}

impl Model for Builder {
    ghost Value = { List Item };

    ghost view = { λ s. s.entries.items };

    ghost invariant = { λ s. AllByRecursion ReadsBack s.entries.items };
}

impl Builder {
    /// A header of no entry.
    pub fn new(alloc: Global) -> Builder
        ensures { result ≡ [] }
    {
        Builder {
            alloc,
            entries: Vec::new(alloc),
        }
    }

    fn push(&mut self, entry: PackedEntry) -> Result<(), AllocError>
        requires { ReadsBack entry }
        ensures ok { OnOk result (self.new ≡ self.old ++ entry ∷ []) }
        ensures err { OnErr result (self.new ≡ self.old) }
    {
        self.entries.push(entry)?;
        Ok(())
    }

    /// Adds an entry of numbers, which are written in the width of their form and with the highest
    /// byte first. Takes memory for these bytes.
    ///
    /// # Errors
    ///
    /// `AllocError` where no memory is found; the header is then as it was.
    pub fn push_numbers(&mut self, tag: u32, form: Form, values: &[u64]) -> Result<(), AllocError>
        requires tag { is_region_tag tag ≡ false }
        requires numbers { IsTrue (has_numbers form) }
        requires some { 0 < length values.now }
        requires fit { AllFit form values.now }
        ensures ok { OnOk result (self.new ≡ self.old ++ numbers_item tag form values.now ∷ []) }
        ensures err { OnErr result (self.new ≡ self.old) }
    {
        self.push(PackedEntry::numbers(self.alloc, tag, form, values)?)
    }

    /// Adds an entry of one text. Copies its bytes.
    ///
    /// # Errors
    ///
    /// `AllocError` where no memory is found; the header is then as it was.
    pub fn push_text(&mut self, tag: u32, text: &[u8]) -> Result<(), AllocError>
        requires tag { is_region_tag tag ≡ false }
        requires text { IsText text.now }
        ensures ok { OnOk result (self.new ≡ self.old ++ text_item tag text.now ∷ []) }
        ensures err { OnErr result (self.new ≡ self.old) }
    {
        self.push(PackedEntry::text(self.alloc, tag, text)?)
    }

    /// Adds an entry of several texts, of the form `Texts` or `I18n`. Copies their bytes.
    ///
    /// # Errors
    ///
    /// `AllocError` where no memory is found; the header is then as it was.
    pub fn push_texts(&mut self, tag: u32, form: Form, texts: &TextList) -> Result<(), AllocError>
        requires tag { is_region_tag tag ≡ false }
        requires texts { IsTrue (is_text_list form) }
        requires some { 0 < length texts.now }
        ensures ok { OnOk result (self.new ≡ self.old ++ texts_item tag form texts.now ∷ []) }
        ensures err { OnErr result (self.new ≡ self.old) }
    {
        self.push(PackedEntry::texts(self.alloc, tag, form, texts)?)
    }

    /// Adds an entry of bytes that are one value, a `Bin`. Copies them.
    ///
    /// # Errors
    ///
    /// `AllocError` where no memory is found; the header is then as it was.
    pub fn push_bin(&mut self, tag: u32, bytes: &[u8]) -> Result<(), AllocError>
        requires tag { is_region_tag tag ≡ false }
        requires some { 0 < length bytes.now }
        ensures ok { OnOk result (self.new ≡ self.old ++ bin_item tag bytes.now ∷ []) }
        ensures err { OnErr result (self.new ≡ self.old) }
    {
        self.push(PackedEntry::bin(self.alloc, tag, bytes)?)
    }

    /// Adds an entry of a header that was read, under a tag of the caller's. Copies its elements' bytes as they stand
    /// there.
    ///
    /// # Errors
    ///
    /// `AllocError` where no memory is found; the header is then as it was.
    pub fn push_entry(&mut self, tag: u32, entry: &Entry<'_>) -> Result<(), AllocError>
        requires tag { is_region_tag tag ≡ false }
        requires elements { entry.now.form ≢ Form.Null }
        ensures ok { OnOk result (self.new ≡ self.old ++ with_tag tag entry.now ∷ []) }
        ensures err { OnErr result (self.new ≡ self.old) }
    {
        self.push(PackedEntry::stored(self.alloc, tag, entry)?)
    }

    /// The entries, each of which reads back from its bytes.
    pub(crate) fn entries(&self) -> &[PackedEntry]
        ensures value { result.now ≡ self.now }
        ensures again { AllByRecursion ReadsBack self.now }
    {
        &self.entries
    }

    fn lengths(&self, region: bool) -> Result<Lengths, BuildFault>
        ensures { result ≡ lengths_of (length (with_region region self.now)) (length (data_of region self.now)) }
    {
        if region {
            lengths_of(1, 0, self.entries(), 16)
        } else {
            lengths_of(0, 0, self.entries(), 0)
        }
    }

    fn lay_out(&self, alloc: Global, region: bool, lengths: Lengths) -> Result<Vec<u8>, AllocError>
        requires { Ok lengths ≡ lengths_of (length (with_region region self.now)) (length (data_of region self.now)) }
        ensures laid { IfOk result (λ blob. blob.items ≡ laid_out region self.now) }
        ensures again { IfOk result (λ blob. header blob.items ≡ Ok (record { blob = blob.items; entries = with_region region self.now })) }
    {
        let mut blob = begin(alloc, lengths)?;
        append_region_entry(&mut blob, region, lengths)?;
        append_index(&mut blob, self.entries(), 0)?;
        append_data(&mut blob, self.entries(), 0)?;
        append_trailer(&mut blob, region, lengths.entries)?;
        Ok(blob)
    }

    /// The header of the entries, in the order of their pushes and without the eight bytes that
    /// stand before a header in files. Each entry's data stand at the least offset after those
    /// before it that is a multiple of its number's width, with zeros between. With `region` an
    /// entry of tag 63 stands first in the index, and its trailer of 16 bytes ends the data: the
    /// region is all of the header. Read again, the header has these entries, after the region's
    /// where there is one. The layout is that of rpm's documentation of the V4 header; that the
    /// trailer ends the data is this project's own.
    ///
    /// Takes one buffer of the header's length, and copies each entry's data once.
    ///
    /// # Errors
    ///
    /// `TooManyEntries` exactly where there would be more than 65,535 entries, the region's among
    /// them. Else `TooMuchData` exactly where there would be more than 67,108,864 bytes of data, with
    /// the trailer. Else `NoMemory` where no memory is found.
    pub fn finish(&self, alloc: Global, region: bool) -> Result<Vec<u8>, BuildFault>
        ensures laid { IfOk result (λ blob. blob.items ≡ laid_out region self.now) }
        ensures again { IfOk result (λ blob. header blob.items ≡ Ok (record { blob = blob.items; entries = with_region region self.now })) }
        ensures too_many { (result ≡ Err BuildFault.TooManyEntries) ↔ (max_entries < length (with_region region self.now)) }
        ensures too_much { (result ≡ Err BuildFault.TooMuchData)
            ↔ ((length (with_region region self.now) ≤ max_entries) × (max_data < length (data_of region self.now))) }
    {
        let lengths = self.lengths(region)?;
        match self.lay_out(alloc, region, lengths) {
            Ok(blob) => Ok(blob),
            Err(_) => Err(BuildFault::NoMemory),
        }
    }
}
