//! An entry that is kept until its header is laid out.

ghost use Rattle.std.specs.Prelude.{◌≡◌, ◌≢◌, ◌++◌, ◌∷◌, [], ◌<◌, ◌≤◌, ◌*◌, ◌^◌, length, nat_lt, true, false, OnOk, IfOk, IsTrue};
ghost use Rattle.rpm_header.specs.Prelude.{AllFit, bin_item, byte_len, entry_bytes, has_numbers, is_region_tag, is_text_list, IsPacked, IsText, Item, numbers_item, ReadsBack, with_tag, text_item, texts_item, to_be_bytes, values, width};

use crate::entry::Entry;
use crate::form::Form;
use crate::text_list::{TextList, append_text};
use std::alloc::{AllocError, Global};
use std::marker::Model;

/// An entry with its elements' bytes as a header stores them. Contracts see it as an `Item`.
#[derive(Drop)]
pub struct PackedEntry {
    tag: u32,
    form: Form,
    count: usize,
    bytes: Vec<u8>,
}

impl Model for PackedEntry {
    ghost Value = { Item };

    ghost view = { λ s. record {
      tag = s.tag;
      form = s.form;
      count = s.count;
      values = values s.form s.count s.bytes.items;
    } };

    ghost invariant = { λ s. IsPacked s.form s.count s.bytes.items };
}

/// Adds a number in its form's width, the highest byte first.
fn append_number(bytes: &mut Vec<u8>, form: Form, number: u64) -> Result<(), AllocError>
    requires { nat_lt number (2 ^ (8 * byte_len (width form))) ≡ true }
    ensures { OnOk result (bytes.new.items ≡ bytes.old.items ++ to_be_bytes (width form) number) }
{
    match form {
        Form::Int16 => bytes.extend_from_slice(&(number as u16).to_be_bytes()),
        Form::Int32 => bytes.extend_from_slice(&(number as u32).to_be_bytes()),
        Form::Int64 => bytes.extend_from_slice(&number.to_be_bytes()),
        _ => bytes.extend_from_slice(&[number as u8]),
    }
}

impl PackedEntry {
    pub fn numbers(
        alloc: Global,
        tag: u32,
        form: Form,
        values: &[u64],
    ) -> Result<PackedEntry, AllocError>
        requires tag { is_region_tag tag ≡ false }
        requires numbers { IsTrue (has_numbers form) }
        requires some { 0 < length values.now }
        requires fit { AllFit form values.now }
        ensures value { IfOk result (λ entry. entry ≡ numbers_item tag form values.now) }
        ensures again { IfOk result (λ entry. ReadsBack entry) }
    {
        let mut bytes = Vec::new(alloc);
        for value in values {
            append_number(&mut bytes, form, *value)?;
        }
        Ok(PackedEntry {
            tag,
            form,
            count: values.len(),
            bytes,
        })
    }

    pub fn text(alloc: Global, tag: u32, text: &[u8]) -> Result<PackedEntry, AllocError>
        requires tag { is_region_tag tag ≡ false }
        requires text { IsText text.now }
        ensures value { IfOk result (λ entry. entry ≡ text_item tag text.now) }
        ensures again { IfOk result (λ entry. ReadsBack entry) }
    {
        let mut bytes = Vec::new(alloc);
        append_text(&mut bytes, text)?;
        Ok(PackedEntry {
            tag,
            form: Form::Text,
            count: 1,
            bytes,
        })
    }

    pub fn texts(
        alloc: Global,
        tag: u32,
        form: Form,
        texts: &TextList,
    ) -> Result<PackedEntry, AllocError>
        requires tag { is_region_tag tag ≡ false }
        requires texts { IsTrue (is_text_list form) }
        requires some { 0 < length texts.now }
        ensures value { IfOk result (λ entry. entry ≡ texts_item tag form texts.now) }
        ensures again { IfOk result (λ entry. ReadsBack entry) }
    {
        let bytes = Vec::from_slice(alloc, texts.bytes())?;
        Ok(PackedEntry {
            tag,
            form,
            count: texts.count(),
            bytes,
        })
    }

    pub fn bin(alloc: Global, tag: u32, bytes: &[u8]) -> Result<PackedEntry, AllocError>
        requires tag { is_region_tag tag ≡ false }
        requires some { 0 < length bytes.now }
        ensures value { IfOk result (λ entry. entry ≡ bin_item tag bytes.now) }
        ensures again { IfOk result (λ entry. ReadsBack entry) }
    {
        let count = bytes.len();
        let bytes = Vec::from_slice(alloc, bytes)?;
        Ok(PackedEntry {
            tag,
            form: Form::Bin,
            count,
            bytes,
        })
    }

    /// An entry of a header that was read, under another tag.
    pub fn stored(alloc: Global, tag: u32, entry: &Entry<'_>) -> Result<PackedEntry, AllocError>
        requires tag { is_region_tag tag ≡ false }
        requires elements { entry.now.form ≢ Form.Null }
        ensures value { IfOk result (λ packed. packed ≡ with_tag tag entry.now) }
        ensures again { IfOk result (λ packed. ReadsBack packed) }
    {
        let bytes = Vec::from_slice(alloc, entry.stored())?;
        Ok(PackedEntry {
            tag,
            form: entry.form(),
            count: entry.count() as usize,
            bytes,
        })
    }

    pub fn tag(&self) -> u32
        ensures { result ≡ self.now.tag }
    {
        self.tag
    }

    pub fn form(&self) -> Form
        ensures { result ≡ self.now.form }
    {
        self.form
    }

    /// The number of elements, of which each has a byte at least.
    #[tactic(auto, unfolding(crate::specs::Laid::entry_bytes))]
    pub fn count(&self) -> usize
        ensures value { result ≡ self.now.count }
        ensures few { result ≤ length (entry_bytes self.now) }
    {
        self.count
    }

    /// The elements as a header stores them.
    #[tactic(auto, unfolding(crate::specs::Laid::entry_bytes))]
    pub fn bytes(&self) -> &[u8]
        ensures { result.now ≡ entry_bytes self.now }
    {
        &self.bytes
    }
}
