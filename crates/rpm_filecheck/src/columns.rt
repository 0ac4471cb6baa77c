//! What a header says of its files, one after the other.

ghost use Rattle.std.specs.Prelude.{◌≡◌, [], drop, slice_get, IfOk};
ghost use Rattle.rpm_filecheck.specs.Prelude.{columns, first_facts, first_or, list_or_empty, numbers_in, option_copied, rest_of, texts_in};
ghost use Rattle.rpm_filecheck.specs.Files as model;

use crate::owner::Owner;
use rpm_header::View;
use rpm_tags::{NumberIter, TextIter, numbers_in, texts_in};
use std::alloc::{AllocError, Global};
use std::marker::Model;

const FILEMODES: u32 = 1030;

const FILEDIGESTS: u32 = 1035;

const FILELINKTOS: u32 = 1036;

const FILEFLAGS: u32 = 1037;

/// What is left of the lists that stand beside the paths of a header. Contracts see these lists.
#[derive(Drop)]
pub struct Columns<'a> {
    modes: Option<NumberIter<'a>>,
    digests: Option<TextIter<'a>>,
    links: Option<TextIter<'a>>,
    flags: Option<NumberIter<'a>>,
}

impl<'a> Model for Columns<'a> {
    ghost Value = { model.Columns };

    ghost view = { λ s. record {
      modes = list_or_empty s.modes;
      digests = list_or_empty s.digests;
      links = list_or_empty s.links;
      flags = list_or_empty s.flags;
    } };
}

/// The numbers of a tag.
fn numbers<'a>(view: &View<'a>, tag: u32) -> Option<NumberIter<'a>>
    ensures { result ≡ numbers_in view.now tag }
{
    Some(numbers_in(view, tag)?.in_order())
}

/// The texts of a tag.
fn texts<'a>(view: &View<'a>, tag: u32) -> Option<TextIter<'a>>
    ensures { result ≡ texts_in view.now tag }
{
    Some(texts_in(view, tag)?.iter())
}

/// The next of some numbers, or 0.
fn take_number(numbers: &mut Option<NumberIter<'_>>) -> u64
    ensures value { result ≡ first_or 0 (list_or_empty numbers.old) }
    ensures left { list_or_empty numbers.new ≡ drop 1 (list_or_empty numbers.old) }
{
    match numbers {
        None => 0,
        Some(numbers) => numbers.next().unwrap_or(0),
    }
}

/// The next of some texts, where there are texts.
fn next_text<'a>(texts: &mut Option<TextIter<'a>>) -> Option<&'a [u8]>
    ensures value { option_copied result ≡ slice_get (list_or_empty texts.old) 0 }
    ensures left { list_or_empty texts.new ≡ drop 1 (list_or_empty texts.old) }
{
    match texts {
        None => None,
        Some(texts) => texts.next(),
    }
}

/// The next of some texts, or the empty text.
fn take_text<'a>(texts: &mut Option<TextIter<'a>>) -> &'a [u8]
    ensures value { result.now ≡ first_or [] (list_or_empty texts.old) }
    ensures left { list_or_empty texts.new ≡ drop 1 (list_or_empty texts.old) }
{
    match next_text(texts) {
        None => &[],
        Some(text) => text,
    }
}

/// A copy of some bytes.
pub fn copy(alloc: Global, bytes: &[u8]) -> Result<Vec<u8>, AllocError>
    ensures { IfOk result (λ v. v.items ≡ bytes.now) }
{
    bytes.to_vec(alloc)
}

impl<'a> Columns<'a> {
    /// Those of a header. Four look-ups in it.
    #[tactic(auto, unfolding(crate::specs::Files::columns))]
    pub fn of(view: &View<'a>) -> Columns<'a>
        ensures { result ≡ columns view.now }
    {
        Columns {
            modes: numbers(view, FILEMODES),
            digests: texts(view, FILEDIGESTS),
            links: texts(view, FILELINKTOS),
            flags: numbers(view, FILEFLAGS),
        }
    }

    /// Takes what is said of the next file, as an owner of its path.
    pub fn take(&mut self, alloc: Global, number: u32) -> Result<Owner, AllocError>
        ensures owner { IfOk result (λ owner. owner ≡ record { number = number; facts = first_facts self.old }) }
        ensures left { IfOk result (λ _owner. self.new ≡ rest_of self.old) }
    {
        let mode = take_number(&mut self.modes);
        let digest = take_text(&mut self.digests);
        let link = take_text(&mut self.links);
        let flags = take_number(&mut self.flags);
        Ok(Owner {
            number,
            mode,
            digest: copy(alloc, digest)?,
            link: copy(alloc, link)?,
            flags,
        })
    }
}
