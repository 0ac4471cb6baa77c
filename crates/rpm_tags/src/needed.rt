//! What a package needs or gives: names, each with flags and a version beside it.

ghost use Rattle.std.specs.Prelude.{◌≡◌, [], drop, slice_get, List};
ghost use Rattle.rpm_tags.specs.Prelude.{beside, dependencies, first_or, item_count, list_or_empty, NamesHavePlaces, Need, option_copied, YieldsFirstBy};

use crate::stored::{Numbers, TextIter, numbers_in, texts_in};
use rpm_header::View;
use std::marker::Model;

/// The tags of what is needed or given.
#[derive(Clone, Copy)]
pub struct Tags {
    pub names: u32,
    pub flags: u32,
    pub versions: u32,
}

/// A name with the flags and the version at its place.
#[derive(Clone, Copy)]
pub struct Dependency<'a> {
    pub name: &'a [u8],
    pub flags: u64,
    pub version: &'a [u8],
}

/// What is left of what a package needs or gives. Contracts see it as the list of it.
#[derive(Drop)]
pub struct DependencyIter<'a> {
    names: Option<TextIter<'a>>,
    flags: Option<Numbers<'a>>,
    versions: Option<TextIter<'a>>,
    place: u32,
}

impl<'a> Model for DependencyIter<'a> {
    ghost Value = { List Need };

    ghost view = { λ s. beside (list_or_empty s.names) (drop s.place (list_or_empty s.flags)) (list_or_empty s.versions) };

    ghost invariant = { λ s. NamesHavePlaces s.names s.place };
}

/// The next of some texts, where there are texts.
fn take_text<'a>(texts: &mut Option<TextIter<'a>>) -> Option<&'a [u8]>
    ensures value { option_copied result ≡ slice_get (list_or_empty texts.old) 0 }
    ensures left { list_or_empty texts.new ≡ drop 1 (list_or_empty texts.old) }
{
    match texts {
        None => None,
        Some(texts) => texts.next(),
    }
}

/// The next of some texts, or the empty text.
fn take_or_empty<'a>(texts: &mut Option<TextIter<'a>>) -> &'a [u8]
    ensures value { result.now ≡ first_or [] (list_or_empty texts.old) }
    ensures left { list_or_empty texts.new ≡ drop 1 (list_or_empty texts.old) }
{
    match take_text(texts) {
        None => &[],
        Some(text) => text,
    }
}

/// The number at a place, or 0.
fn number_at(numbers: &Option<Numbers<'_>>, place: u32) -> u64
    ensures { result ≡ first_or 0 (drop place (list_or_empty numbers.now)) }
{
    match numbers {
        Some(numbers) if place < numbers.count() => numbers.number(place),
        _ => 0,
    }
}

impl<'a> Iterator for DependencyIter<'a> {
    type Item = Dependency<'a>;

    ghost next_gives = { YieldsFirstBy (λ x. record { name = x.name.now; flags = x.flags; version = x.version.now }) (λ s. s) };

    ghost remaining = { item_count (λ s. s) };

    fn next(&mut self) -> Option<Dependency<'a>> {
        match take_text(&mut self.names) {
            None => None,
            Some(name) => {
                let flags = number_at(&self.flags, self.place);
                let version = take_or_empty(&mut self.versions);
                self.place += 1;
                Some(Dependency {
                    name,
                    flags,
                    version,
                })
            }
        }
    }
}

/// What a package needs or gives, by the tags of its names, flags and versions: each name with the flags and the
/// version at its place, which are 0 and the empty text where their array is missing, too short or of another class.
/// Three look-ups in the header; going through it reads each byte of the names and the versions once.
#[tactic(auto, unfolding(crate::specs::Wanted::dependencies))]
pub fn dependencies<'a>(view: &View<'a>, tags: Tags) -> DependencyIter<'a>
    ensures { result ≡ dependencies tags view.now }
{
    let names = match texts_in(view, tags.names) {
        None => None,
        Some(texts) => {
            let _ = texts.count();
            Some(texts.iter())
        }
    };
    let versions = match texts_in(view, tags.versions) {
        None => None,
        Some(texts) => Some(texts.iter()),
    };
    DependencyIter {
        names,
        flags: numbers_in(view, tags.flags),
        versions,
        place: 0,
    }
}
