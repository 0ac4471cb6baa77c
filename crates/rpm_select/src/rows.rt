//! Whether a header is picked.

ghost use Rattle.std.specs.Prelude.{◌≡◌, ◌==◌, slice_index, IfOk};
ghost use Rattle.rpm_select.specs.Prelude.{first_text, GROUP, has_any, INSTALLTID, is_text_among, is_file_of, is_text, list_any, list_or_empty, meets_capability, needed_by, needed_in, numbers_in, takes_header, texts_in};

use crate::labels::{any_label, glob_of, text_of};
use crate::selection::Selection;
use rpm_header::View;
use rpm_tags::{
    Dependency, Numbers, Tags, Texts, dependencies, first_text, has_file, numbers, numbers_in,
    texts_in,
};
use rpm_version::{Capability, is_open, overlap};
use std::alloc::{AllocError, Global};

const PROVIDES: Tags = Tags {
    names: numbers::PROVIDENAME,
    flags: numbers::PROVIDEFLAGS,
    versions: numbers::PROVIDEVERSION,
};

const REQUIRES: Tags = Tags {
    names: numbers::REQUIRENAME,
    flags: numbers::REQUIREFLAGS,
    versions: numbers::REQUIREVERSION,
};

const CONFLICTS: Tags = Tags {
    names: numbers::CONFLICTNAME,
    flags: numbers::CONFLICTFLAGS,
    versions: numbers::CONFLICTVERSION,
};

const OBSOLETES: Tags = Tags {
    names: numbers::OBSOLETENAME,
    flags: numbers::OBSOLETEFLAGS,
    versions: numbers::OBSOLETEVERSION,
};

const RECOMMENDS: Tags = Tags {
    names: numbers::RECOMMENDNAME,
    flags: numbers::RECOMMENDFLAGS,
    versions: numbers::RECOMMENDVERSION,
};

/// Whether what a package needs or gives has the name of a capability, and their ranges overlap.
fn meets(capability: &Capability<'_>, needed: Dependency<'_>) -> bool
    ensures { result ≡ meets_capability capability.now (needed_in needed.entry) }
{
    if needed.name != capability.name() {
        return false;
    }
    let given = Capability::of_range(needed.name, needed.flags, needed.version);
    overlap(
        given.flags(),
        given.evr(),
        capability.flags(),
        capability.evr(),
    )
}

fn has_any(view: &View<'_>, tags: Tags, capability: &Capability<'_>) -> bool
    ensures { result ≡ has_any tags capability.now view.now }
{
    let mut left = dependencies(view, tags);
    while let Some(needed) = left.next() {
        if meets(capability, needed) {
            return true;
        }
    }
    false
}

pub fn is_slash_first(text: &[u8]) -> bool
    ensures { result ≡ (slice_index text.now 0 == 47) }
{
    !text.is_empty() && text[0] == b'/'
}

/// Whether a capability without a range is the path of a file of a package.
fn is_file_of(view: &View<'_>, capability: &Capability<'_>) -> bool
    ensures { result ≡ is_file_of (needed_by capability.now) view.now }
{
    let name = capability.name();
    is_open(capability.flags(), capability.evr()) && (is_slash_first(name) && has_file(view, name))
}

fn is_in(texts: &Texts<'_>, wanted: &[u8]) -> bool
    ensures { result ≡ is_text_among wanted.now texts.now }
{
    let mut left = texts.iter();
    while let Some(text) = left.next() {
        if wanted == text {
            return true;
        }
    }
    false
}

/// Whether a text is an element of a tag.
fn is_among(view: &View<'_>, tag: u32, wanted: &[u8]) -> bool
    ensures { result ≡ is_text_among wanted.now (list_or_empty (texts_in view.now tag)) }
{
    match texts_in(view, tag) {
        None => false,
        Some(texts) => is_in(&texts, wanted),
    }
}

fn is_number_in(numbers: &Numbers<'_>, wanted: u32) -> bool
    ensures { result ≡ list_any (λ m. m == wanted) numbers.now }
{
    for i in 0..numbers.count() {
        if numbers.number(i) == u64::from(wanted) {
            return true;
        }
    }
    false
}

/// Whether a number is an element of INSTALLTID.
fn has_transaction(view: &View<'_>, wanted: u32) -> bool
    ensures { result ≡ list_any (λ m. m == wanted) (list_or_empty (numbers_in view.now INSTALLTID)) }
{
    match numbers_in(view, numbers::INSTALLTID) {
        None => false,
        Some(numbers) => is_number_in(&numbers, wanted),
    }
}

/// Whether a text is the first of GROUP.
fn is_group(view: &View<'_>, wanted: &[u8]) -> bool
    ensures { result ≡ is_text wanted.now (first_text view.now GROUP) }
{
    match first_text(view, numbers::GROUP) {
        None => false,
        Some(text) => wanted == text,
    }
}

/// Whether a selection picks a header with this number.
///
/// Goes over the tag that the selection asks for, and over the header's index for each tag. Takes memory for a label
/// alone, where the selection is a label or a pattern.
///
/// # Errors
///
/// Where a label finds no memory.
#[tactic(auto, unfolding(crate::specs::Selections::takes_header))]
pub fn takes_header(
    alloc: Global,
    selection: &Selection<'_>,
    number: u32,
    view: &View<'_>,
) -> Result<bool, AllocError>
    ensures { IfOk result (λ b. b ≡ takes_header selection.now number view.now) }
{
    match selection {
        Selection::All => Ok(true),
        Selection::Pattern(text) => any_label(alloc, view, glob_of(text)),
        Selection::Label(text) => any_label(alloc, view, text_of(text)),
        Selection::Path(path) => Ok(has_file(view, path.as_bytes())),
        Selection::Group(text) => Ok(is_group(view, text.as_bytes())),
        Selection::Provides(c) => Ok(has_any(view, PROVIDES, c) || is_file_of(view, c)),
        Selection::Requires(c) => Ok(has_any(view, REQUIRES, c)),
        Selection::Conflicts(c) => Ok(has_any(view, CONFLICTS, c)),
        Selection::Obsoletes(c) => Ok(has_any(view, OBSOLETES, c)),
        Selection::Trigger(text) => Ok(is_among(view, numbers::TRIGGERNAME, text.as_bytes())),
        Selection::Number(wanted) => Ok(number == *wanted),
        Selection::Directory(text) => Ok(is_among(view, numbers::DIRNAMES, text.as_bytes())),
        Selection::Tid(wanted) => Ok(has_transaction(view, *wanted)),
        Selection::Recommends(c) => Ok(has_any(view, RECOMMENDS, c)),
    }
}
