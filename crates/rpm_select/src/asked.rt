//! The keys that a selection asks an index for.

ghost use Rattle.std.specs.Prelude.{◌≡◌, ◌≤◌, ◌++◌, ◌∷◌, [], not, length, IfOk, OnOk};
ghost use Rattle.rpm_select.specs.Prelude.{base_name, cut_text, Installtid, is_byte, is_dash, keys_asked, name_keys, names_in, number_key, option_and_then, option_copied, path_keys, Providename, suffix_len, option_to_list};

use crate::rows::is_slash_first;
use crate::selection::Selection;
use rpm_tags::{Key, Kind};
use std::alloc::{AllocError, Global};
use std::marker::Model;

/// A key of a kind. Contracts see the kind and the key's bytes.
#[derive(Drop)]
pub struct Asked<'a> {
    kind: Kind,
    key: Key<'a>,
}

impl<'a> Model for Asked<'a> {
    ghost use Rattle.std.specs.Prelude.{List, ℕ};
    ghost use Rattle.rpm_tags.specs.declared.kind.Kind.{Kind};

    ghost Value = { Kind × List ℕ };

    ghost view = { λ s. (s.kind, s.key) };
}

impl<'a> Asked<'a> {
    fn text(kind: Kind, text: &'a [u8]) -> Asked<'a>
        ensures { result ≡ (kind, text.now) }
    {
        Asked {
            kind,
            key: Key::text(text),
        }
    }

    fn number(number: u32) -> Asked<'a>
        ensures { result ≡ (Installtid, number_key number) }
    {
        Asked {
            kind: Kind::Installtid,
            key: Key::number(u64::from(number)),
        }
    }

    pub fn kind(&self) -> Kind
        ensures { result ≡ self.now.0 }
    {
        self.kind
    }

    pub fn bytes(&self) -> &[u8]
        ensures { result.now ≡ self.now.1 }
    {
        self.key.bytes()
    }
}

/// How many bytes of a text follow the last of these, or all where there is none.
fn behind_len(text: &[u8], byte: u8) -> usize
    ensures value { result ≡ suffix_len (λ b. not (is_byte byte b)) text.now }
    ensures within { result ≤ length text.now }
{
    text.iter().rev().take_while(|b| **b != byte).count()
}

/// A text before its last such byte, where it has one.
fn before_last(text: &[u8], byte: u8) -> Option<&[u8]>
    ensures { option_copied result ≡ cut_text (is_byte byte) text.now }
{
    let behind = behind_len(text, byte);
    if behind < text.len() {
        Some(&text[..text.len() - behind - 1])
    } else {
        None
    }
}

/// What follows a path's last slash, or all of it.
fn base_name(path: &[u8]) -> &[u8]
    ensures { result.now ≡ base_name path.now }
{
    &path[path.len() - behind_len(path, b'/')..]
}

/// Adds a name, where there is one.
fn push_name<'a>(keys: &mut Vec<Asked<'a>>, name: Option<&'a [u8]>) -> Result<(), AllocError>
    ensures { OnOk result (keys.new.items ≡ keys.old.items ++ name_keys (option_to_list (option_copied name.entry))) }
{
    match name {
        None => Ok(()),
        Some(name) => {
            keys.push(Asked::text(Kind::Name, name))?;
            Ok(())
        }
    }
}

/// A text before its last dash but one, where it has two.
fn before_two(text: &[u8]) -> Option<&[u8]>
    ensures { option_copied result ≡ option_and_then (cut_text is_dash) (cut_text is_dash text.now) }
{
    before_last(before_last(text, b'-')?, b'-')
}

/// The names that a label can begin with.
fn label_keys<'a>(alloc: Global, text: &'a [u8]) -> Result<Vec<Asked<'a>>, AllocError>
    ensures { IfOk result (λ keys. keys.items ≡ name_keys (names_in text.now)) }
{
    let mut keys = Vec::new(alloc);
    keys.push(Asked::text(Kind::Name, text))?;
    push_name(&mut keys, before_last(text, b'.'))?;
    push_name(&mut keys, before_last(text, b'-'))?;
    push_name(&mut keys, before_two(text))?;
    Ok(keys)
}

/// A name, and the name of a file where it is a path.
fn provided_keys<'a>(alloc: Global, name: &'a [u8]) -> Result<Vec<Asked<'a>>, AllocError>
    ensures { IfOk result (λ keys. keys.items ≡ (Providename, name.now) ∷ path_keys name.now) }
{
    let mut keys = Vec::new(alloc);
    keys.push(Asked::text(Kind::Providename, name))?;
    if is_slash_first(name) {
        keys.push(Asked::text(Kind::Basenames, base_name(name)))?;
    }
    Ok(keys)
}

fn only<'a>(alloc: Global, key: Asked<'a>) -> Result<Vec<Asked<'a>>, AllocError>
    ensures { IfOk result (λ keys. keys.items ≡ key.entry ∷ []) }
{
    let mut keys = Vec::new(alloc);
    keys.push(key)?;
    Ok(keys)
}

/// The keys of a selection, where it has keys: at most four.
#[tactic(auto, unfolding(crate::specs::Candidates::keys_asked))]
pub fn keys_asked<'a>(
    alloc: Global,
    selection: &Selection<'a>,
) -> Result<Vec<Asked<'a>>, AllocError>
    ensures { IfOk result (λ keys. keys.items ≡ keys_asked selection.now) }
{
    match selection {
        Selection::All | Selection::Pattern(_) | Selection::Number(_) => Ok(Vec::new(alloc)),
        Selection::Label(text) => label_keys(alloc, text.as_bytes()),
        Selection::Path(path) => only(
            alloc,
            Asked::text(Kind::Basenames, base_name(path.as_bytes())),
        ),
        Selection::Group(text) => only(alloc, Asked::text(Kind::Group, text.as_bytes())),
        Selection::Provides(c) => provided_keys(alloc, c.name()),
        Selection::Requires(c) => only(alloc, Asked::text(Kind::Requirename, c.name())),
        Selection::Conflicts(c) => only(alloc, Asked::text(Kind::Conflictname, c.name())),
        Selection::Obsoletes(c) => only(alloc, Asked::text(Kind::Obsoletename, c.name())),
        Selection::Trigger(text) => only(alloc, Asked::text(Kind::Triggername, text.as_bytes())),
        Selection::Directory(text) => only(alloc, Asked::text(Kind::Dirnames, text.as_bytes())),
        Selection::Tid(number) => only(alloc, Asked::number(*number)),
        Selection::Recommends(c) => only(alloc, Asked::text(Kind::Recommendname, c.name())),
    }
}
