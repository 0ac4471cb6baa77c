//! The labels of packages.

ghost use Rattle.std.specs.Prelude.{◌≡◌, [], OnOk, IfOk, unwrap_or, List, ℕ, map};
ghost use Rattle.rpm_filecheck.specs.Prelude.{find, insert_entry, conflict_label, nat_cmp, put};

use crate::columns::copy;
use crate::paths::bytes_of;
use rpm_header::View;
use rpm_tags::{Tag, value};
use std::alloc::{AllocError, Global};
use std::collections::BTreeMap;
use std::marker::Model;

/// The labels of packages by number. Contracts see the list of them.
#[derive(Drop)]
pub struct Labels {
    texts: BTreeMap<u32, Vec<u8>>,
}

impl Model for Labels {
    ghost Value = { List (ℕ × List ℕ) };

    ghost view = { λ s. map (λ e. (e.0, e.1.items)) s.texts.entries };
}

fn insert(texts: &mut BTreeMap<u32, Vec<u8>>, number: u32, text: Vec<u8>) -> Result<(), AllocError>
    ensures { OnOk result (texts.new.entries ≡ insert_entry nat_cmp texts.old.entries number text) }
{
    match texts.insert(number, text) {
        Ok(_) => Ok(()),
        Err(_) => Err(AllocError),
    }
}

impl Labels {
    pub fn new(alloc: Global) -> Labels
        ensures { result ≡ [] }
    {
        Labels {
            texts: BTreeMap::new(alloc),
        }
    }

    pub fn insert(&mut self, number: u32, text: Vec<u8>) -> Result<(), AllocError>
        ensures { OnOk result (self.new ≡ put nat_cmp number text.items self.old) }
    {
        insert(&mut self.texts, number, text)
    }

    /// The label of a number; empty where there is none.
    pub fn get(&self, number: u32) -> &[u8]
        ensures { result.now ≡ unwrap_or (find nat_cmp number self.now) [] }
    {
        match self.texts.get(&number) {
            Some(text) => text,
            None => &[],
        }
    }
}

/// The label of a header: its name, version and release with its architecture, or `(none)` where one of the first
/// three is missing.
pub fn label_of(alloc: Global, view: &View<'_>, number: u32) -> Result<Vec<u8>, AllocError>
    ensures { IfOk result (λ text. text.items ≡ conflict_label view.now) }
{
    match value(view, number, Tag::Nvra) {
        None => copy(alloc, b"(none)"),
        Some(label) => {
            let _ = label.count();
            bytes_of(alloc, &label.text(0))
        }
    }
}
