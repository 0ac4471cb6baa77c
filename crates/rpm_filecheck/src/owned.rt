//! The owners of all paths.

ghost use Rattle.std.specs.Prelude.{◌≡◌, [], OnOk, IfOk, List, ℕ, map};
ghost use Rattle.rpm_filecheck.specs.Prelude.{conflicts_on, flat_map, get, insert_entry, joined_to, key_order, with_owner};
ghost use Rattle.rpm_filecheck.specs.Owners as model;

use crate::conflict::{Conflict, push_owners};
use crate::owner::{Owner, Owners};
use std::alloc::{AllocError, Global};
use std::collections::BTreeMap;
use std::collections::btree_map::Entry;
use std::marker::Model;

/// The owners of each path. Contracts see the list of the paths, by their bytes, each with its owners. Of each path
/// one copy is kept.
#[derive(Drop)]
pub struct Owned {
    pub paths: BTreeMap<Vec<u8>, Owners>,
}

impl Model for Owned {
    ghost Value = { List (List ℕ × List model.Owner) };

    ghost view = { λ s. map (λ e. (e.0.items, e.1)) s.paths.entries };
}

/// Puts an owner after those of a path, where it isn't the package of the last.
fn join_in(
    alloc: Global,
    paths: &mut BTreeMap<Vec<u8>, Owners>,
    path: Vec<u8>,
    owner: Owner,
) -> Result<(), AllocError>
    ensures { OnOk result (paths.new.entries ≡ insert_entry key_order paths.old.entries path (joined_to (get key_order paths.old path) owner)) }
{
    match paths.entry(path) {
        Ok(Entry::Occupied(entry)) => return entry.into_mut().join(owner),
        Ok(Entry::Vacant(entry)) => {
            entry.insert(Owners::one(alloc, owner));
            return Ok(());
        }
        Err(_) => return Err(AllocError),
    }
}

/// The conflicts on all paths.
fn conflicts_in(
    alloc: Global,
    paths: &BTreeMap<Vec<u8>, Owners>,
) -> Result<Vec<Conflict>, AllocError>
    ensures { IfOk result (λ v. v.items ≡ flat_map (λ e. conflicts_on e.0.items e.1) paths.now.entries) }
{
    let mut conflicts = Vec::new(alloc);
    for (path, owners) in paths {
        push_owners(alloc, &mut conflicts, path, owners)?;
    }
    Ok(conflicts)
}

impl Owned {
    pub fn new(alloc: Global) -> Owned
        ensures { result ≡ [] }
    {
        Owned {
            paths: BTreeMap::new(alloc),
        }
    }

    /// Puts an owner after those of a path, where it isn't the package of the last. Takes log n steps in the paths.
    pub fn add(&mut self, alloc: Global, path: Vec<u8>, owner: Owner) -> Result<(), AllocError>
        ensures { OnOk result (self.new ≡ with_owner path.items owner self.old) }
    {
        join_in(alloc, &mut self.paths, path, owner)
    }

    /// The conflicts on all paths: of each path those of every two of its owners.
    pub fn conflicts(&self, alloc: Global) -> Result<Vec<Conflict>, AllocError>
        ensures { IfOk result (λ v. v.items ≡ flat_map (λ e. conflicts_on e.0 e.1) self.now) }
    {
        conflicts_in(alloc, &self.paths)
    }
}
