//! The owners of a path.

ghost use Rattle.std.specs.Prelude.{◌≡◌, ◌∷◌, [], OnOk, List};
ghost use Rattle.rpm_filecheck.specs.Prelude.{is_directory, is_ghost, owners_with, last_from, may_share};
ghost use Rattle.rpm_filecheck.specs.Owners as model;

use std::alloc::{AllocError, Global};
use std::marker::Model;

/// A package, and what it says of a path.
#[derive(Drop)]
pub struct Owner {
    pub number: u32,
    pub mode: u64,
    pub digest: Vec<u8>,
    pub link: Vec<u8>,
    pub flags: u64,
}

impl Model for Owner {
    ghost Value = { model.Owner };

    ghost view = { λ s. record { number = s.number; facts = record { mode = s.mode; digest = s.digest.items; link = s.link.items; flags = s.flags } } };
}

impl Owner {
    /// Whether the path is a directory.
    pub fn is_directory(&self) -> bool
        ensures { result ≡ is_directory self.now.facts }
    {
        (self.mode / 4096) % 16 == 4
    }

    // Whether the path is a ghost.
    fn is_ghost(&self) -> bool
        ensures { result ≡ is_ghost self.now.facts }
    {
        (self.flags / 64) % 2 == 1
    }

    /// Whether both may own a path, whatever they say of it.
    pub fn may_share(&self, other: &Owner) -> bool
        ensures { result ≡ may_share self.now.facts other.now.facts }
    {
        (self.is_directory() && other.is_directory()) || (self.is_ghost() || other.is_ghost())
    }
}

/// The owners of a path, by rising number. Contracts see the list of them. One alone takes no memory of its own.
#[derive(Drop)]
pub struct Owners {
    pub first: Owner,
    pub others: Vec<Owner>,
    last: u32,
}

impl Model for Owners {
    ghost Value = { List model.Owner };

    ghost view = { λ s. s.first ∷ s.others.items };

    ghost invariant = { λ s. s.last ≡ last_from 0 (s.first ∷ s.others.items) };
}

impl Owners {
    pub fn one(alloc: Global, owner: Owner) -> Owners
        ensures { result ≡ owner ∷ [] }
    {
        let last = owner.number;
        Owners {
            first: owner,
            others: Vec::new(alloc),
            last,
        }
    }

    /// Puts an owner after them, where it isn't the package of the last.
    pub fn join(&mut self, owner: Owner) -> Result<(), AllocError>
        ensures { OnOk result (self.new ≡ owners_with self.old owner) }
    {
        let number = owner.number;
        if self.last == number {
            return Ok(());
        }
        self.others.push(owner)?;
        self.last = number;
        Ok(())
    }
}
