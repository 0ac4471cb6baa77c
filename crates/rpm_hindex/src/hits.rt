//! What is found of a key.

ghost use Rattle.std.specs.Prelude.{◌≡◌, ◌<◌, length};
ghost use Rattle.rpm_hindex.specs.Prelude.{hit_at};

use std::marker::Model;

/// A package that has the key, and the key's place in the package's list of that kind.
#[derive(Clone, Copy, PartialEq, Eq, PartialOrd, Ord)]
pub struct Hit {
    pub number: u32,
    pub place: u32,
}

/// Hits by rising number and place. Contracts see the list.
#[derive(Drop)]
pub struct Hits {
    pub hits: Vec<Hit>,
}

impl Model for Hits {
    ghost use Rattle.std.specs.Prelude.{List};
    ghost use Rattle.rpm_hindex.specs.declared.hits.Hit.{Hit};

    ghost Value = { List Hit };

    ghost view = { λ s. s.hits.items };
}

impl Hits {
    pub fn len(&self) -> usize
        ensures { result ≡ length self.now }
    {
        self.hits.len()
    }

    /// Hit i, counted from 0.
    pub fn at(&self, i: usize) -> Hit
        requires { i < length self.now }
        ensures { result ≡ hit_at self.now i }
    {
        self.hits[i]
    }
}
