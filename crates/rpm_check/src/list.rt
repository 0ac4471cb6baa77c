//! The requirements that no package meets.

ghost use Rattle.std.specs.Prelude.{◌≡◌};

use std::marker::Model;

/// A requirement that no package meets: the number of the package that has it, and its place among the package's
/// requirements.
#[derive(Clone, Copy, PartialEq, Eq)]
pub struct Unmet {
    pub number: u32,
    pub place: u32,
}

/// The requirements that no package meets, by rising number and place. Contracts see the list of them.
#[derive(Drop)]
pub struct UnmetList {
    items: Vec<Unmet>,
}

impl Model for UnmetList {
    ghost use Rattle.std.specs.Prelude.{List};
    ghost use Rattle.rpm_check.specs.declared.list.Unmet.{Unmet};

    ghost Value = { List Unmet };

    ghost view = { λ s. s.items.items };
}

impl UnmetList {
    pub(crate) fn of(items: Vec<Unmet>) -> UnmetList
        ensures { result ≡ items.items }
    {
        UnmetList { items }
    }

    /// All of them.
    pub fn as_slice(&self) -> &[Unmet]
        ensures { result.now ≡ self.now }
    {
        &self.items
    }
}
