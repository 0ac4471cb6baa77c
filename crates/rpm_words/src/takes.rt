//! How many arguments a command takes, and of which kind.

ghost use Rattle.std.specs.Prelude.{◌≡◌};
ghost use Rattle.rpm_words.specs.Prelude.{checked_arguments, expected_form, fewest, most, query_takes, takes};

use crate::switch::{Chosen, Command};

/// What an argument has to be.
#[derive(Clone, Copy)]
pub(crate) enum Expected {
    Text,
    Number,
    Capability,
}

/// The arguments that a command takes.
#[derive(Clone, Copy)]
pub(crate) enum ArgumentRule {
    /// None.
    Nothing,
    /// As many as are given, be it none, each of them this.
    Any(Expected),
    /// As many as are given, and not none, each of them this.
    Several(Expected),
    /// A number, and a text after it.
    NumberAndText,
}

impl Chosen {
    /// The arguments that a query takes which picks packages by this.
    fn takes(self) -> ArgumentRule
        ensures { result ≡ query_takes self }
    {
        match self {
            Chosen::All => ArgumentRule::Any(Expected::Text),
            Chosen::Label
            | Chosen::Path
            | Chosen::Group
            | Chosen::Package
            | Chosen::Trigger
            | Chosen::Directory => ArgumentRule::Several(Expected::Text),
            Chosen::Number | Chosen::Tid => ArgumentRule::Several(Expected::Number),
            Chosen::Provides
            | Chosen::Requires
            | Chosen::Conflicts
            | Chosen::Obsoletes
            | Chosen::Recommends => ArgumentRule::Several(Expected::Capability),
        }
    }
}

impl Command {
    /// The arguments that a command takes, where a query picks packages by `chosen`.
    pub(crate) fn takes(self, chosen: Chosen) -> ArgumentRule
        ensures { result ≡ takes self chosen }
    {
        match self {
            Command::Query => chosen.takes(),
            Command::Addpkg => ArgumentRule::Several(Expected::Text),
            Command::Replacepkg => ArgumentRule::NumberAndText,
            Command::Erasepkg => ArgumentRule::Several(Expected::Number),
            Command::Verify
            | Command::Initdb
            | Command::Rebuilddb
            | Command::Verifydb
            | Command::Exportdb
            | Command::Importdb
            | Command::Exercise
            | Command::Order
            | Command::Checkfiles
            | Command::Help
            | Command::Version => ArgumentRule::Nothing,
        }
    }
}

impl ArgumentRule {
    /// How many arguments there have to be.
    pub(crate) fn fewest(self) -> usize
        ensures { result ≡ fewest self }
    {
        match self {
            ArgumentRule::Nothing | ArgumentRule::Any(_) => 0,
            ArgumentRule::Several(_) => 1,
            ArgumentRule::NumberAndText => 2,
        }
    }

    /// How many arguments there may be.
    pub(crate) fn most(self) -> Option<usize>
        ensures { result ≡ most self }
    {
        match self {
            ArgumentRule::Nothing => Some(0),
            ArgumentRule::Any(_) | ArgumentRule::Several(_) => None,
            ArgumentRule::NumberAndText => Some(2),
        }
    }

    /// What those of the arguments have to be that are checked.
    pub(crate) fn expected(self) -> Expected
        ensures { result ≡ expected_form self }
    {
        match self {
            ArgumentRule::Nothing => Expected::Text,
            ArgumentRule::Any(expected) | ArgumentRule::Several(expected) => expected,
            ArgumentRule::NumberAndText => Expected::Number,
        }
    }

    /// Those of the arguments that are checked.
    pub(crate) fn checked(self, arguments: &[u32]) -> &[u32]
        ensures { result.now ≡ checked_arguments self arguments.now }
    {
        match self {
            ArgumentRule::NumberAndText if !arguments.is_empty() => &arguments[..1],
            _ => arguments,
        }
    }
}
