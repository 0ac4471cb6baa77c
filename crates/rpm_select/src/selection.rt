//! The questions.

use rpm_version::Capability;

/// Which packages a question picks. A name or a path is compared byte for byte.
#[derive(Drop)]
pub enum Selection<'a> {
    /// All packages.
    All,
    /// Those with a label that the glob matches.
    Pattern(&'a str),
    /// Those with this label: `N`, `N.A`, `N-V`, `N-V.A`, `N-V-R` or `N-V-R.A`.
    Label(&'a str),
    /// Those with a file of this path.
    Path(&'a str),
    /// Those of this group.
    Group(&'a str),
    /// Those that provide a capability, or have a file of its name.
    Provides(Capability<'a>),
    /// Those that require it.
    Requires(Capability<'a>),
    /// Those that conflict with it.
    Conflicts(Capability<'a>),
    /// Those that replace it.
    Obsoletes(Capability<'a>),
    /// Those with a script that runs at a change of the package of this name.
    Trigger(&'a str),
    /// The one of this number.
    Number(u32),
    /// Those with files in this directory.
    Directory(&'a str),
    /// Those of this transaction.
    Tid(u32),
    /// Those that recommend a capability.
    Recommends(Capability<'a>),
}
