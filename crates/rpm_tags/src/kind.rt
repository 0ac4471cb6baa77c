//! The kinds of keys by which packages are found.

ghost use Rattle.std.specs.Prelude.{◌≡◌};
ghost use Rattle.rpm_tags.specs.Prelude.{code_of};

/// What a key is: an element of the tag of this name.
#[derive(Clone, Copy, Debug, PartialEq, Eq)]
pub enum Kind {
    /// The name of the package.
    Name,
    /// The name of one of its files, without the directory.
    Basenames,
    /// The group of the package.
    Group,
    /// A capability that it provides.
    Providename,
    /// A capability that it requires.
    Requirename,
    /// A capability with which it conflicts.
    Conflictname,
    /// A package that it replaces.
    Obsoletename,
    /// A package at whose change its scripts run.
    Triggername,
    /// A directory in which it has files.
    Dirnames,
    /// The time at which it was installed with others, which stands for the change that brought it.
    Installtid,
    /// A capability that it recommends.
    Recommendname,
}

impl Kind {
    /// The number of the kind in an index of keys, from 1 to 11 in the order above (own).
    pub fn code(self) -> u8
        ensures { result ≡ code_of self }
    {
        match self {
            Kind::Name => 1,
            Kind::Basenames => 2,
            Kind::Group => 3,
            Kind::Providename => 4,
            Kind::Requirename => 5,
            Kind::Conflictname => 6,
            Kind::Obsoletename => 7,
            Kind::Triggername => 8,
            Kind::Dirnames => 9,
            Kind::Installtid => 10,
            Kind::Recommendname => 11,
        }
    }
}
