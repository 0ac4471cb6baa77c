//! The options, and how each is spelled.

ghost use Rattle.std.specs.Prelude.{◌≡◌, ◌≤◌, IsSome, length};
ghost use Rattle.rpm_words.specs.Prelude.{as_spellings, bytes_eq, long_switch, short_switch, switch_in};

/// The program that a command line calls.
#[derive(Clone, Copy, PartialEq, Eq)]
pub(crate) enum Program {
    Rpm,
    Rpmdb,
}

/// A mode, its number aside.
#[derive(Clone, Copy, PartialEq, Eq)]
pub(crate) enum Command {
    Query,
    Addpkg,
    Replacepkg,
    Erasepkg,
    Verify,
    Initdb,
    Rebuilddb,
    Verifydb,
    Exportdb,
    Importdb,
    Exercise,
    Order,
    Checkfiles,
    Help,
    Version,
}

/// What a query picks packages by.
#[derive(Clone, Copy, PartialEq, Eq)]
pub enum Chosen {
    /// The labels of packages.
    Label,
    /// All packages, or those whose label fits a pattern.
    All,
    /// A path that they own.
    Path,
    /// Their group.
    Group,
    /// Package files, in place of packages that are held.
    Package,
    /// A capability that they provide.
    Provides,
    /// A capability that they require.
    Requires,
    /// A capability that they conflict with.
    Conflicts,
    /// A capability that they obsolete.
    Obsoletes,
    /// The name of a trigger of theirs.
    Trigger,
    /// Their number.
    Number,
    /// A directory that they have files in.
    Directory,
    /// The transaction that installed them.
    Tid,
    /// A capability that they recommend.
    Recommends,
}

/// An option.
#[derive(Clone, Copy)]
pub(crate) enum Switch {
    Mode(Command),
    Choose(Chosen),
    Lists,
    Format,
    After,
    Noindex,
    Nofiles,
    Folder,
}

// An option and how it is spelled.
struct Spelling(&'static str, Switch);

// The long options of `rpm`.
const RPM: &[Spelling] = &[
    Spelling("--query", Switch::Mode(Command::Query)),
    Spelling("--addpkg", Switch::Mode(Command::Addpkg)),
    Spelling("--replacepkg", Switch::Mode(Command::Replacepkg)),
    Spelling("--erasepkg", Switch::Mode(Command::Erasepkg)),
    Spelling("--verify", Switch::Mode(Command::Verify)),
    Spelling("--all", Switch::Choose(Chosen::All)),
    Spelling("--file", Switch::Choose(Chosen::Path)),
    Spelling("--group", Switch::Choose(Chosen::Group)),
    Spelling("--package", Switch::Choose(Chosen::Package)),
    Spelling("--whatprovides", Switch::Choose(Chosen::Provides)),
    Spelling("--whatrequires", Switch::Choose(Chosen::Requires)),
    Spelling("--whatconflicts", Switch::Choose(Chosen::Conflicts)),
    Spelling("--whatobsoletes", Switch::Choose(Chosen::Obsoletes)),
    Spelling("--triggeredby", Switch::Choose(Chosen::Trigger)),
    Spelling("--querybynumber", Switch::Choose(Chosen::Number)),
    Spelling("--whatdir", Switch::Choose(Chosen::Directory)),
    Spelling("--tid", Switch::Choose(Chosen::Tid)),
    Spelling("--whatrecommends", Switch::Choose(Chosen::Recommends)),
    Spelling("--list", Switch::Lists),
    Spelling("--qf", Switch::Format),
    Spelling("--queryformat", Switch::Format),
    Spelling("--after", Switch::After),
    Spelling("--noindex", Switch::Noindex),
    Spelling("--nofiles", Switch::Nofiles),
    Spelling("--help", Switch::Mode(Command::Help)),
    Spelling("--version", Switch::Mode(Command::Version)),
    Spelling("--dbpath", Switch::Folder),
];

// The long options of `rpmdb`.
const RPMDB: &[Spelling] = &[
    Spelling("--initdb", Switch::Mode(Command::Initdb)),
    Spelling("--rebuilddb", Switch::Mode(Command::Rebuilddb)),
    Spelling("--verifydb", Switch::Mode(Command::Verifydb)),
    Spelling("--exportdb", Switch::Mode(Command::Exportdb)),
    Spelling("--importdb", Switch::Mode(Command::Importdb)),
    Spelling("--exercise", Switch::Mode(Command::Exercise)),
    Spelling("--order", Switch::Mode(Command::Order)),
    Spelling("--checkfiles", Switch::Mode(Command::Checkfiles)),
    Spelling("--help", Switch::Mode(Command::Help)),
    Spelling("--version", Switch::Mode(Command::Version)),
    Spelling("--dbpath", Switch::Folder),
];

fn is_spelled(spelling: &Spelling, text: &str) -> bool
    ensures { result ≡ bytes_eq text.now spelling.now.0.now }
{
    text == spelling.0
}

/// The option of the first spelling that a text is.
fn switch_in(spellings: &[Spelling], text: &str) -> Option<Switch>
    ensures { result ≡ switch_in (as_spellings spellings.now) text.now }
{
    for spelling in spellings {
        if is_spelled(spelling, text) {
            return Some(spelling.1);
        }
    }
    None
}

/// The option that a long spelling names, which stands after two dashes.
pub(crate) fn long_switch(program: Program, text: &str) -> Option<Switch>
    ensures value { result ≡ long_switch program text.now }
    ensures short { IsSome result → length text.now ≤ 16 }
{
    match program {
        Program::Rpm => switch_in(RPM, text),
        Program::Rpmdb => switch_in(RPMDB, text),
    }
}

/// The short options, all of `rpm`.
#[tactic(auto, unfolding(crate::specs::Switch::short_switch))]
pub(crate) fn short_switch(byte: u8) -> Option<Switch>
    ensures { result ≡ short_switch byte }
{
    match byte {
        b'q' => Some(Switch::Mode(Command::Query)),
        b'V' => Some(Switch::Mode(Command::Verify)),
        b'a' => Some(Switch::Choose(Chosen::All)),
        b'f' => Some(Switch::Choose(Chosen::Path)),
        b'g' => Some(Switch::Choose(Chosen::Group)),
        b'p' => Some(Switch::Choose(Chosen::Package)),
        b'l' => Some(Switch::Lists),
        _ => None,
    }
}
