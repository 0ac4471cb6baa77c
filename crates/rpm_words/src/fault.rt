//! The rules that a command line can break.

ghost use Rattle.std.specs.Prelude.{◌≡◌};
ghost use Rattle.rpm_words.specs.Prelude.{earlier, fault, is_before, fault_rank};

/// The rule that is broken.
#[derive(Debug, Clone, Copy, PartialEq, Eq)]
pub enum WordsKind {
    /// No mode is given, or the first word is neither `rpm` nor `rpmdb`.
    NoMode,
    /// A second mode or a second selection is other than the first.
    TwoModes,
    /// A word begins as an option, and is none.
    UnknownOption,
    /// An option stands beside a mode that doesn't have it.
    Misplaced,
    /// An option lacks its value, or the command an option or an argument that it has to have.
    MissingArgument,
    /// The command takes fewer arguments.
    ExtraArgument,
    /// A word that has to be a number is none.
    BadNumber,
    /// An argument that has to be a capability is none.
    BadCapability,
    /// Memory is wanting.
    NoMemory,
}

/// The first rule that a command line breaks, and the place of the word that breaks it.
#[derive(Debug, Clone, Copy, PartialEq, Eq)]
pub struct WordsFault {
    pub kind: WordsKind,
    pub word: u32,
}

impl WordsKind {
    /// A fault of this kind at a word.
    pub(crate) fn at(self, word: u32) -> WordsFault
        ensures { result ≡ fault self word }
    {
        WordsFault { kind: self, word }
    }

    /// Which of the faults of one word is told.
    fn rank(self) -> u8
        ensures { result ≡ fault_rank self }
    {
        match self {
            WordsKind::UnknownOption => 0,
            WordsKind::TwoModes => 1,
            _ => 2,
        }
    }
}

impl WordsFault {
    /// Whether this fault is told, and not the other.
    fn is_before(self, other: WordsFault) -> bool
        ensures { result ≡ is_before self other }
    {
        self.word < other.word || self.word == other.word && self.kind.rank() < other.kind.rank()
    }
}

/// The one of two faults that is told.
pub(crate) fn earlier(this: Option<WordsFault>, other: Option<WordsFault>) -> Option<WordsFault>
    ensures { result ≡ earlier this other }
{
    match (this, other) {
        (Some(fault), Some(other)) if other.is_before(fault) => Some(other),
        (Some(fault), _) => Some(fault),
        (None, other) => other,
    }
}
