//! What may be wrong with a format.

ghost use Rattle.std.specs.Prelude.{◌≡◌};

use std::alloc::AllocError;

/// What is wrong with a format. Each has one place, a number of bytes from the text's beginning.
#[derive(Clone, Copy, Debug, PartialEq, Eq)]
pub enum FormatKind {
    /// The text has more than 65,536 bytes: at 65,536.
    TooLong,
    /// No `{` where a tag has to have one: at that place.
    MissingOpen,
    /// No `}` after a `{`, or after a branch: at the text's end.
    MissingClose,
    /// A name without a byte: where it would begin.
    EmptyTag,
    /// A name that no tag has: where it begins.
    UnknownTag,
    /// A formatter that there is not: where its name begins.
    UnknownFormatter,
    /// A width above 4,096: at its first digit.
    WidthTooLarge,
    /// A bracket that isn't closed: at the text's end.
    BracketExpected,
    /// A `]` where no bracket is open, or within a branch: there.
    UnexpectedBracket,
    /// A `}` elsewhere than at the end of a branch: there.
    UnexpectedBrace,
    /// A `[` within a bracket, in whatever conditions: there.
    NestedBracket,
    /// No `?` after the name of a condition: at the text's end.
    QuestionExpected,
    /// No `{` in front of a branch: at that place.
    BraceExpected,
    /// Something else than a bar, or than a `:` in front of a second branch, after a branch: there.
    BarExpected,
    /// A condition within 16 others: at its `%`.
    TooDeep,
    /// No memory was left: at 0.
    NoMemory,
}

/// The first fault of a format.
#[derive(Clone, Copy, Debug, PartialEq, Eq)]
pub struct FormatFault {
    /// What is wrong.
    pub kind: FormatKind,
    /// How many bytes stand in front of the fault.
    pub at: u32,
}

/// A fault, with the bytes from its place on.
#[derive(Clone, Copy)]
pub(crate) struct Fault<'a> {
    pub kind: FormatKind,
    pub rest: &'a [u8],
}

impl<'a> Fault<'a> {
    pub(crate) fn new(kind: FormatKind, rest: &'a [u8]) -> Fault<'a>
        ensures kind { result.kind ≡ kind }
        ensures rest { result.rest.now ≡ rest.now }
    {
        Fault { kind, rest }
    }
}

/// Why reading ended: no memory, or a fault.
#[derive(Clone, Copy)]
pub(crate) enum Stop<'a> {
    Memory,
    Fault(Fault<'a>),
}

impl From<AllocError> for Stop<'_> {
    ghost use Rattle.rpm_qfparse.specs.declared.fault.Stop.TheVariants.{Memory};

    ghost from_gives = { λ _ e. e ≡ Memory };

    fn from(_: AllocError) -> Self {
        Stop::Memory
    }
}

impl<'a> From<Fault<'a>> for Stop<'a> {
    ghost use Rattle.rpm_qfparse.specs.declared.fault.Stop.TheVariants as stop;

    ghost from_gives = { λ f e. e ≡ stop.Fault f };

    fn from(fault: Fault<'a>) -> Self {
        Stop::Fault(fault)
    }
}
