//! What is wrong with a statement.

use std::alloc::{AllocError, AllocFailed};

/// Why a statement can't be taken.
#[derive(Clone, Copy)]
pub enum Fault {
    NoMemory,
    UnknownStatement,
    UnknownName,
    SameName,
    BadNumber,
    BadPiece,
    BadEscape,
    OpenText,
    OpenGroup,
    NoGroup,
    NotText,
    WordCount,
    UnknownWord,
    PastEnd,
    OutOfPlace,
    GivenTwice,
    NoLine,
    NotFollowed,
    NoEnding,
}

impl From<AllocError> for Fault {
    fn from(_error: AllocError) -> Fault {
        Fault::NoMemory
    }
}

impl<T: Drop> From<AllocFailed<T>> for Fault {
    fn from(_error: AllocFailed<T>) -> Fault {
        Fault::NoMemory
    }
}

impl Fault {
    /// What is told of it.
    pub fn text(self) -> &'static str {
        match self {
            Fault::NoMemory => "out of memory",
            Fault::UnknownStatement => "unknown statement",
            Fault::UnknownName => "unknown name",
            Fault::SameName => "this name was given before",
            Fault::BadNumber => "a number is expected",
            Fault::BadPiece => "expected hex digits, a \"text\", @NAME, a group or generated N",
            Fault::BadEscape => "unknown escape in a text",
            Fault::OpenText => "a text has no end",
            Fault::OpenGroup => "a group has no end",
            Fault::NoGroup => "no group was begun",
            Fault::NotText => "a word isn't UTF-8",
            Fault::WordCount => "a word is missing, or one too many",
            Fault::UnknownWord => "unknown word",
            Fault::PastEnd => "it goes past the bytes",
            Fault::OutOfPlace => "this can't stand here",
            Fault::GivenTwice => "this was given before",
            Fault::NoLine => "the row has no command line",
            Fault::NotFollowed => "no command line follows",
            Fault::NoEnding => "the command line has no `ends`",
        }
    }
}
