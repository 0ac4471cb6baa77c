//! The first words of statements.

use rpm_outside::File;

/// One of the two sinks.
#[derive(Clone, Copy)]
pub enum Stream {
    Out,
    Err,
}

/// A database that a crash may leave: that before the change, or that after it.
#[derive(Clone, Copy)]
pub enum Side {
    Before,
    After,
}

/// What a statement is, by its first word.
#[derive(Clone, Copy)]
pub enum Keyword {
    Bytes,
    At,
    Row,
    Holds(File),
    Shelf,
    Pieces,
    Now,
    Fails,
    Times,
    Every,
    Shows(Side),
    Command,
    Line(Stream),
    Bytewise(Stream),
    Ends,
    Reads,
    Untouched,
    Left,
    Record,
    Of,
}

const KEYWORDS: &[(&[u8], Keyword)] = &[
    (b"bytes", Keyword::Bytes),
    (b"at", Keyword::At),
    (b"row", Keyword::Row),
    (b"packages", Keyword::Holds(File::Pkg)),
    (b"index", Keyword::Holds(File::Idx)),
    (b"log", Keyword::Holds(File::Log)),
    (b"shelf", Keyword::Shelf),
    (b"pieces", Keyword::Pieces),
    (b"now", Keyword::Now),
    (b"fails", Keyword::Fails),
    (b"times", Keyword::Times),
    (b"every", Keyword::Every),
    (b"before", Keyword::Shows(Side::Before)),
    (b"after", Keyword::Shows(Side::After)),
    (b"$", Keyword::Command),
    (b">", Keyword::Line(Stream::Out)),
    (b"!", Keyword::Line(Stream::Err)),
    (b"out", Keyword::Bytewise(Stream::Out)),
    (b"err", Keyword::Bytewise(Stream::Err)),
    (b"ends", Keyword::Ends),
    (b"reads", Keyword::Reads),
    (b"untouched", Keyword::Untouched),
    (b"left", Keyword::Left),
    (b"record", Keyword::Record),
    (b"of", Keyword::Of),
];

/// What a first word stands for.
pub fn keyword_of(word: &[u8]) -> Option<Keyword> {
    for &(text, keyword) in KEYWORDS {
        if text == word {
            return Some(keyword);
        }
    }
    None
}
