//! Statements of what is left after all lines.

use crate::fault::Fault;
use crate::fixtures::Fixtures;
use crate::pieces::join;
use crate::records::{Record, kind_of};
use crate::row::Left;
use crate::token::{Token, number_of, short_number_of, tokens_of};
use rpm_outside::File;
use std::alloc::Global;

/// The file of a word.
fn file_of(token: &Token) -> Option<File> {
    match token.bytes.as_slice() {
        b"packages" => Some(File::Pkg),
        b"index" => Some(File::Idx),
        b"log" => Some(File::Log),
        _ => None,
    }
}

/// The digest that 64 hex digits mean.
fn digest_of(digits: &Token) -> Result<[u8; 32], Fault> {
    let mut digest = [0; 32];
    match hex::decode_to_slice(digits.bytes.as_slice(), &mut digest) {
        Ok(()) => Ok(digest),
        Err(_) => Err(Fault::BadPiece),
    }
}

/// What a file is expected to be: a digest after `sha256`, or pieces.
fn file_left(
    alloc: Global,
    fixtures: &Fixtures,
    file: File,
    tokens: &[Token],
) -> Result<Left, Fault> {
    match tokens {
        [word, digits] if word.is_word(b"sha256") => Ok(Left::Digest(file, digest_of(digits)?)),
        _ => Ok(Left::Bytes(file, join(alloc, fixtures, tokens)?)),
    }
}

/// What the records are expected to be.
fn records_left(tokens: &[Token]) -> Result<Left, Fault> {
    match tokens {
        [first, second] if first.is_word(b"as") && second.is_word(b"rebuilt") => {
            Ok(Left::AsRebuilt)
        }
        [number] => Ok(Left::Records(number_of(&number.bytes)?)),
        _ => Err(Fault::WordCount),
    }
}

/// What `left` says.
pub fn left_of(alloc: Global, fixtures: &Fixtures, text: &[u8]) -> Result<Left, Fault> {
    let tokens = tokens_of(alloc, text)?;
    let Some((what, rest)) = tokens.split_first() else {
        return Err(Fault::WordCount);
    };
    if what.is_word(b"records") {
        return records_left(rest);
    }
    match file_of(what) {
        Some(file) => file_left(alloc, fixtures, file, rest),
        None => Err(Fault::UnknownWord),
    }
}

/// What `record` says.
pub fn record_of(alloc: Global, fixtures: &Fixtures, text: &[u8]) -> Result<Left, Fault> {
    let tokens = tokens_of(alloc, text)?;
    match tokens.as_slice() {
        [kind, key @ .., number, place] => Ok(Left::Record(Record {
            kind: kind_of(&kind.bytes)?,
            key: join(alloc, fixtures, key)?,
            number: short_number_of(&number.bytes)?,
            place: short_number_of(&place.bytes)?,
        })),
        _ => Err(Fault::WordCount),
    }
}
