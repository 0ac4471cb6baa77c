//! The bytes that pieces mean.

use crate::fault::Fault;
use crate::fixtures::Fixtures;
use crate::token::{Token, short_number_of, tokens_of};
use rpm_exercise::generated;
use rpm_header::MAGIC;
use std::alloc::{AllocError, Global};

/// Most headers that are generated for one piece.
const MOST_HEADERS: u32 = 1_000_000;

/// A group that wasn't ended yet.
#[derive(Clone, Copy)]
struct Group {
    from: usize,
    count: u32,
}

/// The bytes of the pieces that were read.
#[derive(Drop)]
struct Joined {
    alloc: Global,
    bytes: Vec<u8>,
    groups: Vec<Group>,
    // Whether the number of headers comes next.
    is_counting: bool,
}

impl Joined {
    /// Appends bytes so many times.
    fn push_times(&mut self, bytes: &[u8], count: u32) -> Result<(), AllocError> {
        for _ in 0..count {
            self.bytes.extend_from_slice(bytes)?;
        }
        Ok(())
    }

    /// Appends the first so many generated headers, each after its magic.
    fn push_headers(&mut self, count: u32) -> Result<(), Fault> {
        if count > MOST_HEADERS {
            return Err(Fault::BadNumber);
        }
        for i in 0..count {
            let header = generated(self.alloc, i + 1, 1)?;
            self.bytes.extend_from_slice(MAGIC.as_slice())?;
            self.bytes.extend_from_slice(&header)?;
        }
        Ok(())
    }

    /// Ends the last group.
    fn end_group(&mut self) -> Result<(), Fault> {
        let Some(group) = self.groups.pop() else {
            return Err(Fault::NoGroup);
        };
        let Some(part) = self.bytes.get(group.from..) else {
            return Err(Fault::NoGroup);
        };
        let part = part.to_vec(self.alloc)?;
        self.bytes.truncate(group.from);
        self.push_times(&part, group.count)?;
        Ok(())
    }

    /// Appends the bytes of hex digits.
    fn push_hex(&mut self, token: &Token) -> Result<(), Fault> {
        match hex::decode(self.alloc, token.bytes.as_slice()) {
            Ok(bytes) => {
                self.push_times(&bytes, token.count)?;
                Ok(())
            }
            Err(_) => Err(Fault::BadPiece),
        }
    }

    /// Appends what a word without quotes means.
    fn push_word(&mut self, fixtures: &Fixtures, token: &Token) -> Result<(), Fault> {
        if token.bytes.as_slice() == b"(".as_slice() {
            self.groups.push(Group {
                from: self.bytes.len(),
                count: token.count,
            })?;
            return Ok(());
        }
        if token.bytes.as_slice() == b")".as_slice() {
            return self.end_group();
        }
        if token.bytes.as_slice() == b"generated".as_slice() {
            self.is_counting = true;
            return Ok(());
        }
        match token.bytes.strip_prefix(b"@") {
            Some(name) => {
                self.push_times(fixtures.get(name)?, token.count)?;
                Ok(())
            }
            None => self.push_hex(token),
        }
    }

    /// Appends what a word means.
    fn push(&mut self, fixtures: &Fixtures, token: &Token) -> Result<(), Fault> {
        if self.is_counting {
            self.is_counting = false;
            return self.push_headers(short_number_of(&token.bytes)?);
        }
        if token.is_text {
            self.push_times(&token.bytes, token.count)?;
            return Ok(());
        }
        self.push_word(fixtures, token)
    }
}

/// The bytes that pieces mean.
pub fn join(alloc: Global, fixtures: &Fixtures, tokens: &[Token]) -> Result<Vec<u8>, Fault> {
    let mut joined = Joined {
        alloc,
        bytes: Vec::new(alloc),
        groups: Vec::new(alloc),
        is_counting: false,
    };
    for token in tokens {
        joined.push(fixtures, token)?;
    }
    if joined.is_counting {
        return Err(Fault::BadNumber);
    }
    if joined.groups.is_empty() {
        Ok(joined.bytes)
    } else {
        Err(Fault::OpenGroup)
    }
}

/// The bytes that a text of pieces means.
pub fn bytes_of(alloc: Global, fixtures: &Fixtures, text: &[u8]) -> Result<Vec<u8>, Fault> {
    let tokens = tokens_of(alloc, text)?;
    join(alloc, fixtures, &tokens)
}
