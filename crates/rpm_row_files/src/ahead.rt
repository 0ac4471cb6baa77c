//! What stands in front of a command line and is about it.

use crate::fault::Fault;
use crate::fixtures::Fixtures;
use crate::keyword::{Keyword, Side};
use crate::row::{Fails, Line, NOTHING_FAILS, Output, Shown, Taken};
use crate::statement::first_word;
use crate::token::{Token, number_of, short_number_of, some_number_of, tokens_of};
use rpm_words::Words;
use std::alloc::Global;
use std::str::from_utf8;

/// What is to hold for the next command line.
#[derive(Drop)]
pub struct Ahead {
    alloc: Global,
    now: u32,
    times: u32,
    fails: Fails,
    every_call: Option<Shown>,
    // Whether one of these but the moment was given.
    is_given: bool,
}

/// The bytes of a word: those that it names, where it begins with `@`.
fn word_bytes<'a>(fixtures: &'a Fixtures, token: &'a Token) -> Result<&'a [u8], Fault> {
    match token.bytes.strip_prefix(b"@") {
        Some(name) if !token.is_text => fixtures.get(name),
        _ => Ok(&token.bytes),
    }
}

/// Appends a word as often as it is to stand.
fn push_word(words: &mut Words, fixtures: &Fixtures, token: &Token) -> Result<(), Fault> {
    let Ok(text) = from_utf8(word_bytes(fixtures, token)?) else {
        return Err(Fault::NotText);
    };
    for _ in 0..token.count {
        if words.len() == u32::MAX {
            return Err(Fault::WordCount);
        }
        words.push(text)?;
    }
    Ok(())
}

/// The words of a command line.
fn words_of(alloc: Global, fixtures: &Fixtures, text: &[u8]) -> Result<Words, Fault> {
    let mut words = Words::new(alloc);
    let tokens = tokens_of(alloc, text)?;
    for token in tokens.iter() {
        push_word(&mut words, fixtures, token)?;
    }
    Ok(words)
}

/// What a sink takes of which nothing was said: no bytes.
fn nothing(alloc: Global, line: usize) -> Output {
    Output {
        line,
        taken: Taken::Bytes(Vec::new(alloc)),
    }
}

/// The text after the `>` that begins these bytes, with a line end.
fn shown_line(text: &[u8]) -> Result<&[u8], Fault> {
    match text.trim_ascii_start().strip_prefix(b">") {
        Some(line) => Ok(line.strip_prefix(b" ").unwrap_or(line)),
        None => Err(Fault::UnknownWord),
    }
}

impl Ahead {
    /// Nothing is given, and the moment is 0.
    pub fn new(alloc: Global) -> Ahead {
        Ahead {
            alloc,
            now: 0,
            times: 1,
            fails: NOTHING_FAILS,
            every_call: None,
            is_given: false,
        }
    }

    /// Whether something waits for a command line.
    pub fn is_given(&self) -> bool {
        self.is_given
    }

    /// Takes `fails WHAT N`.
    fn set_fails(&mut self, text: &[u8]) -> Result<(), Fault> {
        let (what, number) = first_word(text);
        let number = number.trim_ascii();
        match what {
            b"disk" => self.fails.disk = u64::from(some_number_of(number)?),
            b"out" => self.fails.out = number_of(number)?,
            b"err" => self.fails.err = number_of(number)?,
            b"read" => self.fails.read = u64::from(some_number_of(number)?),
            _ => return Err(Fault::UnknownWord),
        }
        Ok(())
    }

    /// Takes `every call fails`.
    fn set_every_call(&mut self, line: usize, text: &[u8]) -> Result<(), Fault> {
        if text.trim_ascii() != b"call fails".as_slice() {
            return Err(Fault::UnknownWord);
        }
        self.every_call = Some(Shown {
            line,
            before: Vec::new(self.alloc),
            after: Vec::new(self.alloc),
        });
        Ok(())
    }

    /// Takes a line that one of the two databases shows.
    fn push_shown(&mut self, side: Side, text: &[u8]) -> Result<(), Fault> {
        let line = shown_line(text)?;
        let Some(shown) = &mut self.every_call else {
            return Err(Fault::OutOfPlace);
        };
        let bytes = match side {
            Side::Before => &mut shown.before,
            Side::After => &mut shown.after,
        };
        bytes.extend_from_slice(line)?;
        bytes.push(b'\n')?;
        Ok(())
    }

    /// Takes a statement about the next command line.
    pub fn take(&mut self, line: usize, keyword: Keyword, text: &[u8]) -> Result<(), Fault> {
        if matches!(keyword, Keyword::Now) {
            self.now = short_number_of(text.trim_ascii())?;
            return Ok(());
        }
        self.is_given = true;
        match keyword {
            Keyword::Fails => self.set_fails(text.trim_ascii()),
            Keyword::Times => {
                self.times = some_number_of(text.trim_ascii())?;
                Ok(())
            }
            Keyword::Every => self.set_every_call(line, text),
            Keyword::Shows(side) => self.push_shown(side, text),
            _ => Err(Fault::UnknownStatement),
        }
    }

    /// The command line of these words, with all that was given for it.
    pub fn command(
        &mut self,
        fixtures: &Fixtures,
        line: usize,
        text: &[u8],
    ) -> Result<Line, Fault> {
        let words = words_of(self.alloc, fixtures, text)?;
        let times = self.times;
        let fails = self.fails;
        self.times = 1;
        self.fails = NOTHING_FAILS;
        self.is_given = false;
        Ok(Line {
            line,
            words,
            now: self.now,
            times,
            fails,
            every_call: self.every_call.take(),
            out: nothing(self.alloc, line),
            err: nothing(self.alloc, line),
            ends: None,
            reads: u64::MAX,
            is_untouched: false,
        })
    }
}
