//! What is expected of a command line.

use crate::fault::Fault;
use crate::fixtures::Fixtures;
use crate::keyword::{Keyword, Stream};
use crate::pieces::join;
use crate::row::{Ending, Line, Output, Taken};
use crate::token::{Token, number_of, tokens_of};
use std::alloc::Global;

impl Output {
    /// More bytes are expected.
    fn push(&mut self, bytes: &[u8]) -> Result<(), Fault> {
        match &mut self.taken {
            Taken::Bytes(taken) => {
                taken.extend_from_slice(bytes)?;
                Ok(())
            }
            Taken::Lines(_) => Err(Fault::GivenTwice),
        }
    }

    /// So many line ends are expected.
    fn count_lines(&mut self, count: u64) -> Result<(), Fault> {
        match &self.taken {
            Taken::Bytes(taken) if taken.is_empty() => {}
            _ => return Err(Fault::GivenTwice),
        }
        self.taken = Taken::Lines(count);
        Ok(())
    }
}

/// The number in front of `lines`, where the words are these two.
fn counted_lines(tokens: &[Token]) -> Result<Option<u64>, Fault> {
    match tokens {
        [number, word] if word.is_word(b"lines") => Ok(Some(number_of(&number.bytes)?)),
        _ => Ok(None),
    }
}

/// How a line ends: three words, with a space between each two.
fn ending_of(alloc: Global, line: usize, text: &[u8]) -> Result<Ending, Fault> {
    let tokens = tokens_of(alloc, text)?;
    match tokens.as_slice() {
        [why, status, changes] => Ok(Ending {
            line,
            text: format!(in alloc;
                "{} {} {}",
                why.as_text()?,
                status.as_text()?,
                changes.as_text()?
            )?,
        }),
        _ => Err(Fault::WordCount),
    }
}

impl Line {
    /// The expectation of one of the sinks.
    fn output(&mut self, stream: Stream) -> &mut Output {
        match stream {
            Stream::Out => &mut self.out,
            Stream::Err => &mut self.err,
        }
    }

    /// Takes a line that one of the sinks gained, as it stands.
    fn push_line(&mut self, stream: Stream, text: &[u8]) -> Result<(), Fault> {
        let output = self.output(stream);
        output.push(text)?;
        output.push(b"\n")
    }

    /// Takes bytes that one of the sinks gained, or how many lines.
    fn push_bytes(
        &mut self,
        alloc: Global,
        fixtures: &Fixtures,
        stream: Stream,
        text: &[u8],
    ) -> Result<(), Fault> {
        let tokens = tokens_of(alloc, text)?;
        let output = self.output(stream);
        match counted_lines(&tokens)? {
            Some(count) => output.count_lines(count),
            None => output.push(&join(alloc, fixtures, &tokens)?),
        }
    }

    /// Takes how the line ends.
    fn set_ends(&mut self, alloc: Global, line: usize, text: &[u8]) -> Result<(), Fault> {
        if self.ends.is_some() {
            return Err(Fault::GivenTwice);
        }
        self.ends = Some(ending_of(alloc, line, text)?);
        Ok(())
    }

    /// Takes a statement of what is expected of this line. `text` is what stands after its first word and one space.
    pub fn take(
        &mut self,
        alloc: Global,
        fixtures: &Fixtures,
        line: usize,
        keyword: Keyword,
        text: &[u8],
    ) -> Result<(), Fault> {
        match keyword {
            Keyword::Line(stream) => self.push_line(stream, text),
            Keyword::Bytewise(stream) => self.push_bytes(alloc, fixtures, stream, text),
            Keyword::Ends => self.set_ends(alloc, line, text),
            Keyword::Reads => {
                self.reads = number_of(text.trim_ascii())?;
                Ok(())
            }
            Keyword::Untouched => {
                self.is_untouched = true;
                Ok(())
            }
            _ => Err(Fault::UnknownStatement),
        }
    }
}
