//! The rows of a file.

use crate::ahead::Ahead;
use crate::fault::Fault;
use crate::fixtures::Fixtures;
use crate::keyword::{Keyword, keyword_of};
use crate::leaving::{left_of, record_of};
use crate::pieces::{bytes_of, join};
use crate::row::{Left, LeftAt, Row, Shelved, Wrong};
use crate::statement::{Statement, first_word};
use crate::token::{short_number_of, some_number_of, tokens_of};
use rpm_outside::File;
use std::alloc::{AllocError, Global};
use std::mem;
use std::str::from_utf8;

/// Takes `bytes NAME PIECES`.
fn name_bytes(alloc: Global, fixtures: &mut Fixtures, text: &[u8]) -> Result<(), Fault> {
    let (name, pieces) = first_word(text.trim_ascii_start());
    if name.is_empty() {
        return Err(Fault::WordCount);
    }
    let bytes = bytes_of(alloc, fixtures, pieces)?;
    fixtures.put(name, bytes)
}

/// Takes `at OFFSET PIECES`.
fn patch_bytes(alloc: Global, fixtures: &mut Fixtures, text: &[u8]) -> Result<(), Fault> {
    let (offset, pieces) = first_word(text.trim_ascii_start());
    let bytes = bytes_of(alloc, fixtures, pieces)?;
    let Ok(offset) = from_utf8(offset) else {
        return Err(Fault::BadNumber);
    };
    match offset.parse::<i64>() {
        Ok(offset) => fixtures.patch(offset, &bytes),
        Err(_) => Err(Fault::BadNumber),
    }
}

/// What `shelf PATH PIECES` puts on the shelf.
fn shelved_of(alloc: Global, fixtures: &Fixtures, text: &[u8]) -> Result<Shelved, Fault> {
    let tokens = tokens_of(alloc, text)?;
    match tokens.split_first() {
        Some((path, pieces)) => Ok(Shelved {
            path: String::from_str(alloc, path.as_text()?)?,
            bytes: join(alloc, fixtures, pieces)?,
        }),
        None => Err(Fault::WordCount),
    }
}

/// A row that is being read.
#[derive(Drop)]
struct Reader {
    alloc: Global,
    row: Row,
    ahead: Ahead,
}

impl Reader {
    fn new(alloc: Global, line: usize, name: String) -> Reader {
        Reader {
            alloc,
            row: Row::new(alloc, line, name),
            ahead: Ahead::new(alloc),
        }
    }

    /// Takes the bytes of one of the three files.
    fn set_file(&mut self, fixtures: &Fixtures, file: File, text: &[u8]) -> Result<(), Fault> {
        if !self.row.start.files.bytes(file).is_empty() {
            return Err(Fault::GivenTwice);
        }
        let bytes = bytes_of(self.alloc, fixtures, text)?;
        self.row.start.files.set(file, bytes);
        Ok(())
    }

    /// Takes a statement of what the row begins with.
    fn take_start(
        &mut self,
        fixtures: &Fixtures,
        keyword: Keyword,
        text: &[u8],
    ) -> Result<(), Fault> {
        if self.row.line == 0 || !self.row.lines.is_empty() {
            return Err(Fault::OutOfPlace);
        }
        match keyword {
            Keyword::Holds(file) => self.set_file(fixtures, file, text),
            Keyword::Shelf => {
                let shelved = shelved_of(self.alloc, fixtures, text)?;
                self.row.start.shelf.push(shelved)?;
                Ok(())
            }
            _ => {
                self.row.start.pieces = some_number_of(text.trim_ascii())?;
                Ok(())
            }
        }
    }

    /// Takes a statement about the next command line.
    fn take_ahead(
        &mut self,
        fixtures: &Fixtures,
        line: usize,
        keyword: Keyword,
        text: &[u8],
    ) -> Result<(), Fault> {
        if self.row.line == 0 || !self.row.left.is_empty() {
            return Err(Fault::OutOfPlace);
        }
        if matches!(keyword, Keyword::Command) {
            let command = self.ahead.command(fixtures, line, text)?;
            self.row.lines.push(command)?;
            return Ok(());
        }
        self.ahead.take(line, keyword, text)
    }

    /// Takes a statement of what is expected of the last command line.
    fn take_expected(
        &mut self,
        fixtures: &Fixtures,
        line: usize,
        keyword: Keyword,
        text: &[u8],
    ) -> Result<(), Fault> {
        if self.ahead.is_given() || !self.row.left.is_empty() {
            return Err(Fault::OutOfPlace);
        }
        match self.row.lines.last_mut() {
            Some(last) => last.take(self.alloc, fixtures, line, keyword, text),
            None => Err(Fault::OutOfPlace),
        }
    }

    /// Takes a statement of what is left after all lines.
    fn take_left(
        &mut self,
        fixtures: &Fixtures,
        line: usize,
        keyword: Keyword,
        text: &[u8],
    ) -> Result<(), Fault> {
        let left = match keyword {
            Keyword::Left => left_of(self.alloc, fixtures, text)?,
            Keyword::Record => record_of(self.alloc, fixtures, text)?,
            _ => Left::AllOf(short_number_of(text.trim_ascii())?),
        };
        if self.row.lines.is_empty() {
            return Err(Fault::OutOfPlace);
        }
        self.row.left.push(LeftAt { line, left })?;
        Ok(())
    }

    /// Takes a statement of the row.
    fn take_row(
        &mut self,
        fixtures: &Fixtures,
        line: usize,
        keyword: Keyword,
        text: &[u8],
    ) -> Result<(), Fault> {
        match keyword {
            Keyword::Holds(_) | Keyword::Shelf | Keyword::Pieces => {
                self.take_start(fixtures, keyword, text)
            }
            Keyword::Now | Keyword::Fails | Keyword::Times | Keyword::Every => {
                self.take_ahead(fixtures, line, keyword, text)
            }
            Keyword::Shows(_) | Keyword::Command => self.take_ahead(fixtures, line, keyword, text),
            Keyword::Left | Keyword::Record | Keyword::Of => {
                self.take_left(fixtures, line, keyword, text)
            }
            _ => self.take_expected(fixtures, line, keyword, text),
        }
    }

    /// Takes a statement.
    fn take(
        &mut self,
        fixtures: &mut Fixtures,
        line: usize,
        keyword: Keyword,
        text: &[u8],
    ) -> Result<(), Fault> {
        match keyword {
            Keyword::Bytes => name_bytes(self.alloc, fixtures, text),
            Keyword::At => patch_bytes(self.alloc, fixtures, text),
            _ => {
                fixtures.close();
                self.take_row(fixtures, line, keyword, text)
            }
        }
    }

    /// Keeps what is wrong first.
    fn keep(&mut self, line: usize, fault: Fault) {
        if self.row.wrong.is_none() {
            self.row.wrong = Some(Wrong { line, fault });
        }
    }

    /// What the row lacks.
    fn lack(&self) -> Option<Wrong> {
        let row = &self.row;
        if row.line == 0 {
            return None;
        }
        let fault = if self.ahead.is_given() {
            Some(Fault::NotFollowed)
        } else if row.lines.is_empty() {
            Some(Fault::NoLine)
        } else {
            None
        };
        if let Some(fault) = fault {
            let line = row.line;
            return Some(Wrong { line, fault });
        }
        for line in row.lines.iter() {
            if line.ends.is_none() {
                return Some(Wrong {
                    line: line.line,
                    fault: Fault::NoEnding,
                });
            }
        }
        None
    }

    /// The row, as far as it was read.
    fn finish(self) -> Row {
        let mut reader = self;
        if let Some(wrong) = reader.lack() {
            reader.keep(wrong.line, wrong.fault);
        }
        reader.row
    }
}

/// The rows of a file's statements. What stands in front of the first one is a row of line 0. Bytes that it names are
/// added to the fixtures.
pub fn rows_of(
    alloc: Global,
    fixtures: &mut Fixtures,
    statements: &[Statement],
) -> Result<Vec<Row>, AllocError> {
    let mut rows = Vec::new(alloc);
    let mut reader = Reader::new(alloc, 0, String::new(alloc));
    for statement in statements {
        let line = statement.line;
        let (word, text) = first_word(&statement.text);
        match keyword_of(word) {
            Some(Keyword::Row) => {
                let name = String::from_utf8_lossy(alloc, text.trim_ascii())?;
                let done = mem::replace(&mut reader, Reader::new(alloc, line, name));
                rows.push(done.finish())?;
            }
            Some(keyword) => {
                if let Err(fault) = reader.take(fixtures, line, keyword, text) {
                    reader.keep(line, fault);
                }
            }
            None => reader.keep(line, Fault::UnknownStatement),
        }
    }
    rows.push(reader.finish())?;
    Ok(rows)
}
