//! A shelf over the files of the system, and standard input.

ghost use Rattle.std.specs.Prelude.{false, None};
ghost use Rattle.std.specs.FinMap.{empty};
ghost use Rattle.std.specs.Io.{ReadsAtMost};
ghost use Rattle.rpm_real.specs.Counts.{ShelfCounted};

use rpm_outside::{Absent, Failed, Shelf};
use std::alloc::Global;
use std::fs::OpenFile;
use std::io::{BufReader, ErrorKind, Input, Read};
use std::rt::Files;
use std::{fs, io};

/// What is open.
#[derive(Drop)]
enum Item<F: Drop, I: Drop> {
    Nothing,
    File(BufReader<F>),
    Input(BufReader<I>),
}

/// How many bytes are read at once where a caller asks for fewer.
const AHEAD: usize = 32768;

/// A shelf that opens files by their paths, and tells nothing of what they hold. It reads ahead of its callers.
#[derive(Drop)]
pub struct RealShelf<'a, R: Files + Input> {
    alloc: Global,
    rt: &'a R,
    item: Item<R::File, R::Reader>,
    absences: u64,
    faults: u64,
}

/// Reads, and again where a signal came first.
fn read_on(from: &mut impl Read, into: &mut [u8]) -> io::Result<usize>
    ensures { ReadsAtMost result into.new }
{
    for _ in 0..u64::MAX {
        match from.read(into) {
            Err(error) if error.kind() == ErrorKind::Interrupted => {}
            answer => return answer,
        }
    }
    Err(io::Error::from(ErrorKind::Interrupted))
}

impl<'a, R: Files + Input> RealShelf<'a, R> {
    /// A shelf on which nothing is open.
    pub fn new(alloc: Global, rt: &'a R) -> RealShelf<'a, R> {
        RealShelf {
            alloc,
            rt,
            item: Item::Nothing,
            absences: 0,
            faults: 0,
        }
    }

    /// The item under a path, with a buffer in front of it. A folder is none.
    fn item_of(&self, path: &str) -> io::Result<Item<R::File, R::Reader>> {
        if path == "-" {
            let input = BufReader::with_capacity(self.alloc, AHEAD, self.rt.reader())?;
            return Ok(Item::Input(input));
        }
        let file = fs::open(self.rt, path)?;
        if file.metadata()?.is_dir() {
            return Err(io::Error::from(ErrorKind::IsADirectory));
        }
        let file = BufReader::with_capacity(self.alloc, AHEAD, file)?;
        Ok(Item::File(file))
    }
}

impl<'a, R: Files + Input> Shelf for RealShelf<'a, R> {
    ghost tells = { false };

    ghost paths = { λ shelf. empty };

    ghost rest = { λ shelf. None };

    ghost absences = { λ shelf. shelf.absences };

    ghost faults = { λ shelf. shelf.faults };

    ghost outcome = { λ old call failed new. ShelfCounted call failed old.absences old.faults new.absences new.faults };

    fn open(&mut self, path: &str) -> Result<(), Absent> {
        match self.item_of(path) {
            Ok(item) => {
                self.item = item;
                Ok(())
            }
            Err(_) => {
                self.item = Item::Nothing;
                self.absences = self.absences.saturating_add(1);
                Err(Absent)
            }
        }
    }

    fn read(&mut self, into: &mut [u8]) -> Result<usize, Failed> {
        let got = match &mut self.item {
            Item::Nothing => return Ok(0),
            Item::File(file) => read_on(file, into),
            Item::Input(input) => read_on(input, into),
        };
        match got {
            Ok(count) => Ok(count),
            Err(_) => {
                self.faults = self.faults.saturating_add(1);
                Err(Failed)
            }
        }
    }
}
