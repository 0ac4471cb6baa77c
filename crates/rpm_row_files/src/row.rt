//! A worked row: its start, its command lines with what is expected of each, and what is left after them.

use crate::fault::Fault;
use crate::records::Record;
use rpm_outside::{File, MemDisk};
use rpm_words::Words;
use std::alloc::{AllocError, Global};

/// The bytes of the three files.
#[derive(Drop)]
pub struct Files {
    pub packages: Vec<u8>,
    pub index: Vec<u8>,
    pub log: Vec<u8>,
}

impl Files {
    /// Three files without bytes.
    pub fn new(alloc: Global) -> Files {
        Files {
            packages: Vec::new(alloc),
            index: Vec::new(alloc),
            log: Vec::new(alloc),
        }
    }

    /// The files of a disk as they read.
    pub fn of(alloc: Global, disk: &MemDisk) -> Result<Files, AllocError> {
        Ok(Files {
            packages: disk.copy_file(alloc, File::Pkg)?,
            index: disk.copy_file(alloc, File::Idx)?,
            log: disk.copy_file(alloc, File::Log)?,
        })
    }

    /// The same files.
    pub fn copy(&self, alloc: Global) -> Result<Files, AllocError> {
        Ok(Files {
            packages: self.packages.as_slice().to_vec(alloc)?,
            index: self.index.as_slice().to_vec(alloc)?,
            log: self.log.as_slice().to_vec(alloc)?,
        })
    }

    /// The bytes of one of them.
    pub fn bytes(&self, file: File) -> &[u8] {
        match file {
            File::Pkg => &self.packages,
            File::Idx => &self.index,
            File::Log => &self.log,
        }
    }

    /// Puts bytes in place of one of them.
    pub fn set(&mut self, file: File, bytes: Vec<u8>) {
        match file {
            File::Pkg => self.packages = bytes,
            File::Idx => self.index = bytes,
            File::Log => self.log = bytes,
        }
    }
}

/// Bytes under a path of the shelf.
#[derive(Drop)]
pub struct Shelved {
    pub path: String,
    pub bytes: Vec<u8>,
}

/// What a row begins with.
#[derive(Drop)]
pub struct Start {
    pub files: Files,
    pub shelf: Vec<Shelved>,
    /// How many bytes each call of the shelf and the sinks moves at most.
    pub pieces: u32,
}

impl Start {
    /// Three files without bytes, nothing on the shelf, and pieces of any length.
    pub fn new(alloc: Global) -> Start {
        Start {
            files: Files::new(alloc),
            shelf: Vec::new(alloc),
            pieces: u32::MAX,
        }
    }
}

/// What fails while a command line runs.
#[derive(Clone, Copy)]
pub struct Fails {
    /// The disk's call of this number, from 1 on; 0 for none.
    pub disk: u64,
    /// What `out` takes before it fails.
    pub out: u64,
    pub err: u64,
    /// The shelf's read of this number, from 1 on; 0 for none.
    pub read: u64,
}

/// Nothing fails.
pub const NOTHING_FAILS: Fails = Fails {
    disk: 0,
    out: u64::MAX,
    err: u64::MAX,
    read: 0,
};

/// What the two databases show that a disk fault may leave.
#[derive(Drop)]
pub struct Shown {
    pub line: usize,
    pub before: Vec<u8>,
    pub after: Vec<u8>,
}

/// What a sink is expected to take.
#[derive(Drop)]
pub enum Taken {
    /// Exactly these bytes.
    Bytes(Vec<u8>),
    /// So many line ends.
    Lines(u64),
}

/// What one of the sinks is expected to take, and the line that says so.
#[derive(Drop)]
pub struct Output {
    pub line: usize,
    pub taken: Taken,
}

/// How a command line is expected to end, as a text, and the line that says so.
#[derive(Drop)]
pub struct Ending {
    pub line: usize,
    pub text: String,
}

/// A command line, and what is expected of it.
#[derive(Drop)]
pub struct Line {
    pub line: usize,
    pub words: Words,
    pub now: u32,
    pub times: u32,
    pub fails: Fails,
    pub every_call: Option<Shown>,
    pub out: Output,
    pub err: Output,
    pub ends: Option<Ending>,
    /// How many bytes of `Packages.db` it reads at most.
    pub reads: u64,
    /// Whether nothing is written or synced.
    pub is_untouched: bool,
}

/// What is expected of the files after all lines.
#[derive(Drop)]
pub enum Left {
    Bytes(File, Vec<u8>),
    Digest(File, [u8; 32]),
    Records(u64),
    Record(Record),
    /// The named records of this number are all that it has.
    AllOf(u32),
    /// The records are those of an index made from scratch.
    AsRebuilt,
}

impl Left {
    /// Whether it is said of the records of the index.
    pub fn is_of_records(&self) -> bool {
        !matches!(self, Left::Bytes(..) | Left::Digest(..))
    }
}

/// An expectation of that kind, and the line that says it.
#[derive(Drop)]
pub struct LeftAt {
    pub line: usize,
    pub left: Left,
}

/// A statement that can't be taken, and its line.
#[derive(Clone, Copy)]
pub struct Wrong {
    pub line: usize,
    pub fault: Fault,
}

/// A worked row.
#[derive(Drop)]
pub struct Row {
    /// Its first line; 0 for what stands in front of the first row of a file.
    pub line: usize,
    pub name: String,
    pub start: Start,
    pub lines: Vec<Line>,
    pub left: Vec<LeftAt>,
    pub wrong: Option<Wrong>,
}

impl Row {
    /// A row without lines.
    pub fn new(alloc: Global, line: usize, name: String) -> Row {
        Row {
            line,
            name,
            start: Start::new(alloc),
            lines: Vec::new(alloc),
            left: Vec::new(alloc),
            wrong: None,
        }
    }
}
