//! The files of a system on which the opened folders are counted, and a standard input and an output that a signal
//! interrupts first.

use std::alloc::Allocator;
use std::cell::Cell;
use std::fmt::Display;
use std::fs::{Metadata, OpenFile, OpenOptions};
use std::io;
use std::io::{BufRead, ErrorKind, Input, Lines, Print, Read};
use std::path::PathBuf;
use std::rt::{Clock, Files};
use std::time::Duration;

/// The files of a system, with the number of folders that were opened.
#[derive(Drop)]
pub struct Watched<'a, R: Files> {
    rt: &'a R,
    folders: Cell<u32>,
}

impl<'a, R: Files> Watched<'a, R> {
    pub fn new(rt: &'a R) -> Watched<'a, R> {
        Watched {
            rt,
            folders: Cell::new(0),
        }
    }

    pub fn folders(&self) -> u32 {
        self.folders.get()
    }
}

impl<'a, R: Files + Clock> Clock for Watched<'a, R> {
    fn monotonic(&self) -> io::Result<Duration> {
        self.rt.monotonic()
    }

    fn since_1970(&self) -> io::Result<Duration> {
        self.rt.since_1970()
    }
}

impl<'a, R: Files> Files for Watched<'a, R> {
    type File = R::File;

    type Dir = R::Dir;

    fn open_file(&self, how: &OpenOptions, path: &str) -> io::Result<R::File> {
        let file = self.rt.open_file(how, path)?;
        if file.metadata()?.is_dir() {
            self.folders.set(self.folders.get().saturating_add(1));
        }
        Ok(file)
    }

    fn open_dir(&self, path: &str) -> io::Result<R::Dir> {
        self.rt.open_dir(path)
    }

    fn metadata(&self, path: &str) -> io::Result<Metadata> {
        self.rt.metadata(path)
    }

    fn symlink_metadata(&self, path: &str) -> io::Result<Metadata> {
        self.rt.symlink_metadata(path)
    }

    fn copy(&self, from: &str, to: &str) -> io::Result<u64> {
        self.rt.copy(from, to)
    }

    fn rename(&self, from: &str, to: &str) -> io::Result<()> {
        self.rt.rename(from, to)
    }

    fn remove_file(&self, path: &str) -> io::Result<()> {
        self.rt.remove_file(path)
    }

    fn create_dir(&self, path: &str) -> io::Result<()> {
        self.rt.create_dir(path)
    }

    fn remove_dir(&self, path: &str) -> io::Result<()> {
        self.rt.remove_dir(path)
    }

    fn remove_dir_all<B: Allocator>(&self, alloc: B, path: &str) -> io::Result<()> {
        self.rt.remove_dir_all(alloc, path)
    }

    fn canonicalize<B: Allocator>(&self, alloc: B, path: &str) -> io::Result<PathBuf<B>> {
        self.rt.canonicalize(alloc, path)
    }
}

/// A reader of one byte, whose first read is interrupted.
#[derive(Drop)]
pub struct CutReader {
    calls: u32,
}

impl Read for CutReader {
    fn read(&mut self, buf: &mut [u8]) -> io::Result<usize> {
        self.calls = self.calls.saturating_add(1);
        if self.calls == 1 {
            return Err(io::Error::from(ErrorKind::Interrupted));
        }
        if self.calls > 2 || buf.is_empty() {
            return Ok(0);
        }
        buf[0] = b'a';
        Ok(1)
    }
}

// A shelf has a buffer of its own before it, and asks for none.
impl BufRead for CutReader {
    fn fill_buf(&mut self) -> io::Result<&[u8]> {
        Err(io::Error::from(ErrorKind::Unsupported))
    }

    fn consume(&mut self, _amount: usize) {}
}

impl<'a, R: Files> Input for Watched<'a, R> {
    type Reader = CutReader;

    fn read_line<A: Allocator + Clone>(&self, _buf: &mut String<A>) -> io::Result<usize> {
        Err(io::Error::from(ErrorKind::Unsupported))
    }

    fn lines<A: Allocator>(&self, alloc: A) -> Lines<CutReader, A> {
        self.reader().lines(alloc)
    }

    fn reader(&self) -> CutReader {
        CutReader { calls: 0 }
    }
}

/// An output that takes one byte at a time, and of which the first call is interrupted.
#[derive(Drop)]
pub struct CutOutput {
    calls: Cell<u32>,
}

impl CutOutput {
    pub fn new() -> CutOutput {
        CutOutput {
            calls: Cell::new(0),
        }
    }
}

impl Print for CutOutput {
    fn print<D: Display + Drop>(&self, _value: D) -> io::Result<()> {
        Err(io::Error::from(ErrorKind::Unsupported))
    }

    fn println<D: Display + Drop>(&self, _value: D) -> io::Result<()> {
        Err(io::Error::from(ErrorKind::Unsupported))
    }

    fn write_all(&self, _bytes: &[u8]) -> io::Result<()> {
        Err(io::Error::from(ErrorKind::Unsupported))
    }

    fn write_some(&self, bytes: &[u8]) -> io::Result<usize> {
        let calls = self.calls.get();
        self.calls.set(calls.saturating_add(1));
        if calls == 0 {
            return Err(io::Error::from(ErrorKind::Interrupted));
        }
        Ok(bytes.len().min(1))
    }
}
