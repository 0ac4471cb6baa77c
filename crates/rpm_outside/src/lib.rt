//! What the program meets outside of itself: a disk, a shelf of files to read, sinks to write to.
#![tactic(auto)]

mod buffered;
mod copies;
mod disk;
mod failed;
mod mem_disk;
mod mem_shelf;
mod mem_sink;
mod puts;
mod shelf;
mod sink;
mod steps;
mod words;

pub use buffered::Buffered;
pub use disk::{Disk, File};
pub use failed::Failed;
pub use mem_disk::MemDisk;
pub use mem_shelf::MemShelf;
pub use mem_sink::MemSink;
pub use puts::{put_all, put_and_flush};
pub use shelf::{Absent, Shelf};
pub use sink::Sink;
pub use steps::{Pick, copy_units};
pub use words::{bytes_of_word, unit_of_words, word};
