//! The program's objects: a disk, a shelf, sinks and a clock over the files, streams and clock of the system.
#![tactic(auto)]

mod door;
mod folder;
mod lock;
mod moment;
mod obstacle;
mod pages;
mod place;
mod purpose;
mod real_disk;
mod real_file;
mod real_shelf;
mod real_sink;

pub use moment::moment_of;
pub use obstacle::Obstacle;
pub use purpose::Purpose;
pub use real_disk::RealDisk;
pub use real_shelf::RealShelf;
pub use real_sink::RealSink;
