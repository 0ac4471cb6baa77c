//! The blob of a number, read.

ghost use Rattle.std.specs.Prelude.{◌≤◌, IsTrue, length, IfOk};
ghost use Rattle.rpm_pkgdb.specs.Prelude.{AnswerIs, blobs, checksums_hold, frame_in, frames, given_bytes, given_blob, given_check, KeepsStore, ReadsBlob};
ghost use Rattle.std.specs.FinMap as finite;

use crate::blob::{Blocks, Checked, GetFault, read_blocks};
use crate::store::PkgDb;
use rpm_outside::Disk;
use std::alloc::Global;

impl PkgDb {
    /// Reads the blocks of a number, into a vector whose room is used again.
    fn blocks<D: Disk>(&self, disk: &mut D, n: u32, room: Vec<u8>) -> Result<Blocks, GetFault>
        requires keeps { IsTrue D.tells → KeepsStore (D.files disk.old).pkg self.now }
        ensures long { IfOk result (λ b. 12 ≤ length b.rest.items) }
        ensures told { IsTrue D.tells → AnswerIs frame_in (frames (D.files disk.old).pkg self.now n) result }
        ensures reads { ReadsBlob D.Disk n self.now result disk.old disk.new }
    {
        match self.slot_of(n) {
            None => Err(GetFault::NoSuch),
            Some(slot) => read_blocks(disk, n, slot, room),
        }
    }

    /// The blob of a number.
    ///
    /// Reads the number's own blocks, each once: 512 or fewer, which are 8 KiB, by one call, whatever their head says,
    /// and of more the first alone where the head is wrong. The bytes that are answered are those that were read, in the vector that
    /// they were read into.
    ///
    /// # Errors
    ///
    /// - `NoSuch` exactly where no slot has the number. Nothing is read then.
    /// - `Bad` exactly where the framing of its blob is broken.
    /// - `DiskFault` only where the disk's count of faults rose.
    /// - `NoMemory` where the blob finds no memory.
    pub fn get<D: Disk>(&self, alloc: Global, disk: &mut D, n: u32) -> Result<Vec<u8>, GetFault>
        requires keeps { IsTrue D.tells → KeepsStore (D.files disk.old).pkg self.now }
        ensures told { IsTrue D.tells → AnswerIs given_bytes (finite.get (blobs (D.files disk.old).pkg self.now) n) result }
        ensures reads { ReadsBlob D.Disk n self.now result disk.old disk.new }
    {
        self.get_in(disk, n, Vec::new(alloc))
    }

    /// The blob of a number, as `get` gives it, in a vector of the caller's, whatever it holds. One that held a blob
    /// before has its room already, and what of it is written over needn't be zeroed first.
    ///
    /// # Errors
    ///
    /// Those of `get`, with the same causes.
    pub fn get_in<D: Disk>(&self, disk: &mut D, n: u32, room: Vec<u8>) -> Result<Vec<u8>, GetFault>
        requires keeps { IsTrue D.tells → KeepsStore (D.files disk.old).pkg self.now }
        ensures told { IsTrue D.tells → AnswerIs given_bytes (finite.get (blobs (D.files disk.old).pkg self.now) n) result }
        ensures reads { ReadsBlob D.Disk n self.now result disk.old disk.new }
    {
        let blocks = self.blocks(disk, n, room)?;
        Ok(blocks.into_blob())
    }

    /// Whether the checksum in the tail of a number's blob is the Adler-32 of its head, bytes and padding.
    ///
    /// Reads the number's own blocks, each once, and takes memory for them.
    ///
    /// # Errors
    ///
    /// Those of `get`, with the same causes.
    pub fn checksum_holds<D: Disk>(
        &self,
        alloc: Global,
        disk: &mut D,
        n: u32,
    ) -> Result<bool, GetFault>
        requires keeps { IsTrue D.tells → KeepsStore (D.files disk.old).pkg self.now }
        ensures told { IsTrue D.tells → AnswerIs (λ holds. holds) (checksums_hold (D.files disk.old).pkg self.now n) result }
        ensures reads { ReadsBlob D.Disk n self.now result disk.old disk.new }
    {
        let blocks = self.blocks(disk, n, Vec::new(alloc))?;
        Ok(blocks.checksum_holds())
    }

    /// The blob of a number, and whether the checksum in its tail is right.
    ///
    /// Reads the number's own blocks, each once, as `get` does, and takes memory for them alone.
    ///
    /// # Errors
    ///
    /// Those of `get`, with the same causes. A wrong checksum is no error.
    pub fn read_checked<D: Disk>(
        &self,
        alloc: Global,
        disk: &mut D,
        n: u32,
    ) -> Result<Checked, GetFault>
        requires keeps { IsTrue D.tells → KeepsStore (D.files disk.old).pkg self.now }
        ensures blob { IsTrue D.tells → AnswerIs given_blob (finite.get (blobs (D.files disk.old).pkg self.now) n) result }
        ensures holds { IsTrue D.tells → AnswerIs given_check (checksums_hold (D.files disk.old).pkg self.now n) result }
        ensures reads { ReadsBlob D.Disk n self.now result disk.old disk.new }
    {
        self.read_checked_in(disk, n, Vec::new(alloc))
    }

    /// The blob of a number, and whether the checksum in its tail is right, as `read_checked` gives them, in a vector of
    /// the caller's, whatever it holds.
    ///
    /// # Errors
    ///
    /// Those of `get`, with the same causes. A wrong checksum is no error.
    pub fn read_checked_in<D: Disk>(
        &self,
        disk: &mut D,
        n: u32,
        room: Vec<u8>,
    ) -> Result<Checked, GetFault>
        requires keeps { IsTrue D.tells → KeepsStore (D.files disk.old).pkg self.now }
        ensures blob { IsTrue D.tells → AnswerIs given_blob (finite.get (blobs (D.files disk.old).pkg self.now) n) result }
        ensures holds { IsTrue D.tells → AnswerIs given_check (checksums_hold (D.files disk.old).pkg self.now n) result }
        ensures reads { ReadsBlob D.Disk n self.now result disk.old disk.new }
    {
        let blocks = self.blocks(disk, n, room)?;
        Ok(blocks.into_checked())
    }
}
