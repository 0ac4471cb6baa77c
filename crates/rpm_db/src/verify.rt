//! Whether a package is sound.

ghost use Rattle.std.specs.Prelude.{◌≡◌, ◌≢◌, ℕ, length, ◌+◌, ◌≤◌, IsTrue, false, Some, Err};
ghost use Rattle.rpm_db.specs.Prelude.{digest_differs, first_text, header, header_verdict, immutable_digest, is_digest_wrong, option_copied, option_map, ReadsPackage, verdict, VerifyAnswer};
ghost use Rattle.rpm_db.specs.Database.{Keeps};

use crate::database::Db;
use hex::encode_to_slice;
use rpm_header::{View, immutable_digest};
use rpm_outside::Disk;
use rpm_pkgdb::{Checked, GetFault};
use rpm_tags::first_text;
use std::alloc::Global;
use std::mem::replace;

/// What verifying a package says: the first that holds.
#[derive(Clone, Copy, PartialEq, Eq)]
pub enum Verdict {
    /// None of the others.
    Sound,
    /// The package is Bad.
    BadHeader,
    /// The checksum in the store isn't that of the package's blocks.
    BadChecksum,
    /// The header has an immutable region and a text SHA256HEADER whose first element isn't the region's SHA-256 in
    /// lower-case hex.
    BadDigest,
}

/// Whether a text isn't this digest in hex.
fn is_other(digest: &[u8], text: &[u8]) -> bool
    requires { length digest.now ≡ 32 }
    ensures { result ≡ digest_differs (Some digest.now) (Some text.now) }
{
    let mut digits = [0u8; 64];
    match encode_to_slice(digest, &mut digits) {
        Ok(()) => text != digits.as_slice(),
        Err(_) => true,
    }
}

/// Whether the header has a digest that isn't that of its region, which is hashed only where there is one.
#[tactic(auto, unfolding(crate::specs::Verdicts::is_digest_wrong))]
fn is_digest_wrong(view: &View<'_>) -> bool
    ensures { result ≡ is_digest_wrong view.now }
{
    let Some(text) = first_text(view, 273) else {
        return false;
    };
    match immutable_digest(view) {
        Some(digest) => is_other(&digest, text),
        None => false,
    }
}

fn header_verdict(holds: bool, blob: &[u8]) -> Verdict
    ensures { result ≡ header_verdict holds (header blob.now) }
{
    match View::parse(blob) {
        Err(_) => Verdict::BadHeader,
        Ok(_) if !holds => Verdict::BadChecksum,
        Ok(view) if is_digest_wrong(&view) => Verdict::BadDigest,
        Ok(_) => Verdict::Sound,
    }
}

impl Db {
    /// What verifying a number says.
    ///
    /// Reads the number's own blocks, each once, and hashes the header's region where the header has a text to
    /// compare with.
    ///
    /// # Errors
    ///
    /// - `NoSuch` exactly where there is no such package. It never answers `Bad`.
    /// - `DiskFault` only where the disk's count of faults rose.
    /// - `NoMemory` where the package finds no memory.
    pub fn verify<D: Disk>(&self, alloc: Global, disk: &mut D, n: u32) -> Result<Verdict, GetFault>
        requires keeps { IsTrue D.tells → Keeps (D.files disk.old).pkg self.now }
        requires runs { self.now.stopped ≡ false }
        ensures told { IsTrue D.tells → VerifyAnswer (verdict (D.files disk.old).pkg self.now n) result }
        ensures never_bad { result ≢ Err GetFault.Bad }
        ensures reads { ReadsPackage D.Disk n self.now result disk.old disk.new }
    {
        let mut room = Vec::new(alloc);
        self.verify_in(alloc, disk, n, &mut room)
    }

    /// What verifying a number says, as `verify` gives it. The package is read into a vector of the caller's, whatever it
    /// holds, whose room the next one takes.
    ///
    /// # Errors
    ///
    /// Those of `verify`, with the same causes.
    pub fn verify_in<D: Disk>(
        &self,
        alloc: Global,
        disk: &mut D,
        n: u32,
        room: &mut Vec<u8>,
    ) -> Result<Verdict, GetFault>
        requires keeps { IsTrue D.tells → Keeps (D.files disk.old).pkg self.now }
        requires runs { self.now.stopped ≡ false }
        ensures told { IsTrue D.tells → VerifyAnswer (verdict (D.files disk.old).pkg self.now n) result }
        ensures never_bad { result ≢ Err GetFault.Bad }
        ensures reads { ReadsPackage D.Disk n self.now result disk.old disk.new }
    {
        let taken = replace(room, Vec::new(alloc));
        match self.store.read_checked_in(disk, n, taken) {
            Ok(Checked { blob, holds }) => {
                let verdict = header_verdict(holds, &blob);
                *room = blob;
                Ok(verdict)
            }
            Err(GetFault::Bad) => Ok(Verdict::BadHeader),
            Err(fault) => Err(fault),
        }
    }
}
