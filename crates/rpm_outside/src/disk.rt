//! A disk of three files, and what a crash at any moment may leave of them.

ghost use Rattle.std.specs.Prelude.{◌≡◌, ◌<◌, ◌≤◌, ◌+◌, ◌/◌, ◌%◌, ◌^◌, Bool, IsTrue, ℕ, length, take, drop, is_err, IfOk, OnOk, OnErr};
ghost use Rattle.rpm_outside.specs.Prelude.{bytes_for, Call, Elapses, File, file_of, Files, FitsAt, HasCause, Len, OnlyAfter, with_units, Read, RisesOrStays, Rose, RoseBy, Sync, TornFile, units_of, IsUntouched, with_file, Write};

use crate::Failed;

/// A file of the database: `Packages.db`, `Hindex.db` or `Hlog.db`.
#[derive(Clone, Copy, Debug, PartialEq, Eq)]
pub enum File {
    Pkg,
    Idx,
    Log,
}

/// Three files of 16-byte units.
///
/// A unit is the most that a crash leaves whole: after a write that was cut short each of its units is the old one or
/// the new one. Bytes after the last whole unit of a file aren't seen, and a file that isn't there has no units.
pub trait Disk {
    /// Whether disks of this kind tell what they hold.
    ghost tells: { Bool };

    /// What a read gives, where it is told.
    ghost files: { Self → Files };

    /// The images that a crash at some moment from that one on may leave, those inside calls included.
    ghost left_since: { Self → ℕ → Files → Type 0 };

    /// The moment: a number that never falls, and rises with each write and sync that goes through. One that fails
    /// either lets it rise too, or leaves files and images as they were.
    ghost moment: { Self → ℕ };

    /// How many bytes of a file were read.
    ghost bytes_read: { Self → File → ℕ };

    /// How often a call failed.
    ghost faults: { Self → ℕ };

    /// What each call keeps of another disk that this one stands on.
    ghost follows: { Self → Self → Type 0 };

    /// What an implementation says besides of a call that fails, or doesn't.
    ghost outcome: { Self → Call → Bool → Self → Type 0 } = { λ old call failed new. Unit {0} };

    /// The number of units of a file.
    ///
    /// # Errors
    ///
    /// `Failed` only where the count of faults rose.
    fn len(&mut self, file: File) -> Result<u64, Failed>
        ensures length { IsTrue tells → IfOk result (λ n. n ≡ length (file_of file (files self.old))) }
        ensures untouched { IsTrue tells → IsUntouched (files self.old) (files self.new) (left_since self.old) (left_since self.new) }
        ensures moment { moment self.new ≡ moment self.old }
        ensures reads { (f : File) → bytes_read self.new f ≡ bytes_read self.old f }
        ensures cause { HasCause (faults self.old) (faults self.new) result }
        ensures outcome { outcome self.old (Len file) (is_err result) self.new }
        ensures follows { follows self.old self.new };

    /// Reads whole units from this one on. The file's count of bytes read rises by the length of `into`, whatever the
    /// answer. An implementation that doesn't tell its contents counts a read past the end as a fault.
    ///
    /// # Errors
    ///
    /// `Failed` only where the count of faults rose.
    fn read_at(&mut self, file: File, unit: u64, into: &mut [u8]) -> Result<(), Failed>
        requires whole { length into.old % 16 ≡ 0 }
        requires within { IsTrue tells → unit + length into.old / 16 ≤ length (file_of file (files self.old)) }
        ensures units { OnOk result (IsTrue tells → units_of into.new ≡ take (length into.old / 16) (drop unit (file_of file (files self.old)))) }
        ensures untouched { IsTrue tells → IsUntouched (files self.old) (files self.new) (left_since self.old) (left_since self.new) }
        ensures moment { moment self.new ≡ moment self.old }
        ensures reads { (f : File) → RoseBy (bytes_read self.old f) (bytes_for file f (length into.old)) (bytes_read self.new f) }
        ensures cause { HasCause (faults self.old) (faults self.new) result }
        ensures outcome { outcome self.old (Read file unit (length into.old)) (is_err result) self.new }
        ensures follows { follows self.old self.new };

    /// Writes whole units from this one on. A write past the end extends the file, and units between are zeros.
    ///
    /// # Errors
    ///
    /// `Failed` only where the count of faults rose. Each unit of the range is then the old one or the new one, and
    /// the file's length any one between; where the moment didn't rise, nothing was written.
    fn write_at(&mut self, file: File, unit: u64, bytes: &[u8]) -> Result<(), Failed>
        requires fits { FitsAt unit bytes.now }
        ensures written { OnOk result (IsTrue tells
            → files self.new ≡ with_file file (with_units unit (units_of bytes.now) (file_of file (files self.old)))
            (files self.old)) }
        ensures torn { IsTrue tells → TornFile file unit (units_of bytes.now) (files self.old) (files self.new) }
        ensures images { IsTrue tells → OnlyAfter (TornFile file unit (units_of bytes.now))
            (left_since self.old (moment self.old)) (left_since self.new (moment self.new)) }
        ensures time { IsTrue tells → Elapses (moment self.old) (moment self.new) (left_since self.old) (left_since self.new) }
        ensures later { moment self.old ≤ moment self.new }
        ensures rises { OnOk result (Rose (moment self.old) (moment self.new)) }
        ensures stays { OnErr result (IsTrue tells
            → RisesOrStays (moment self.old) (moment self.new) (files self.old) (files self.new) (left_since self.old)
            (left_since self.new)) }
        ensures reads { (f : File) → bytes_read self.new f ≡ bytes_read self.old f }
        ensures cause { HasCause (faults self.old) (faults self.new) result }
        ensures outcome { outcome self.old (Write file unit bytes.now) (is_err result) self.new }
        ensures follows { follows self.old self.new };

    /// Makes a file durable: no crash from now on leaves it otherwise than it reads.
    ///
    /// # Errors
    ///
    /// `Failed` only where the count of faults rose. All is then as pending as before.
    fn sync(&mut self, file: File) -> Result<(), Failed>
        ensures same { IsTrue tells → files self.new ≡ files self.old }
        ensures durable { OnOk result (IsTrue tells → (image : Files) → left_since self.new (moment self.new) image
            → file_of file image ≡ file_of file (files self.old)) }
        ensures images { IsTrue tells → (image : Files) → left_since self.new (moment self.new) image
            → left_since self.old (moment self.old) image }
        ensures time { IsTrue tells → Elapses (moment self.old) (moment self.new) (left_since self.old) (left_since self.new) }
        ensures later { moment self.old ≤ moment self.new }
        ensures rises { OnOk result (Rose (moment self.old) (moment self.new)) }
        ensures stays { OnErr result (IsTrue tells
            → RisesOrStays (moment self.old) (moment self.new) (files self.old) (files self.new) (left_since self.old)
            (left_since self.new)) }
        ensures reads { (f : File) → bytes_read self.new f ≡ bytes_read self.old f }
        ensures cause { HasCause (faults self.old) (faults self.new) result }
        ensures outcome { outcome self.old (Sync file) (is_err result) self.new }
        ensures follows { follows self.old self.new };

    /// The files as they read are an image.
    ghost as_read: { (disk : Self) → IsTrue tells → left_since disk (moment disk) (files disk) };

    /// A crash since a later moment is one since an earlier moment.
    ghost earlier: { (disk : Self) (s t : ℕ) (image : Files) → IsTrue tells → s ≤ t → t ≤ moment disk → left_since disk t image → left_since disk s image };

    ghost follows_refl: { (disk : Self) → follows disk disk };

    ghost follows_trans: { (a b c : Self) → follows a b → follows b c → follows a c };
}
