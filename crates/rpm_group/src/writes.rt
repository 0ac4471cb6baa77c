//! Runs of held units are written to a disk.

ghost use Rattle.std.specs.Prelude.{◌≡◌, ℕ, ◌+◌, ◌-◌, ◌*◌, ◌/◌, ◌%◌, ◌<◌, ◌≤◌, ◌^◌, IsTrue, true, length, OnOk, ◌∷◌};
ghost use Rattle.rpm_group.specs.Prelude.{AreHeld, file_of, Files, FitsAt, images, CrashChanges, number_of_file, with_units, ReadsNothing, unit_of_words, units_held, units_of, with_file};

use crate::table::{Table, lay};
use rpm_outside::{Disk, Failed, File, unit_of_words};

/// Where units are gathered from their pages before they are written.
pub type Buffer = [u8; 65_536];

/// The head of so many units of a file.
fn head_of(file: File, first: u32, count: u32) -> [u8; 16]
    ensures { result ≡ unit_of_words (number_of_file file) first count 0 }
{
    match file {
        File::Pkg => unit_of_words(1, first, count, 0),
        File::Idx => unit_of_words(2, first, count, 0),
        File::Log => unit_of_words(0, first, count, 0),
    }
}

/// Writes held units to a file from unit `at` on, as many as `bytes` takes.
fn write_piece<D: Disk>(
    disk: &mut D,
    table: &Table,
    file: File,
    at: u64,
    from: usize,
    bytes: &mut [u8],
) -> Result<(), Failed>
    requires fits { FitsAt at bytes.old }
    requires held { AreHeld table.now.items from (from + length bytes.old / 16) }
    requires small { from + length bytes.old / 16 ≤ 2 ^ 28 }
    ensures written { OnOk result (IsTrue D.tells → D.files disk.new
        ≡ with_file file (with_units at (units_held table.now.items from (length bytes.old / 16))
        (file_of file (D.files disk.old))) (D.files disk.old)) }
    ensures images { IsTrue D.tells → CrashChanges D.Disk file at (at + length bytes.old / 16) disk.old disk.new }
    ensures reads { ReadsNothing D.Disk result disk.old disk.new }
{
    lay(table, from, bytes);
    disk.write_at(file, at, bytes)?;
    Ok(())
}

/// Writes held units to a file from unit `at` on, as many at a time as the buffer takes, in which they are gathered
/// from their pages.
pub fn write_run<D: Disk>(
    disk: &mut D,
    table: &Table,
    file: File,
    at: u64,
    from: usize,
    end: usize,
    buffer: &mut Buffer,
) -> Result<(), Failed>
    requires some { from < end }
    requires held { AreHeld table.now.items from end }
    requires room { at + (end - from) ≤ 2 ^ 28 }
    requires small { end ≤ 2 ^ 28 }
    ensures written { OnOk result (IsTrue D.tells → D.files disk.new
        ≡ with_file file (with_units at (units_held table.now.items from (end - from)) (file_of file (D.files disk.old)))
        (D.files disk.old)) }
    ensures images { IsTrue D.tells → CrashChanges D.Disk file at (at + (end - from)) disk.old disk.new }
    ensures reads { ReadsNothing D.Disk result disk.old disk.new }
{
    let mut done = from;
    while done < end {
        let n = (end - done).min(4096);
        let bytes = &mut buffer[..16 * n];
        write_piece(disk, table, file, at + (done - from) as u64, done, bytes)?;
        done += n;
    }
    Ok(())
}

/// Writes the entry of held units to the log from unit `at` on.
pub fn log_run<D: Disk>(
    disk: &mut D,
    table: &Table,
    file: File,
    at: u64,
    from: usize,
    end: usize,
    buffer: &mut Buffer,
) -> Result<(), Failed>
    requires some { from < end }
    requires held { AreHeld table.now.items from end }
    requires room { at + 1 + (end - from) ≤ 2 ^ 28 }
    requires small { end ≤ 2 ^ 28 }
    ensures written { OnOk result (IsTrue D.tells → D.files disk.new ≡ with_file File.Log
        (with_units at (unit_of_words (number_of_file file) from (end - from) 0 ∷ units_held table.now.items from (end - from))
        (D.files disk.old).log) (D.files disk.old)) }
    ensures images { IsTrue D.tells → CrashChanges D.Disk File.Log at (at + 1 + (end - from)) disk.old disk.new }
    ensures reads { ReadsNothing D.Disk result disk.old disk.new }
{
    let head = head_of(file, from as u32, (end - from) as u32);
    disk.write_at(File::Log, at, &head)?;
    write_run(disk, table, File::Log, at + 1, from, end, buffer)
}
