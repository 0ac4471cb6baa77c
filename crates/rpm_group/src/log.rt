//! The commit record and the heads of the log.

ghost use Rattle.std.specs.Prelude.{◌≡◌, ◌==◌, if◌then◌else◌, ℕ, ◌+◌, ◌*◌, ◌/◌, ◌<◌, ◌≤◌, ◌^◌, IsTrue, length, IfOk, IfSome};
ghost use Rattle.rpm_group.specs.Prelude.{Files, CommitRecordSays, heads_behind, HeadSays, HeadsSay, is_blank_unit, is_commit_record, is_log_head, IsHead, Log, LogSays, ReadsAt, unit_at, word};

use rpm_outside::{Disk, Failed, File, word};

/// The commit record of a log: how many entries there are, and the last unit of the last.
#[derive(Clone, Copy, PartialEq, Eq)]
pub struct CommitRecord {
    pub entries: u32,
    pub last: u32,
}

/// The head of an entry: so many units for a file, from its first unit on.
#[derive(Clone, Copy, PartialEq, Eq)]
pub struct Head {
    pub file: File,
    pub first: u32,
    pub count: u32,
}

/// What was read of a log: that it is closed, or wrong at a unit, or its commit record.
#[derive(Clone, Copy, PartialEq, Eq)]
pub enum Reading {
    Shut,
    Bad(u64),
    Opened(CommitRecord),
}

// `RpmL`
const MAGIC: u32 = 0x4c6d_7052;

/// Reads one unit of the log.
pub fn read_unit<D: Disk>(disk: &mut D, at: u64) -> Result<[u8; 16], Failed>
    requires { IsTrue D.tells → at < length (D.files disk.old).log }
    ensures unit { IfOk result (λ unit. IsTrue D.tells → unit ≡ unit_at (D.files disk.old).log at) }
    ensures reads { ReadsAt D.Disk Log result disk.old disk.new }
{
    let mut unit = [0u8; 16];
    disk.read_at(File::Log, at, &mut unit)?;
    Ok(unit)
}

/// Whether all bytes are zero.
fn is_blank(unit: &[u8]) -> bool
    ensures { result ≡ is_blank_unit unit.now }
{
    unit.iter().all(|b| *b == 0)
}

/// Whether a unit is the commit record of a log of so many units.
#[tactic(auto, unfolding(rpm_outside::specs::Logs::is_commit_record))]
fn is_commit_record(units: u64, commit_record: &[u8]) -> bool
    requires { length commit_record.now ≡ 16 }
    ensures { result ≡ is_commit_record units commit_record.now }
{
    word(commit_record, 0) == MAGIC
        && word(commit_record, 1) == 1
        && 0 < word(commit_record, 2)
        && (word(commit_record, 3) as u64) < units
}

/// Whether a unit is a head at unit p of a log with this last unit.
#[tactic(auto, unfolding(rpm_outside::specs::Logs::is_log_head))]
fn is_head(last: u32, p: u64, head: &[u8]) -> bool
    requires { length head.now ≡ 16 }
    ensures { result ≡ is_log_head last p head.now }
{
    let file = word(head, 0);
    let end = word(head, 1) as u64 + word(head, 2) as u64;
    p <= last as u64
        && 1 <= file
        && file <= 2
        && 0 < word(head, 2)
        && end <= 268_435_456
        && p + word(head, 2) as u64 <= last as u64
}

/// Reads the commit record. It reads the log's first unit alone.
///
/// # Errors
///
/// `Failed` only where the count of faults rose.
pub fn read_commit_record<D: Disk>(disk: &mut D) -> Result<Reading, Failed>
    ensures says { IfOk result (λ reading. IsTrue D.tells → CommitRecordSays reading (D.files disk.old).log) }
    ensures reads { ReadsAt D.Disk Log result disk.old disk.new }
{
    let units = disk.len(File::Log)?;
    if units == 0 {
        return Ok(Reading::Shut);
    }
    let commit_record = read_unit(disk, 0)?;
    if is_blank(&commit_record) {
        return Ok(Reading::Shut);
    }
    if !is_commit_record(units, &commit_record) {
        return Ok(Reading::Bad(0));
    }
    Ok(Reading::Opened(CommitRecord {
        entries: word(&commit_record, 2),
        last: word(&commit_record, 3),
    }))
}

/// Reads the head at unit p, if there is one.
///
/// # Errors
///
/// `Failed` only where the count of faults rose.
pub fn read_head<D: Disk>(disk: &mut D, last: u32, p: u64) -> Result<Option<Head>, Failed>
    requires { IsTrue D.tells → last < length (D.files disk.old).log }
    ensures head { IfOk result (λ head. IfSome head (λ h. IsHead last p h)) }
    ensures says { IfOk result (λ head. IsTrue D.tells → HeadSays last p (D.files disk.old).log head) }
    ensures reads { ReadsAt D.Disk Log result disk.old disk.new }
{
    if p > last as u64 {
        return Ok(None);
    }
    let head = read_unit(disk, p)?;
    if !is_head(last, p, &head) {
        return Ok(None);
    }
    Ok(Some(head_of(&head)))
}

/// The head in a unit.
fn head_of(unit: &[u8]) -> Head
    requires { length unit.now ≡ 16 }
    ensures file { result.file ≡ (if word 0 unit.now == 1 then File.Pkg else File.Idx) }
    ensures first { result.first ≡ word 1 unit.now }
    ensures count { result.count ≡ word 2 unit.now }
{
    Head {
        file: if word(unit, 0) == 1 {
            File::Pkg
        } else {
            File::Idx
        },
        first: word(unit, 1),
        count: word(unit, 2),
    }
}

/// Goes through the heads after a commit record, and gives the first unit that is wrong, if one is.
///
/// # Errors
///
/// `Failed` only where the count of faults rose.
pub fn check_heads<D: Disk>(
    disk: &mut D,
    commit_record: CommitRecord,
) -> Result<Option<u64>, Failed>
    requires { IsTrue D.tells → commit_record.last < length (D.files disk.old).log }
    ensures says { IfOk result (λ fault. IsTrue D.tells → HeadsSay (heads_behind commit_record (D.files disk.old).log) fault) }
    ensures reads { ReadsAt D.Disk Log result disk.old disk.new }
{
    let mut p = 1u64;
    for _k in 0..commit_record.entries {
        let Some(head) = read_head(disk, commit_record.last, p)? else {
            return Ok(Some(p));
        };
        p += 1 + head.count as u64;
    }
    if p != commit_record.last as u64 + 1 {
        return Ok(Some(p));
    }
    Ok(None)
}

/// Reads the log: its commit record and its heads, and none of the units between.
///
/// # Errors
///
/// `Failed` only where the count of faults rose.
pub fn read_log<D: Disk>(disk: &mut D) -> Result<Reading, Failed>
    ensures says { IfOk result (λ reading. IsTrue D.tells → LogSays reading (D.files disk.old).log) }
    ensures reads { ReadsAt D.Disk Log result disk.old disk.new }
{
    match read_commit_record(disk)? {
        Reading::Opened(commit_record) => match check_heads(disk, commit_record)? {
            Some(unit) => Ok(Reading::Bad(unit)),
            None => Ok(Reading::Opened(commit_record)),
        },
        Reading::Bad(unit) => Ok(Reading::Bad(unit)),
        Reading::Shut => Ok(Reading::Shut),
    }
}
