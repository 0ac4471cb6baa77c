//! The writes and syncs of a disk in memory, and the files that they leave.

ghost use Rattle.std.specs.Prelude.{◌≡◌, ◌^◌, ◌+◌, ◌-◌, ◌*◌, ◌/◌, ◌<◌, ◌≤◌, ◌∷◌, ◌++◌, [], ℕ, length, take, drop, replicate, IfOk, OnOk, OnErr};
ghost use Rattle.rpm_outside.specs.Prelude.{after_step, blank, bytes_of, file_of, held_files, mixed_unit, part_of, units_of_pick, picked_step, with_units, unit_at, units_of, with_file, WroteAny};

use crate::File;
use std::alloc::{AllocError, Global};

/// A write of units to a file from this one on, or a sync of a file.
#[derive(Drop)]
pub enum Step {
    Wrote(File, u32, Vec<[u8; 16]>),
    Synced(File),
}

/// The units of the three files.
#[derive(Drop)]
pub struct Held {
    pkg: Vec<[u8; 16]>,
    idx: Vec<[u8; 16]>,
    log: Vec<[u8; 16]>,
}

impl Held {
    /// The whole units of these bytes.
    pub fn of(alloc: Global, pkg: &[u8], idx: &[u8], log: &[u8]) -> Result<Held, AllocError>
        ensures { IfOk result (λ held. held_files held ≡ record { pkg = units_of pkg.now; idx = units_of idx.now; log = units_of log.now }) }
    {
        Ok(Held {
            pkg: cut_up(alloc, pkg)?,
            idx: cut_up(alloc, idx)?,
            log: cut_up(alloc, log)?,
        })
    }

    /// The units of a file.
    pub fn file(&self, file: File) -> &Vec<[u8; 16]>
        ensures { result.now.items ≡ file_of file (held_files self.now) }
    {
        match file {
            File::Pkg => &self.pkg,
            File::Idx => &self.idx,
            File::Log => &self.log,
        }
    }

    /// How many units the three files have.
    pub fn units(&self) -> u64 {
        let most = (self.pkg.len() as u64).saturating_add(self.idx.len() as u64);
        most.saturating_add(self.log.len() as u64)
    }

    /// Writes units to a file, in place.
    pub fn write(
        &mut self,
        alloc: Global,
        file: File,
        at: usize,
        units: &[[u8; 16]],
    ) -> Result<(), AllocError>
        requires { at < 2 ^ 32 }
        ensures ok { OnOk result (held_files self.new ≡ with_file file
            (with_units at units.now (file_of file (held_files self.old))) (held_files self.old)) }
        ensures err { OnErr result (held_files self.new ≡ held_files self.old) }
    {
        match file {
            File::Pkg => write_in(alloc, &mut self.pkg, at, units),
            File::Idx => write_in(alloc, &mut self.idx, at, units),
            File::Log => write_in(alloc, &mut self.log, at, units),
        }
    }

    /// Puts these units in the place of a file's.
    pub fn replace(&mut self, file: File, units: Vec<[u8; 16]>)
        ensures { held_files self.new ≡ with_file file units.items (held_files self.old) }
    {
        match file {
            File::Pkg => self.pkg = units,
            File::Idx => self.idx = units,
            File::Log => self.log = units,
        }
    }
}

/// Bytes as units. What stands after the last whole unit is left out.
fn cut_up(alloc: Global, bytes: &[u8]) -> Result<Vec<[u8; 16]>, AllocError>
    ensures units { IfOk result (λ units. units.items ≡ units_of bytes.now) }
    ensures count { IfOk result (λ units. length units.items ≡ length bytes.now / 16) }
{
    let mut units = Vec::new(alloc);
    let count = bytes.len() / 16;
    for k in 0..count {
        let mut unit = [0u8; 16];
        unit.copy_from_slice(&bytes[16 * k..16 * k + 16]);
        units.push(unit)?;
    }
    Ok(units)
}

/// So many units of zeros.
fn blanks(alloc: Global, count: usize) -> Result<Vec<[u8; 16]>, AllocError>
    ensures { IfOk result (λ units. units.items ≡ replicate count blank) }
{
    let mut units = Vec::new(alloc);
    for _ in 0..count {
        units.push([0u8; 16])?;
    }
    Ok(units)
}

/// Lets a file end at this unit or after it. The units that it gains are zeros.
fn lengthen(alloc: Global, file: &mut Vec<[u8; 16]>, end: usize) -> Result<(), AllocError>
    ensures ok { OnOk result (file.new.items ≡ file.old.items ++ replicate (end - length file.old.items) blank) }
    ensures err { OnErr result (file.new.items ≡ file.old.items) }
{
    let zeros = blanks(alloc, end.saturating_sub(file.len()))?;
    file.extend_from_slice(&zeros)?;
    Ok(())
}

/// Writes units where there are some.
fn overwrite(file: &mut [[u8; 16]], at: usize, units: &[[u8; 16]])
    requires { at + length units.now ≤ length file.old }
    ensures { file.new ≡ take at file.old ++ units.now ++ drop (at + length units.now) file.old }
{
    file[at..at + units.len()].copy_from_slice(units);
}

/// Writes units to a file, in place.
fn write_in(
    alloc: Global,
    file: &mut Vec<[u8; 16]>,
    at: usize,
    units: &[[u8; 16]],
) -> Result<(), AllocError>
    requires { at < 2 ^ 32 }
    ensures ok { OnOk result (file.new.items ≡ with_units at units.now file.old.items) }
    ensures err { OnErr result (file.new.items ≡ file.old.items) }
{
    lengthen(alloc, file, at + units.len())?;
    overwrite(file, at, units);
    Ok(())
}

fn units_to_write(alloc: Global, bytes: &[u8], half: bool) -> Result<Vec<[u8; 16]>, AllocError>
    ensures units { IfOk result (λ units. units.items ≡ part_of half (units_of bytes.now)) }
    ensures no_more { IfOk result (λ units. length units.items ≤ length bytes.now / 16) }
{
    let mut units = cut_up(alloc, bytes)?;
    if half {
        units.truncate(units.len() / 2);
    }
    Ok(units)
}

/// Writes the units of `bytes`, or the first half of them, and keeps the step. Where that is no unit nothing is done.
pub fn write_units(
    alloc: Global,
    now: &mut Held,
    steps: &mut Vec<Step>,
    file: File,
    unit: u64,
    bytes: &[u8],
    half: bool,
) -> Result<(), AllocError>
    requires room { unit + length bytes.now / 16 ≤ 2 ^ 28 }
    ensures ok { OnOk result (WroteAny (held_files now.old) (held_files now.new) steps.old.items steps.new.items file
        unit (part_of half (units_of bytes.now))) }
    ensures files { OnErr result (held_files now.new ≡ held_files now.old) }
    ensures steps { OnErr result (steps.new.items ≡ steps.old.items) }
{
    let units = units_to_write(alloc, bytes, half)?;
    if units.is_empty() {
        return Ok(());
    }
    // The step finds its room first: once the file is written, it is kept.
    steps.reserve(1)?;
    now.write(alloc, file, unit as usize, &units)?;
    steps.push(Step::Wrote(file, unit as u32, units))?;
    Ok(())
}

/// Copies units into bytes.
pub fn copy_units(units: &[[u8; 16]], into: &mut [u8])
    requires { length into.old ≡ 16 * length units.now }
    ensures { units_of into.new ≡ units.now }
{
    for k in 0..units.len() {
        into[16 * k..16 * k + 16].copy_from_slice(&units[k]);
    }
}

/// The bytes of these units.
pub fn joined(alloc: Global, units: &[[u8; 16]]) -> Result<Vec<u8>, AllocError>
    ensures { IfOk result (λ bytes. bytes.items ≡ bytes_of units.now) }
{
    let mut bytes = Vec::new(alloc);
    for unit in units {
        bytes.extend_from_slice(unit)?;
    }
    Ok(bytes)
}

/// Keeps a sync as a step.
pub fn keep_sync(steps: &mut Vec<Step>, file: File) -> Result<(), AllocError>
    ensures ok { OnOk result (steps.new.items ≡ steps.old.items ++ Step.Synced file ∷ []) }
    ensures err { OnErr result (steps.new.items ≡ steps.old.items) }
{
    steps.push(Step::Synced(file))?;
    Ok(())
}

/// Which image of a moment: the oldest contents, the newest, or for each unit by a bit of a number.
#[derive(Clone, Copy, PartialEq, Eq)]
pub enum Pick {
    Old,
    New,
    Mixed(u64),
}

/// A unit, which is zeros past the end.
fn unit_of(file: &[[u8; 16]], i: usize) -> [u8; 16]
    ensures { result ≡ unit_at file.now i }
{
    if i < file.len() { file[i] } else { [0u8; 16] }
}

/// A unit of the old file, or the one that is written over it, by a bit of the seed.
fn mixed_unit(seed: u64, file: &[[u8; 16]], units: &[[u8; 16]], at: usize, k: usize) -> [u8; 16]
    requires at { at < 2 ^ 32 }
    requires within { k < length units.now }
    ensures { result ≡ mixed_unit seed file.now (with_units at units.now file.now) (at + k) }
{
    if (seed >> ((at + k) % 64)) % 2 == 1 {
        units[k]
    } else {
        unit_of(file, at + k)
    }
}

/// The units that a write leaves of which only some were done.
fn mixed(
    alloc: Global,
    file: &[[u8; 16]],
    at: usize,
    units: &[[u8; 16]],
    seed: u64,
) -> Result<Vec<[u8; 16]>, AllocError>
    requires { at < 2 ^ 32 }
    ensures { IfOk result (λ mixed. with_units at mixed.items file.now ≡ units_of_pick (Pick.Mixed seed) at units.now file.now) }
{
    let mut mixed = Vec::new(alloc);
    for k in 0..units.len() {
        mixed.push(mixed_unit(seed, file, units, at, k))?;
    }
    Ok(mixed)
}

/// Does to a file what a crash leaves of a write.
#[tactic(auto, unfolding(crate::specs::Picks::units_of_pick))]
fn write_picked(
    alloc: Global,
    image: &mut Held,
    file: File,
    at: usize,
    units: &[[u8; 16]],
    pick: Pick,
) -> Result<(), AllocError>
    requires { at < 2 ^ 32 }
    ensures { OnOk result (held_files image.new ≡ with_file file
        (units_of_pick pick at units.now (file_of file (held_files image.old))) (held_files image.old)) }
{
    match pick {
        Pick::Old => Ok(()),
        Pick::New => image.write(alloc, file, at, units),
        Pick::Mixed(seed) => {
            let mixed = mixed(alloc, image.file(file), at, units, seed)?;
            image.write(alloc, file, at, &mixed)
        }
    }
}

fn copied(alloc: Global, file: &[[u8; 16]]) -> Result<Vec<[u8; 16]>, AllocError>
    ensures { IfOk result (λ copy. copy.items ≡ file.now) }
{
    let mut copy = Vec::new(alloc);
    copy.extend_from_slice(file)?;
    Ok(copy)
}

pub fn copy_of(alloc: Global, held: &Held) -> Result<Held, AllocError>
    ensures { IfOk result (λ copy. held_files copy ≡ held_files held.now) }
{
    Ok(Held {
        pkg: copied(alloc, &held.pkg)?,
        idx: copied(alloc, &held.idx)?,
        log: copied(alloc, &held.log)?,
    })
}

/// Goes over one step, with what is read and with an image.
pub fn go_over(
    alloc: Global,
    step: &Step,
    now: &mut Held,
    image: &mut Held,
    pick: Pick,
) -> Result<(), AllocError>
    ensures now { OnOk result (held_files now.new ≡ after_step step.now (held_files now.old)) }
    ensures image { OnOk result (held_files image.new ≡ picked_step pick step.now (held_files now.old) (held_files image.old)) }
{
    match step {
        Step::Wrote(file, at, units) => {
            write_picked(alloc, image, *file, *at as usize, units, pick)?;
            now.write(alloc, *file, *at as usize, units)?;
        }
        Step::Synced(file) => {
            image.replace(*file, copied(alloc, now.file(*file))?);
        }
    }
    Ok(())
}
