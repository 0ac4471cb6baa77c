//! A disk over a disk: what is written is held in memory.

ghost use Rattle.std.specs.Prelude.{◌≡◌, ◌↔◌, ◌≢◌, ℕ, ◌+◌, ◌<◌, IsTrue, true, refl};
ghost use Rattle.rpm_group.specs.Prelude.{File, Files, held_units, IsOver, keeps_refl, keeps_trans, KeepsBelow, laid_files, overlay_below, overlay_held, overlay_read, overlay_starved, StarvesOrHolds};

use crate::layers::Layers;
use crate::over::read_over;
use crate::scan::extent;
use crate::spared::{Spared, none_spared};
use rpm_outside::{Disk, Failed, File};
use std::alloc::Global;

/// A disk whose writes are held in memory, over a disk that it only reads.
///
/// What is held costs its pages of 4 KiB and a mark a unit, 8 bytes for each page of a MiB of which something is
/// held, and 24 bytes for each MiB of a file as far as its last held unit.
#[derive(Drop)]
pub struct Overlay<D: Disk> {
    alloc: Global,
    below: D,
    held: Layers,
    moment: u64,
    starved: u64,
    spared: Spared,
}

impl<D: Disk> Overlay<D> {
    /// An overlay on which nothing was done yet.
    pub(crate) fn of(alloc: Global, below: D, held: Layers) -> Overlay<D>
        ensures { IsOver below held result }
    {
        Overlay {
            alloc,
            below,
            held,
            moment: 0,
            starved: 0,
            spared: none_spared(),
        }
    }

    /// The disk below, as it is.
    pub fn release(self) -> D
        ensures { result ≡ overlay_below self }
    {
        self.below
    }

    /// The disk below and what is held.
    pub(crate) fn into_parts(self) -> (D, Layers)
        ensures below { result.0 ≡ overlay_below self }
        ensures held { result.1 ≡ overlay_held self }
    {
        (self.below, self.held)
    }

    /// How many units are held. It looks at each mark of the pages that are there.
    pub fn held(&self) -> u64
        ensures { result ≡ held_units (overlay_held self.now) }
    {
        let pkg = extent(&self.held.pkg.table, self.held.pkg.end as usize);
        let idx = extent(&self.held.idx.table, self.held.idx.end as usize);
        let log = extent(&self.held.log.table, self.held.log.end as usize);
        pkg.units + idx.units + log.units
    }

    /// Whether a write found no memory.
    pub fn is_starved(&self) -> bool
        ensures { IsTrue result ↔ (0 < overlay_starved self.now) }
    {
        self.starved != 0
    }
}

impl<D: Disk> Disk for Overlay<D> {
    ghost tells = { D.tells };

    ghost files = { λ disk. laid_files disk.held (D.files disk.below) };

    ghost left_since = { λ disk t image. image ≡ laid_files disk.held (D.files disk.below) };

    ghost moment = { λ disk. disk.moment };

    ghost bytes_read = { overlay_read D.Disk };

    ghost faults = { λ disk. D.faults disk.below + disk.starved };

    ghost follows = { λ old new. KeepsBelow D.Disk
        old.below new.below (overlay_read D.Disk old) (overlay_read D.Disk new) };

    ghost outcome = { StarvesOrHolds };

    ghost as_read = { λ disk told. refl };

    ghost earlier = { λ disk s t image told le below left. left };

    ghost follows_refl = { λ disk. keeps_refl _
        disk.below _ (D.follows_refl disk.below) };

    ghost follows_trans = { λ a b c f g.
        keeps_trans _ D.follows_trans
        a.below b.below c.below _ _ _ f g };

    fn len(&mut self, file: File) -> Result<u64, Failed> {
        let below = self.below.len(file)?;
        Ok(below.max(self.held.file(file).end))
    }

    fn read_at(&mut self, file: File, unit: u64, into: &mut [u8]) -> Result<(), Failed> {
        read_over(
            &self.held,
            &mut self.below,
            &mut self.spared,
            file,
            unit,
            into,
        )
    }

    fn write_at(&mut self, file: File, unit: u64, bytes: &[u8]) -> Result<(), Failed> {
        let Ok(()) = self.held.hold(self.alloc, file, unit, bytes) else {
            self.starved = self.starved.saturating_add(1);
            return Err(Failed);
        };
        self.moment = self.moment.saturating_add(1);
        Ok(())
    }

    fn sync(&mut self, file: File) -> Result<(), Failed> {
        self.moment = self.moment.saturating_add(1);
        Ok(())
    }
}
