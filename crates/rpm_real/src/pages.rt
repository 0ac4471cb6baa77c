//! Pages of a file, from which small reads of it are answered.

ghost use Rattle.std.specs.Prelude.{◌≡◌, ◌<◌, ◌≤◌, ◌+◌, ◌*◌, ◌%◌, ◌^◌, length};

use crate::place::fill;
use rpm_outside::Failed;
use std::alloc::{AllocError, Global};
use std::fs;
use std::os::unix::fs::FileExt;

/// The bytes of a page, which are 128 units.
const SIZE: usize = 2048;

/// How many slots there are, so that many pages are held at most. Each page has one slot, which the next page with that
/// slot takes.
const SLOTS: usize = 4096;

/// How many reads come before the first page: who reads less holds none.
const FEW: u32 = 11_000;

/// After how many reads by pages it is seen whether they are worth their loading.
const TRIED: u32 = 512;

/// How many of these may load a page: where each place of a file is read once, pages cost more than they spare.
const LOADED: u32 = 480;

/// The page of a slot: the unit with which it begins, how many units from there the file had, and the number of the frame
/// that holds them.
#[derive(Clone, Copy)]
struct Page {
    start: u64,
    units: u32,
    frame: u32,
}

/// What a slot has before it has a page: no units, and no frame.
const NO_PAGE: Page = Page {
    start: 0,
    units: 0,
    frame: u32::MAX,
};

/// The slot of the page that has a unit.
#[inline(always)]
fn slot_of(unit: u64) -> usize {
    (unit / 128) as usize % SLOTS
}

/// How many bytes of its page come before a unit.
#[inline(always)]
fn offset_of(unit: u64) -> usize
    ensures { result ≡ 16 * (unit % 128) }
{
    16 * (unit % 128) as usize
}

/// Which reads are answered from pages.
#[derive(Clone, Copy)]
struct Trial {
    // The reads that passed without pages, and how many have to.
    passed: u32,
    few: u32,
    // The reads by pages since, and those of them that loaded one.
    tried: u32,
    loaded: u32,
}

impl Trial {
    fn new() -> Trial {
        Trial {
            passed: 0,
            few: FEW,
            tried: 0,
            loaded: 0,
        }
    }

    /// Lets a read pass without pages, while some still have to, and tells whether it did.
    fn pass(&mut self) -> bool {
        if self.passed < self.few {
            self.passed += 1;
            return true;
        }
        false
    }

    /// Counts a read by a page.
    fn count(&mut self, is_loaded: bool) {
        self.tried = self.tried.wrapping_add(1);
        if is_loaded {
            self.loaded = self.loaded.wrapping_add(1);
        }
    }

    /// Whether it is to be seen now if pages are worth it.
    fn is_over(&self) -> bool {
        self.tried >= TRIED
    }

    /// Whether pages aren't worth it: too many reads loaded one.
    fn is_in_vain(&self) -> bool {
        self.loaded > LOADED
    }

    /// Has twice as many reads as before pass without pages.
    fn put_off(&mut self) {
        self.passed = 0;
        self.few = self.few.saturating_mul(2);
    }

    /// Begins to count reads by pages anew.
    fn restart(&mut self) {
        self.tried = 0;
        self.loaded = 0;
    }
}

/// The pages of a file that were read since it was last written.
#[derive(Drop)]
pub struct Pages {
    trial: Trial,
    // The page of each slot, once one is held.
    slots: Vec<Page>,
    // The bytes of the pages: a frame for each slot that had one.
    frames: Vec<[u8; SIZE]>,
}

impl Pages {
    pub fn new(alloc: Global) -> Pages {
        Pages {
            trial: Trial::new(),
            slots: Vec::new(alloc),
            frames: Vec::new(alloc),
        }
    }

    /// Gives all pages up, and begins anew.
    pub fn give_up(&mut self) {
        self.trial = Trial::new();
        self.let_go();
    }

    /// Lets all pages go.
    fn let_go(&mut self) {
        self.slots.clear();
        self.frames.clear();
    }

    /// After some reads by pages, lets them go where they aren't worth it.
    #[cold]
    #[inline(never)]
    fn conclude(&mut self) {
        if self.trial.is_in_vain() {
            self.trial.put_off();
            self.let_go();
        }
        self.trial.restart();
    }

    /// Counts a read by a page.
    #[inline(always)]
    fn count(&mut self, is_loaded: bool) {
        self.trial.count(is_loaded);
        if self.trial.is_over() {
            self.conclude();
        }
    }

    /// Fills `into` from a unit on, where its page is held and has all of it, and tells whether it did.
    #[inline(always)]
    fn copy_held(&self, unit: u64, into: &mut [u8]) -> bool
        requires { 16 * (unit % 128) + length into.old ≤ 2048 }
    {
        let Some(page) = self.slots.get(slot_of(unit)) else {
            return false;
        };
        let more = into.len().saturating_sub(1) / 16;
        if unit.wrapping_sub(page.start) >= (page.units as u64).saturating_sub(more as u64) {
            return false;
        }
        let Some(bytes) = self.frames.get(page.frame as usize) else {
            return false;
        };
        let offset = offset_of(unit);
        into.copy_from_slice(&bytes[offset..offset + into.len()]);
        true
    }

    /// Loads the page of a unit into the frame of its slot; it has no units where it can't be read. Fills `into` from the
    /// unit on, where the page has all of it, and tells whether it did: nothing where the slot has no frame.
    #[inline(always)]
    fn load(&mut self, file: &fs::File, unit: u64, into: &mut [u8]) -> Option<bool>
        requires within { 16 * (unit % 128) + length into.old ≤ 2048 }
        requires place { unit < 2 ^ 58 }
    {
        let Some(page) = self.slots.get_mut(slot_of(unit)) else {
            return None;
        };
        let Some(bytes) = self.frames.get_mut(page.frame as usize) else {
            return None;
        };
        let start = unit - unit % 128;
        let filled = file.read_at(bytes, 16 * start).unwrap_or(0).min(SIZE);
        page.start = start;
        page.units = (filled / 16) as u32;
        let offset = offset_of(unit);
        if offset + into.len() > filled {
            return Some(false);
        }
        into.copy_from_slice(&bytes[offset..offset + into.len()]);
        Some(true)
    }

    /// Gives a slot a new frame.
    fn add_frame(&mut self, slot: usize) -> Result<(), AllocError> {
        self.slots.resize(SLOTS, NO_PAGE)?;
        self.frames.push([0; SIZE])?;
        // There are no more frames than slots.
        let frame = ((self.frames.len() - 1) % SLOTS) as u32;
        if let Some(page) = self.slots.get_mut(slot) {
            page.frame = frame;
        }
        Ok(())
    }

    /// Loads the page of a unit whose slot has no frame, as `load` does, and tells whether it filled `into`.
    #[cold]
    #[inline(never)]
    fn load_first(&mut self, file: &fs::File, unit: u64, into: &mut [u8]) -> bool
        requires within { 16 * (unit % 128) + length into.old ≤ 2048 }
        requires place { unit < 2 ^ 58 }
    {
        self.add_frame(slot_of(unit)).is_ok() && self.load(file, unit, into).unwrap_or(false)
    }

    /// Lets a read pass without pages, while some still have to, and tells whether it did.
    #[inline(always)]
    pub fn pass(&mut self) -> bool {
        self.trial.pass()
    }

    /// Fills `into` with a unit whose page is held, and tells whether it did.
    #[inline(always)]
    pub fn read_held(&mut self, unit: u64, into: &mut [u8]) -> bool {
        if into.len() != 16 || !self.copy_held(unit, into) {
            return false;
        }
        self.count(false);
        true
    }

    /// Fills `into` from a unit on, by its page, which is loaded where it isn't held, or else by a read of the file. Of a
    /// single unit `read_held` has seen already that its page isn't held.
    #[inline(never)]
    pub fn read(&mut self, file: &fs::File, unit: u64, into: &mut [u8]) -> Result<(), Failed>
        requires { unit < 2 ^ 58 }
    {
        if into.len() > SIZE - offset_of(unit) {
            return fill(file, 16 * unit, into);
        }
        if into.len() != 16 && self.copy_held(unit, into) {
            self.count(false);
            return Ok(());
        }
        let is_loaded = match self.load(file, unit, into) {
            Some(is_loaded) => is_loaded,
            None => self.load_first(file, unit, into),
        };
        if is_loaded {
            self.count(true);
            return Ok(());
        }
        fill(file, 16 * unit, into)
    }
}
