//! The directories of files, which many files share.

ghost use Rattle.std.specs.Prelude.{◌≡◌, ℕ, ◌+◌, ◌≤◌, ◌<◌, IsTrue, length, drop, Some, slice_get};
ghost use Rattle.rpm_tags.specs.Prelude.{max_data};

use crate::stored::{Numbers, TextIter, Texts};
use rpm_header::{PlacesRoom, TextPlaces};
use std::marker::Model;

/// The text n places ahead.
fn nth_text<'a>(texts: &mut TextIter<'a>, n: u32) -> &'a [u8]
    requires { n < length texts.old }
    ensures value { slice_get texts.old n ≡ Some result.now }
    ensures left { texts.new ≡ drop (n + 1) texts.old }
{
    for _ in 0..n {
        match texts.next() {
            None => unreachable!(),
            Some(_) => {}
        }
    }
    match texts.next() {
        None => unreachable!(),
        Some(text) => text,
    }
}

/// Whether files ask more than 16 times for a directory that was passed and isn't kept. Reads each
/// index once.
pub fn go_back(indexes: &Numbers<'_>) -> bool
    ensures { IsTrue result → 16 < length indexes.now }
{
    let mut recent = [0; 16];
    let mut passed = 0;
    let mut missed: u32 = 0;
    for i in 0..indexes.count() {
        let index = indexes.number(i);
        let slot = (index % 16) as usize;
        if recent[slot] == index {
            continue;
        }
        recent[slot] = index;
        if index < passed {
            missed = missed.saturating_add(1);
        }
        passed = passed.max(index);
        if missed > 16 {
            return true;
        }
    }
    false
}

// A directory that was read, and its index.
#[derive(Clone, Copy)]
struct ReadDirectory<'a> {
    index: u32,
    dir: &'a [u8],
}

/// The directories of a package, for files that ask for one after the other. Contracts see it as
/// the list of all directories. A directory that is asked for the first time mostly follows the
/// last such one, and one that is asked for again was mostly asked for not long ago.
#[derive(Drop)]
pub struct Directories<'v, 'a> {
    all: &'v Texts<'a>,
    // Those after the furthest one that was read, and the number of the others.
    ahead: TextIter<'a>,
    passed: u32,
    // The last that was read of those with the same remainder by 16.
    recent: [ReadDirectory<'a>; 16],
    // All of them by place, once one was asked for again that isn't kept, and before that the room
    // for their numbers.
    places: Option<TextPlaces<'v, 'a>>,
    room: Option<&'v mut PlacesRoom>,
}

impl<'v, 'a> Model for Directories<'v, 'a> {
    ghost use Rattle.std.specs.Prelude.{List, ℕ};
    ghost use Rattle.rpm_tags.specs.inner.Recent.{IsReader};

    ghost Value = { List (List ℕ) };

    ghost view = { λ s. s.all.now };

    ghost invariant = { λ s. IsReader s.all.now s.ahead s.passed s.recent s.places };
}

impl<'v, 'a> Directories<'v, 'a> {
    /// Reads the first directory.
    pub fn new(all: &'v Texts<'a>, room: Option<&'v mut PlacesRoom>) -> Directories<'v, 'a>
        ensures { result ≡ all.now }
    {
        let _ = all.count();
        let first = ReadDirectory {
            index: 0,
            dir: all.text(0),
        };
        Directories {
            all,
            ahead: all.iter(),
            passed: 0,
            recent: [first; 16],
            places: None,
            room,
        }
    }

    /// The directory of an index that was passed, by its place; without room for the places by
    /// going from the first one on.
    fn read_again(&mut self, index: u32) -> &'a [u8]
        requires { index < length self.old }
        ensures value { slice_get self.old index ≡ Some result.now }
        ensures short { length result.now ≤ max_data }
        ensures same { self.new ≡ self.old }
    {
        let places = match self.places.take() {
            Some(places) => places,
            None => match self.room.take() {
                Some(room) => self.all.places(room),
                None => return self.all.text(index),
            },
        };
        let dir = places.text(index);
        self.places = Some(places);
        dir
    }

    /// The directory of an index, by going on from the furthest one, or by its place.
    fn read(&mut self, index: u32) -> &'a [u8]
        requires { index < length self.old }
        ensures value { slice_get self.old index ≡ Some result.now }
        ensures short { length result.now ≤ max_data }
        ensures same { self.new ≡ self.old }
    {
        if index < self.passed {
            return self.read_again(index);
        }
        let skipped = index - self.passed;
        let dir = nth_text(&mut self.ahead, skipped);
        self.passed = index + 1;
        dir
    }

    /// The same, which is kept from then on.
    #[inline(never)]
    fn read_and_keep(&mut self, index: u32) -> &'a [u8]
        requires { index < length self.old }
        ensures value { slice_get self.old index ≡ Some result.now }
        ensures short { length result.now ≤ max_data }
        ensures same { self.new ≡ self.old }
    {
        let dir = self.read(index);
        self.recent[(index % 16) as usize] = ReadDirectory { index, dir };
        dir
    }

    /// The directory of an index. Reads nothing where it is among the 16 that are kept; else the
    /// directories from the furthest one on that was read, or, where it is in front of that, 257 bytes
    /// at most to find where it begins and as many for where it ends, and the first time all of them
    /// twice at most. Without room it reads all of them up to its own.
    #[inline(always)]
    pub fn dir(&mut self, index: u64) -> &'a [u8]
        requires { index < length self.old }
        ensures value { slice_get self.old index ≡ Some result.now }
        ensures short { length result.now ≤ max_data }
        ensures same { self.new ≡ self.old }
    {
        let _ = self.all.count();
        let index = index as u32;
        let seen = self.recent[(index % 16) as usize];
        if seen.index == index {
            return seen.dir;
        }
        self.read_and_keep(index)
    }
}
