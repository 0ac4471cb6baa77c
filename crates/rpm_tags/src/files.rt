//! The paths of a package's files.

ghost use Rattle.std.specs.Prelude.{◌≡◌, ℕ, ◌<◌, ◌≤◌, ◌++◌, IsTrue, length, Some, slice_get, nat_lt, false, IfSome, MatchOption};
ghost use Rattle.rpm_tags.specs.Prelude.{are_matched, AreAsked, concat, file_name, filenames, item_count, list_all, max_data, numbers_in, texts_in, YieldsFirstBy};

use crate::dirs::{Directories, go_back};
use crate::joined::Joined;
use crate::numbers::{BASENAMES, DIRINDEXES, DIRNAMES};
use crate::stored::{Numbers, TextIter, Texts, numbers_in, texts_in};
use rpm_header::{PlacesRoom, View};
use std::marker::Model;

/// The directory of this index, and a name after it.
fn path_of<'a>(dirs: &Texts<'a>, index: u64, base: &'a [u8]) -> Joined<'a>
    requires below { index < length dirs.now }
    requires short { length base.now ≤ max_data }
    ensures { concat result ≡ file_name dirs.now (index, base.now) }
{
    let _ = dirs.count();
    Joined::two(dirs.text(index as u32), base)
}

/// The paths of files: a directory for each, by its index, and a name. Contracts see it as the list
/// of the paths.
#[derive(Drop)]
pub struct Files<'a> {
    dirs: Texts<'a>,
    indexes: Numbers<'a>,
    bases: Texts<'a>,
}

impl<'a> Model for Files<'a> {
    ghost use Rattle.std.specs.Prelude.{◌≡◌, List, ℕ, true};
    ghost use Rattle.rpm_tags.specs.Value.{file_names};
    ghost use Rattle.rpm_tags.specs.inner.Paths.{are_matched};

    ghost Value = { List (List ℕ) };

    ghost view = { λ s. file_names s.dirs s.indexes s.bases };

    ghost invariant = { λ s. are_matched s.dirs s.indexes s.bases ≡ true };
}

impl<'a> Files<'a> {
    pub fn count(&self) -> u32
        ensures value { result ≡ length self.now }
        ensures some { 0 < result }
    {
        self.bases.count()
    }

    /// The path of file i. Reads all names up to its own, and all directories up to its own.
    pub fn path(&self, i: u32) -> Joined<'a>
        requires { i < length self.now }
        ensures { slice_get self.now i ≡ Some (concat result) }
    {
        let base = self.bases.text(i);
        let index = self.indexes.number(i);
        path_of(&self.dirs, index, base)
    }

    /// Whether all paths in order need room for the places of directories. Up to 16 directories are
    /// all kept once they were read, so that no index is read then.
    pub fn need_room(&self) -> bool
        ensures { IsTrue result → 16 < length self.now }
    {
        self.dirs.count() > 16 && go_back(&self.indexes)
    }

    /// All paths in order, with room for the places of directories.
    pub fn iter<'v>(&'v self, room: Option<&'v mut PlacesRoom>) -> FileIter<'v, 'a>
        ensures { result ≡ self.now }
    {
        let _ = self.indexes.count();
        FileIter {
            dirs: Directories::new(&self.dirs, room),
            indexes: &self.indexes,
            bases: self.bases.iter(),
            place: 0,
        }
    }
}

/// The paths that are left.
#[derive(Drop)]
pub struct FileIter<'v, 'a> {
    dirs: Directories<'v, 'a>,
    indexes: &'v Numbers<'a>,
    bases: TextIter<'a>,
    place: u32,
}

impl<'v, 'a> Model for FileIter<'v, 'a> {
    ghost use Rattle.std.specs.Prelude.{List, ℕ, drop};
    ghost use Rattle.rpm_tags.specs.Value.{file_names};
    ghost use Rattle.rpm_tags.specs.inner.Rows.{AreLeft};

    ghost Value = { List (List ℕ) };

    ghost view = { λ s. file_names s.dirs (drop s.place s.indexes.now) s.bases };

    ghost invariant = { λ s. AreLeft s.dirs s.indexes.now s.bases s.place };
}

impl<'v, 'a> FileIter<'v, 'a> {
    /// The next path: its directory, and its name, which follows it.
    #[inline(always)]
    pub fn next_path(&mut self) -> Option<(&'a [u8], &'a [u8])>
        ensures steps { YieldsFirstBy (λ path. path.0.now ++ path.1.now) (λ s. s) self.old result self.new }
        ensures short { IfSome result (λ path. (length path.0.now ≤ max_data) × (length path.1.now ≤ max_data)) }
    {
        match self.bases.next() {
            None => None,
            Some(base) => {
                let index = self.indexes.number(self.place);
                self.place += 1;
                let dir = self.dirs.dir(index);
                Some((dir, base))
            }
        }
    }
}

impl<'v, 'a> Iterator for FileIter<'v, 'a> {
    type Item = Joined<'a>;

    ghost next_gives = { YieldsFirstBy (λ x. concat x) (λ s. s) };

    ghost remaining = { item_count (λ s. s) };

    fn next(&mut self) -> Option<Joined<'a>> {
        let (dir, base) = self.next_path()?;
        Some(Joined::two(dir, base))
    }
}

/// The highest of some numbers.
fn highest(numbers: &Numbers<'_>) -> u64
    ensures { (limit : ℕ) → list_all (λ number. nat_lt number limit) numbers.now ≡ nat_lt result limit }
{
    let count = numbers.count();
    let mut high = numbers.number(0);
    for i in 1..count {
        high = high.max(numbers.number(i));
    }
    high
}

/// The directories up to the last that a file asks for; None where a file has no index, or an index
/// no directory. Reads each index once.
pub fn asked_for<'a>(dirs: Texts<'a>, indexes: &Numbers<'_>, bases: &Texts<'_>) -> Option<Texts<'a>>
    ensures { MatchOption result (are_matched dirs.entry indexes.now bases.now ≡ false) (λ asked. AreAsked dirs.entry asked indexes.now bases.now) }
{
    let high = highest(indexes);
    if bases.count() == indexes.count() && high < dirs.count() as u64 {
        Some(dirs.first(high as u32 + 1))
    } else {
        None
    }
}

/// The paths of a package's files; None where one of the three tags is missing or of another class,
/// a file has no index, or an index no directory. Reads each index once.
pub fn files_in<'a>(view: &View<'a>) -> Option<Files<'a>>
    ensures { result ≡ filenames (texts_in view.now DIRNAMES) (numbers_in view.now DIRINDEXES) (texts_in view.now BASENAMES) }
{
    let dirs = texts_in(view, DIRNAMES)?;
    let indexes = numbers_in(view, DIRINDEXES)?;
    let bases = texts_in(view, BASENAMES)?;
    let dirs = asked_for(dirs, &indexes, &bases)?;
    Some(Files {
        dirs,
        indexes,
        bases,
    })
}
