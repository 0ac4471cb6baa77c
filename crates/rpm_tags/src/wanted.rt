//! Whether a package has a file of a path.

ghost use Rattle.std.specs.Prelude.{◌≡◌, ◌<◌, ◌≤◌, ◌++◌, not, true, Some, length};
ghost use Rattle.rpm_tags.specs.Prelude.{are_matched, base_name, counts_for, file_name, file_names, filenames, has_file, is_slash, list_any, list_or_empty, numbers_in, suffix_len, texts_in, zip};

use crate::dirs::{Directories, go_back};
use crate::files::asked_for;
use crate::numbers::{BASENAMES, DIRINDEXES, DIRNAMES};
use crate::stored::{Numbers, Texts, numbers_in, texts_in};
use rpm_header::{PlacesRoom, View};

/// How many bytes of a path follow its last slash.
fn base_len(path: &[u8]) -> usize
    ensures value { result ≡ suffix_len (λ b. not (is_slash b)) path.now }
    ensures within { result ≤ length path.now }
{
    path.iter().rev().take_while(|byte| **byte != b'/').count()
}

/// A path cut after its last slash.
fn split_path(path: &[u8]) -> (&[u8], &[u8])
    ensures whole { result.0.now ++ result.1.now ≡ path.now }
    ensures base { result.1.now ≡ base_name path.now }
{
    path.split_at(path.len() - base_len(path))
}

/// Whether a file of this directory and name counts for a path that is cut. The directory is read only where the name
/// is that of the path.
fn counts(
    directories: &mut Directories<'_, '_>,
    index: u64,
    text: &[u8],
    front: &[u8],
    base: &[u8],
) -> bool
    requires below { index < length directories.old }
    requires cut { base.now ≡ base_name (front.now ++ base.now) }
    ensures value { result ≡ counts_for (front.now ++ base.now) (file_name directories.old (index, text.now), text.now) }
    ensures same { directories.new ≡ directories.old }
{
    text == base && directories.dir(index) == front
}

/// Whether a file counts for a path. A directory is looked at only where the name is that of the path.
fn is_any_at(
    directories: &mut Directories<'_, '_>,
    indexes: &Numbers<'_>,
    bases: &Texts<'_>,
    path: &[u8],
) -> bool
    requires { are_matched directories.old indexes.now bases.now ≡ true }
    ensures { result ≡ list_any (counts_for path.now) (zip (file_names directories.old indexes.now bases.now) bases.now) }
{
    let (front, base) = split_path(path);
    let _ = indexes.count();
    let mut left = bases.iter();
    let mut place = 0;
    while let Some(text) = left.next() {
        let index = indexes.number(place);
        if counts(directories, index, text, front, base) {
            return true;
        }
        place += 1;
    }
    false
}

/// The same with room for the places of directories. A function of its own, as its frame has the room.
#[cold]
#[inline(never)]
fn is_any_far(dirs: &Texts<'_>, indexes: &Numbers<'_>, bases: &Texts<'_>, path: &[u8]) -> bool
    requires { are_matched dirs.now indexes.now bases.now ≡ true }
    ensures { result ≡ list_any (counts_for path.now) (zip (file_names dirs.now indexes.now bases.now) bases.now) }
{
    let mut room = PlacesRoom::new();
    is_any_at(
        &mut Directories::new(dirs, Some(&mut room)),
        indexes,
        bases,
        path,
    )
}

fn is_any_in(dirs: Texts<'_>, indexes: &Numbers<'_>, bases: &Texts<'_>, path: &[u8]) -> bool
    ensures { result ≡ list_any (counts_for path.now) (zip (list_or_empty (filenames (Some dirs.entry) (Some indexes.now) (Some bases.now))) bases.now) }
{
    let dirs = match asked_for(dirs, indexes, bases) {
        None => return false,
        Some(dirs) => dirs,
    };
    if go_back(indexes) {
        return is_any_far(&dirs, indexes, bases, path);
    }
    is_any_at(&mut Directories::new(&dirs, None), indexes, bases, path)
}

/// Whether an element of FILENAMES is this path, and its name is what follows the path's last slash. Reads each name
/// once, and the directories of those alone that have the path's name, as `TagValue::texts` reads them. Takes no
/// memory.
#[tactic(auto, unfolding(crate::specs::Wanted::has_file))]
pub fn has_file(view: &View<'_>, path: &[u8]) -> bool
    ensures { result ≡ has_file view.now path.now }
{
    match (
        texts_in(view, DIRNAMES),
        numbers_in(view, DIRINDEXES),
        texts_in(view, BASENAMES),
    ) {
        (Some(dirs), Some(indexes), Some(bases)) => is_any_in(dirs, &indexes, &bases, path),
        _ => false,
    }
}
