//! The paths of a package, put among those of others.

ghost use Rattle.std.specs.Prelude.{◌≡◌, OnOk, IfOk};
ghost use Rattle.rpm_filecheck.specs.Prelude.{beside_facts, class_of, concat, files, text_list, with_files};

use crate::columns::Columns;
use crate::owned::Owned;
use rpm_header::{PlacesRoom, View};
use rpm_tags::{Class, Joined, Tag, TagValue, ValueTexts, value};
use std::alloc::{AllocError, Global};

/// The bytes of a text in parts.
pub fn bytes_of(alloc: Global, text: &Joined<'_>) -> Result<Vec<u8>, AllocError>
    ensures { IfOk result (λ v. v.items ≡ concat text.now) }
{
    let mut bytes = Vec::with_capacity(alloc, text.len() as usize)?;
    let mut k = 0;
    while let Some(part) = text.part(k) {
        bytes.extend_from_slice(part)?;
        k += 1;
    }
    Ok(bytes)
}

/// Puts the package after the owners of each of these paths, with what the lists say at its place.
fn add_paths(
    alloc: Global,
    owned: &mut Owned,
    number: u32,
    paths: ValueTexts<'_, '_>,
    columns: Columns<'_>,
) -> Result<(), AllocError>
    ensures { OnOk result (owned.new ≡ with_files number (beside_facts paths.entry columns.entry) owned.old) }
{
    let mut columns = columns;
    for path in paths {
        let path = bytes_of(alloc, &path)?;
        let owner = columns.take(alloc, number)?;
        owned.add(alloc, path, owner)?;
    }
    Ok(())
}

/// The same of a value, with room for the places of directories. A function of its own, as its frame has the room.
#[cold]
#[inline(never)]
fn add_far(
    alloc: Global,
    owned: &mut Owned,
    number: u32,
    paths: &TagValue<'_>,
    columns: Columns<'_>,
) -> Result<(), AllocError>
    requires { class_of paths.now ≡ Class.Text }
    ensures { OnOk result (owned.new ≡ with_files number (beside_facts (text_list paths.now) columns.entry) owned.old) }
{
    let mut room = PlacesRoom::new();
    add_paths(alloc, owned, number, paths.texts(Some(&mut room)), columns)
}

/// Puts the package of a header after the owners of its paths: of a path that it has twice, with what it says at the
/// first place.
#[tactic(auto, unfolding(crate::specs::Files::files))]
pub fn add_files(
    alloc: Global,
    owned: &mut Owned,
    number: u32,
    view: &View<'_>,
) -> Result<(), AllocError>
    ensures { OnOk result (owned.new ≡ with_files number (files view.now) owned.old) }
{
    let paths = match value(view, number, Tag::Filenames) {
        None => return Ok(()),
        Some(paths) => paths,
    };
    let columns = Columns::of(view);
    if paths.needs_room() {
        return add_far(alloc, owned, number, &paths, columns);
    }
    add_paths(alloc, owned, number, paths.texts(None), columns)
}
