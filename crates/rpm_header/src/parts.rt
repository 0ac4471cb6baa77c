//! The two parts of a checked header.

ghost use Rattle.std.specs.Prelude.{◌≡◌, ◌+◌, ◌*◌, take, drop, ◌≤◌, length, Ok};
ghost use Rattle.rpm_header.specs.Prelude.{header, max_data, own_data, own_index};

use crate::index::section_of;
use crate::view::View;

/// The index of a header of so many entries, whose own bytes are the blob.
fn index_of(entries: u32, blob: &[u8]) -> &[u8]
    requires { 8 + 16 * entries ≤ length blob.now }
    ensures { result.now ≡ take (16 * entries) (drop 8 blob.now) }
{
    &blob[8..8 + 16 * entries as usize]
}

/// The index of a header, and its data. Reads none of them.
pub fn parts_of<'a>(view: &View<'a>) -> (&'a [u8], &'a [u8])
    ensures index { result.0.now ≡ own_index view.now }
    ensures data { result.1.now ≡ own_data view.now }
    ensures whole { length result.0.now ≡ 16 * length view.now.entries }
    ensures small { length result.1.now ≤ max_data }
    ensures again { header view.now.blob ≡ Ok view.now }
{
    let blob = view.blob();
    let entries = view.entries();
    (index_of(entries, blob), section_of(entries, blob))
}
