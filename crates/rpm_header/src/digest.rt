//! The digest of the region with which a header begins.

ghost use Rattle.std.specs.Prelude.{◌≡◌, true};
ghost use Rattle.rpm_header.specs.Prelude.{begins_with, immutable_digest, header_in_file, main_region, region_in_file, sha256};

use crate::MAGIC;
use crate::index::{MAIN_REGION, index_entry_at};
use crate::parts::parts_of;
use crate::view::View;
use sha2::{Digest, Sha256};

/// The digest of a header of this index and data, with the bytes that stand before it in files.
fn digest_of(entries: u32, size: u32, index: &[u8], section: &[u8]) -> [u8; 32]
    ensures { result ≡ sha256 (header_in_file entries size index.now section.now) }
{
    let mut hasher = Sha256::new();
    hasher.update(MAGIC.as_slice());
    hasher.update(entries.to_be_bytes().as_slice());
    hasher.update(size.to_be_bytes().as_slice());
    hasher.update(index);
    hasher.update(section);
    hasher.finalize()
}

fn region_digest(view: &View<'_>) -> [u8; 32]
    requires { begins_with main_region view.now.entries ≡ true }
    ensures { result ≡ sha256 (region_in_file view.now) }
{
    let (index, section) = parts_of(view);
    let region = index_entry_at(index, 0);
    let trailer = index_entry_at(section, region.offset as usize);
    let entries = ((1u64 << 32) - trailer.offset as u64) / 16;
    let size = region.offset + 16;
    digest_of(
        entries as u32,
        size,
        &index[..16 * entries as usize],
        &section[..size as usize],
    )
}

/// The SHA-256 of the region of a header, which entries after the region leave as it is: of the
/// region's own entries and data as a header of their own, with the eight bytes that stand before a
/// header in files. None exactly where the first entry isn't a region of tag 63. The bytes that are
/// digested are those of rpm's documentation of the V4 header.
///
/// Takes no memory, copies nothing of the header, and reads each byte of the region once.
#[tactic(auto, unfolding(crate::specs::Digest::immutable_digest))]
pub fn immutable_digest(view: &View<'_>) -> Option<[u8; 32]>
    ensures { result ≡ immutable_digest view.now }
{
    if view.entries() == 0 || view.entry(0).tag() != MAIN_REGION {
        return None;
    }
    Some(region_digest(view))
}
