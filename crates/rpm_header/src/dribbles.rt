//! Entries after those of a header that stands.

ghost use Rattle.std.specs.Prelude.{◌≡◌, ◌+◌, ◌++◌, ◌≤◌, ◌<◌, ◌↔◌, length, IfOk, Ok, Err};
ghost use Rattle.rpm_header.specs.Prelude.{dribbled_blob, dribbled_data, Header, header, immutable_digest, lengths_of, max_data, max_entries};

use crate::builder::Builder;
use crate::laying::{BuildFault, Lengths, append_data, append_index, begin, lengths_of};
use crate::parts::parts_of;
use crate::view::View;
use std::alloc::{AllocError, Global};

fn dribbled_lengths(view: &View<'_>, extra: &Builder) -> Result<Lengths, BuildFault>
    ensures { result ≡ lengths_of (length view.now.entries + length extra.now) (length (dribbled_data view.now extra.now)) }
{
    let (_, section) = parts_of(view);
    lengths_of(view.entries() as usize, section.len(), extra.entries(), 0)
}

fn lay_out(
    alloc: Global,
    view: &View<'_>,
    extra: &Builder,
    lengths: Lengths,
) -> Result<Vec<u8>, AllocError>
    requires { Ok lengths ≡ lengths_of (length view.now.entries + length extra.now) (length (dribbled_data view.now extra.now)) }
    ensures laid { IfOk result (λ blob. blob.items ≡ dribbled_blob view.now extra.now) }
    ensures again { IfOk result (λ blob. header blob.items ≡ Ok (record { blob = blob.items; entries = view.now.entries ++ extra.now })) }
    ensures digest { IfOk result (λ blob. (read : Header) → header blob.items ≡ Ok read → immutable_digest read ≡ immutable_digest view.now) }
{
    let (index, section) = parts_of(view);
    let mut out = begin(alloc, lengths)?;
    out.extend_from_slice(index)?;
    append_index(&mut out, extra.entries(), section.len())?;
    out.extend_from_slice(section)?;
    append_data(&mut out, extra.entries(), section.len())?;
    Ok(out)
}

/// The view's header with the builder's entries after its own. Their data stand after the view's
/// data, each at the least offset that is a multiple of its number's width, with zeros between; all
/// bytes of the view's index and data stay as they are. So a region in front stays the same, and
/// the entries that are added are its dribbles. Read again, the header has the view's entries
/// followed by the builder's, and the digest of the view.
///
/// Takes one buffer of the header's length, and copies the view's header and each added entry's data
/// once.
///
/// # Errors
///
/// `TooManyEntries` exactly where there would be more than 65,535 entries in all. Else `TooMuchData`
/// exactly where there would be more than 67,108,864 bytes of data. Else `NoMemory` where no memory
/// is found.
pub fn with_dribbles(alloc: Global, view: &View<'_>, extra: &Builder) -> Result<Vec<u8>, BuildFault>
    ensures laid { IfOk result (λ blob. blob.items ≡ dribbled_blob view.now extra.now) }
    ensures again { IfOk result (λ blob. header blob.items ≡ Ok (record { blob = blob.items; entries = view.now.entries ++ extra.now })) }
    ensures digest { IfOk result (λ blob. (read : Header) → header blob.items ≡ Ok read → immutable_digest read ≡ immutable_digest view.now) }
    ensures too_many { (result ≡ Err BuildFault.TooManyEntries) ↔ (max_entries < length view.now.entries + length extra.now) }
    ensures too_much { (result ≡ Err BuildFault.TooMuchData) ↔
        ((length view.now.entries + length extra.now ≤ max_entries)
        × (max_data < length (dribbled_data view.now extra.now))) }
{
    let lengths = dribbled_lengths(view, extra)?;
    match lay_out(alloc, view, extra, lengths) {
        Ok(blob) => Ok(blob),
        Err(_) => Err(BuildFault::NoMemory),
    }
}
