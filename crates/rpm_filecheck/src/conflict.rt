//! Two packages that conflict on a path.

ghost use Rattle.std.specs.Prelude.{◌≡◌, ◌∷◌, ◌++◌, [], OnOk};
ghost use Rattle.rpm_filecheck.specs.Prelude.{agrees, conflicts_on, conflicts_with, is_alike, list_all};
ghost use Rattle.rpm_filecheck.specs.Owners as model;

use crate::columns::copy;
use crate::owner::{Owner, Owners};
use std::alloc::{AllocError, Global};
use std::marker::Model;

/// Two packages that conflict on a path.
#[derive(Drop)]
pub struct Conflict {
    path: Vec<u8>,
    first: u32,
    second: u32,
    digest: bool,
    mode: bool,
    link: bool,
}

impl Model for Conflict {
    ghost Value = { model.Conflict };

    ghost view = { λ s. record { path = s.path.items; first = s.first; second = s.second; digest = s.digest; mode = s.mode; link = s.link } };
}

impl Conflict {
    /// The path that both own.
    pub fn path(&self) -> &[u8]
        ensures { result.now ≡ self.now.path }
    {
        &self.path
    }

    /// The lesser number.
    pub fn first(&self) -> u32
        ensures { result ≡ self.now.first }
    {
        self.first
    }

    /// The greater number.
    pub fn second(&self) -> u32
        ensures { result ≡ self.now.second }
    {
        self.second
    }

    /// Whether their digests of the file differ.
    pub fn digest(&self) -> bool
        ensures { result ≡ self.now.digest }
    {
        self.digest
    }

    /// Whether their modes of the file differ.
    pub fn mode(&self) -> bool
        ensures { result ≡ self.now.mode }
    {
        self.mode
    }

    /// Whether they link to different files.
    pub fn link(&self) -> bool
        ensures { result ≡ self.now.link }
    {
        self.link
    }
}

/// Adds the conflict of two owners, where they conflict.
fn push_conflict(
    alloc: Global,
    conflicts: &mut Vec<Conflict>,
    path: &[u8],
    a: &Owner,
    b: &Owner,
) -> Result<(), AllocError>
    ensures { OnOk result (conflicts.new.items ≡ conflicts.old.items ++ conflicts_with path.now a.now (b.now ∷ [])) }
{
    let digest = a.digest.as_slice() != b.digest.as_slice();
    let mode = a.mode != b.mode;
    let link = a.link.as_slice() != b.link.as_slice();
    if a.may_share(b) || !(digest || mode || link) {
        return Ok(());
    }
    let path = copy(alloc, path)?;
    conflicts.push(Conflict {
        path,
        first: a.number,
        second: b.number,
        digest,
        mode,
        link,
    })?;
    Ok(())
}

/// Adds the conflicts of an owner with each of these.
fn push_with(
    alloc: Global,
    conflicts: &mut Vec<Conflict>,
    path: &[u8],
    a: &Owner,
    others: &[Owner],
) -> Result<(), AllocError>
    ensures { OnOk result (conflicts.new.items ≡ conflicts.old.items ++ conflicts_with path.now a.now others.now) }
{
    for b in others {
        push_conflict(alloc, conflicts, path, a, b)?;
    }
    Ok(())
}

/// Whether two owners say the same of a path.
fn is_alike(a: &Owner, b: &Owner) -> bool
    ensures { result ≡ is_alike a.now b.now }
{
    a.mode == b.mode
        && a.digest.as_slice() == b.digest.as_slice()
        && a.link.as_slice() == b.link.as_slice()
}

/// Whether two owners say the same of a path, or are directories.
fn agrees(a: &Owner, b: &Owner) -> bool
    ensures { result ≡ agrees a.now b.now }
{
    is_alike(a, b) || (a.is_directory() && b.is_directory())
}

/// Whether the first agrees with each of these. Then no two of them conflict.
fn agrees_with_all(first: &Owner, others: &[Owner]) -> bool
    ensures { result ≡ list_all (agrees first.now) others.now }
{
    others.iter().all(|b| agrees(first, b))
}

/// Adds the conflicts of each owner with those after it. Where all say the same or all are directories, as of a path
/// that many packages own, each is compared with the first alone; otherwise each with all after it, since each two
/// may be one of the list.
fn push_all(
    alloc: Global,
    conflicts: &mut Vec<Conflict>,
    path: &[u8],
    first: &Owner,
    others: &[Owner],
) -> Result<(), AllocError>
    ensures { OnOk result (conflicts.new.items ≡ conflicts.old.items ++ conflicts_on path.now (first.now ∷ others.now)) }
{
    if agrees_with_all(first, others) {
        return Ok(());
    }
    push_with(alloc, conflicts, path, first, others)?;
    for i in 0..others.len() {
        push_with(alloc, conflicts, path, &others[i], &others[i + 1..])?;
    }
    Ok(())
}

/// Adds the conflicts of every two owners of a path.
pub fn push_owners(
    alloc: Global,
    conflicts: &mut Vec<Conflict>,
    path: &[u8],
    owners: &Owners,
) -> Result<(), AllocError>
    ensures { OnOk result (conflicts.new.items ≡ conflicts.old.items ++ conflicts_on path.now owners.now) }
{
    push_all(alloc, conflicts, path, &owners.first, &owners.others)
}
