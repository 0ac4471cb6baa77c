//! The labels of a package.

ghost use Rattle.std.specs.Prelude.{◌≡◌, ◌++◌, ◌∷◌, true, false, IfOk, OnOk};
ghost use Rattle.rpm_select.specs.Prelude.{is_dash, is_dash_or_dot, labels, list_any, matches, option_copied, with_arch, with_name, with_release, with_version, without_bytes};

use crate::matching::glob;
use rpm_header::View;
use rpm_tags::{first_text, numbers};
use std::alloc::{AllocError, Global};

/// What a label is compared with: a text, or a glob.
#[derive(Clone, Copy)]
pub struct Wanted<'a> {
    pub is_glob: bool,
    pub text: &'a [u8],
}

pub fn glob_of(text: &str) -> Wanted<'_>
    ensures glob { result.is_glob ≡ true }
    ensures text { result.text.now ≡ text.now }
{
    Wanted {
        is_glob: true,
        text: text.as_bytes(),
    }
}

pub fn text_of(text: &str) -> Wanted<'_>
    ensures glob { result.is_glob ≡ false }
    ensures text { result.text.now ≡ text.now }
{
    Wanted {
        is_glob: false,
        text: text.as_bytes(),
    }
}

fn matches(wanted: Wanted<'_>, label: &[u8]) -> bool
    ensures { result ≡ matches wanted.entry.is_glob wanted.entry.text.now label.now }
{
    if wanted.is_glob {
        glob(wanted.text, label)
    } else {
        wanted.text == label
    }
}

fn has_dash(text: &[u8]) -> bool
    ensures { result ≡ list_any is_dash text.now }
{
    text.iter().any(|byte| *byte == b'-')
}

fn has_dash_or_dot(text: &[u8]) -> bool
    ensures { result ≡ list_any is_dash_or_dot text.now }
{
    text.iter().any(|byte| *byte == b'-' || *byte == b'.')
}

/// A text that has no dash.
fn without_dash(text: Option<&[u8]>) -> Option<&[u8]>
    ensures { option_copied result ≡ without_bytes is_dash (option_copied text.entry) }
{
    let text = text?;
    if has_dash(text) {
        return None;
    }
    Some(text)
}

/// A text that has neither a dash nor a dot.
fn without_dash_or_dot(text: Option<&[u8]>) -> Option<&[u8]>
    ensures { option_copied result ≡ without_bytes is_dash_or_dot (option_copied text.entry) }
{
    let text = text?;
    if has_dash_or_dot(text) {
        return None;
    }
    Some(text)
}

/// Puts a byte and a text after a label.
fn push(label: &mut Vec<u8>, byte: u8, text: &[u8]) -> Result<(), AllocError>
    ensures { OnOk result (label.new.items ≡ label.old.items ++ byte ∷ text.now) }
{
    label.push(byte)?;
    label.extend_from_slice(text)
}

/// Whether a label matches, by itself or with the architecture after it. The label is left as it was.
fn any_arch(
    label: &mut Vec<u8>,
    arch: Option<&[u8]>,
    wanted: Wanted<'_>,
) -> Result<bool, AllocError>
    ensures value { IfOk result (λ b. b ≡ list_any (matches wanted.entry.is_glob wanted.entry.text.now)
        (with_arch (option_copied arch.entry) label.old.items)) }
    ensures same { OnOk result (label.new.items ≡ label.old.items) }
{
    if matches(wanted, label) {
        return Ok(true);
    }
    let Some(arch) = arch else {
        return Ok(false);
    };
    let length = label.len();
    push(label, b'.', arch)?;
    let is_match = matches(wanted, label);
    label.truncate(length);
    Ok(is_match)
}

fn any_release(
    label: &mut Vec<u8>,
    arch: Option<&[u8]>,
    release: Option<&[u8]>,
    wanted: Wanted<'_>,
) -> Result<bool, AllocError>
    ensures { IfOk result (λ b. b ≡ list_any (matches wanted.entry.is_glob wanted.entry.text.now)
        (with_release (option_copied arch.entry) (option_copied release.entry) label.old.items)) }
{
    let Some(release) = release else {
        return Ok(false);
    };
    push(label, b'-', release)?;
    any_arch(label, arch, wanted)
}

fn any_version(
    label: &mut Vec<u8>,
    arch: Option<&[u8]>,
    version: Option<&[u8]>,
    release: Option<&[u8]>,
    wanted: Wanted<'_>,
) -> Result<bool, AllocError>
    ensures { IfOk result (λ b. b ≡ list_any (matches wanted.entry.is_glob wanted.entry.text.now)
        (with_version (option_copied arch.entry) (option_copied version.entry) (option_copied release.entry)
        label.old.items)) }
{
    let Some(version) = version else {
        return Ok(false);
    };
    push(label, b'-', version)?;
    if any_arch(label, arch, wanted)? {
        return Ok(true);
    }
    any_release(label, arch, release, wanted)
}

fn any_name(
    alloc: Global,
    arch: Option<&[u8]>,
    name: Option<&[u8]>,
    version: Option<&[u8]>,
    release: Option<&[u8]>,
    wanted: Wanted<'_>,
) -> Result<bool, AllocError>
    ensures { IfOk result (λ b. b ≡ list_any (matches wanted.entry.is_glob wanted.entry.text.now)
        (with_name (option_copied arch.entry) (option_copied name.entry) (option_copied version.entry)
        (option_copied release.entry))) }
{
    let Some(name) = name else {
        return Ok(false);
    };
    let mut label = Vec::new(alloc);
    label.extend_from_slice(name)?;
    if any_arch(&mut label, arch, wanted)? {
        return Ok(true);
    }
    any_version(&mut label, arch, version, release, wanted)
}

/// Whether one of the six labels of a package matches. Four look-ups in the header, and a buffer of the longest label.
#[tactic(auto, unfolding(crate::specs::Labels::labels))]
pub fn any_label(alloc: Global, view: &View<'_>, wanted: Wanted<'_>) -> Result<bool, AllocError>
    ensures { IfOk result (λ b. b ≡ list_any (matches wanted.entry.is_glob wanted.entry.text.now) (labels view.now)) }
{
    let arch = without_dash_or_dot(first_text(view, numbers::ARCH));
    let version = without_dash(first_text(view, numbers::VERSION));
    let release = without_dash(first_text(view, numbers::RELEASE));
    any_name(
        alloc,
        arch,
        first_text(view, numbers::NAME),
        version,
        release,
        wanted,
    )
}
