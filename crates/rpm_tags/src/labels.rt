//! The texts that are made of a package's name, epoch, version, release and architecture.

ghost use Rattle.std.specs.Prelude.{◌≡◌, ℕ, ◌+◌, ◌≤◌, ◌<◌, ◌++◌, length, IfSome};
ghost use Rattle.rpm_tags.specs.Prelude.{arch_parts, epoch_parts, evr_text, first_number, first_text, label, max_data, name_parts, option_copied, release_parts};

use crate::joined::Joined;
use crate::numbers::{EPOCH, NAME, RELEASE, VERSION};
use crate::stored::{first_number, first_text};
use rpm_header::View;

fn push_name<'a>(joined: &mut Joined<'a>, name: &'a [u8])
    requires room { length joined.old ≤ 7 }
    requires short { length name.now ≤ max_data }
    ensures { joined.new ≡ joined.old ++ name_parts name.now }
{
    joined.push(name);
    joined.push(b"-");
}

fn push_epoch(joined: &mut Joined<'_>, epoch: Option<u64>)
    requires { length joined.old ≤ 7 }
    ensures value { joined.new ≡ joined.old ++ epoch_parts epoch }
    ensures few { length joined.new ≤ length joined.old + 2 }
{
    if let Some(epoch) = epoch {
        joined.push_number(epoch);
        joined.push(b":");
    }
}

fn push_release<'a>(joined: &mut Joined<'a>, version: &'a [u8], release: &'a [u8])
    requires room { length joined.old ≤ 6 }
    requires version { length version.now ≤ max_data }
    requires release { length release.now ≤ max_data }
    ensures value { joined.new ≡ joined.old ++ release_parts version.now release.now }
    ensures few { length joined.new ≤ length joined.old + 3 }
{
    joined.push(version);
    joined.push(b"-");
    joined.push(release);
}

fn push_arch<'a>(joined: &mut Joined<'a>, arch: Option<&'a [u8]>)
    requires room { length joined.old ≤ 7 }
    requires short { IfSome arch (λ text. length text.now ≤ max_data) }
    ensures { joined.new ≡ joined.old ++ arch_parts (option_copied arch.entry) }
{
    if let Some(arch) = arch {
        joined.push(b".");
        joined.push(arch);
    }
}

/// `N-V-R`, with `E:` before the version and `.A` at the end where they are given; None where name, version or release
/// is not of class Text.
pub fn label<'a>(view: &View<'a>, epoch: Option<u64>, arch: Option<&'a [u8]>) -> Option<Joined<'a>>
    requires { IfSome arch (λ text. length text.now ≤ max_data) }
    ensures { result ≡ label (first_text view.now NAME) epoch (first_text view.now VERSION)
        (first_text view.now RELEASE) (option_copied arch.entry) }
{
    let name = first_text(view, NAME)?;
    let version = first_text(view, VERSION)?;
    let release = first_text(view, RELEASE)?;
    let mut joined = Joined::empty();
    push_name(&mut joined, name);
    push_epoch(&mut joined, epoch);
    push_release(&mut joined, version, release);
    push_arch(&mut joined, arch);
    Some(joined)
}

/// `E:V-R`.
pub fn evr<'a>(view: &View<'a>) -> Option<Joined<'a>>
    ensures { result ≡ evr_text (first_number view.now EPOCH) (first_text view.now VERSION) (first_text view.now RELEASE) }
{
    let version = first_text(view, VERSION)?;
    let release = first_text(view, RELEASE)?;
    let mut joined = Joined::empty();
    push_epoch(&mut joined, first_number(view, EPOCH));
    push_release(&mut joined, version, release);
    Some(joined)
}
