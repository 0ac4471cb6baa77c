//! What a package's header gains where it is installed.

ghost use Rattle.std.specs.Prelude.{◌≡◌, IsTrue, Ok, Err, IfOk};
ghost use Rattle.rpm_change.specs.Prelude.{as_installed, GivesInstalled, header, KeepsShelf, bytes_left, package_header, read_again};

use rpm_file::{FileFault, Stamp, read_package_with};
use rpm_outside::Shelf;
use std::alloc::Global;

/// Reads the package file that is open, as it is installed at the moment `now`: with `INSTALLTIME` and `INSTALLTID`
/// after its entries, both `now` in seconds since 1970.
pub fn read_installed<S: Shelf>(
    alloc: Global,
    shelf: &mut S,
    now: u32,
) -> Result<Vec<u8>, FileFault>
    ensures gives { IsTrue S.tells → GivesInstalled (as_installed now (package_header (bytes_left (S.rest shelf.old)))) result }
    ensures own { IfOk result (λ blob. header blob.items ≡ Ok (read_again blob.items)) }
    ensures shelf { KeepsShelf S.Shelf (result ≡ Err FileFault.ReadFault) shelf.old shelf.new }
{
    let stamps = [
        Stamp {
            tag: 1008,
            number: now,
        },
        Stamp {
            tag: 1128,
            number: now,
        },
    ];
    let found = read_package_with(alloc, shelf, &stamps)?;
    Ok(found.into_header())
}
