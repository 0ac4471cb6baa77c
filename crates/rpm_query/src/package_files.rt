//! `AnswersOfFiles` of the theorem: a query of package files.

ghost use Rattle.std.specs.Prelude.{◌≡◌, ◌≢◌, ℕ, [], ◌∷◌, false, IsTrue, Err, IfErr};
ghost use Rattle.rpm_query.specs.Prelude.{answer_of_line, Anywhere, bearer, EndHands, file_part, HaltHands, is_of_words, IsOfPrint, bytes_left, meaning, package_header, PartIs, printed_step, query_files, read_part, ShelfFault, shown_outputs, told_portion, CommandProgress};

use crate::querying::count;
use rpm_effects::{Halt, Tally, Why, put_absent, put_refused, stop_in};
use rpm_file::{Package, read_package};
use rpm_header::View;
use rpm_outside::{Absent, Buffered, Shelf, Sink};
use rpm_print::print_header;
use rpm_qfparse::Format;
use rpm_words::{Ask, Words};
use std::alloc::Global;

/// Whether the argument fails for a line that was to be written: so it does, where it was.
fn answer_of_line(told: Result<Tally, Halt>) -> Result<bool, Halt>
    ensures { result ≡ answer_of_line told }
{
    match told {
        Ok(_) => Ok(true),
        Err(halt) => Err(halt),
    }
}

/// Prints the header of a package file. Says whether the argument fails.
fn print_package<O: Sink + Drop, E: Sink + Drop>(
    format: &Format,
    found: &Package,
    out: &mut Buffered<O>,
    err: &mut Buffered<E>,
) -> Result<bool, Halt>
    ensures part { (j : ℕ) → PartIs (told_portion (printed_step (bearer j 0) (meaning found.now 0 format.now) ∷ [])) result
        (shown_outputs O.Sink E.Sink out.old err.old) (shown_outputs O.Sink E.Sink out.new err.new) Anywhere }
    ensures no_read { result ≢ Err Halt.DiskFault }
    ensures class { IfErr result IsOfPrint }
    ensures hands { HaltHands O.Sink E.Sink result out.old err.old out.new err.new }
{
    let view = View::of_checked(found.header());
    let to_out = print_header(format, &view, 0, out, err)?;
    Ok(!to_out)
}

/// Reads the package file that is open and prints it, or the line that it is refused. Says whether the argument fails.
fn print_opened<S: Shelf, O: Sink + Drop, E: Sink + Drop>(
    alloc: Global,
    shelf: &mut S,
    path: &[u8],
    format: &Format,
    out: &mut Buffered<O>,
    err: &mut Buffered<E>,
) -> Result<bool, Halt>
    ensures went { IsTrue S.tells → (j : ℕ) → PartIs (read_part format.now j path.now
        (package_header (bytes_left (S.rest shelf.old)))) result (shown_outputs O.Sink E.Sink out.old err.old)
        (shown_outputs O.Sink E.Sink out.new err.new) Anywhere }
    ensures paths { IsTrue S.tells → S.paths shelf.new ≡ S.paths shelf.old }
    ensures no_disk { result ≢ Err Halt.DiskFault }
    ensures shelf { ShelfFault S.Shelf (result ≡ Err Halt.ShelfFault) shelf.old shelf.new }
    ensures hands { HaltHands O.Sink E.Sink result out.old err.old out.new err.new }
{
    match read_package(alloc, shelf) {
        Ok(found) => print_package(format, &found, out, err),
        Err(fault) => match stop_in(fault) {
            Some(halt) => Err(halt),
            None => answer_of_line(put_refused(alloc, err, path, fault)),
        },
    }
}

/// Prints the package file under a path, or its line. Says whether the argument fails.
fn print_file<S: Shelf, O: Sink + Drop, E: Sink + Drop>(
    alloc: Global,
    shelf: &mut S,
    path: &str,
    format: &Format,
    out: &mut Buffered<O>,
    err: &mut Buffered<E>,
) -> Result<bool, Halt>
    ensures went { IsTrue S.tells → (j : ℕ) → PartIs (file_part format.now (S.paths shelf.old) j path.now) result
        (shown_outputs O.Sink E.Sink out.old err.old) (shown_outputs O.Sink E.Sink out.new err.new) Anywhere }
    ensures paths { IsTrue S.tells → S.paths shelf.new ≡ S.paths shelf.old }
    ensures no_disk { result ≢ Err Halt.DiskFault }
    ensures shelf { ShelfFault S.Shelf (result ≡ Err Halt.ShelfFault) shelf.old shelf.new }
    ensures hands { HaltHands O.Sink E.Sink result out.old err.old out.new err.new }
{
    match shelf.open(path) {
        Ok(()) => print_opened(alloc, shelf, path.as_bytes(), format, out, err),
        Err(Absent) => answer_of_line(put_absent(err, path.as_bytes())),
    }
}

/// Prints each package file, or its line, one after the other.
pub fn print_files<S: Shelf, O: Sink + Drop, E: Sink + Drop>(
    alloc: Global,
    shelf: &mut S,
    words: &Words,
    ask: &Ask,
    format: &Format,
    out: &mut Buffered<O>,
    err: &mut Buffered<E>,
) -> Why
    ensures went { IsTrue S.tells → CommandProgress (query_files format.now (S.paths shelf.old) words.now ask.now) result
        (shown_outputs O.Sink E.Sink out.old err.old) (shown_outputs O.Sink E.Sink out.new err.new) Anywhere }
    ensures done { is_of_words result ≡ false }
    ensures no_disk { result ≢ Why.DiskFault }
    ensures paths { IsTrue S.tells → S.paths shelf.new ≡ S.paths shelf.old }
    ensures shelf { ShelfFault S.Shelf (result ≡ Why.ShelfFault) shelf.old shelf.new }
    ensures hands { EndHands O.Sink E.Sink result out.old err.old out.new err.new }
{
    let mut failed = 0u32;
    for k in 0..ask.arguments() {
        let path = words.text_at(ask.argument(k));
        match print_file(alloc, shelf, path, format, out, err) {
            Ok(fails) => failed = count(failed, fails),
            Err(halt) => return Why::from(halt),
        }
    }
    if failed == 0 {
        Why::Done
    } else {
        Why::Failed(failed)
    }
}
