//! `AnswersPlain` of the theorem: the commands that open the database without its index.

ghost use Rattle.std.specs.Prelude.{◌≡◌, ◌+◌, ◌≤◌, ℕ, [], false, IsTrue};
ghost use Rattle.rpm_tool.specs.Prelude.{always_keyed, request_of, PlainProgress, DiskFault, EndHands, is_foreign, OnlyReads, StoreAnswer, Pkg, pkg_read, query_cost, shown_outputs, store};

use crate::dispatch::answer_opened;
use rpm_command::Request;
use rpm_db::{Db, DbOpenFault};
use rpm_effects::Why;
use rpm_outside::{Buffered, Disk, File, Sink};
use rpm_qfparse::Format;
use rpm_words::{Ask, Words};
use std::alloc::Global;

/// Opens the database, as it reads and without its index, and does what the words ask for. Besides the slot pages it
/// reads the blocks of packages, one package after the other, each before it is printed: for each argument of those
/// that it goes over, which are all or that of its number. The report on files reads all before its first line.
pub fn answer_unindexed<D: Disk, O: Sink + Drop, E: Sink + Drop>(
    alloc: Global,
    disk: &mut D,
    words: &Words,
    ask: &Ask,
    request: Request,
    format: &Format,
    out: &mut Buffered<O>,
    err: &mut Buffered<E>,
) -> Why
    requires request { request ≡ request_of ask.now.mode }
    requires plain { always_keyed (request_of ask.now.mode) ≡ false }
    ensures went { IsTrue D.tells → StoreAnswer (PlainProgress format.now words.now ask.now (D.files disk.old).pkg
        (pkg_read D.Disk disk.old) (pkg_read D.Disk disk.new)) (store (D.files disk.old).pkg) result
        (shown_outputs O.Sink E.Sink out.old err.old) (shown_outputs O.Sink E.Sink out.new err.new) }
    ensures reads { IsTrue D.tells → pkg_read D.Disk disk.new ≤ pkg_read D.Disk disk.old + query_cost words.now ask.now (D.files disk.old).pkg }
    ensures done { is_foreign result ≡ false }
    ensures looks { (most : ℕ) × OnlyReads D.Disk Pkg most disk.old disk.new }
    ensures disk { DiskFault D.Disk (result ≡ Why.DiskFault) disk.old disk.new }
    ensures hands { EndHands O.Sink E.Sink result out.old err.old out.new err.new }
{
    match Db::open_unindexed(alloc, disk) {
        Ok(db) => answer_opened(alloc, &db, disk, words, ask, request, format, out, err),
        Err(DbOpenFault::Damaged(damage)) => Why::Damaged(damage),
        Err(DbOpenFault::DiskFault) => Why::DiskFault,
        Err(DbOpenFault::NoMemory) => Why::NoMemory,
        // No index is made, and so none is full.
        Err(DbOpenFault::IndexFull { .. }) => unreachable!(),
    }
}
