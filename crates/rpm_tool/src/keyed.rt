//! `AnswersKeyed` of the theorem: questions by key and reports on requirements, which open the database with its index
//! and change no package.

ghost use Rattle.std.specs.Prelude.{◌≡◌, false, IsTrue};
ghost use Rattle.rpm_tool.specs.Prelude.{AnswersKeyed, ran, request_of, DiskFault, EndHands, is_foreign, shown_outputs};

use crate::dispatch::answer_opened;
use rpm_command::Request;
use rpm_db::Db;
use rpm_effects::{Why, why_of_open, why_of_recover};
use rpm_group::recover;
use rpm_outside::{Buffered, Disk, File, Sink};
use rpm_qfparse::Format;
use rpm_words::{Ask, Words};
use std::alloc::Global;

/// Finishes what a crash left of a change, opens the database with its index, which is made from the packages where
/// it isn't current, and answers. Of `Packages.db` it reads the slot pages, the blocks of all packages where the
/// index must be made, and of a query for each argument those of the packages that have one of its keys; what a
/// report reads, it says itself.
pub fn answer_keyed<D: Disk, O: Sink + Drop, E: Sink + Drop>(
    alloc: Global,
    disk: D,
    words: &Words,
    ask: &Ask,
    request: Request,
    format: &Format,
    out: &mut Buffered<O>,
    err: &mut Buffered<E>,
) -> (Why, D)
    requires request { request ≡ request_of ask.now.mode }
    ensures keyed { IsTrue D.tells → AnswersKeyed (ran D.Disk words.now result.0 0 (disk, result.1)
        (shown_outputs O.Sink E.Sink out.old err.old, shown_outputs O.Sink E.Sink out.new err.new)) ask.now format.now }
    ensures goes_on { D.follows disk result.1 }
    ensures done { is_foreign result.0 ≡ false }
    ensures disk { DiskFault D.Disk (result.0 ≡ Why.DiskFault) disk result.1 }
    ensures hands { EndHands O.Sink E.Sink result.0 out.old err.old out.new err.new }
{
    let mut disk = disk;
    match recover(&mut disk) {
        Ok(_) => match Db::open_durable(alloc, &mut disk) {
            Ok(db) => {
                let why = answer_opened(
                    alloc, &db, &mut disk, words, ask, request, format, out, err,
                );
                (why, disk)
            }
            Err(fault) => (why_of_open(fault), disk),
        },
        Err(fault) => (why_of_recover(fault), disk),
    }
}
