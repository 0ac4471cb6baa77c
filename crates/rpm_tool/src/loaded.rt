//! `AnswersPlain` of the theorem: commands on a database as it reads when an open log is gone through.

ghost use Rattle.std.specs.Prelude.{◌≡◌, ◌+◌, ◌≤◌, [], false, IsTrue};
ghost use Rattle.rpm_tool.specs.Prelude.{always_keyed, request_of, DiskFault, EndHands, is_foreign, OnlyReadsPackages, pkg_read, PlainAnswer, query_cost, reopened_files, shown_outputs};

use crate::unindexed::answer_unindexed;
use rpm_command::Request;
use rpm_effects::{Why, unless_starved, why_of_load};
use rpm_group::Overlay;
use rpm_outside::{Buffered, Disk, File, Sink};
use rpm_qfparse::Format;
use rpm_words::{Ask, Words};
use std::alloc::Global;

/// Does what the words ask for on the files that the disk's files represent, and hands the disk back as it was.
pub fn answer_loaded<D: Disk, O: Sink + Drop, E: Sink + Drop>(
    alloc: Global,
    disk: D,
    words: &Words,
    ask: &Ask,
    request: Request,
    format: &Format,
    out: &mut Buffered<O>,
    err: &mut Buffered<E>,
) -> (Why, D)
    requires request { request ≡ request_of ask.now.mode }
    requires plain { always_keyed (request_of ask.now.mode) ≡ false }
    ensures went { IsTrue D.tells → PlainAnswer format.now words.now ask.now (D.files disk) result.0
        (shown_outputs O.Sink E.Sink out.old err.old) (shown_outputs O.Sink E.Sink out.new err.new) (pkg_read D.Disk disk)
        (pkg_read D.Disk result.1) }
    ensures reads { IsTrue D.tells → pkg_read D.Disk result.1 ≤ pkg_read D.Disk disk + query_cost words.now ask.now (reopened_files (D.files disk)).pkg }
    ensures done { is_foreign result.0 ≡ false }
    ensures looks { OnlyReadsPackages D.Disk disk result.1 }
    ensures disk { DiskFault D.Disk (result.0 ≡ Why.DiskFault) disk result.1 }
    ensures hands { EndHands O.Sink E.Sink result.0 out.old err.old out.new err.new }
{
    match Overlay::load(alloc, disk) {
        Ok(overlay) => {
            let mut overlay = overlay;
            let ended = answer_unindexed(
                alloc,
                &mut overlay,
                words,
                ask,
                request,
                format,
                out,
                err,
            );
            let why = unless_starved(overlay.is_starved(), ended);
            (why, overlay.release())
        }
        Err(refused) => (why_of_load(refused.why), refused.disk),
    }
}
