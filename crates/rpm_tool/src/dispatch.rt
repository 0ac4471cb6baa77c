//! `AnswersPlain` and `AnswersKeyed` of the theorem: what a command does with a database that was opened.

ghost use Rattle.std.specs.Prelude.{◌≡◌, [], false, Err, IfErr};
ghost use Rattle.rpm_tool.specs.Prelude.{request_of, DiskFault, OpenedAnswer, EndHands, is_foreign, is_of_opening, IsAskable, IsOfPrint, shown_outputs, why_of_report};

use rpm_command::Request;
use rpm_db::Db;
use rpm_effects::{Halt, Why};
use rpm_outside::{Buffered, Disk, File, Sink};
use rpm_qfparse::Format;
use rpm_query::{query_all, query_each};
use rpm_report::{check_files, report, report_order, report_unmet};
use rpm_words::{Ask, Words};
use std::alloc::Global;

/// The ending of a report, of whether its one argument failed.
#[tactic(auto, using(rpm_effects::proofs::laws::Halts::of_report))]
fn why_of_report(told: Result<bool, Halt>) -> Why
    requires class { IfErr told IsOfPrint }
    ensures value { result ≡ why_of_report told }
    ensures done { is_foreign result ≡ false }
    ensures opened { is_of_opening result ≡ false }
    ensures disk { result ≡ Why.DiskFault → told ≡ Err Halt.DiskFault }
    ensures out { result ≡ Why.OutFault → told ≡ Err Halt.OutFault }
    ensures err { result ≡ Why.ErrFault → told ≡ Err Halt.ErrFault }
{
    match told {
        Ok(true) => Why::Failed(1),
        Ok(false) => Why::Done,
        Err(halt) => Why::from(halt),
    }
}

/// Does with an opened database what the words ask for. What a report on requirements reads, it says itself.
pub fn answer_opened<D: Disk, O: Sink + Drop, E: Sink + Drop>(
    alloc: Global,
    db: &Db,
    disk: &mut D,
    words: &Words,
    ask: &Ask,
    request: Request,
    format: &Format,
    out: &mut Buffered<O>,
    err: &mut Buffered<E>,
) -> Why
    requires asked { IsAskable D.Disk disk.old db.now }
    requires request { request ≡ request_of ask.now.mode }
    ensures does { OpenedAnswer D.Disk (request_of ask.now.mode) format.now db.now words.now ask.now result
        (shown_outputs O.Sink E.Sink out.old err.old) (shown_outputs O.Sink E.Sink out.new err.new) disk.old disk.new }
    ensures done { is_foreign result ≡ false }
    ensures opened { is_of_opening result ≡ false }
    ensures disk { DiskFault D.Disk (result ≡ Why.DiskFault) disk.old disk.new }
    ensures hands { EndHands O.Sink E.Sink result out.old err.old out.new err.new }
{
    match request {
        Request::Print => {
            let count = ask.arguments();
            if count == 0 {
                query_all(
                    alloc,
                    db,
                    disk,
                    ask.after(),
                    Request::Print,
                    format,
                    out,
                    err,
                )
            } else {
                query_each(alloc, db, disk, words, ask, format, out, err)
            }
        }
        Request::Export => query_all(alloc, db, disk, 0, Request::Export, format, out, err),
        Request::Verify => report(alloc, db, disk, out),
        Request::CheckFiles => check_files(alloc, db, disk, out, err),
        Request::Unmet => why_of_report(report_unmet(alloc, db, disk, out, err)),
        Request::Order => why_of_report(report_order(alloc, db, disk, out, err)),
    }
}
