//! The top call: a command line does what its command's steps say.

ghost use Rattle.std.specs.Prelude.{◌≡◌, true, false, None};
ghost use Rattle.rpm_tool.specs.Prelude.{Answers, AnswersWords, asks, Causes, closing, DiskFault, ClosingEnding, Laws, outs, ran, setting_at, shown_outputs, status_of, Streams};

use crate::keyed::answer_keyed;
use crate::loaded::answer_loaded;
use rpm_command::{Kind, read_command};
use rpm_commit::{CommandEnding, change_asked};
use rpm_effects::{Outcome, Why, status_of};
use rpm_outside::{Buffered, Disk, File, Shelf, Sink};
use rpm_print::{print_text, put_closing};
use rpm_query::print_files;
use rpm_words::Words;
use std::alloc::Global;

/// Does what a command line asks for, on the package files that it names or on the database, up to its closing line.
fn command<D: Disk, S: Shelf, O: Sink + Drop, E: Sink + Drop>(
    alloc: Global,
    words: &Words,
    disk: D,
    shelf: &mut S,
    out: &mut Buffered<O>,
    err: &mut Buffered<E>,
    now: u32,
) -> (CommandEnding, D)
    ensures words { AnswersWords words.now result.0.why }
    ensures unread { asks words.now ≡ None → (result.1 ≡ disk) × (shelf.new ≡ shelf.old) × (out.new ≡ out.old) × (err.new ≡ err.old) }
    ensures answers { Answers (ran D.Disk words.now result.0.why result.0.changes (disk, result.1)
        (shown_outputs O.Sink E.Sink out.old err.old, shown_outputs O.Sink E.Sink out.new err.new))
        (setting_at S.Shelf now (shelf.old, shelf.new)) }
    ensures disk { DiskFault D.Disk (result.0.why ≡ Why.DiskFault) disk result.1 }
    ensures streams { Streams S.Shelf O.Sink E.Sink true (λ why. result.0.why ≡ why) (shelf.old, out.old, err.old) (shelf.new, out.new, err.new) }
{
    let command = match read_command(alloc, words) {
        Ok(command) => command,
        Err(why) => return (CommandEnding { why, changes: 0 }, disk),
    };
    let ask = &command.ask;
    let format = &command.format;
    match &command.kind {
        Kind::Change(task) => change_asked(alloc, task, disk, shelf, out, err, now),
        Kind::Files => {
            let why = print_files(alloc, shelf, words, ask, format, out, err);
            (CommandEnding { why, changes: 0 }, disk)
        }
        Kind::Text(text) => {
            let why = print_text(text, out);
            (CommandEnding { why, changes: 0 }, disk)
        }
        Kind::Keyed(request) => {
            let (why, disk) = answer_keyed(alloc, disk, words, ask, *request, format, out, err);
            (CommandEnding { why, changes: 0 }, disk)
        }
        Kind::Plain(request) => {
            let (why, disk) = answer_loaded(alloc, disk, words, ask, *request, format, out, err);
            (CommandEnding { why, changes: 0 }, disk)
        }
    }
}

/// Does what a command line asks for, to a database or with package files, and writes the line that closes it.
///
/// The disk is handed back beside every outcome. Queries leave what its files represent, the index aside, and so do
/// the reports, `--exportdb` and `--verifydb`. The words are read first, by the rules of [`read`](rpm_words::read).
/// Where they break one, the answer is `Usage` with the first that is broken. Then the format is read, by the rules
/// of [`parse`](rpm_qfparse::parse): F, the list of files, or `%{NVRA}\n`. Where it has a fault, the answer is
/// `BadFormat` with the first one. With these two answers no call is made on the disk, the shelf or `out`.
///
/// A query prints for each argument what the format means for each package that it picks, by rising number. A package
/// that can't be read, and one for which a bracket's tags have different numbers of elements, has a message on `err`
/// in its place; then the argument fails, once. `--exportdb` writes each header after the magic, in one piece.
/// `--verifydb` writes a line for each package that isn't sound. `--checkfiles` writes a line for each package that
/// can't be read, and then one for each two packages that own a path and differ on it.
///
/// `--help` and `--version` print their text: no call is made on the disk and the shelf.
///
/// With `-p` each argument is the path of a package file, `-` the standard input, and what is printed is of its
/// header with the number 0: no call is made on the disk, and `--after` and `--noindex` change nothing. A path that
/// can't be opened and a file that is refused have a line on `err`; then the argument fails. A read that fails ends
/// the command with `ShelfFault`. Each file is read up to the end of its header. Of the other commands `--addpkg`,
/// `--replacepkg` and `--importdb` alone make calls on the shelf.
///
/// A query without `-p`, `-a`, `--querybynumber` and `--noindex` is a question by key. It first finishes what a crash
/// left of a change, syncs the files, and makes the index from the packages where it isn't current. On a database
/// that can't be written it answers `DiskFault` where the index must be made: then `--noindex` answers.
///
/// `-Va --nofiles` and `--order` open the database in the same way. Both first have the message of each package that
/// can't be read. Then the one writes a line for each requirement that no package meets, and fails where there is
/// one; the other writes the labels of the packages in an order in which they could be installed, those that all lead
/// to each other as a cycle.
///
/// `--initdb`, `--addpkg`, `--replacepkg`, `--erasepkg`, `--importdb`, `--rebuilddb` and `--exercise` change the
/// database; where there is none, they make one. All changes of a command are one: they are held in memory, and
/// committed after the last argument; a command that is stopped before that changes nothing. An argument that fails
/// has its line on `err`, and the others go on. `now` is the moment that `INSTALLTIME` and `INSTALLTID` of a package
/// file get, in seconds since 1970. `--rebuilddb` makes the index anew, and drops the packages that can't be read,
/// each with a line on `out`. `--exercise` makes the index anew, adds, replaces and erases that many headers that it
/// generates, and tells on `out` what they leave; where there are packages, it is answered `NotEmpty` with the least
/// number. The outcome counts the changes, where the command was done.
///
/// What is wrong with the files is told before anything is done: `BadLog` where the log is malformed, and else
/// `Damaged` where `Packages.db` is. `BadIndex` comes only where an index that was found current is asked or changed,
/// and is malformed there. Of a change the first that is refused decides, and of it the first limit that it meets:
/// `NumbersSpent`, `GenerationSpent`, `StoreFull`, `IndexFull`; `LogFull` where the log of all changes has no room.
///
/// Of `Packages.db` a query reads no more bytes than those of the slot pages and for each argument of the blocks of
/// each package once: for a number of that package alone, and by key of the packages that have one of its keys, and
/// of all once more where the index must be made. Where a sink fails, of the blocks no more than those up to the
/// package whose step was cut off. Each header is parsed once. What is printed of a package goes out in few pieces,
/// and no piece is of two packages.
pub fn run<D: Disk, S: Shelf, O: Sink, E: Sink>(
    alloc: Global,
    words: &Words,
    disk: D,
    shelf: &mut S,
    out: &mut O,
    err: &mut E,
    now: u32,
) -> (Outcome, D)
    ensures status { result.0.status ≡ status_of result.0.why }

    // Nothing is done for words that break a rule, or whose format has a fault.
    ensures words { AnswersWords words.now result.0.why }
    ensures unread { asks words.now ≡ None → (result.1 ≡ disk) × (shelf.new ≡ shelf.old) × (out.new ≡ out.old) }

    // The theorem: the command of the words, and the line that closes it.
    ensures answers { ClosingEnding (λ mid. Answers (ran D.Disk words.now result.0.why result.0.changes (disk, result.1)
        (outs O.Sink E.Sink out.old err.old, mid)) (setting_at S.Shelf now (shelf.old, shelf.new)))
        (closing words.now result.0.why) (outs O.Sink E.Sink out.new err.new) (E.faults err.old) (E.faults err.new) }
    ensures causes { Causes D.Disk S.Shelf O.Sink E.Sink result.0.why (disk, shelf.old, out.old, err.old) (result.1, shelf.new, out.new, err.new) }
    ensures laws { Laws words.now }
{
    let mut out = Buffered::new(out);
    let mut err = Buffered::new(err);
    let (ending, disk) = command(alloc, words, disk, shelf, &mut out, &mut err, now);
    let _ = put_closing(&mut err, words, ending.why);
    let outcome = Outcome {
        status: status_of(ending.why),
        why: ending.why,
        changes: ending.changes,
    };
    (outcome, disk)
}
