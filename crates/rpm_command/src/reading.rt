//! `AnswersWords` of the theorem: the command that the words ask for, and its format.

ghost use Rattle.std.specs.Prelude.{◌≡◌, true, Some, Ok, IfOk, IfErr};
ghost use Rattle.rpm_command.specs.Prelude.{ask, asks_format, format_text, HasNumbers, IsCommandSound, KindIs, needs_no_index, Undone};

use crate::task::{Task, numbers_of, replacing_of, texts_of};
use crate::texts::{HELP, VERSION};
use rpm_effects::Why;
use rpm_qfparse::{Format, FormatKind, parse};
use rpm_words::{Ask, Chosen, Mode, Words, WordsKind, read};
use std::alloc::{AllocError, Global};

/// Whether packages that are picked so are asked for without the index.
fn needs_no_index(chosen: Chosen, noindex: bool) -> bool
    ensures { result ≡ needs_no_index chosen noindex }
{
    match chosen {
        Chosen::All | Chosen::Number | Chosen::Package => true,
        _ => noindex,
    }
}

/// What a command does with the database that it opens.
#[derive(Clone, Copy, Debug, PartialEq, Eq)]
pub enum Request {
    /// It prints what its arguments pick.
    Print,
    /// It writes all headers out.
    Export,
    /// It tells the verdicts of all packages.
    Verify,
    /// It tells the paths that several packages own and that differ.
    CheckFiles,
    /// It tells which requirements no package meets.
    Unmet,
    /// It tells in which order the packages could be installed.
    Order,
}

/// What kind of command a command line is: each of the five has a record of its own on the theorem's page.
#[derive(Debug, Drop)]
pub enum Kind<'a> {
    /// It changes packages, or makes the database, and this is what it changes: `AnswersChange`.
    Change(Task<'a>),
    /// It is a query of package files, which opens no database: `AnswersOfFiles`.
    Files,
    /// It opens the database with its index, and changes no package: a question by key, or a report on requirements.
    /// `AnswersKeyed`.
    Keyed(Request),
    /// It opens the database without its index, and changes nothing: `AnswersPlain`.
    Plain(Request),
    /// It says something of the program itself, which is this text, and opens nothing: `AnswersText`.
    Text(&'static [u8]),
}

/// A command line that was read: what its words say, the format that they give, and what kind of command it is.
#[derive(Drop)]
pub struct Command<'a> {
    pub ask: Ask,
    pub format: Format,
    pub kind: Kind<'a>,
}

/// What kind of command a command is, with what it changes, or does with the database that it opens.
pub fn kind_of<'a>(alloc: Global, words: &'a Words, ask: &Ask) -> Result<Kind<'a>, AllocError>
    requires sound { IsCommandSound words.now ask.now }
    requires numbers { HasNumbers words.now ask.now }
    ensures { IfOk result (λ kind. KindIs kind words.now ask.now) }
{
    Ok(match ask.mode() {
        Mode::Query if matches!(ask.chosen(), Chosen::Package) => Kind::Files,
        Mode::Query if needs_no_index(ask.chosen(), ask.noindex()) => Kind::Plain(Request::Print),
        Mode::Query => Kind::Keyed(Request::Print),
        Mode::Verify => Kind::Keyed(Request::Unmet),
        Mode::Order => Kind::Keyed(Request::Order),
        Mode::Exportdb => Kind::Plain(Request::Export),
        Mode::Verifydb => Kind::Plain(Request::Verify),
        Mode::Checkfiles => Kind::Plain(Request::CheckFiles),
        Mode::Help => Kind::Text(HELP),
        Mode::Version => Kind::Text(VERSION),
        Mode::Initdb => Kind::Change(Task::Make),
        Mode::Addpkg => Kind::Change(Task::Add(texts_of(alloc, words, ask)?)),
        Mode::Replacepkg => Kind::Change(replacing_of(words, ask)),
        Mode::Erasepkg => Kind::Change(Task::Erase(numbers_of(alloc, words, ask)?)),
        Mode::Importdb => Kind::Change(Task::Import),
        Mode::Rebuilddb => Kind::Change(Task::Rebuild),
        Mode::Exercise(headers) => Kind::Change(Task::Exercise(headers)),
    })
}

/// The text of the format: the one that is given, that of the list, or else that of labels.
#[tactic(auto, unfolding(crate::specs::Asked::label_format, crate::specs::Asked::list_format))]
fn format_text<'a>(words: &'a Words, ask: &Ask) -> &'a [u8]
    ensures { result.now ≡ format_text words.now ask.now }
{
    if ask.lists() {
        return b"%|FILENAMES?{[%{FILENAMES}\\n]}:{(contains no files)\\n}|";
    }
    match ask.format() {
        Some(span) => words.bytes_from(span),
        None => b"%{NVRA}\\n",
    }
}

/// Reads the words: their command, or else how they end. Goes over them once.
fn read_words(alloc: Global, words: &Words) -> Result<Ask, Why>
    ensures ok { IfOk result (λ a. ask words.now ≡ Ok a) }
    ensures sound { IfOk result (λ a. IsCommandSound words.now a) }
    ensures numbers { IfOk result (λ a. HasNumbers words.now a) }
    ensures undone { IfErr result (λ why. Undone (ask words.now) (asks_format words.now) why) }
{
    match read(alloc, words) {
        Ok(ask) => Ok(ask),
        Err(fault) if fault.kind == WordsKind::NoMemory => Err(Why::NoMemory),
        Err(fault) => Err(Why::Usage(fault)),
    }
}

/// Reads the format by which the words of a command ask for packages, or else how they end.
#[tactic(auto, unfolding(crate::specs::Asked::asks_format))]
fn read_format(alloc: Global, words: &Words, command: &Ask) -> Result<Format, Why>
    requires asked { ask words.now ≡ Ok command.now }
    requires sound { IsCommandSound words.now command.now }
    ensures ok { IfOk result (λ f. asks_format words.now ≡ Some (Ok f)) }
    ensures undone { IfErr result (λ why. Undone (ask words.now) (asks_format words.now) why) }
{
    match parse(alloc, format_text(words, command)) {
        Ok(format) => Ok(format),
        Err(fault) if fault.kind == FormatKind::NoMemory => Err(Why::NoMemory),
        Err(fault) => Err(Why::BadFormat(fault)),
    }
}

/// Reads the words, then the format by which they ask for packages, and tells the command's kind; or else how they end.
/// Goes over words and format once.
pub fn read_command<'a>(alloc: Global, words: &'a Words) -> Result<Command<'a>, Why>
    ensures ok { IfOk result (λ c. (ask words.now ≡ Ok c.ask) × (asks_format words.now ≡ Some (Ok c.format))) }
    ensures sound { IfOk result (λ c. IsCommandSound words.now c.ask) }
    ensures kind { IfOk result (λ c. KindIs c.kind words.now c.ask) }
    ensures undone { IfErr result (λ why. Undone (ask words.now) (asks_format words.now) why) }
{
    let ask = read_words(alloc, words)?;
    let format = read_format(alloc, words, &ask)?;
    match kind_of(alloc, words, &ask) {
        Ok(kind) => Ok(Command { ask, format, kind }),
        Err(AllocError) => Err(Why::NoMemory),
    }
}
