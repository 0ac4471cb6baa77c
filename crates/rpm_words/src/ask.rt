//! The command that a command line asks for.

ghost use Rattle.std.specs.Prelude.{◌≡◌, ◌≢◌, ℕ, ◌<◌, ◌^◌, length, slice_get, Some, Ok, Err, IfOk, MatchResult, MatchOption, unwrap_or};
ghost use Rattle.rpm_words.specs.Prelude.{AllByRecursion, argument_in, arguments, ask, asked_by, AskParts, ask_parts, fault, HasNumbers, IsFit, IsCommandSound, mode_of, NoMemory, program_of};

use crate::broken::first_broken;
use crate::fault::{WordsFault, WordsKind};
use crate::place::program_of;
use crate::seen::{Printed, Seen, seen_in};
use crate::switch::{Chosen, Command, Program};
use crate::token::{Said, Token, tokens_of};
use crate::words::{Span, Words};
use std::alloc::{AllocError, Global};
use std::marker::Model;

/// What a command line asks for.
#[derive(Clone, Copy, PartialEq, Eq)]
pub enum Mode {
    /// To print what is picked.
    Query,
    /// To add package files.
    Addpkg,
    /// To put a package file in a number's place.
    Replacepkg,
    /// To erase numbers.
    Erasepkg,
    /// To tell the requirements that no package meets.
    Verify,
    /// To make a blank database.
    Initdb,
    /// To make the index anew.
    Rebuilddb,
    /// To check each package.
    Verifydb,
    /// To write all headers out.
    Exportdb,
    /// To add a list of headers.
    Importdb,
    /// To try the database out, with this count of packages, from 1 to 100,000.
    Exercise(u32),
    /// To tell in which order the packages could be installed.
    Order,
    /// To tell the paths that two packages own in different ways.
    Checkfiles,
    /// To say what a command line may say.
    Help,
    /// To say which version the program is.
    Version,
}

/// A command: a mode, its options, and the words that are its arguments.
#[derive(Drop)]
pub struct Ask {
    mode: Mode,
    chosen: Chosen,
    after: u32,
    noindex: bool,
    printed: Option<Printed>,
    arguments: Vec<u32>,
}

impl Model for Ask {
    ghost Value = { AskParts };

    ghost view = { λ s. ask_parts s.mode s.chosen s.after s.noindex s.printed s.arguments.items };

    ghost invariant = { λ s. length s.arguments.items < 2 ^ 32 };
}

impl Ask {
    /// What is asked for.
    pub fn mode(&self) -> Mode
        ensures { result ≡ self.now.mode }
    {
        self.mode
    }

    /// What a query picks packages by; labels where nothing else is said, and in each other mode
    /// but Verify, which is of all packages.
    pub fn chosen(&self) -> Chosen
        ensures { result ≡ self.now.chosen }
    {
        self.chosen
    }

    /// The number that the packages of a query come after; 0 where none is said.
    pub fn after(&self) -> u32
        ensures { result ≡ self.now.after }
    {
        self.after
    }

    /// Whether the index is left alone.
    pub fn noindex(&self) -> bool
        ensures { result ≡ self.now.noindex }
    {
        self.noindex
    }

    /// Whether the files of each package are listed. Of `-l` and the options that give a format the
    /// last one counts.
    pub fn lists(&self) -> bool
        ensures { result ≡ self.now.lists }
    {
        matches!(self.printed, Some(Printed::Files))
    }

    /// Where the format stands, if one is given and no `-l` after it: a word, from a byte on.
    pub fn format(&self) -> Option<Span>
        ensures { result ≡ self.now.format }
    {
        match self.printed {
            Some(Printed::By(span)) => Some(span),
            _ => None,
        }
    }

    /// How many arguments there are.
    pub fn arguments(&self) -> u32
        ensures { result ≡ length self.now.arguments }
    {
        self.arguments.len() as u32
    }

    /// The place of the word that is the k-th argument, from 0.
    pub fn argument(&self, k: u32) -> u32
        requires { k < length self.now.arguments }
        ensures { slice_get self.now.arguments k ≡ Some result }
    {
        self.arguments[k as usize]
    }
}

impl Token {
    /// The word, where it is an argument.
    fn argument(&self) -> Option<u32>
        ensures { result ≡ argument_in self.now }
    {
        match self.said {
            Said::Argument => Some(self.word),
            _ => None,
        }
    }
}

/// The places of the arguments.
#[tactic(auto, unfolding(crate::specs::Ask::arguments))]
fn arguments_of(alloc: Global, tokens: &[Token]) -> Result<Vec<u32>, AllocError>
    ensures { IfOk result (λ v. v.items ≡ arguments tokens.now) }
{
    let mut places = Vec::new(alloc);
    for token in tokens {
        if let Some(word) = token.argument() {
            places.push(word)?;
        }
    }
    Ok(places)
}

/// The mode, with the number of an exercise.
fn mode_of(command: Command, exercise: u32) -> Mode
    ensures { result ≡ mode_of command exercise }
{
    match command {
        Command::Query => Mode::Query,
        Command::Addpkg => Mode::Addpkg,
        Command::Replacepkg => Mode::Replacepkg,
        Command::Erasepkg => Mode::Erasepkg,
        Command::Verify => Mode::Verify,
        Command::Initdb => Mode::Initdb,
        Command::Rebuilddb => Mode::Rebuilddb,
        Command::Verifydb => Mode::Verifydb,
        Command::Exportdb => Mode::Exportdb,
        Command::Importdb => Mode::Importdb,
        Command::Exercise => Mode::Exercise(exercise),
        Command::Order => Mode::Order,
        Command::Checkfiles => Mode::Checkfiles,
        Command::Help => Mode::Help,
        Command::Version => Mode::Version,
    }
}

/// No memory is left.
const NO_MEMORY: WordsFault = WordsFault {
    kind: WordsKind::NoMemory,
    word: 0,
};

/// Reads the words after the name of a program.
#[tactic(auto, unfolding(crate::specs::Ask::asked_by))]
fn read_options(alloc: Global, program: Program, words: &Words) -> Result<Ask, WordsFault>
    ensures fault { MatchResult result (λ a. asked_by program words.now ≡ Ok a) (λ f. f.kind ≢ NoMemory → asked_by program words.now ≡ Err f) }
    ensures memory { MatchResult result (λ a. Unit {0}) (λ f. f.kind ≡ NoMemory → f.word ≡ 0) }
{
    let Ok(tokens) = tokens_of(alloc, program, words) else {
        return Err(NO_MEMORY);
    };
    let Ok(arguments) = arguments_of(alloc, &tokens) else {
        return Err(NO_MEMORY);
    };
    let seen = seen_in(words, &tokens);
    if let Some(fault) = first_broken(words, &tokens, &seen, &arguments) {
        return Err(fault);
    }
    Ok(Ask {
        mode: mode_of(
            seen.command.unwrap_or(Command::Query),
            seen.exercise.unwrap_or(1),
        ),
        chosen: seen.chosen.unwrap_or(Chosen::Label),
        after: seen.after.unwrap_or(0),
        noindex: seen.noindex,
        printed: seen.printed,
        arguments,
    })
}

/// Reads a command line, the program's name first.
///
/// Under `rpm` the modes are `-q` or `--query`, `-V` or `--verify`, `--addpkg`, `--replacepkg` and
/// `--erasepkg`. A query is by label, or by `-a` (`--all`), `-f` (`--file`), `-g` (`--group`), `-p`
/// (`--package`), `--whatprovides`, `--whatrequires`, `--whatconflicts`, `--whatobsoletes`,
/// `--whatrecommends`, `--triggeredby`, `--whatdir`, `--tid` or `--querybynumber`, and has the options
/// `-l` (`--list`), `--qf` (`--queryformat`), `--after` and `--noindex`. Packages are verified with both
/// `-a` and `--nofiles`. Under `rpmdb` the modes are `--initdb`, `--rebuilddb`, `--verifydb`,
/// `--exportdb`, `--importdb`, `--exercise`, `--order` and `--checkfiles`. Both have the modes
/// `--help` and `--version`, and `--dbpath`. A long option has its value after a `=`, or in the next word, whatever that is. `--` ends the options.
///
/// Of a command that is read each argument is a word, an exercise is with 1 to 100,000 packages, and
/// the place of a format lies in its word. Of a query each argument is what its selection wants: a
/// number, a capability, or any text. What is erased are numbers, and what is replaced is one, with one
/// file after it.
///
/// # Errors
///
/// The first rule that is broken. First of all the least word that is an unknown option, another mode
/// or selection than the first, or no number where an option has one; in one word in this order. Then
/// an option at the end without its value; no mode; an option that the mode doesn't have; an option or
/// an argument that it has to have; the first argument too many; the first argument that is not the
/// number or the capability that it has to be. The word is the number of words where something is
/// missing, and 0 where the first word is neither `rpm` nor `rpmdb` and where memory is wanting.
///
/// Goes over the words once, and over what they say a few times; keeps a few bytes for each option and
/// each argument, and copies no word. The rules are this project's own.
#[tactic(auto, unfolding(crate::specs::Ask::ask))]
pub fn read(alloc: Global, words: &Words) -> Result<Ask, WordsFault>
    ensures command { MatchResult result (λ a. ask words.now ≡ Ok a) (λ f. f.kind ≢ NoMemory → ask words.now ≡ Err f) }
    ensures sound { IfOk result (λ a. IsCommandSound words.now a) }
    ensures numbers { IfOk result (λ a. HasNumbers words.now a) }
    ensures fits { IfOk result (λ a. a.mode ≡ Mode.Query → AllByRecursion (IsFit words.now a.chosen) a.arguments) }
    ensures memory { MatchResult result (λ a. Unit {0}) (λ f. f.kind ≡ NoMemory → f.word ≡ 0) }
{
    match program_of(words) {
        Some(program) => read_options(alloc, program, words),
        None => Err(WordsKind::NoMode.at(0)),
    }
}
