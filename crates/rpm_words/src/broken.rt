//! The first rule that a command line breaks.

ghost use Rattle.std.specs.Prelude.{◌≡◌};
ghost use Rattle.rpm_words.specs.Prelude.{argument_fault, bad_argument, early_word_fault, first_broken, is_awaiting, is_bad_number, is_misplaced, lacks_option, first_misplaced, misplaced_in, no_mode, no_value, token_fault, too_few, too_many};

use crate::fault::{WordsFault, WordsKind, earlier};
use crate::number::{exercise_number, number_in, number_of};
use crate::seen::Seen;
use crate::switch::{Chosen, Command, Switch};
use crate::takes::{ArgumentRule, Expected};
use crate::token::{Said, Token};
use crate::words::Words;
use rpm_version::Capability;

impl Token {
    /// Whether the token gives a number, and its text is none.
    fn is_bad_number(&self, words: &Words) -> bool
        ensures { result ≡ is_bad_number words.now self.now }
    {
        match self.said {
            Said::Gives(Switch::After, from) => number_in(self.bytes_from(words, from)).is_none(),
            Said::Gives(Switch::Mode(Command::Exercise), from) => {
                exercise_number(self.bytes_from(words, from)).is_none()
            }
            _ => false,
        }
    }

    /// What is wrong with the token, where the first mode and the first selection are these.
    fn fault(
        &self,
        words: &Words,
        command: Option<Command>,
        chosen: Option<Chosen>,
    ) -> Option<WordsFault>
        ensures { result ≡ token_fault words.now command chosen self.now }
    {
        let kind = if matches!(self.said, Said::Refused) {
            WordsKind::UnknownOption
        } else if self.is_other(command, chosen) {
            WordsKind::TwoModes
        } else if self.is_bad_number(words) {
            WordsKind::BadNumber
        } else {
            return None;
        };
        Some(kind.at(self.word))
    }

    /// Whether the token is an option that has a value.
    fn is_awaiting(&self) -> bool
        ensures { result ≡ is_awaiting self.now }
    {
        match self.said {
            Said::Sets(switch) => switch.takes_value(),
            _ => false,
        }
    }

    /// The fault of an option that may not stand in a mode.
    fn misplaced(&self, command: Command) -> Option<WordsFault>
        ensures { result ≡ misplaced_in command self.now }
    {
        match self.said {
            Said::Sets(switch) if switch.is_misplaced(command) => Some(WordsKind::Misplaced.at(
                self.word,
            )),
            _ => None,
        }
    }
}

impl Switch {
    /// Whether the option may not stand in a mode.
    fn is_misplaced(self, command: Command) -> bool
        ensures { result ≡ is_misplaced self command }
    {
        match self {
            Switch::Mode(_) | Switch::Folder => false,
            Switch::Choose(Chosen::All) => !matches!(command, Command::Query | Command::Verify),
            Switch::Choose(_) | Switch::Lists | Switch::Format | Switch::After | Switch::Noindex =>
                !matches!(command, Command::Query),
            Switch::Nofiles => !matches!(command, Command::Verify),
        }
    }
}

/// The fault of the least token that is at fault by itself.
#[tactic(auto, unfolding(crate::specs::Broken::early_word_fault))]
fn early_fault(
    words: &Words,
    command: Option<Command>,
    chosen: Option<Chosen>,
    tokens: &[Token],
) -> Option<WordsFault>
    ensures { result ≡ early_word_fault words.now command chosen tokens.now }
{
    let mut first = None;
    for token in tokens {
        first = earlier(first, token.fault(words, command, chosen));
    }
    first
}

/// The first option that may not stand in a mode.
#[tactic(auto, unfolding(crate::specs::Broken::first_misplaced))]
fn misplaced(command: Command, tokens: &[Token]) -> Option<WordsFault>
    ensures { result ≡ first_misplaced command tokens.now }
{
    for token in tokens {
        if let Some(fault) = token.misplaced(command) {
            return Some(fault);
        }
    }
    None
}

/// What is wrong with the argument at a word.
fn argument_fault(words: &Words, expected: Expected, word: u32) -> Option<WordsFault>
    ensures { result ≡ argument_fault words.now expected word }
{
    let text = words.text_at(word);
    match expected {
        Expected::Number if number_of(text).is_none() => Some(WordsKind::BadNumber.at(word)),
        Expected::Capability if Capability::read(text).is_err() => Some(WordsKind::BadCapability.at(
            word,
        )),
        _ => None,
    }
}

/// The fault of the first argument that is not what it has to be.
#[tactic(auto, unfolding(crate::specs::Broken::bad_argument))]
fn bad_argument(words: &Words, expected: Expected, arguments: &[u32]) -> Option<WordsFault>
    ensures { result ≡ bad_argument words.now expected arguments.now }
{
    for word in arguments {
        if let Some(fault) = argument_fault(words, expected, *word) {
            return Some(fault);
        }
    }
    None
}

/// An option at the end that lacks its value.
fn no_value(words: &Words, last: Option<Token>) -> Option<WordsFault>
    ensures { result ≡ no_value words.now last }
{
    match last {
        Some(token) if token.is_awaiting() => Some(WordsKind::MissingArgument.at(words.len())),
        _ => None,
    }
}

/// No mode at all.
fn no_mode(words: &Words, command: Option<Command>) -> Option<WordsFault>
    ensures { result ≡ no_mode words.now command }
{
    match command {
        None => Some(WordsKind::NoMode.at(words.len())),
        Some(_) => None,
    }
}

/// Whether the mode lacks an option that it has to have.
fn lacks_option(command: Command, seen: &Seen) -> bool
    ensures { result ≡ lacks_option command seen.now }
{
    match command {
        Command::Verify => !(matches!(seen.chosen, Some(Chosen::All)) && seen.nofiles),
        _ => false,
    }
}

/// Too few options or arguments.
fn too_few(
    words: &Words,
    command: Command,
    seen: &Seen,
    takes: ArgumentRule,
    arguments: &[u32],
) -> Option<WordsFault>
    ensures { result ≡ too_few words.now command seen.now takes arguments.now }
{
    if lacks_option(command, seen) || arguments.len() < takes.fewest() {
        Some(WordsKind::MissingArgument.at(words.len()))
    } else {
        None
    }
}

/// The first argument too many.
fn too_many(takes: ArgumentRule, arguments: &[u32]) -> Option<WordsFault>
    ensures { result ≡ too_many takes arguments.now }
{
    match takes.most() {
        Some(most) if most < arguments.len() => Some(WordsKind::ExtraArgument.at(arguments[most])),
        _ => None,
    }
}

/// The first rule that is broken.
#[tactic(auto, unfolding(crate::specs::Broken::first_broken))]
pub(crate) fn first_broken(
    words: &Words,
    tokens: &[Token],
    seen: &Seen,
    arguments: &[u32],
) -> Option<WordsFault>
    ensures { result ≡ first_broken words.now tokens.now seen.now arguments.now }
{
    let command = seen.command.unwrap_or(Command::Query);
    let chosen = seen.chosen.unwrap_or(Chosen::Label);
    let takes = command.takes(chosen);
    early_fault(words, seen.command, seen.chosen, tokens)
        .or(no_value(words, seen.last))
        .or(no_mode(words, seen.command))
        .or(misplaced(command, tokens))
        .or(too_few(words, command, seen, takes, arguments))
        .or(too_many(takes, arguments))
        .or(bad_argument(words, takes.expected(), takes.checked(arguments)))
}
