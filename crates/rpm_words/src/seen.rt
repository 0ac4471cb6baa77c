//! What the options of a command line come to.

ghost use Rattle.std.specs.Prelude.{◌≡◌, None, drop};
ghost use Rattle.rpm_words.specs.Prelude.{after_in, exercise_in, is_nofiles, is_noindex, printed_in, seen, seen_with, word_at};

use crate::number::{exercise_number, number_in};
use crate::switch::{Chosen, Command, Switch};
use crate::token::{Said, Token};
use crate::words::{Span, Words};

/// What a query prints.
#[derive(Clone, Copy)]
pub(crate) enum Printed {
    /// The files of each package.
    Files,
    /// By this format.
    By(Span),
}

/// What the options come to.
#[derive(Clone, Copy)]
pub(crate) struct Seen {
    /// The first mode.
    pub(crate) command: Option<Command>,
    /// The first selection.
    pub(crate) chosen: Option<Chosen>,
    /// The last format.
    pub(crate) printed: Option<Printed>,
    /// The last number of `--after`.
    pub(crate) after: Option<u32>,
    /// The last number of `--exercise`.
    pub(crate) exercise: Option<u32>,
    pub(crate) noindex: bool,
    pub(crate) nofiles: bool,
    /// The last token.
    pub(crate) last: Option<Token>,
}

impl Token {
    /// The bytes of the token's word from a place on.
    pub(crate) fn bytes_from<'a>(&self, words: &'a Words, from: u32) -> &'a [u8]
        ensures { result.now ≡ drop from (word_at words.now self.now.word) }
    {
        words.bytes_from(Span {
            word: self.word,
            from,
        })
    }

    fn printed(&self) -> Option<Printed>
        ensures { result ≡ printed_in self.now }
    {
        match self.said {
            Said::Sets(Switch::Lists) => Some(Printed::Files),
            Said::Gives(Switch::Format, from) => Some(Printed::By(Span {
                word: self.word,
                from,
            })),
            _ => None,
        }
    }

    fn after(&self, words: &Words) -> Option<u32>
        ensures { result ≡ after_in words.now self.now }
    {
        match self.said {
            Said::Gives(Switch::After, from) => number_in(self.bytes_from(words, from)),
            _ => None,
        }
    }

    fn exercise(&self, words: &Words) -> Option<u32>
        ensures { result ≡ exercise_in words.now self.now }
    {
        match self.said {
            Said::Gives(Switch::Mode(Command::Exercise), from) => {
                exercise_number(self.bytes_from(words, from))
            }
            _ => None,
        }
    }

    fn is_noindex(&self) -> bool
        ensures { result ≡ is_noindex self.now }
    {
        matches!(self.said, Said::Sets(Switch::Noindex))
    }

    fn is_nofiles(&self) -> bool
        ensures { result ≡ is_nofiles self.now }
    {
        matches!(self.said, Said::Sets(Switch::Nofiles))
    }
}

impl Seen {
    /// What the options come to with one token more.
    fn with(self, words: &Words, token: &Token) -> Seen
        ensures { result ≡ seen_with words.now self token.now }
    {
        Seen {
            command: self.command.or(token.command()),
            chosen: self.chosen.or(token.chosen()),
            printed: token.printed().or(self.printed),
            after: token.after(words).or(self.after),
            exercise: token.exercise(words).or(self.exercise),
            noindex: self.noindex || token.is_noindex(),
            nofiles: self.nofiles || token.is_nofiles(),
            last: Some(*token),
        }
    }
}

/// What the options among the tokens come to.
pub(crate) fn seen_in(words: &Words, tokens: &[Token]) -> Seen
    ensures { result ≡ seen words.now tokens.now }
{
    let mut seen = Seen {
        command: None,
        chosen: None,
        printed: None,
        after: None,
        exercise: None,
        noindex: false,
        nofiles: false,
        last: None,
    };
    for token in tokens {
        seen = seen.with(words, token);
    }
    seen
}
