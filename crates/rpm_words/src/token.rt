//! What a command line says, word by word and, in a cluster, letter by letter.

ghost use Rattle.std.specs.Prelude.{◌≡◌, ◌++◌, ◌<◌, ◌^◌, OnOk, IfOk, length};
ghost use Rattle.rpm_words.specs.Prelude.{letters, said_tokens, says};

use crate::purpose::{Purpose, purpose_behind};
use crate::switch::{Program, Switch, short_switch};
use crate::words::Words;
use std::alloc::{AllocError, Global};

/// What a token says.
#[derive(Clone, Copy)]
pub(crate) enum Said {
    /// The word is no option.
    Refused,
    /// An option.
    Sets(Switch),
    /// The value of an option, from this byte on.
    Gives(Switch, u32),
    /// The word is an argument.
    Argument,
}

/// The least that means something: a word, a letter of a cluster, an option or a value that share
/// a word.
#[derive(Clone, Copy)]
pub(crate) struct Token {
    /// The word that it stands in.
    pub(crate) word: u32,
    pub(crate) said: Said,
}

/// Adds the options of a cluster, which are its letters.
fn push_letters(tokens: &mut Vec<Token>, word: u32, text: &[u8]) -> Result<(), AllocError>
    ensures { OnOk result (tokens.new.items ≡ tokens.old.items ++ letters word text.now) }
{
    for byte in text {
        if let Some(switch) = short_switch(*byte) {
            tokens.push(Token {
                word,
                said: Said::Sets(switch),
            })?;
        }
    }
    Ok(())
}

/// Adds what a word says.
fn push_tokens(
    tokens: &mut Vec<Token>,
    word: u32,
    purpose: Purpose,
    text: &str,
) -> Result<(), AllocError>
    ensures { OnOk result (tokens.new.items ≡ tokens.old.items ++ says word purpose text.now) }
{
    let said = match purpose {
        Purpose::Unknown => Said::Refused,
        Purpose::Cluster => return push_letters(tokens, word, text.as_bytes()),
        Purpose::Whole(switch) | Purpose::Awaits(switch) => Said::Sets(switch),
        Purpose::Inline(switch, from) => {
            let said = Said::Sets(switch);
            tokens.push(Token { word, said })?;
            Said::Gives(switch, from)
        }
        Purpose::Value(switch) => Said::Gives(switch, 0),
        Purpose::Plain | Purpose::Rest => Said::Argument,
        Purpose::Name | Purpose::Ends => return Ok(()),
    };
    tokens.push(Token { word, said })?;
    Ok(())
}

/// What the words after the program's name say, from left to right.
pub(crate) fn tokens_of(
    alloc: Global,
    program: Program,
    words: &Words,
) -> Result<Vec<Token>, AllocError>
    ensures tokens { IfOk result (λ v. v.items ≡ said_tokens program words.now) }
    ensures few { length words.now < 2 ^ 32 }
{
    let mut tokens = Vec::new(alloc);
    let mut purpose = Purpose::Name;
    for i in 1..words.len() {
        let text = words.word(i);
        purpose = purpose_behind(program, purpose, text);
        push_tokens(&mut tokens, i, purpose, text)?;
    }
    Ok(tokens)
}
