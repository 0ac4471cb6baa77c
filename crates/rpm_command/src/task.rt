//! What a command changes, by its words.

ghost use Rattle.std.specs.Prelude.{◌≡◌, ℕ, ◌+◌, ◌<◌, ◌≤◌, ◌^◌, [], ◌∷◌, ◌++◌, length, map, IfOk, OnOk};
ghost use Rattle.rpm_command.specs.Prelude.{filter_map, IsCommandSound, number, argument_number, numbers_asked, Replacing, slice_index, task_parts, texts_asked, word_at};

use rpm_words::{Ask, Words, number_of};
use std::alloc::{AllocError, Global};

/// What a command changes, with what it is asked.
#[derive(Debug, Drop)]
pub enum Task<'a> {
    /// It makes a database where there is none.
    Make,
    /// It adds the package files under these paths.
    Add(Vec<&'a str>),
    /// It puts the package file under a path in place of a number's package.
    Replace { number: u32, path: &'a str },
    /// It erases the packages of these numbers.
    Erase(Vec<u32>),
    /// It adds the headers of the list on the standard input.
    Import,
    /// It makes the index anew, and drops the packages that can't be read.
    Rebuild,
    /// It makes the exercise of so many headers, where there are no packages.
    Exercise(u32),
}

/// Puts the number after the others that a text is, where it is one.
fn push_number(numbers: &mut Vec<u32>, text: &str) -> Result<(), AllocError>
    ensures items { OnOk result (numbers.new.items ≡ numbers.old.items ++ filter_map number (text.now ∷ [])) }
    ensures few { OnOk result (length numbers.new.items ≤ length numbers.old.items + 1) }
{
    match number_of(text) {
        Some(number) => {
            numbers.push(number)?;
            Ok(())
        }
        None => Ok(()),
    }
}

/// The arguments that are numbers: all, where the words break no rule.
pub(crate) fn numbers_of(alloc: Global, words: &Words, ask: &Ask) -> Result<Vec<u32>, AllocError>
    ensures numbers { IfOk result (λ v. v.items ≡ numbers_asked words.now ask.now) }
    ensures few { IfOk result (λ v. length v.items < 2 ^ 32) }
{
    let mut numbers = Vec::new(alloc);
    for k in 0..ask.arguments() {
        push_number(&mut numbers, words.text_at(ask.argument(k)))?;
    }
    Ok(numbers)
}

/// The texts of the arguments.
pub(crate) fn texts_of<'a>(
    alloc: Global,
    words: &'a Words,
    ask: &Ask,
) -> Result<Vec<&'a str>, AllocError>
    ensures texts { IfOk result (λ v. map (λ text. text.now) v.items ≡ texts_asked words.now ask.now) }
    ensures few { IfOk result (λ v. length v.items < 2 ^ 32) }
{
    let mut texts = Vec::new(alloc);
    for k in 0..ask.arguments() {
        texts.push(words.text_at(ask.argument(k)))?;
    }
    Ok(texts)
}

/// The number that the first argument is, and the second: the package whose place the package file of a path takes.
pub(crate) fn replacing_of<'a>(words: &'a Words, ask: &Ask) -> Task<'a>
    requires sound { IsCommandSound words.now ask.now }
    requires two { length ask.now.arguments ≡ 2 }
    ensures { task_parts result ≡ Replacing (argument_number words.now ask.now 0) (word_at words.now (slice_index ask.now.arguments 1)) }
{
    let number = number_of(words.text_at(ask.argument(0))).unwrap_or(0);
    Task::Replace {
        number,
        path: words.text_at(ask.argument(1)),
    }
}
