//! The texts of a value, one after the other.

ghost use Rattle.std.specs.Prelude.{◌≡◌, ℕ, ◌≤◌, [], ◌∷◌, length, All, List};
ghost use Rattle.rpm_tags.specs.Prelude.{concat, IsPartLeft, item_count, max_data, texts_left, YieldsFirstBy};

use crate::files::FileIter;
use crate::joined::Joined;
use crate::stored::TextIter;
use std::marker::Model;

#[derive(Drop)]
enum Left<'v, 'a> {
    Stored(TextIter<'a>),
    Joined(Option<Joined<'a>>),
    Files(FileIter<'v, 'a>),
}

/// The texts of a value that are left, each in parts. Contracts see it as the list of the texts.
#[derive(Drop)]
pub struct ValueTexts<'v, 'a> {
    left: Left<'v, 'a>,
}

impl<'v, 'a> Model for ValueTexts<'v, 'a> {
    ghost Value = { List (List ℕ) };

    ghost view = { λ s. texts_left s.left };

    ghost invariant = { λ s. IsPartLeft s.left };
}

impl<'v, 'a> ValueTexts<'v, 'a> {
    pub(crate) fn stored(texts: TextIter<'a>) -> ValueTexts<'v, 'a>
        requires { All (λ text. length text ≤ max_data) texts }
        ensures { result ≡ texts.entry }
    {
        ValueTexts {
            left: Left::Stored(texts),
        }
    }

    pub(crate) fn joined(joined: Joined<'a>) -> ValueTexts<'v, 'a>
        ensures { result ≡ concat joined.entry ∷ [] }
    {
        ValueTexts {
            left: Left::Joined(Some(joined)),
        }
    }

    pub(crate) fn files(files: FileIter<'v, 'a>) -> ValueTexts<'v, 'a>
        ensures { result ≡ files.entry }
    {
        ValueTexts {
            left: Left::Files(files),
        }
    }
}

impl<'v, 'a> Iterator for ValueTexts<'v, 'a> {
    type Item = Joined<'a>;

    ghost next_gives = { YieldsFirstBy (λ x. concat x) (λ s. s) };

    ghost remaining = { item_count (λ s. s) };

    fn next(&mut self) -> Option<Joined<'a>> {
        match &mut self.left {
            Left::Stored(texts) => match texts.next() {
                None => None,
                Some(text) => Some(Joined::one(text)),
            },
            Left::Joined(joined) => joined.take(),
            Left::Files(files) => files.next(),
        }
    }
}
