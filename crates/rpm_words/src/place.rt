//! The folder of the database.

ghost use Rattle.std.specs.Prelude.{◌≡◌};
ghost use Rattle.rpm_words.specs.Prelude.{after_first, folder, folder_behind, is_equals, IsSpelled, place, program_of};

use crate::purpose::{Purpose, purpose_behind};
use crate::switch::{Program, Switch};
use crate::words::Words;

/// The place that rpm itself keeps its database in.
const OWN_PLACE: &str = "/var/lib/rpm";

/// The program that the first word names.
#[tactic(auto, unfolding(crate::specs::Place::program_of))]
pub(crate) fn program_of(words: &Words) -> Option<Program>
    ensures { result ≡ program_of words.now }
{
    if words.len() == 0 {
        return None;
    }
    match words.word(0) {
        "rpm" => Some(Program::Rpm),
        "rpmdb" => Some(Program::Rpmdb),
        _ => None,
    }
}

/// The value that stands after the first `=` of a word.
#[tactic(auto, using(std::proofs::lemmas::Str::Pattern::split_once_first))]
fn inline_value(text: &str) -> &str
    ensures { result.now ≡ after_first is_equals text.now }
{
    match text.split_once('=') {
        Some((_, value)) => value,
        None => "",
    }
}

/// The folder after a word, where it was `folder` in front of it.
fn folder_behind<'a>(folder: &'a str, purpose: Purpose, text: &'a str) -> &'a str
    requires { IsSpelled text.now purpose }
    ensures { result.now ≡ folder_behind purpose text.now folder.now }
{
    match purpose {
        Purpose::Whole(Switch::Folder) | Purpose::Awaits(Switch::Folder) => OWN_PLACE,
        // As a text it can't be cut at a byte that only a proof knows for the end of a character.
        Purpose::Inline(Switch::Folder, _) => inline_value(text),
        Purpose::Value(Switch::Folder) => text,
        _ => folder,
    }
}

/// The folder that the options of a program name last.
fn folder_of(program: Program, words: &Words) -> &str
    ensures { result.now ≡ folder program words.now }
{
    let mut purpose = Purpose::Name;
    let mut folder = OWN_PLACE;
    for i in 1..words.len() {
        let text = words.word(i);
        purpose = purpose_behind(program, purpose, text);
        folder = folder_behind(folder, purpose, text);
    }
    folder
}

/// The folder of the database: the value of the last `--dbpath`. It is rpm's own place where no
/// option is `--dbpath`, where the last one lacks its value, and where the first word is neither
/// `rpm` nor `rpmdb`.
///
/// A word that is the value of another option is no option, and a word that begins as an option and
/// is none is passed over, so the place is known also where [`read`](crate::read) refuses the words.
/// Goes over the words once, and takes no memory. The rule is this project's own.
#[tactic(auto, unfolding(crate::specs::Place::place))]
pub fn place_of(words: &Words) -> &str
    ensures { result.now ≡ place words.now }
{
    match program_of(words) {
        Some(program) => folder_of(program, words),
        None => OWN_PLACE,
    }
}
