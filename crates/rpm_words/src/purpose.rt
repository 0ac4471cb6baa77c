//! What each word of a command line is there for.

ghost use Rattle.std.specs.Prelude.{◌≡◌, length};
ghost use Rattle.rpm_words.specs.Prelude.{inline, is_cluster, is_some, list_all, lone, long_purpose, long_switch, option_map_or, own_purpose, purpose_behind, short_switch, takes_value, Unknown};

use crate::switch::{Command, Program, Switch, long_switch, short_switch};

/// What a word is there for.
#[derive(Clone, Copy)]
pub(crate) enum Purpose {
    /// The program's name.
    Name,
    /// It begins as an option, and is none.
    Unknown,
    /// A dash, and letters that each are an option.
    Cluster,
    /// A long option that takes no value.
    Whole(Switch),
    /// A long option, and its value from this byte on.
    Inline(Switch, u32),
    /// A long option whose value is the next word.
    Awaits(Switch),
    /// The value of the option in front.
    Value(Switch),
    /// The end of the options.
    Ends,
    /// An argument.
    Plain,
    /// An argument after the end of the options.
    Rest,
}

impl Switch {
    /// Whether the option has a value.
    pub(crate) fn takes_value(self) -> bool
        ensures { result ≡ takes_value self }
    {
        matches!(
            self,
            Switch::Mode(Command::Exercise) | Switch::Format | Switch::After | Switch::Folder
        )
    }
}

/// What a long option is there for whose value stands in the same word.
fn inline_purpose(program: Program, name: &str) -> Purpose
    ensures { result ≡ option_map_or (inline (length name.now)) (long_switch program name.now) Unknown }
{
    match long_switch(program, name) {
        Some(switch) if switch.takes_value() => Purpose::Inline(switch, name.len() as u32 + 1),
        _ => Purpose::Unknown,
    }
}

/// What a long option is there for that stands alone in its word.
fn lone_purpose(program: Program, name: &str) -> Purpose
    ensures { result ≡ option_map_or lone (long_switch program name.now) Unknown }
{
    match long_switch(program, name) {
        Some(switch) if switch.takes_value() => Purpose::Awaits(switch),
        Some(switch) => Purpose::Whole(switch),
        None => Purpose::Unknown,
    }
}

/// What a word that begins with two dashes is there for.
#[tactic(auto, unfolding(crate::specs::Purpose::long_purpose), using(std::proofs::lemmas::Str::Pattern::split_once_first))]
fn long_purpose(program: Program, text: &str) -> Purpose
    ensures { result ≡ long_purpose program text.now }
{
    match text.split_once('=') {
        Some((name, _)) => inline_purpose(program, name),
        None => lone_purpose(program, text),
    }
}

/// Whether each byte is a short option.
fn is_letters(bytes: &[u8]) -> bool
    ensures { result ≡ list_all (λ b. is_some (short_switch b)) bytes.now }
{
    bytes.iter().all(|byte| short_switch(*byte).is_some())
}

/// Whether each byte after the first is a short option.
#[tactic(auto, unfolding(crate::specs::Purpose::is_cluster))]
fn is_cluster(program: Program, text: &[u8]) -> bool
    ensures { result ≡ is_cluster program text.now }
{
    match program {
        Program::Rpm => text.is_empty() || is_letters(&text[1..]),
        Program::Rpmdb => false,
    }
}

/// What a word is there for by its own spelling.
#[tactic(auto, unfolding(crate::specs::Purpose::own_purpose))]
fn own_purpose(program: Program, text: &str) -> Purpose
    ensures { result ≡ own_purpose program text.now }
{
    let bytes = text.as_bytes();
    if text == "--" {
        Purpose::Ends
    } else if bytes.starts_with(b"--") {
        long_purpose(program, text)
    } else if text == "-" || !bytes.starts_with(b"-") {
        Purpose::Plain
    } else if is_cluster(program, bytes) {
        Purpose::Cluster
    } else {
        Purpose::Unknown
    }
}

/// What a word is there for, after one that is there for `previous`.
#[tactic(auto, unfolding(crate::specs::Purpose::purpose_behind))]
pub(crate) fn purpose_behind(program: Program, previous: Purpose, text: &str) -> Purpose
    ensures { result ≡ purpose_behind program previous text.now }
{
    match previous {
        Purpose::Awaits(switch) => Purpose::Value(switch),
        Purpose::Ends | Purpose::Rest => Purpose::Rest,
        _ => own_purpose(program, text),
    }
}
