//! What a format begins with at a place.

ghost use Rattle.std.specs.Prelude.{◌≡◌, ℕ, ◌<◌, [], Bool, OnOk};
ghost use Rattle.rpm_qfparse.specs.Prelude.{at_end, bare_move, bare_reading, bare_rest, close, condition, escape, escaped_move, MayOpen, move_of, percent, second_follows};

use crate::fault::{Fault, FormatKind};
use crate::tag::{begins, named, split_once, tag_part};
use crate::tree::TagPart;
use rpm_tags::Tag;

// How many conditions may stand in each other.
const MAX_DEPTH: u32 = 16;

/// What is being read: the whole, what stands in a bracket, or a branch of a condition.
#[derive(Clone, Copy, PartialEq, Eq)]
pub(crate) enum Context {
    Top,
    Bracket,
    Branch,
}

/// What a text begins with, and the bytes after it.
#[derive(Clone, Copy)]
pub(crate) enum Move<'a> {
    /// The context ends.
    Ends(&'a [u8]),
    /// A fault.
    Stops(Fault<'a>),
    /// A byte that is printed as it is.
    Literal(u8, &'a [u8]),
    /// A tag.
    Shows(TagPart, &'a [u8]),
    /// A bracket begins.
    Opens(&'a [u8]),
    /// A condition on this tag begins, and its first branch.
    Asks(Tag, &'a [u8]),
}

/// A condition up to its first brace, after its bar.
#[tactic(auto, unfolding(crate::specs::Moves::condition))]
fn condition<'a>(
    depth: u32,
    percent: &'a [u8],
    text: &'a [u8],
) -> Result<(Tag, &'a [u8]), Fault<'a>>
    ensures value { bare_reading result ≡ condition depth percent.now text.now }
    ensures room { OnOk result (depth < 16) }
{
    if depth >= MAX_DEPTH {
        return Err(Fault::new(FormatKind::TooDeep, percent));
    }
    match split_once(b'?', text) {
        None => Err(Fault::new(FormatKind::QuestionExpected, &text[text.len()..])),
        Some((name, rest)) => {
            let tag = named(name, text)?;
            if begins(b'{', rest) {
                Ok((tag, &rest[1..]))
            } else {
                Err(Fault::new(FormatKind::BraceExpected, rest))
            }
        }
    }
}

/// What the byte after a backslash stands for.
fn escape(byte: u8) -> u8
    ensures { result ≡ escape byte }
{
    match byte {
        b'a' => 7,
        b'b' => 8,
        b'f' => 12,
        b'n' => 10,
        b'r' => 13,
        b't' => 9,
        b'v' => 11,
        _ => byte,
    }
}

/// What the end of the text is for a context.
fn at_end(context: Context, text: &[u8]) -> Move<'_>
    requires { text.now ≡ [] }
    ensures value { bare_move result ≡ at_end context }
    ensures room { (in_bracket : Bool) (depth : ℕ) → MayOpen in_bracket depth result }
{
    match context {
        Context::Top => Move::Ends(text),
        Context::Bracket => Move::Stops(Fault::new(FormatKind::BracketExpected, text)),
        Context::Branch => Move::Stops(Fault::new(FormatKind::MissingClose, text)),
    }
}

/// What stands after a backslash.
fn escaped(text: &[u8]) -> Move<'_>
    ensures value { bare_move result ≡ escaped_move text.now }
    ensures room { (in_bracket : Bool) (depth : ℕ) → MayOpen in_bracket depth result }
{
    match text {
        [] => Move::Literal(b'\\', text),
        [byte, rest @ ..] => Move::Literal(escape(*byte), rest),
    }
}

/// What stands after a percent.
fn percent<'a>(in_bracket: bool, depth: u32, here: &'a [u8], text: &'a [u8]) -> Move<'a>
    ensures value { bare_move result ≡ percent depth here.now text.now }
    ensures room { MayOpen in_bracket depth result }
{
    if begins(b'%', text) {
        Move::Literal(b'%', &text[1..])
    } else if begins(b'|', text) {
        match condition(depth, here, &text[1..]) {
            Ok((tag, rest)) => Move::Asks(tag, rest),
            Err(fault) => Move::Stops(fault),
        }
    } else {
        match tag_part(text) {
            Ok((part, rest)) => Move::Shows(part, rest),
            Err(fault) => Move::Stops(fault),
        }
    }
}

/// What a text begins with in a context, within a bracket or not, and within so many conditions.
#[tactic(auto, unfolding(crate::specs::Moves::move_of))]
pub(crate) fn move_at(context: Context, in_bracket: bool, depth: u32, text: &[u8]) -> Move<'_>
    ensures value { bare_move result ≡ move_of context in_bracket depth text.now }
    ensures room { MayOpen in_bracket depth result }
{
    let [byte, rest @ ..] = text else {
        return at_end(context, text);
    };
    match *byte {
        b'\\' => escaped(rest),
        b'[' if in_bracket => Move::Stops(Fault::new(FormatKind::NestedBracket, text)),
        b'[' => Move::Opens(rest),
        b']' if context == Context::Bracket => Move::Ends(rest),
        b']' => Move::Stops(Fault::new(FormatKind::UnexpectedBracket, text)),
        b'}' if context == Context::Branch => Move::Ends(rest),
        b'}' => Move::Stops(Fault::new(FormatKind::UnexpectedBrace, text)),
        b'%' => percent(in_bracket, depth, text, rest),
        _ => Move::Literal(*byte, rest),
    }
}

/// Whether a second branch stands after a first one, and what follows its brace, or else the bar.
pub(crate) fn second_follows(text: &[u8]) -> Result<(bool, &[u8]), Fault<'_>>
    ensures { bare_reading result ≡ second_follows text.now }
{
    if begins(b'|', text) {
        Ok((false, &text[1..]))
    } else if begins(b':', text) {
        let rest = &text[1..];
        if begins(b'{', rest) {
            Ok((true, &rest[1..]))
        } else {
            Err(Fault::new(FormatKind::BraceExpected, rest))
        }
    } else {
        Err(Fault::new(FormatKind::BarExpected, text))
    }
}

/// What follows the bar after a second branch.
pub(crate) fn close(text: &[u8]) -> Result<&[u8], Fault<'_>>
    ensures { bare_rest result ≡ close text.now }
{
    if begins(b'|', text) {
        Ok(&text[1..])
    } else {
        Err(Fault::new(FormatKind::BarExpected, text))
    }
}
