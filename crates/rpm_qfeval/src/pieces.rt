//! A text is put piece by piece.

ghost use Rattle.std.specs.Prelude.{◌≡◌, ◌<◌, ◌≤◌, ◌==◌, ◌++◌, codes, length, replicate, IfSome, IfNone};
ghost use Rattle.rpm_qfeval.specs.Prelude.{concat, escaped_text, hex_text, in_quotes, padded_text, position, quoted_text, piece_text, Writes};

use crate::encoded::{put_base64, put_hex};
use crate::measure::lack;
use crate::shown::Shown;
use rpm_outside::{Failed, Sink, put_all};
use rpm_tags::Joined;

const SPACES: [u8; 64] = [b' '; 64];

fn spaces(count: usize) -> &'static [u8]
    requires { count ≤ 64 }
    ensures { result.now ≡ replicate count 32 }
{
    &SPACES[..count]
}

fn put_spaces<O: Sink>(sink: &mut O, count: u32) -> Result<(), Failed>
    ensures { Writes O.Sink sink.old sink.new (replicate count 32) result }
{
    let mut left = count as usize;
    while left > 64 {
        put_all(sink, spaces(64))?;
        left -= 64;
    }
    put_all(sink, spaces(left))
}

pub fn put_joined<O: Sink>(sink: &mut O, text: &Joined<'_>) -> Result<(), Failed>
    ensures { Writes O.Sink sink.old sink.new (concat text.now) result }
{
    let mut k = 0;
    while let Some(part) = text.part(k) {
        put_all(sink, part)?;
        k += 1;
    }
    Ok(())
}

fn quote_at(text: &[u8]) -> Option<usize>
    ensures value { result ≡ position (λ b. b == 39) text.now }
    ensures within { IfSome result (λ i. i < length text.now) }
{
    text.iter().position(|byte| *byte == b'\'')
}

/// The bytes in front of the first quote, and those after it.
fn cut_at_quote(text: &[u8]) -> Option<(&[u8], &[u8])>
    ensures cut { IfSome result (λ cut. escaped_text text.now ≡ (cut.0.now ++ codes "'\\''") ++ escaped_text cut.1.now) }
    ensures shorter { IfSome result (λ cut. length cut.1.now < length text.now) }
    ensures whole { IfNone result (escaped_text text.now ≡ text.now) }
{
    match quote_at(text) {
        None => None,
        Some(at) => Some((&text[..at], &text[at + 1..])),
    }
}

/// Puts bytes that have no quote, and a quote after them.
fn put_run<O: Sink>(sink: &mut O, run: &[u8]) -> Result<(), Failed>
    ensures { Writes O.Sink sink.old sink.new (run.now ++ codes "'\\''") result }
{
    put_all(sink, run)?;
    put_all(sink, b"'\\''")
}

fn put_escaped<O: Sink>(sink: &mut O, text: &[u8]) -> Result<(), Failed>
    ensures { Writes O.Sink sink.old sink.new (escaped_text text.now) result }
{
    let mut rest = text;
    while let Some((run, behind)) = cut_at_quote(rest) {
        put_run(sink, run)?;
        rest = behind;
    }
    put_all(sink, rest)
}

fn put_escaped_parts<O: Sink>(sink: &mut O, text: &Joined<'_>) -> Result<(), Failed>
    ensures { Writes O.Sink sink.old sink.new (escaped_text (concat text.now)) result }
{
    let mut k = 0;
    while let Some(part) = text.part(k) {
        put_escaped(sink, part)?;
        k += 1;
    }
    Ok(())
}

fn put_quoted<O: Sink>(sink: &mut O, text: &Joined<'_>) -> Result<(), Failed>
    ensures { Writes O.Sink sink.old sink.new (quoted_text (concat text.now)) result }
{
    put_all(sink, b"'")?;
    put_escaped_parts(sink, text)?;
    put_all(sink, b"'")
}

fn put_quoted_bytes<O: Sink>(sink: &mut O, text: &[u8]) -> Result<(), Failed>
    ensures { Writes O.Sink sink.old sink.new (quoted_text text.now) result }
{
    put_all(sink, b"'")?;
    put_escaped(sink, text)?;
    put_all(sink, b"'")
}

fn put_quoted_hex<O: Sink>(sink: &mut O, bytes: &[u8]) -> Result<(), Failed>
    ensures { Writes O.Sink sink.old sink.new (in_quotes (hex_text bytes.now)) result }
{
    put_all(sink, b"'")?;
    put_hex(sink, bytes)?;
    put_all(sink, b"'")
}

fn put_shown<O: Sink>(sink: &mut O, text: &Shown<'_>) -> Result<(), Failed>
    ensures { Writes O.Sink sink.old sink.new (piece_text text.now) result }
{
    match text {
        Shown::Plain(bytes) => put_all(sink, bytes),
        Shown::Joined(text) => put_joined(sink, text),
        Shown::Quoted(text) => put_quoted(sink, text),
        Shown::QuotedBytes(text) => put_quoted_bytes(sink, text),
        Shown::Hex(bytes) => put_hex(sink, bytes),
        Shown::QuotedHex(bytes) => put_quoted_hex(sink, bytes),
        Shown::Base64(bytes) => put_base64(sink, bytes),
    }
}

/// Puts a text in a width: at the left, with spaces after it, or at the right. A text that is no
/// shorter is put as it is. Without a width it isn't measured.
pub fn put_padded<O: Sink>(
    sink: &mut O,
    left: bool,
    width: u32,
    text: &Shown<'_>,
) -> Result<(), Failed>
    ensures { Writes O.Sink sink.old sink.new (padded_text left width (piece_text text.now)) result }
{
    if width == 0 {
        return put_shown(sink, text);
    }
    let spaces = lack(text, width);
    if left {
        put_shown(sink, text)?;
        put_spaces(sink, spaces)
    } else {
        put_spaces(sink, spaces)?;
        put_shown(sink, text)
    }
}
