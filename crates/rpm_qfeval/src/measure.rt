//! How long a text is, without a copy of it.

ghost use Rattle.std.specs.Prelude.{◌≡◌, ◌-◌, length};
ghost use Rattle.rpm_qfeval.specs.Prelude.{base64_text, concat, escaped_text, hex_text, piece_text};

use crate::shown::Shown;
use rpm_tags::Joined;

/// How many of so many bytes this length lacks.
fn lack_of(len: usize, width: u32) -> u32
    ensures { result ≡ width - len }
{
    (width as usize).saturating_sub(len) as u32
}

fn lack_of_escaped(text: &[u8], width: u32) -> u32
    ensures { result ≡ width - length (escaped_text text.now) }
{
    let mut left = width;
    for byte in text {
        if left == 0 {
            return 0;
        }
        left = left.saturating_sub(if *byte == b'\'' { 4 } else { 1 });
    }
    left
}

fn lack_of_quoted(text: &Joined<'_>, width: u32) -> u32
    ensures { result ≡ width - length (escaped_text (concat text.now)) }
{
    let mut left = width;
    let mut k = 0;
    while let Some(part) = text.part(k) {
        left = lack_of_escaped(part, left);
        k += 1;
    }
    left
}

/// A byte is two digits.
fn lack_of_hex(bytes: &[u8], width: u32) -> u32
    ensures { result ≡ width - length (hex_text bytes.now) }
{
    lack_of(bytes.len() * 2, width)
}

/// Three bytes, or what is left of them at the end, are four letters.
fn lack_of_base64(bytes: &[u8], width: u32) -> u32
    ensures { result ≡ width - length (base64_text bytes.now) }
{
    lack_of(bytes.len().div_ceil(3) * 4, width)
}

/// How many of so many bytes a text lacks. Reads the bytes of a text that is quoted, up to the
/// width, and of no other.
pub fn lack(text: &Shown<'_>, width: u32) -> u32
    ensures { result ≡ width - length (piece_text text.now) }
{
    match text {
        Shown::Plain(bytes) => lack_of(bytes.len(), width),
        Shown::Joined(text) => lack_of(text.len() as usize, width),
        Shown::Quoted(text) => lack_of_quoted(text, width.saturating_sub(2)),
        Shown::QuotedBytes(text) => lack_of_escaped(text, width.saturating_sub(2)),
        Shown::Hex(bytes) => lack_of_hex(bytes, width),
        Shown::QuotedHex(bytes) => lack_of_hex(bytes, width.saturating_sub(2)),
        Shown::Base64(bytes) => lack_of_base64(bytes, width),
    }
}
