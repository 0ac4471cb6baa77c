//! Bytes in hex and in base64, a piece at a time.

ghost use Rattle.std.specs.Prelude.{◌≤◌, length};
ghost use Rattle.rpm_qfeval.specs.Prelude.{base64_text, hex_text, Writes};

use base64::engine::general_purpose::STANDARD;
use hex::encode_to_slice;
use rpm_outside::{Failed, Sink, put_all};

fn put_hex_piece<O: Sink>(sink: &mut O, bytes: &[u8]) -> Result<(), Failed>
    requires { length bytes.now ≤ 256 }
    ensures { Writes O.Sink sink.old sink.new (hex_text bytes.now) result }
{
    let mut digits = [0; 512];
    let len = bytes.len() * 2;
    match encode_to_slice(bytes, &mut digits[..len]) {
        Ok(()) => put_all(sink, &digits[..len]),
        Err(_) => unreachable!(),
    }
}

/// Puts two digits for each byte, with small letters.
pub fn put_hex<O: Sink>(sink: &mut O, bytes: &[u8]) -> Result<(), Failed>
    ensures { Writes O.Sink sink.old sink.new (hex_text bytes.now) result }
{
    let mut rest = bytes;
    while rest.len() > 256 {
        let (piece, behind) = rest.split_at(256);
        put_hex_piece(sink, piece)?;
        rest = behind;
    }
    put_hex_piece(sink, rest)
}

fn put_base64_piece<O: Sink>(sink: &mut O, bytes: &[u8]) -> Result<(), Failed>
    requires { length bytes.now ≤ 192 }
    ensures { Writes O.Sink sink.old sink.new (base64_text bytes.now) result }
{
    let mut letters = [0; 256];
    match STANDARD.encode_slice(bytes, &mut letters) {
        Ok(len) => put_all(sink, &letters[..len]),
        Err(_) => unreachable!(),
    }
}

/// Puts bytes in base64, in one line, by the standard alphabet and with padding.
pub fn put_base64<O: Sink>(sink: &mut O, bytes: &[u8]) -> Result<(), Failed>
    ensures { Writes O.Sink sink.old sink.new (base64_text bytes.now) result }
{
    // Groups of three bytes are whole in each piece, so that the padding stands at the end alone.
    let mut rest = bytes;
    while rest.len() > 192 {
        let (piece, behind) = rest.split_at(192);
        put_base64_piece(sink, piece)?;
        rest = behind;
    }
    put_base64_piece(sink, rest)
}
