//! The words of a statement.

use crate::fault::Fault;
use std::alloc::Global;
use std::str::from_utf8;

/// A word of a statement.
#[derive(Drop)]
pub struct Token {
    /// How often it is to stand: the N of `N*`, or 1.
    pub count: u32,
    /// Whether it was written in quotes.
    pub is_text: bool,
    /// Its bytes: those of the text where it was written in quotes.
    pub bytes: Vec<u8>,
}

impl Token {
    /// The word as text.
    pub fn as_text(&self) -> Result<&str, Fault> {
        match from_utf8(&self.bytes) {
            Ok(text) => Ok(text),
            Err(_) => Err(Fault::NotText),
        }
    }

    /// Whether it is this word, once and without quotes.
    pub fn is_word(&self, word: &[u8]) -> bool {
        !self.is_text && self.count == 1 && self.bytes.as_slice() == word
    }
}

/// The number that digits mean.
pub fn number_of(digits: &[u8]) -> Result<u64, Fault> {
    let Ok(text) = from_utf8(digits) else {
        return Err(Fault::BadNumber);
    };
    match text.parse::<u64>() {
        Ok(number) => Ok(number),
        Err(_) => Err(Fault::BadNumber),
    }
}

/// The number that digits mean, of at most 32 bits.
pub fn short_number_of(digits: &[u8]) -> Result<u32, Fault> {
    match u32::try_from(number_of(digits)?) {
        Ok(number) => Ok(number),
        Err(_) => Err(Fault::BadNumber),
    }
}

/// The same of a number that isn't 0.
pub fn some_number_of(digits: &[u8]) -> Result<u32, Fault> {
    match short_number_of(digits)? {
        0 => Err(Fault::BadNumber),
        number => Ok(number),
    }
}

/// The value of a hex digit.
fn digit_of(byte: u8) -> Option<u8> {
    match byte {
        b'0'..=b'9' => Some(byte - b'0'),
        b'a'..=b'f' => Some(byte - b'a' + 10),
        b'A'..=b'F' => Some(byte - b'A' + 10),
        _ => None,
    }
}

/// The byte of two hex digits.
fn hex_byte(high: u8, low: u8) -> Result<u8, Fault> {
    match (digit_of(high), digit_of(low)) {
        (Some(high), Some(low)) => Ok((high & 15) << 4 | low & 15),
        _ => Err(Fault::BadEscape),
    }
}

/// The byte that what follows a backslash means, and what is after it.
fn escape_of(text: &[u8]) -> Result<(u8, &[u8]), Fault> {
    let Some((first, rest)) = text.split_first() else {
        return Err(Fault::OpenText);
    };
    match *first {
        b'n' => Ok((b'\n', rest)),
        b't' => Ok((b'\t', rest)),
        b'\\' | b'"' => Ok((*first, rest)),
        b'x' => match rest {
            [high, low, behind @ ..] => Ok((hex_byte(*high, *low)?, behind)),
            _ => Err(Fault::BadEscape),
        },
        _ => Err(Fault::BadEscape),
    }
}

/// The bytes of a text whose opening quote stands in front, and what is after its closing one.
fn quoted(alloc: Global, text: &[u8]) -> Result<(Vec<u8>, &[u8]), Fault> {
    let mut bytes = Vec::new(alloc);
    let mut rest = text;
    for _ in 0..text.len() {
        let Some((first, behind)) = rest.split_first() else {
            break;
        };
        if *first == b'"' {
            return Ok((bytes, behind));
        }
        let (byte, behind) = if *first == b'\\' {
            escape_of(behind)?
        } else {
            (*first, behind)
        };
        bytes.push(byte)?;
        rest = behind;
    }
    Err(Fault::OpenText)
}

/// How often what follows is to stand, and what follows.
fn counted(text: &[u8]) -> Result<(u32, &[u8]), Fault> {
    let digits = text.iter().take_while(|byte| byte.is_ascii_digit()).count();
    match text.split_at_checked(digits) {
        Some((number, [b'*', atom @ ..])) if !number.is_empty() => {
            Ok((short_number_of(number)?, atom))
        }
        _ => Ok((1, text)),
    }
}

/// The first word, and what is after it.
fn next_token(alloc: Global, text: &[u8]) -> Result<(Token, &[u8]), Fault> {
    let (count, atom) = counted(text)?;
    if let [b'"', inside @ ..] = atom {
        let (bytes, rest) = quoted(alloc, inside)?;
        let token = Token {
            count,
            is_text: true,
            bytes,
        };
        return Ok((token, rest));
    }
    let (word, rest) = crate::statement::first_word(atom);
    let token = Token {
        count,
        is_text: false,
        bytes: word.to_vec(alloc)?,
    };
    Ok((token, rest))
}

/// The words of a text.
pub fn tokens_of(alloc: Global, text: &[u8]) -> Result<Vec<Token>, Fault> {
    let mut found = Vec::new(alloc);
    let mut rest = text.trim_ascii_start();
    for _ in 0..text.len() {
        if rest.is_empty() {
            break;
        }
        let (token, behind) = next_token(alloc, rest)?;
        found.push(token)?;
        rest = behind.trim_ascii_start();
    }
    Ok(found)
}
