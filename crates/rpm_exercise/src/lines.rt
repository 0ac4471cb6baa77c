//! The lines that the exercise tells.

ghost use Rattle.std.specs.Prelude.{◌≡◌, ◌++◌, ◌<◌, codes, Ok, OnOk, IfOk};
ghost use Rattle.rpm_exercise.specs.Prelude.{capability, capability_named, count_line, digest_text, numbered_word, string_bytes};

use hex::encode;
use itoa::Buffer;
use std::alloc::{AllocError, Global};

/// Appends the line of a word and how many.
pub fn push_count(text: &mut Vec<u8>, word: &[u8], n: u32) -> Result<(), AllocError>
    ensures { OnOk result (text.new.items ≡ text.old.items ++ count_line word.now n) }
{
    let mut digits = Buffer::new();
    text.extend_from_slice(word)?;
    text.extend_from_slice(b" ")?;
    text.extend_from_slice(digits.format(n).as_bytes())?;
    text.extend_from_slice(b"\n")
}

/// Appends the line of the digest.
pub fn push_digest(alloc: Global, text: &mut Vec<u8>, digest: &[u8; 32]) -> Result<(), AllocError>
    ensures { OnOk result (text.new.items ≡ text.old.items ++ digest_text digest.now) }
{
    let digits = encode(alloc, digest.as_slice())?;
    text.extend_from_slice(b"sha256 ")?;
    text.extend_from_slice(digits.as_bytes())?;
    text.extend_from_slice(b"\n")
}

/// The name of one of the seven capabilities.
pub fn capability_name(alloc: Global, c: u32) -> Result<String, AllocError>
    requires { c < 7 }
    ensures value { IfOk result (λ name. string_bytes name ≡ numbered_word (codes "cap") c) }
    ensures named { IfOk result (λ name. capability (string_bytes name) ≡ Ok (capability_named (string_bytes name))) }
{
    format!(in alloc; "cap{c}")
}
