//! The capabilities that a command line names.

ghost use Rattle.std.specs.Prelude.{◌≡◌, ◌==◌, ◌≤◌, ◌∷◌, [], ℕ, List, MatchOption, drop, length};
ghost use Rattle.rpm_version.specs.Prelude.{capability, CapabilityParts, is_space, is_open, overlaps, position_or_len, prefix_len, sense, words};

use crate::range::{EQUAL, GREATER, LESS, SENSE, is_open};
use std::marker::Model;

/// A text is no capability.
#[derive(Debug, Clone, Copy, PartialEq, Eq)]
pub struct BadCapability;

/// A name, and the range of the versions that are meant, borrowed from a text.
#[derive(Drop)]
pub struct Capability<'a> {
    name: &'a [u8],
    flags: u32,
    evr: &'a [u8],
}

impl<'a> Model for Capability<'a> {
    ghost Value = { CapabilityParts };

    ghost view = { λ s. record { name = s.name.now; flags = s.flags; evr = s.evr.now } };
}

fn is_blank(byte: u8) -> bool
    ensures { result ≡ is_space byte }
{
    byte == b' ' || byte == b'\t'
}

fn blanks_len(text: &[u8]) -> usize
    ensures length { result ≡ prefix_len is_space text.now }
    ensures within { result ≤ length text.now }
{
    text.iter().take_while(|byte| is_blank(**byte)).count()
}

fn word_len(text: &[u8]) -> usize
    ensures length { result ≡ position_or_len is_space text.now }
    ensures within { result ≤ length text.now }
{
    text.iter().take_while(|byte| !is_blank(**byte)).count()
}

fn without_blanks(text: &[u8]) -> &[u8]
    ensures { result.now ≡ drop (prefix_len is_space text.now) text.now }
{
    &text[blanks_len(text)..]
}

/// The first word of a text, and what stands after it.
fn next_word(text: &[u8]) -> Option<(&[u8], &[u8])>
    ensures { MatchOption result (words text.now ≡ []) (λ cut. words text.now ≡ cut.0.now ∷ words cut.1.now) }
{
    let text = without_blanks(text);
    if text.is_empty() {
        None
    } else {
        Some(text.split_at(word_len(text)))
    }
}

/// The bits of a sign.
#[tactic(auto, unfolding(crate::specs::Capability::sense))]
fn sense_of(sign: &[u8]) -> Option<u32>
    ensures { result ≡ sense sign.now }
{
    match sign {
        b"<" => Some(LESS),
        b"<=" => Some(LESS | EQUAL),
        b"=" => Some(EQUAL),
        b">=" => Some(GREATER | EQUAL),
        b">" => Some(GREATER),
        _ => None,
    }
}

impl<'a> Capability<'a> {
    /// Reads a name alone, or a name, a sign and a version: words that runs of spaces and tabs part,
    /// of which the second is `<`, `<=`, `=`, `>=` or `>`. Every other text is a [`BadCapability`].
    ///
    /// Spaces and tabs at either end part nothing. Goes over the text once, and copies nothing. The
    /// form is this project's own.
    #[tactic(auto, unfolding(crate::specs::Capability::capability))]
    pub fn read(text: &'a str) -> Result<Self, BadCapability>
        ensures { result ≡ capability text.now }
    {
        let (name, rest) = next_word(text.as_bytes()).ok_or(BadCapability)?;
        let Some((sign, rest)) = next_word(rest) else {
            return Ok(Capability {
                name,
                flags: 0,
                evr: &[],
            });
        };
        let (evr, rest) = next_word(rest).ok_or(BadCapability)?;
        if next_word(rest).is_some() {
            return Err(BadCapability);
        }
        let flags = sense_of(sign).ok_or(BadCapability)?;
        Ok(Capability { name, flags, evr })
    }

    /// The capability that a package needs, by its name and by the range that its flags and its version give: a plain
    /// name where every version is in that range. It overlaps what the range overlaps. Copies nothing.
    pub fn of_range(name: &'a [u8], flags: u64, version: &'a [u8]) -> Self
        ensures name { result.name ≡ name.now }
        ensures plain { is_open result.flags result.evr ≡ is_open flags version.now }
        ensures flags { (result.flags == 0) ≡ is_open flags version.now }
        ensures same { (f : ℕ) (v : List ℕ) → overlaps f v result.flags result.evr ≡ overlaps f v flags version.now }
    {
        let bits = (flags & SENSE) as u32;
        let sense = if is_open(bits, version) { 0 } else { bits };
        Capability {
            name,
            flags: sense,
            evr: version,
        }
    }

    /// The first word.
    pub fn name(&self) -> &'a [u8]
        ensures { result.now ≡ self.now.name }
    {
        self.name
    }

    /// The bits of the sign: less 2, greater 4, equal 8; none where only a name is given.
    pub fn flags(&self) -> u32
        ensures { result ≡ self.now.flags }
    {
        self.flags
    }

    /// The third word, or the empty text.
    pub fn evr(&self) -> &'a [u8]
        ensures { result.now ≡ self.now.evr }
    {
        self.evr
    }
}
