//! A text that is printed.

use rpm_tags::Joined;

/// A text that is printed, borrowed from what it is made of.
#[derive(Drop)]
pub enum Shown<'e> {
    /// These bytes.
    Plain(&'e [u8]),
    /// These parts.
    Joined(&'e Joined<'e>),
    /// These parts, quoted for a shell.
    Quoted(&'e Joined<'e>),
    /// These bytes, quoted for a shell.
    QuotedBytes(&'e [u8]),
    /// Two digits for each byte.
    Hex(&'e [u8]),
    /// The same in quotes.
    QuotedHex(&'e [u8]),
    /// These bytes in base64.
    Base64(&'e [u8]),
}
