//! A list of texts that is being made.

ghost use Rattle.std.specs.Prelude.{◌≡◌, ℕ, ◌++◌, ◌∷◌, [], ◌≤◌, length, OnOk, OnErr, List};
ghost use Rattle.rpm_header.specs.Prelude.{AllByRecursion, IsJoined, IsText, joined_texts, texts};

use std::alloc::{AllocError, Global};
use std::marker::Model;

/// Texts in the order in which they were added, for an entry of several texts. Contracts see it as
/// the list of these texts, which are bytes without a zero byte.
#[derive(Drop)]
pub struct TextList {
    count: usize,
    // Each text with its zero byte, as an entry stores them.
    bytes: Vec<u8>,
}

impl Model for TextList {
    ghost Value = { List (List ℕ) };

    ghost view = { λ s. texts s.count s.bytes.items };

    ghost invariant = { λ s. IsJoined s.count s.bytes.items };
}

/// Adds a text and its zero byte, or nothing.
pub fn append_text(bytes: &mut Vec<u8>, text: &[u8]) -> Result<(), AllocError>
    ensures ok { OnOk result (bytes.new.items ≡ bytes.old.items ++ text.now ++ 0 ∷ []) }
    ensures err { OnErr result (bytes.new.items ≡ bytes.old.items) }
{
    let end = bytes.len();
    bytes.extend_from_slice(text)?;
    match bytes.push(0) {
        Ok(()) => Ok(()),
        Err(_) => {
            bytes.truncate(end);
            Err(AllocError)
        }
    }
}

impl TextList {
    /// A list of no text.
    pub fn new(alloc: Global) -> TextList
        ensures { result ≡ [] }
    {
        TextList {
            count: 0,
            bytes: Vec::new(alloc),
        }
    }

    /// Adds a text at the end. Copies its bytes.
    ///
    /// # Errors
    ///
    /// `AllocError` where no memory is found; the list is then as it was.
    pub fn add(&mut self, text: &[u8]) -> Result<(), AllocError>
        requires { IsText text.now }
        ensures ok { OnOk result (self.new ≡ self.old ++ text.now ∷ []) }
        ensures err { OnErr result (self.new ≡ self.old) }
    {
        append_text(&mut self.bytes, text)?;
        self.count += 1;
        Ok(())
    }

    /// The number of texts.
    pub(crate) fn count(&self) -> usize
        ensures { result ≡ length self.now }
    {
        self.count
    }

    /// The texts one after the other, each with its zero byte.
    pub(crate) fn bytes(&self) -> &[u8]
        ensures value { result.now ≡ joined_texts self.now }
        ensures each { AllByRecursion IsText self.now }
    {
        &self.bytes
    }
}
