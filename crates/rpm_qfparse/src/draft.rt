//! Parts that are being collected.

ghost use Rattle.std.specs.Prelude.{◌≡◌, OnOk, IfOk};
ghost use Rattle.rpm_qfparse.specs.Prelude.{in_front_of, End, in_front, IsFlushed, IsNoText, Tree, with_byte};

use crate::tree::{Bytes, Part, Parts};
use std::alloc::{AllocError, Global};
use std::mem;

/// Parts that are read, and the literal bytes after them.
#[derive(Drop)]
pub(crate) struct Draft {
    alloc: Global,
    parts: Vec<Part>,
    text: Vec<u8>,
}

impl Draft {
    pub(crate) fn new(alloc: Global) -> Draft
        ensures { (rest : Tree) → in_front_of result rest ≡ rest }
    {
        Draft {
            alloc,
            parts: Vec::new(alloc),
            text: Vec::new(alloc),
        }
    }

    pub(crate) fn push_byte(&mut self, byte: u8) -> Result<(), AllocError>
        ensures { OnOk result ((rest : Tree) → in_front_of self.new rest ≡ in_front_of self.old (with_byte byte rest)) }
    {
        self.text.push(byte)?;
        Ok(())
    }

    /// Makes the literal bytes a part, where there are some.
    fn flush(&mut self) -> Result<(), AllocError>
        ensures { OnOk result (IsFlushed self.old self.new) }
    {
        if !self.text.is_empty() {
            let bytes = mem::replace(&mut self.text, Vec::new(self.alloc));
            self.parts.push(Part::Text(Bytes { bytes }))?;
        }
        Ok(())
    }

    pub(crate) fn push(&mut self, part: Part) -> Result<(), AllocError>
        requires { IsNoText part }
        ensures { OnOk result ((rest : Tree) → in_front_of self.new rest ≡ in_front_of self.old (in_front part rest)) }
    {
        self.flush()?;
        self.parts.push(part)?;
        Ok(())
    }

    pub(crate) fn finish(mut self) -> Result<Parts, AllocError>
        ensures { IfOk result (λ parts. parts ≡ in_front_of self End) }
    {
        self.flush()?;
        Ok(Parts { items: self.parts })
    }
}
