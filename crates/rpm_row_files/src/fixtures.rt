//! The bytes that have a name.

use crate::fault::Fault;
use std::alloc::Global;

/// Bytes under a name.
#[derive(Drop)]
struct Fixture {
    name: Vec<u8>,
    bytes: Vec<u8>,
}

/// The bytes that were named, in the order of their statements.
#[derive(Drop)]
pub struct Fixtures {
    alloc: Global,
    items: Vec<Fixture>,
    // Whether the last statement was about the last of them.
    is_open: bool,
}

/// Writes bytes over others from a place on.
fn write_over(bytes: &mut [u8], at: usize, new: &[u8]) -> Result<(), Fault> {
    let length = bytes.len();
    if at > length || new.len() > length - at {
        return Err(Fault::PastEnd);
    }
    bytes[at..at + new.len()].copy_from_slice(new);
    Ok(())
}

/// The place that an offset names among so many bytes: one below zero counts from their end.
fn place_of(offset: i64, length: usize) -> Result<usize, Fault> {
    let distance = offset.unsigned_abs() as usize;
    let place = if offset < 0 {
        length.checked_sub(distance)
    } else {
        Some(distance)
    };
    place.ok_or(Fault::PastEnd)
}

impl Fixtures {
    /// No bytes have a name yet.
    pub fn new(alloc: Global) -> Fixtures {
        Fixtures {
            alloc,
            items: Vec::new(alloc),
            is_open: false,
        }
    }

    /// The bytes of a name.
    pub fn get(&self, name: &[u8]) -> Result<&[u8], Fault> {
        for item in self.items.iter() {
            if item.name.as_slice() == name {
                return Ok(item.bytes.as_slice());
            }
        }
        Err(Fault::UnknownName)
    }

    /// Names bytes. A name is given once.
    pub fn put(&mut self, name: &[u8], bytes: Vec<u8>) -> Result<(), Fault> {
        if self.get(name).is_ok() {
            return Err(Fault::SameName);
        }
        let name = name.to_vec(self.alloc)?;
        self.items.push(Fixture { name, bytes })?;
        self.is_open = true;
        Ok(())
    }

    /// Writes over the bytes that were named last, from a byte on. It may follow their statement alone, or another
    /// one like this.
    pub fn patch(&mut self, offset: i64, bytes: &[u8]) -> Result<(), Fault> {
        if !self.is_open {
            return Err(Fault::OutOfPlace);
        }
        match self.items.last_mut() {
            Some(last) => {
                let at = place_of(offset, last.bytes.len())?;
                write_over(&mut last.bytes, at, bytes)
            }
            None => Err(Fault::OutOfPlace),
        }
    }

    /// A statement about something else was read.
    pub fn close(&mut self) {
        self.is_open = false;
    }
}
