//! A sink in memory.

ghost use Rattle.std.specs.Prelude.{◌≡◌, ℕ, ◌<◌, ◌≤◌, ◌-◌, ◌^◌, min, true, Some, None, length, [], IfSome};
ghost use Rattle.rpm_outside.specs.Prelude.{IsPrefix, begins_refl, begins_trans, FailsWhereFull, Rose, sink_bytes, sink_faults, sink_limit, sink_most, sink_starved};

use crate::{Failed, Sink};
use std::alloc::Global;

/// A sink that keeps what it takes, and can be told to fail.
#[derive(Drop)]
pub struct MemSink {
    bytes: Vec<u8>,
    limit: Option<u64>,
    // How many bytes more than one a write takes at most.
    more: u32,
    faults: u64,
    starved: u64,
}

impl MemSink {
    /// An empty sink, which takes all that is written.
    pub fn new(alloc: Global) -> MemSink
        ensures bytes { sink_bytes result ≡ [] }
        ensures limit { sink_limit result ≡ None }
        ensures most { sink_most result ≡ 2 ^ 32 }
        ensures faults { sink_faults result ≡ 0 }
        ensures starved { sink_starved result ≡ 0 }
    {
        MemSink {
            bytes: Vec::new(alloc),
            limit: None,
            more: u32::MAX,
            faults: 0,
            starved: 0,
        }
    }

    /// Lets any byte after so many fail, those that were taken already counted too.
    pub fn fail_after(&mut self, bytes: u64)
        ensures limit { sink_limit self.new ≡ Some bytes }
        ensures most { sink_most self.new ≡ sink_most self.old }
        ensures bytes { sink_bytes self.new ≡ sink_bytes self.old }
        ensures faults { sink_faults self.new ≡ sink_faults self.old }
        ensures starved { sink_starved self.new ≡ sink_starved self.old }
    {
        self.limit = Some(bytes);
    }

    /// Lets each later write take no more bytes than so many.
    pub fn at_most(&mut self, bytes: u32)
        requires { 0 < bytes }
        ensures most { sink_most self.new ≡ bytes }
        ensures limit { sink_limit self.new ≡ sink_limit self.old }
        ensures bytes { sink_bytes self.new ≡ sink_bytes self.old }
        ensures faults { sink_faults self.new ≡ sink_faults self.old }
        ensures starved { sink_starved self.new ≡ sink_starved self.old }
    {
        self.more = bytes - 1;
    }

    /// What was taken.
    pub fn bytes(&self) -> &[u8]
        ensures { result.now ≡ sink_bytes self.now }
    {
        &self.bytes
    }

    /// How many writes failed.
    pub fn faults(&self) -> u64
        ensures { result ≡ sink_faults self.now }
    {
        self.faults
    }

    /// How many writes failed for want of memory.
    pub fn starved(&self) -> u64
        ensures { result ≡ sink_starved self.now }
    {
        self.starved
    }
}

/// How many of so many bytes may be taken by a sink that holds so many.
fn room_for(limit: Option<u64>, held: usize, bytes: usize) -> usize
    ensures within { result ≤ bytes }
    ensures free { limit ≡ None → result ≡ bytes }
    ensures limited { IfSome limit (λ most. result ≡ min bytes (most - held)) }
{
    match limit {
        None => bytes,
        Some(most) => (bytes as u64).min(most.saturating_sub(held as u64)) as usize,
    }
}

impl Sink for MemSink {
    ghost tells = { true };

    ghost taken = { sink_bytes };

    ghost faults = { λ s. s.faults };

    ghost follows = { λ old new. IsPrefix (sink_bytes old) (sink_bytes new) };

    ghost outcome = { FailsWhereFull };

    ghost follows_refl = { λ sink. begins_refl (sink_bytes sink) };

    ghost follows_trans = { λ a b c f g. begins_trans (sink_bytes a) (sink_bytes b) (sink_bytes c) f g };

    ghost follows_grows = { λ a b f told. f };

    fn write(&mut self, bytes: &[u8]) -> Result<usize, Failed> {
        let room = room_for(self.limit, self.bytes.len(), bytes.len());
        let count = room.min(self.more as usize + 1);
        if count == 0 {
            self.faults = self.faults.saturating_add(1);
            return Err(Failed);
        }
        let Ok(()) = self.bytes.extend_from_slice(&bytes[..count]) else {
            self.starved = self.starved.saturating_add(1);
            self.faults = self.faults.saturating_add(1);
            return Err(Failed);
        };
        Ok(count)
    }
}
