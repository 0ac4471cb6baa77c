//! A sink with a buffer in front of it.

ghost use Rattle.std.specs.Prelude.{◌≡◌, ◌++◌, [], IsTrue, IsFalse};
ghost use Rattle.rpm_outside.specs.Buffered.{held_bytes, inner};

use crate::Sink;
use arrayvec::ArrayVec;

/// A sink that holds what it is given until there is much of it, or it is told to flush.
///
/// What it took is what the inner sink took, and after it what is held. Where the inner sink fails
/// what it didn't take is still held, in order, and goes out first by a later call.
#[derive(Drop)]
pub struct Buffered<O: Sink + Drop> {
    pub(crate) sink: O,
    pub(crate) held: ArrayVec<u8, 4096>,
    // How many of the bytes in `held` the sink took already, in a flush that failed.
    pub(crate) gone: usize,
}

impl<O: Sink + Drop> Buffered<O> {
    /// A buffer that holds nothing, in front of a sink.
    pub fn new(sink: O) -> Buffered<O>
        ensures inner { inner result ≡ sink }
        ensures holds { held_bytes result ≡ [] }
    {
        Buffered {
            sink,
            held: ArrayVec::new(),
            gone: 0,
        }
    }

    /// The sink behind the buffer.
    pub fn inner(&self) -> &O
        ensures { result.now ≡ inner self.now }
    {
        &self.sink
    }

    /// The sink, without the buffer. What is held is lost.
    pub fn into_inner(self) -> O
        ensures { result ≡ inner self }
    {
        self.sink
    }

    /// Lets go of all that is held.
    pub fn clear(&mut self)
        ensures inner { inner self.new ≡ inner self.old }
        ensures holds { held_bytes self.new ≡ [] }
    {
        self.held.clear();
        self.gone = 0;
    }

    /// Holds these bytes too, where there is room.
    pub(crate) fn keep(&mut self, bytes: &[u8]) -> bool
        ensures inner { inner self.new ≡ inner self.old }
        ensures kept { IsTrue result → held_bytes self.new ≡ held_bytes self.old ++ bytes.now }
        ensures same { IsFalse result → held_bytes self.new ≡ held_bytes self.old }
    {
        self.gone == 0 && self.held.try_extend_from_slice(bytes).is_ok()
    }
}
