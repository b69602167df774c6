//! Sinks of messages: they know how many bytes more they may be given.

ghost use Rattle.std.specs.Prelude.{◌≡◌, ◌-◌, ℕ, OnOk, length, nat_lt, not};
ghost use Rattle.page_bytes.specs.Sinks.{Puts, Sunk};

use crate::sink::{ByteSink, SinkFault};

/// A sink of messages, which may be given so many bytes and no more.
pub trait MessageSink {
    /// What the sink tells, as a sink of bytes does.
    ghost sunk: { Self → Sunk };

    /// How many bytes more it may be given.
    ghost room: { Self → ℕ };

    /// From now on it may be given so many bytes.
    fn bound(&mut self, most: u64)
        ensures room { room self.new ≡ most }
        ensures same { sunk self.new ≡ sunk self.old };

    /// Whether it may be given so many bytes more.
    fn has_room(&self, count: usize) -> bool
        ensures { result ≡ not (nat_lt (room self.now) count) };

    /// Writes a piece, whether there is room for it or not.
    ///
    /// # Errors
    ///
    /// [`SinkFault`] if not all of it was written, as a sink of bytes has it.
    fn put(&mut self, piece: &[u8]) -> Result<(), SinkFault>
        ensures puts { Puts (sunk self.old) (sunk self.new) piece.now result }
        ensures room { OnOk result (room self.new ≡ room self.old - length piece.now) };
}

/// A sink that may be given so many bytes of messages.
#[derive(Drop)]
pub struct Bounded<E: ByteSink> {
    /// Where the messages go.
    pub sink: E,
    /// How many bytes more it may be given.
    pub room: u64,
}

impl<E: ByteSink> MessageSink for Bounded<E> {
    ghost sunk = { λ s. E.sunk s.sink };

    ghost room = { λ s. s.room };

    fn bound(&mut self, most: u64) {
        self.room = most;
    }

    fn has_room(&self, count: usize) -> bool {
        count as u64 <= self.room
    }

    fn put(&mut self, piece: &[u8]) -> Result<(), SinkFault> {
        self.room = self.room.saturating_sub(piece.len() as u64);
        self.sink.put(piece)
    }
}
