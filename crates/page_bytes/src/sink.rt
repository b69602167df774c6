//! Sinks: what a run writes to.

ghost use Rattle.std.specs.Prelude.{◌≡◌};
ghost use Rattle.page_bytes.specs.Sinks.{Puts, Sunk};

use crate::block_write::BlockWrite;
use std::marker::Model;

/// A sink that took a part of a piece, and no more.
#[derive(Clone, Copy)]
pub struct SinkFault;

/// A sink of bytes.
pub trait ByteSink {
    /// What the sink tells: the bytes that were written, where it tells them, and how many faults
    /// it had; the count stays at its last value, that of a `u64`.
    ghost sunk: { Self → Sunk };

    /// Writes a piece.
    ///
    /// # Errors
    ///
    /// [`SinkFault`] if not all of it was written. What was written is a beginning of it, and one
    /// fault is counted. Where all was written none is.
    fn put(&mut self, piece: &[u8]) -> Result<(), SinkFault>
        ensures { Puts (sunk self.old) (sunk self.new) piece.now result };
}

/// A sink over a writer. It fails where a write of it failed, and nothing is tried again.
#[derive(Drop)]
pub struct WriteSink<W: BlockWrite> {
    writer: W,
}

impl<W: BlockWrite> Model for WriteSink<W> {
    ghost Value = { Sunk };

    ghost view = { λ s. W.sunk s.writer };
}

impl<W: BlockWrite + Drop> WriteSink<W> {
    /// A sink over a writer.
    pub fn new(writer: W) -> Self
        ensures { result ≡ W.sunk writer }
    {
        WriteSink { writer }
    }

    /// The writer.
    pub fn into_inner(self) -> W
        ensures { W.sunk result ≡ self }
    {
        let WriteSink { writer } = self;
        writer
    }
}

impl<W: BlockWrite + Drop> ByteSink for WriteSink<W> {
    ghost sunk = { λ s. s };

    // Pieces are short, and most are held back.
    #[inline(always)]
    fn put(&mut self, piece: &[u8]) -> Result<(), SinkFault> {
        let mut rest = piece;
        while !rest.is_empty() {
            match self.writer.write_block(rest) {
                Some(count) => rest = rest.split_at(count).1,
                None => return Err(SinkFault),
            }
        }
        Ok(())
    }
}
