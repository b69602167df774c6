//! Writers: what a sink writes to.

ghost use Rattle.std.specs.Prelude.{◌≡◌, ◌<◌, ◌≤◌, OnErr, OnOk, IfNone, IfSome, length, take};
ghost use Rattle.std.specs.Io.KnownBytes.{Keeps};
ghost use Rattle.page_bytes.specs.Sinks.{CountsFault, FailsOnce, Sunk, Writes};

use crate::sink::SinkFault;
use std::io::Write;
use std::marker::Model;

/// A writer: a file, a pipe or a terminal, or a buffer in front of one.
pub trait BlockWrite {
    /// What it tells: the bytes that it took, where it tells them, and how many of its calls
    /// failed; the count stays at its last value, that of a `u64`.
    ghost sunk: { Self → Sunk };

    /// Takes a beginning of a piece that isn't empty, at once: how many bytes of it. None where
    /// that failed, and then nothing was taken.
    fn write_block(&mut self, piece: &[u8]) -> Option<usize>
        requires some { 0 < length piece.now }
        ensures count { IfSome result (λ n. (0 < n) × (n ≤ length piece.now)) }
        ensures some { IfSome result
            (λ n. Writes (sunk self.old) (sunk self.new) (take n piece.now)) }
        ensures none { IfNone result (FailsOnce (sunk self.old) (sunk self.new)) };

    /// Writes out what it holds back.
    ///
    /// # Errors
    ///
    /// [`SinkFault`] if that failed.
    fn flush_block(&mut self) -> Result<(), SinkFault>
        ensures contents { Keeps (sunk self.old).contents (sunk self.new).contents }
        ensures ok { OnOk result ((sunk self.new).failures ≡ (sunk self.old).failures) }
        ensures fault { OnErr result
            (CountsFault (sunk self.old).failures (sunk self.new).failures) };
}

/// A writer of the standard library's. A write that answers an error has failed, an interrupted one
/// too, and so has one that takes nothing.
#[derive(Drop)]
pub struct StdWrite<W: Write> {
    writer: W,
    failures: u64,
}

impl<W: Write> Model for StdWrite<W> {
    ghost Value = { Sunk };

    ghost view = { λ s.
        record { contents = W.contents s.writer; failures = s.failures; room = 0 } };
}

impl<W: Write + Drop> StdWrite<W> {
    /// Writes to `writer`, of which no call has failed yet.
    pub fn new(writer: W) -> Self
        ensures { result ≡ record { contents = W.contents writer; failures = 0; room = 0 } }
    {
        StdWrite {
            writer,
            failures: 0,
        }
    }

    /// The writer.
    pub fn into_inner(self) -> W
        ensures { W.contents result ≡ self.contents }
    {
        let StdWrite {
            writer,
            failures: _,
        } = self;
        writer
    }
}

impl<W: Write + Drop> BlockWrite for StdWrite<W> {
    ghost sunk = { λ s. s };

    #[inline(always)]
    fn write_block(&mut self, piece: &[u8]) -> Option<usize> {
        match self.writer.write(piece) {
            Ok(count) if count > 0 => Some(count),
            _ => {
                self.failures = self.failures.saturating_add(1);
                None
            }
        }
    }

    fn flush_block(&mut self) -> Result<(), SinkFault> {
        match self.writer.flush() {
            Ok(()) => Ok(()),
            Err(_) => {
                self.failures = self.failures.saturating_add(1);
                Err(SinkFault)
            }
        }
    }
}
