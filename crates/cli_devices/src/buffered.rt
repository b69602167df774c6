//! A buffer in front of a writer.

ghost use Rattle.std.specs.Prelude.{◌≡◌, ◌+◌, ◌<◌, ◌≤◌, [], length, take, vec_capacity, vec_len};
ghost use Rattle.std.specs.Prelude.{IfErr, IfNone, IfOk, IfSome, OnErr, OnOk};

use page_bytes::{BlockWrite, SinkFault};
use std::alloc::Global;

/// How many bytes a [`Buffered`] holds back at most.
const HELD: usize = 8_192;

/// A writer that holds back up to 8,192 bytes, and writes them out together. What couldn't be
/// written out stays held.
#[derive(Drop)]
pub struct Buffered<W> {
    writer: W,
    held: Vec<u8>,
    next: usize,
    ghost room: { 8192 ≤ vec_capacity held },
    ghost within: { vec_len held ≤ 8192 },
    ghost order: { next ≤ vec_len held },
}

impl<W: BlockWrite + Drop> Buffered<W> {
    ghost use Rattle.cli_devices.specs.Buffered.{Finishes, KeepsGiven, given_to, held_by};
    ghost use Rattle.cli_devices.specs.Buffered.{writer_of};
    ghost use Rattle.page_bytes.specs.Sinks.{CountsFault, FailsOnce, Writes};

    /// A buffer in front of `writer`, that holds nothing back.
    ///
    /// # Errors
    ///
    /// The writer, if there is no memory for the buffer.
    pub fn new(alloc: Global, writer: W) -> Result<Self, W>
        ensures empty { IfOk result (λ s. held_by s ≡ []) }
        ensures writer { IfOk result (λ s. writer_of s ≡ writer) }
        ensures refused { IfErr result (λ w. w ≡ writer) }
    {
        match Vec::with_capacity(alloc, HELD) {
            Ok(held) => Ok(Buffered {
                writer,
                held,
                next: 0,
            }),
            Err(_) => Err(writer),
        }
    }

    /// Writes out what is held back and what the writer itself holds back, and gives the writer
    /// back.
    pub fn finish(self) -> (W, Result<(), SinkFault>)
        ensures { Finishes (given_to W.sunk self) (W.sunk result.0) result.1 }
    {
        let mut buffered = self;
        let flushed = buffered.flush_block();
        let Buffered {
            writer,
            held: _,
            next: _,
        } = buffered;
        (writer, flushed)
    }

    /// Holds back a piece for which there is room: so many bytes.
    #[inline(always)]
    fn hold(&mut self, piece: &[u8]) -> usize
        requires room { vec_len self.old.held + length piece.now ≤ 8192 }
        ensures count { result ≡ length piece.now }
        ensures writer { writer_of self.new ≡ writer_of self.old }
        ensures writes { Writes (given_to W.sunk self.old) (given_to W.sunk self.new) piece.now }
    {
        self.held.extend_from_slice(piece).unwrap();
        piece.len()
    }

    /// Writes a piece that is longer than what may be held, and holds back any other.
    #[inline(never)]
    fn write_through(&mut self, piece: &[u8]) -> Option<usize>
        requires some { 0 < length piece.now }
        requires empty { vec_len self.old.held ≡ 0 }
        ensures count { IfSome result (λ n. (0 < n) × (n ≤ length piece.now)) }
        ensures some { IfSome result (λ n.
            Writes (given_to W.sunk self.old) (given_to W.sunk self.new) (take n piece.now)) }
        ensures none { IfNone result
            (FailsOnce (given_to W.sunk self.old) (given_to W.sunk self.new)) }
    {
        if piece.len() > HELD {
            self.writer.write_block(piece)
        } else {
            Some(self.hold(piece))
        }
    }

    /// Writes out what is held back.
    // It is seldom done, so that what holds back stays short.
    #[inline(never)]
    fn write_out(&mut self) -> Result<(), SinkFault>
        ensures given { KeepsGiven W.sunk self.old self.new }
        ensures ok { OnOk result (held_by self.new ≡ []) }
        ensures empty { OnOk result (vec_len self.new.held ≡ 0) }
        ensures counts { OnOk result
            ((W.sunk self.new.writer).failures ≡ (W.sunk self.old.writer).failures) }
        ensures fault { OnErr result (CountsFault (W.sunk self.old.writer).failures
            (W.sunk self.new.writer).failures) }
    {
        while self.next < self.held.len() {
            match self
                .writer
                .write_block(self.held.as_slice().split_at(self.next).1)
            {
                Some(count) => self.next += count,
                None => return Err(SinkFault),
            }
        }
        self.held.clear();
        self.next = 0;
        Ok(())
    }
}

impl<W: BlockWrite + Drop> BlockWrite for Buffered<W> {
    ghost use Rattle.std.specs.Io.KnownBytes.{Keeps};
    ghost use Rattle.cli_devices.specs.Buffered.{Holds, given_to, held_by, room_in};
    ghost use Rattle.page_bytes.specs.Sinks.{CountsFault, FailsOnce, Writes};

    ghost sunk = { given_to W.sunk };

    #[inline(always)]
    fn write_block(&mut self, piece: &[u8]) -> Option<usize>
        requires some { 0 < length piece.now }
        ensures count { IfSome result (λ n. (0 < n) × (n ≤ length piece.now)) }
        ensures some { IfSome result (λ n.
            Writes (given_to W.sunk self.old) (given_to W.sunk self.new) (take n piece.now)) }
        ensures none { IfNone result
            (FailsOnce (given_to W.sunk self.old) (given_to W.sunk self.new)) }
        ensures holds { length piece.now ≤ room_in self.old
            → Holds piece.now self.old self.new result }
    {
        if piece.len() <= HELD - self.held.len() {
            return Some(self.hold(piece));
        }
        match self.write_out() {
            Ok(()) => self.write_through(piece),
            Err(_) => None,
        }
    }

    fn flush_block(&mut self) -> Result<(), SinkFault>
        ensures contents { Keeps (given_to W.sunk self.old).contents
            (given_to W.sunk self.new).contents }
        ensures ok { OnOk result
            ((given_to W.sunk self.new).failures ≡ (given_to W.sunk self.old).failures) }
        ensures fault { OnErr result (CountsFault (given_to W.sunk self.old).failures
            (given_to W.sunk self.new).failures) }
        ensures empty { OnOk result (held_by self.new ≡ []) }
    {
        match self.write_out() {
            Ok(()) => self.writer.flush_block(),
            Err(fault) => Err(fault),
        }
    }
}
