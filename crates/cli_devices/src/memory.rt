//! Devices in memory, that fail where they are told to.

ghost use Rattle.std.specs.Prelude.{◌≡◌, ◌+◌, ◌≤◌, [], length, map, vec_len, vec_capacity, IfOk};

use input_source::{ByteSource, Taken};
use page_bytes::{ByteSink, SinkFault};
use std::alloc::{AllocError, Global};

/// A source of the bytes of a slice, which may fail behind some of them.
#[derive(Drop)]
pub struct MemSource<'a> {
    rest: &'a [u8],
    fails: bool,
    failures: u64,
}

impl<'a> MemSource<'a> {
    ghost use Rattle.cli_devices.specs.Memory.{faults_of_source, tape_of, tape_of_bytes};
    ghost use Rattle.input_source.specs.Tape.{OneByte};

    /// A source of these bytes. It fails after `fail_at` of them, if there are so many.
    pub fn new(bytes: &'a [u8], fail_at: Option<usize>) -> Self
        ensures tape { tape_of result ≡ tape_of_bytes bytes.now fail_at }
        ensures faultless { faults_of_source result ≡ 0 }
    {
        match fail_at {
            Some(count) if count <= bytes.len() => MemSource {
                rest: &bytes[..count],
                fails: true,
                failures: 0,
            },
            _ => MemSource {
                rest: bytes,
                fails: false,
                failures: 0,
            },
        }
    }

    /// The bytes that weren't taken yet.
    pub fn rest(&self) -> &'a [u8]
        ensures { map OneByte result.now ≡ (tape_of self.now).items }
    {
        self.rest
    }
}

impl ByteSource for MemSource<'_> {
    ghost use Rattle.std.specs.Prelude.{refl};
    ghost use Rattle.cli_devices.specs.Memory.{faults_of_source, tape_of};

    ghost gives = { λ s t. t ≡ tape_of s };

    ghost ready = { λ s. s.rest.now };

    ghost notes = { λ _. 0 };

    ghost failures = { faults_of_source };

    fn next_byte(&mut self) -> Taken {
        match self.rest.split_first() {
            Some((byte, rest)) => {
                self.rest = rest;
                Taken::Byte(*byte)
            }
            None if self.fails => {
                self.failures = self.failures.saturating_add(1);
                Taken::Fault
            }
            None => Taken::End,
        }
    }

    fn ready_byte(&mut self) -> Option<u8> {
        match self.rest.split_first() {
            Some((byte, rest)) => {
                self.rest = rest;
                Some(*byte)
            }
            None => None,
        }
    }

    fn buffered(&self) -> &[u8] {
        self.rest
    }

    fn pass(&mut self, count: usize) {
        self.rest = self.rest.split_at(count).1;
    }

    ghost some = { λ s. record { tape = tape_of s; given = refl } };
}

/// A sink that keeps the first bytes, up to its capacity, and then fails.
#[derive(Drop)]
pub struct MemSink {
    kept: Vec<u8>,
    cap: usize,
    failures: u64,
    ghost reserved: { cap ≤ vec_capacity kept },
    ghost within: { vec_len kept ≤ cap },
}

impl MemSink {
    ghost use Rattle.cli_devices.specs.Memory.{faults_of, kept_by, room_of};

    /// A sink with room for so many bytes, reserved here.
    ///
    /// # Errors
    ///
    /// [`AllocError`] if the room can't be had.
    pub fn new(alloc: Global, cap: usize) -> Result<Self, AllocError>
        ensures empty { IfOk result (λ s. kept_by s ≡ []) }
        ensures room { IfOk result (λ s. room_of s ≡ cap) }
        ensures faultless { IfOk result (λ s. faults_of s ≡ 0) }
    {
        Ok(MemSink {
            kept: Vec::with_capacity(alloc, cap)?,
            cap,
            failures: 0,
        })
    }

    /// The bytes that were written.
    pub fn kept(&self) -> &[u8]
        ensures { result.now ≡ kept_by self.now }
    {
        self.kept.as_slice()
    }

    /// The bytes that were written, as a vector.
    pub fn into_kept(self) -> Vec<u8>
        ensures { result.items ≡ kept_by self }
    {
        let MemSink {
            kept,
            cap: _,
            failures: _,
        } = self;
        kept
    }

    /// For how many more bytes there is room.
    pub fn room_left(&self) -> usize
        ensures { length (kept_by self.now) + result ≡ room_of self.now }
    {
        self.cap - self.kept.len()
    }
}

impl ByteSink for MemSink {
    ghost use Rattle.page_bytes.specs.Sinks.{Puts};
    ghost use Rattle.cli_devices.specs.Memory.{KeepsWithin, sunk_of};

    ghost sunk = { sunk_of };

    fn put(&mut self, piece: &[u8]) -> Result<(), SinkFault>
        ensures puts { Puts (sunk_of self.old) (sunk_of self.new) piece.now result }
        ensures keeps { KeepsWithin self.old self.new result piece.now }
    {
        let room = self.room_left();
        if piece.len() <= room {
            self.kept.extend_from_slice(piece).unwrap();
            return Ok(());
        }
        self.kept.extend_from_slice(piece.split_at(room).0).unwrap();
        self.failures = self.failures.saturating_add(1);
        Err(SinkFault)
    }
}
