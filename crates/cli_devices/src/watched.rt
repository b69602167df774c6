//! A sink in memory, as a whole run in memory watches it.

ghost use Rattle.std.specs.Prelude.{◌≡◌, ℕ, length, None, Some, IfOk};
ghost use Rattle.cli_devices.specs.Memory.{faults_of, kept_by, room_of};

use crate::MemSink;
use page_bytes::{ByteSink, SinkFault};
use std::alloc::{AllocError, Global};

/// A sink in memory that knows the first byte for which it had no room.
#[derive(Drop)]
pub struct WatchedSink {
    sink: MemSink,
    overflow: Option<u8>,
    ghost full: { (byte : ℕ) → overflow ≡ Some byte → length (kept_by sink) ≡ room_of sink },
    ghost faultless: { overflow ≡ None → faults_of sink ≡ 0 },
}

impl WatchedSink {
    ghost use Rattle.cli_devices.specs.WatchedSink.Telling.{IsSound, nothing_told, told_by};

    /// A sink with so much room, to which nothing was given.
    pub fn new(alloc: Global, room: usize) -> Result<Self, AllocError>
        ensures { IfOk result (λ w. told_by w ≡ nothing_told room) }
    {
        Ok(WatchedSink {
            sink: MemSink::new(alloc, room)?,
            overflow: None,
        })
    }

    /// The bytes that it kept.
    pub fn into_kept(self) -> Vec<u8>
        ensures kept { result.items ≡ kept_by self.sink }
        ensures sound { IsSound self }
    {
        let WatchedSink { sink, overflow: _ } = self;
        sink.into_kept()
    }
}

impl ByteSink for WatchedSink {
    ghost use Rattle.cli_devices.specs.WatchedSink.Telling.{told_by};

    ghost sunk = { told_by };

    fn put(&mut self, piece: &[u8]) -> Result<(), SinkFault> {
        let room = self.sink.room_left();
        match self.sink.put(piece) {
            Ok(()) => Ok(()),
            Err(fault) => {
                if self.overflow.is_none() {
                    self.overflow = Some(piece[room]);
                }
                Err(fault)
            }
        }
    }
}
