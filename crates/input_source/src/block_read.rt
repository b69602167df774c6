//! Readers: what a source reads a block at a time.

ghost use Rattle.std.specs.Prelude.{◌≡◌, ◌<◌, ◌≤◌, ℕ, length};
ghost use Rattle.input_source.specs.BlockRead.{Reads, SomeTape};
ghost use Rattle.input_source.specs.Tape.{Tape};
ghost use Rattle.input_source.specs.StdRead.{given_by};

use std::io;
use std::io::Read;

/// What one read gave.
#[derive(Clone, Copy, Debug, PartialEq, Eq)]
pub enum Given {
    /// So many bytes, one at least.
    Bytes(usize),
    /// No byte: the reader is at its end.
    Nothing,
    /// An error, of whatever kind.
    Error,
}

/// A reader: a file, a pipe or a terminal, or some of them one after another.
pub trait BlockRead {
    /// The tapes that it may give from here on: its bytes, and then its end or an error.
    ghost gives: { Self → Tape → Type 0 };

    /// Reads once, into the front of `block`. Behind the reader's end and behind an error nothing
    /// is said of what it may give: only whoever reads no more can say what was read.
    fn read_block(&mut self, block: &mut [u8]) -> Given
        requires room { 0 < length block.old }
        ensures room { length block.new ≡ length block.old }
        ensures reads { Reads (gives self.old) (gives self.new) block.new result };

    /// Something may always come.
    ghost some: { (s : Self) → SomeTape (gives s) };
}

/// A reader of the standard library's. Every error that it answers is one, an interrupted read too.
#[derive(Drop)]
pub struct StdRead<R> {
    /// The reader.
    pub reader: R,
}

/// What a read gave, by the reader's answer.
fn given_by(answer: io::Result<usize>) -> Given
    ensures { result ≡ given_by answer }
{
    match answer {
        Ok(0) => Given::Nothing,
        Ok(len) => Given::Bytes(len),
        Err(_) => Given::Error,
    }
}

impl<R: Read + Drop> BlockRead for StdRead<R> {
    ghost use Rattle.input_source.specs.StdRead.{IsRead, some_read};

    ghost gives = { λ s. IsRead (R.remaining s.reader) };

    fn read_block(&mut self, block: &mut [u8]) -> Given {
        given_by(self.reader.read(block))
    }

    ghost some = { λ s. some_read (R.remaining s.reader) };
}
