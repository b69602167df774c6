//! Strands: where a text, or what is still to be read of one, lies in the chunks.

use crate::chunks::CHUNK;

/// No chunk's number.
pub(crate) const NO_CHUNK: usize = usize::MAX;

/// A run of bytes in a chain of chunks. An empty one has no chunk.
///
/// Reading changes `rest` and `at`. They lie apart: side by side they are loaded and stored as one
/// vector, and a byte takes longer.
#[derive(Clone, Copy)]
pub(crate) struct Strand {
    /// How many bytes it has.
    pub(crate) rest: usize,
    pub(crate) first: usize,
    pub(crate) last: usize,
    /// How many chunks it has.
    pub(crate) chunks: usize,
    /// How many bytes of the first chunk lie before it.
    pub(crate) at: usize,
}

impl Strand {
    ghost use Rattle.std.specs.Prelude.{◌≡◌, ◌+◌, ◌<◌, ◌↔◌, IsTrue};

    /// A strand without bytes.
    pub(crate) fn empty() -> Self
        ensures chunks { result.chunks ≡ 0 }
        ensures at { result.at ≡ 0 }
        ensures rest { result.rest ≡ 0 }
        ensures last { result.last ≡ 18446744073709551615 }
    {
        Strand {
            first: NO_CHUNK,
            last: NO_CHUNK,
            chunks: 0,
            at: 0,
            rest: 0,
        }
    }

    /// Whether the first chunk has more of the strand behind so many bytes.
    #[inline]
    pub(crate) fn goes_on_inside(self, count: usize) -> bool
        ensures { IsTrue result ↔ ((count < self.rest) × (self.at + count < CHUNK)) }
    {
        count < self.rest && count < CHUNK && self.at < CHUNK - count
    }
}
