//! A part of a line's text, in a buffer reserved from the start.

ghost use Rattle.std.specs.Prelude.{◌≡◌, ◌+◌, ◌<◌, ◌≤◌, ◌^◌, [], ◌∷◌, ◌++◌, length, take};
ghost use Rattle.std.specs.Prelude.{IfOk, replicate, vec_capacity};
ghost use Rattle.roff_lines.specs.Buffers.{Keeps};
ghost use Rattle.roff_lines.specs.Clauses.{text_width, gaps_in, gap_text};

use crate::copying::{copy_front, put_gap, put_times};
use page_model::GAP;
use roff_num::lanes::STEP;
use roff_num::width_of_byte;
use std::alloc::{AllocError, Global};
use std::marker::Model;
use std::mem;

/// The text of a word or a line, with its width and its gaps counted. Its buffer has bytes behind
/// the text, a step of them where a text was copied.
#[derive(Drop)]
pub(crate) struct Stretch {
    bytes: Vec<u8>,
    len: usize,
    room: usize,
    width: u64,
    gaps: u64,
}

impl Model for Stretch {
    ghost use Rattle.roff_lines.specs.Stretch.Held.{Held, held_by, IsKept};

    ghost Value = { Held };

    ghost view = { held_by };

    ghost invariant = { IsKept };
}

impl Stretch {
    ghost use Rattle.roff_lines.specs.Stretch.Held.{Held};

    /// An empty text, with room for so many bytes.
    pub(crate) fn new(alloc: Global, room: usize) -> Result<Self, AllocError>
        requires { room < 2 ^ 32 }
        ensures { IfOk result (λ s. s ≡ record { text = []; room = room }) }
    {
        Ok(Stretch {
            bytes: Vec::with_capacity(alloc, room + STEP)?,
            len: 0,
            room,
            width: 0,
            gaps: 0,
        })
    }

    /// The length, in bytes.
    pub(crate) fn len(&self) -> usize
        ensures length { result ≡ length self.now.text }
        ensures within { result ≤ self.now.room }
    {
        self.len
    }

    /// The width, in columns.
    #[tactic(auto, using(crate::proofs::Widths::text_width_le))]
    pub(crate) fn width(&self) -> u64
        ensures width { result ≡ text_width self.now.text }
        ensures within { result ≤ self.now.room }
    {
        self.width
    }

    /// How many gaps there are.
    pub(crate) fn gaps(&self) -> u64
        ensures { result ≡ gaps_in self.now.text }
    {
        self.gaps
    }

    /// The text.
    pub(crate) fn as_slice(&self) -> &[u8]
        ensures { result.now ≡ self.now.text }
    {
        &self.bytes[..self.len]
    }

    /// Adds one byte.
    #[tactic(auto, using(crate::proofs::Widths::text_width_le))]
    pub(crate) fn push(&mut self, byte: u8)
        requires { length self.old.text < self.old.room }
        ensures { self.new ≡ record self.old { text = self.old.text ++ byte ∷ [] } }
    {
        fill(&mut self.bytes, self.len + 1 + STEP);
        self.width += width_of_byte(byte);
        if byte == GAP {
            self.gaps += 1;
        }
        self.bytes[self.len] = byte;
        self.len += 1;
    }

    /// Adds one byte so many times.
    pub(crate) fn push_times(&mut self, byte: u8, times: usize)
        requires { length self.old.text + times ≤ self.old.room }
        ensures { self.new ≡ record self.old { text = self.old.text ++ replicate times byte } }
    {
        fill(&mut self.bytes, self.len + times + STEP);
        self.width += width_of_byte(byte) * times as u64;
        if byte == GAP {
            self.gaps += times as u64;
        }
        put_times(self.bytes.as_mut_slice(), self.len, byte, times);
        self.len += times;
    }

    /// Adds the first of these bytes, so many and so many columns wide, with so many gaps.
    #[tactic(auto, using(crate::proofs::Widths::text_width_le))]
    pub(crate) fn extend(&mut self, bytes: &[u8], count: usize, width: u64, gaps: u64)
        requires count { count ≤ length bytes.now }
        requires room { length self.old.text + count ≤ self.old.room }
        requires gaps { gaps_in (take count bytes.now) ≡ gaps }
        requires width { text_width (take count bytes.now) ≡ width }
        ensures { self.new ≡ record self.old { text = self.old.text ++ take count bytes.now } }
    {
        fill(&mut self.bytes, self.len + count + STEP);
        copy_front(bytes, count, self.bytes.as_mut_slice(), self.len);
        self.width += width;
        self.gaps += gaps;
        self.len += count;
    }

    /// Adds a gap of so many blanks.
    pub(crate) fn push_gap(&mut self, blanks: usize)
        requires some { 0 < blanks }
        requires room { length self.old.text + blanks ≤ self.old.room }
        ensures { self.new ≡ record self.old { text = self.old.text ++ gap_text blanks } }
    {
        fill(&mut self.bytes, self.len + blanks + STEP);
        put_gap(self.bytes.as_mut_slice(), self.len, blanks);
        self.width += blanks as u64;
        self.gaps += 1;
        self.len += blanks;
    }

    /// Adds another text.
    #[tactic(auto, using(crate::proofs::Widths::text_width_le))]
    pub(crate) fn append(&mut self, other: &Stretch)
        requires { length self.old.text + length other.now.text ≤ self.old.room }
        ensures { self.new ≡ record self.old { text = self.old.text ++ other.now.text } }
    {
        fill(&mut self.bytes, self.len + other.len + STEP);
        copy_front(
            other.bytes.as_slice(),
            other.len,
            self.bytes.as_mut_slice(),
            self.len,
        );
        self.width += other.width;
        self.gaps += other.gaps;
        self.len += other.len;
    }

    /// Takes the text of another one, of the same room, for its own; the other one is empty then.
    #[inline(always)]
    pub(crate) fn take_over(&mut self, other: &mut Stretch)
        requires { self.old.room ≡ other.old.room }
        ensures taken { self.new ≡ other.old }
        ensures empty { other.new ≡ record other.old { text = [] } }
    {
        mem::swap(&mut self.bytes, &mut other.bytes);
        self.len = other.len;
        self.width = other.width;
        self.gaps = other.gaps;
        other.len = 0;
        other.width = 0;
        other.gaps = 0;
    }

    /// Removes everything.
    pub(crate) fn clear(&mut self)
        ensures { self.new ≡ record self.old { text = [] } }
    {
        self.len = 0;
        self.width = 0;
        self.gaps = 0;
    }
}

/// Lets a buffer have so many bytes.
#[inline(always)]
fn fill(bytes: &mut Vec<u8>, needed: usize)
    requires { needed ≤ vec_capacity bytes.old }
    ensures capacity { vec_capacity bytes.old ≤ vec_capacity bytes.new }
    ensures filled { needed ≤ length bytes.new.items }
    ensures kept { Keeps bytes.old.items bytes.new.items }
{
    if bytes.len() < needed {
        fill_more(bytes, needed);
    }
}

/// Fills a buffer that has fewer bytes than these with blanks up to so many.
#[inline(never)]
fn fill_more(bytes: &mut Vec<u8>, needed: usize)
    requires capacity { needed ≤ vec_capacity bytes.old }
    requires fewer { length bytes.old.items < needed }
    ensures capacity { vec_capacity bytes.old ≤ vec_capacity bytes.new }
    ensures filled { needed ≤ length bytes.new.items }
    ensures kept { Keeps bytes.old.items bytes.new.items }
{
    bytes.resize(needed, b' ').unwrap();
}
