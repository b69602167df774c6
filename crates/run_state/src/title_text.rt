//! A title's text, as it is read.

ghost use Rattle.std.specs.Prelude.{◌≡◌, ◌+◌, ◌<◌, ◌≤◌, ◌^◌, [], ◌∷◌, length, replicate, IfOk};
ghost use Rattle.run_model.specs.TitleTexts.{part_ended, title_length, with_bytes};
ghost use Rattle.page_model.specs.Glyphs.{glyph_blank};

use page_model::UNPADDABLE;
use run_model::TitlePart;
use std::alloc::{AllocError, Global};
use std::marker::Model;

/// The three parts of a title, one behind another in one block (manual, section 14).
///
/// In a part [`UNPADDABLE`](page_model::UNPADDABLE) stands for a blank, and 1 for the page number.
#[derive(Drop)]
pub struct TitleText {
    bytes: Vec<u8>,
    room: u32,
    part: TitlePart,
    /// Where the left part ends, once it has.
    left_end: usize,
    /// Where the centre ends, once it has.
    centre_end: usize,
}

impl Model for TitleText {
    ghost use Rattle.run_state.specs.TitleText.Kept.{HeldTitle, held_by, IsKept};

    ghost Value = { HeldTitle };

    ghost view = { held_by };

    ghost invariant = { IsKept };
}

impl TitleText {
    ghost use Rattle.run_state.specs.TitleText.Kept.{empty_with};

    /// An empty title, with room for so many bytes of all three parts.
    ///
    /// # Errors
    ///
    /// [`AllocError`] if the memory for them can't be had.
    pub fn new(alloc: Global, room: u32) -> Result<Self, AllocError>
        ensures { IfOk result (λ t. t ≡ empty_with room) }
    {
        Ok(TitleText {
            bytes: Vec::with_capacity(alloc, room as usize)?,
            room,
            part: TitlePart::Left,
            left_end: 0,
            centre_end: 0,
        })
    }

    /// How many more bytes it has room for.
    pub fn room_left(&self) -> usize
        ensures { result + title_length self.now.text ≡ self.now.room }
    {
        self.room as usize - self.bytes.len()
    }

    /// All its parts together have less than 2^32 bytes.
    pub fn stays_short(&self)
        ensures { title_length self.now.text < 2 ^ 32 }
    {
        let _room = self.room;
        let _ = self.room_left();
    }

    /// A title begins.
    pub fn begin(&mut self)
        ensures { self.new ≡ empty_with self.old.room }
    {
        self.bytes.clear();
        self.part = TitlePart::Left;
        self.left_end = 0;
        self.centre_end = 0;
    }

    /// Adds bytes to the part that is read, which it has room for.
    pub fn add(&mut self, bytes: &[u8])
        requires { title_length self.old.text + length bytes.now ≤ self.old.room }
        ensures { self.new ≡ record self.old { text = with_bytes bytes.now self.old.text } }
    {
        self.bytes.extend_from_slice(bytes).unwrap();
    }

    /// Adds a byte to it.
    #[inline(always)]
    pub fn push(&mut self, byte: u8)
        requires { title_length self.old.text < self.old.room }
        ensures { self.new ≡ record self.old { text = with_bytes (byte ∷ []) self.old.text } }
    {
        self.bytes.push(byte).unwrap();
    }

    /// Adds so many blanks to it.
    #[tactic(auto, using(crate::proofs::TitleTexts::bytes_added_length, crate::proofs::TitleTexts::bytes_added_again, crate::proofs::TitleTexts::none_added))]
    pub fn add_blanks(&mut self, count: usize)
        requires { title_length self.old.text + count ≤ self.old.room }
        ensures { self.new ≡ record self.old {
          text = with_bytes (replicate count glyph_blank) self.old.text;
        } }
    {
        for _ in 0..count {
            self.push(UNPADDABLE);
        }
    }

    /// The part that is read has ended.
    pub fn end_part(&mut self)
        ensures { self.new ≡ record self.old { text = part_ended self.old.text } }
    {
        match self.part {
            TitlePart::Left => {
                self.left_end = self.bytes.len();
                self.centre_end = self.left_end;
                self.part = TitlePart::Centre;
            }
            TitlePart::Centre => {
                self.centre_end = self.bytes.len();
                self.part = TitlePart::Right;
            }
            TitlePart::Right => {}
        }
    }

    /// The part that is read.
    pub fn part(&self) -> TitlePart
        ensures { result ≡ self.now.text.part }
    {
        self.part
    }

    /// The part on the left.
    pub fn left(&self) -> &[u8]
        ensures { result.now ≡ self.now.text.left }
    {
        match self.part {
            TitlePart::Left => self.bytes.as_slice(),
            _ => self.bytes.as_slice().split_at(self.left_end).0,
        }
    }

    /// The part in the centre.
    pub fn centre(&self) -> &[u8]
        ensures { result.now ≡ self.now.text.centre }
    {
        match self.part {
            TitlePart::Left => &[],
            TitlePart::Centre => self.bytes.as_slice().split_at(self.left_end).1,
            TitlePart::Right => {
                let front = self.bytes.as_slice().split_at(self.centre_end).0;
                front.split_at(self.left_end).1
            }
        }
    }

    /// The part on the right.
    pub fn right(&self) -> &[u8]
        ensures { result.now ≡ self.now.text.right }
    {
        match self.part {
            TitlePart::Right => self.bytes.as_slice().split_at(self.centre_end).1,
            _ => &[],
        }
    }
}
