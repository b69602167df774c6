//! The blanks in front of what is left of a line, and the glyphs behind them.

ghost use Rattle.std.specs.Prelude.{◌≡◌, ◌≤◌, ◌++◌, ◌∷◌, [], take, ℕ, true, false, if◌then◌else◌};
ghost use Rattle.page_model.specs.Columns.{spaces};
ghost use Rattle.roff_lines.specs.GlyphsInFront.{glyphs_in_front};
ghost use Rattle.page_bytes.specs.LineBytes.Fronts.{TakesPiece, blanks_in_front};

use super::spreading::added_to_gap;
use super::{LineBytes, Piece};
use page_model::{FURTHER_BLANK, GAP, UNPADDABLE};
use roff_lines::count_of_glyphs;

impl<'a> LineBytes<'a> {
    /// Takes the blanks in front and then the glyphs behind them, those above the blank: at most
    /// so many bytes.
    pub fn take_piece(&mut self, most: usize) -> Piece<'a>
        ensures { TakesPiece most result.blanks result.glyphs.now self.old self.new }
    {
        if self.is_text_written() {
            return Piece {
                blanks: 0,
                glyphs: &[],
            };
        }
        let blanks = self.take_blanks(most);
        let glyphs = self.take_glyphs(most - blanks);
        Piece { blanks, glyphs }
    }

    /// Takes the newline that is left, where nothing but one newline is, and tells whether it did.
    #[inline(always)]
    pub fn take_last_newline(&mut self) -> bool
        ensures taken { result ≡ true → (self.old ≡ 10 ∷ []) × (self.new ≡ []) }
        ensures kept { result ≡ false → self.new ≡ self.old }
    {
        if self.newlines != 1 || self.blanks > 0 || !self.text.is_empty() {
            return false;
        }
        self.newlines = 0;
        true
    }

    /// Whether nothing is left to be taken in pieces.
    #[inline(always)]
    fn is_text_written(&self) -> bool
        ensures { result ≡ true → (most : ℕ) → TakesPiece most 0 [] self.now self.now }
    {
        if self.blanks > 0 {
            return false;
        }
        self.text.is_empty()
    }

    /// Takes the blanks in front, at most so many, and tells how many.
    #[inline(always)]
    pub(crate) fn take_blanks(&mut self, most: usize) -> usize
        ensures most { result ≤ most }
        ensures taken { spaces result ++ self.new ≡ self.old }
        ensures blanks { spaces result ≡ take most (blanks_in_front self.old) }
    {
        let mut count = 0;
        loop {
            if count >= most {
                return count;
            }
            if !self.take_blank() {
                return count;
            }
            let owed = self.take_owed(most - count - 1);
            count += 1 + owed;
        }
    }

    /// Takes one of the blanks in front, and tells whether there was one.
    #[inline(always)]
    pub(super) fn take_blank(&mut self) -> bool
        ensures taken { (if result then 32 ∷ self.new else self.new) ≡ self.old }
        ensures none { result ≡ false → blanks_in_front self.old ≡ [] }
    {
        if self.blanks > 0 {
            self.blanks -= 1;
            return true;
        }
        let Some((&byte, behind)) = self.text.split_first() else {
            return false;
        };
        if byte == GAP {
            let (added, over) = added_to_gap(self.each, self.rest, self.gaps, self.over);
            self.text = behind;
            self.blanks = u128::from(added);
            self.passed += 1;
            self.over = over;
            return true;
        }
        if byte != FURTHER_BLANK && byte != UNPADDABLE {
            return false;
        }
        self.text = behind;
        true
    }

    /// Takes the blanks that are owed, at most so many, and tells how many.
    #[inline(always)]
    pub(super) fn take_owed(&mut self, most: usize) -> usize
        ensures most { result ≤ most }
        ensures taken { spaces result ++ self.new ≡ self.old }
    {
        let owed = self.blanks.min(most as u128);
        self.blanks -= owed;
        owed as usize
    }

    /// Takes the bytes of glyphs in front, those above the blank, at most so many.
    #[inline(always)]
    fn take_glyphs(&mut self, most: usize) -> &'a [u8]
        ensures glyphs { result.now ≡ take most (glyphs_in_front self.old) }
        ensures taken { result.now ++ self.new ≡ self.old }
    {
        if self.blanks > 0 {
            return &[];
        }
        let (glyphs, rest) = self.text.split_at(count_of_glyphs(self.text, most));
        self.text = rest;
        glyphs
    }
}
