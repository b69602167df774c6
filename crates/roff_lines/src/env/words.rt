//! Glyphs, tabs and gaps, and the open word on its way into the pending line.

ghost use Rattle.std.specs.Prelude.{◌≡◌, ℕ, ◌+◌, ◌<◌, ◌≤◌, ◌^◌, ◌↔◌, not, ◌∷◌, ◌++◌, length, false};
ghost use Rattle.std.specs.Prelude.{if◌then◌else◌, OnOk, OnErr, IsErr, IsOkUnless, None};
ghost use Rattle.std.specs.Prelude.{option_map};
ghost use Rattle.roff_lines.specs.Clauses.{Print, Gap, History, indent_by, moved};
ghost use Rattle.roff_lines.specs.Clauses.{pending_length, shaped, text_width, gap_text};
ghost use Rattle.roff_lines.specs.Clauses.{may_be_wide};

use super::Env;
use crate::glyph::{ends_sentence_behind_glyph, kept_byte};
use crate::shape::Shape;
use crate::stretch::Stretch;
use page_model::{FURTHER_BLANK, GAP, Glyph, Settings, UNPADDABLE};
use roff_num::Limit;
use std::mem;

/// More blanks than any line has room for: no more of a gap are counted.
const MOST_BLANKS: u64 = 1 << 33;

/// The greatest place on a line of the input, in columns, that is told from those behind it.
const MOST_PLACE: u64 = 2147483647;

impl Env {
    ghost use Rattle.roff_lines.specs.Env.Kept.{with_word_ended, finished_by_word, word_finishes};
    ghost use Rattle.roff_lines.specs.Env.Kept.{word_fits};
    ghost use Rattle.roff_lines.specs.Env.Kept.{begun_blanks, ends_in_word, length_with};
    ghost use Rattle.roff_lines.specs.Env.Kept.{length_told, kept_with_gap, kept_with_glyph};
    ghost use Rattle.roff_lines.specs.Env.Kept.{with_glyph_told};
    ghost use Rattle.roff_lines.specs.Env.Stands.{Stands, StandsBehind};

    /// Adds a glyph to the open word, or opens one with it.
    ///
    /// # Errors
    ///
    /// [`Limit::Line`] if the pending line would pass its limit; the environment is then as it was.
    #[inline(always)]
    pub fn glyph(&mut self, glyph: Glyph) -> Result<(), Limit>
        ensures stands { OnOk result (StandsBehind self.old (Print glyph) self.new) }
        ensures kept { OnOk result (self.new ≡ with_glyph_told glyph self.old) }
        ensures limit { (line_cap : ℕ) (h : History) → Stands line_cap h self.old
            → (IsErr result ↔ (line_cap < pending_length (Print glyph ∷ h))) }
        ensures room { IsErr result ↔ (self.old.cap < length_told glyph self.old) }
        ensures error { IsOkUnless result Limit.Line }
        ensures unchanged { OnErr result (self.new ≡ self.old) }
    {
        let gap = if self.has_line {
            self.begun_blanks()
        } else {
            0
        };
        let bytes = self.line.len() + self.word.len() + glyph.length();
        if bytes as u64 + gap >= self.room {
            return self.glyph_in_field(glyph);
        }
        self.print(glyph);
        Ok(())
    }

    /// Adds a glyph for which there is room.
    #[inline(always)]
    fn print(&mut self, glyph: Glyph)
        requires room { length_with glyph self.old ≤ self.old.cap }
        requires no_field { self.old.field ≡ None }
        ensures { self.new ≡ kept_with_glyph glyph self.old }
    {
        let before = self.ends_in_word();
        self.begin_gap();
        match glyph {
            Glyph::Printed(byte) => self.word.push(kept_byte(byte)),
            Glyph::Blanks(columns) => self.word.push_times(UNPADDABLE, columns as usize),
        }
        self.is_open = true;
        self.has_glyph = true;
        self.ends_sentence = ends_sentence_behind_glyph(glyph, before);
        self.place = moved(self.place, glyph.width());
    }

    /// Adds so many blanks to the gap between words, or to one in the open field. Where no glyph
    /// stands on the line of the input, it adds none to a gap that is there, and leaves the place
    /// on the line.
    pub fn gap(&mut self, blanks: u32)
        ensures stands { StandsBehind self.old (Gap blanks) self.new }
        ensures kept { self.new ≡ kept_with_gap blanks self.old }
    {
        if !self.has_glyph {
            self.gap_before_glyphs(blanks);
            return;
        }
        if !self.is_open {
            self.blanks = (self.blanks + u64::from(blanks)).min(MOST_BLANKS);
        }
        self.place = moved(self.place, u64::from(blanks));
    }

    /// Adds so many blanks to the gap between words where no glyph stands on the line of the input:
    /// none to a gap that is there.
    #[cold]
    fn gap_before_glyphs(&mut self, blanks: u32)
        requires { self.old.has_glyph ≡ false }
        ensures { self.new ≡ kept_with_gap blanks self.old }
    {
        if self.blanks == 0 {
            self.blanks = u64::from(blanks);
        }
    }

    /// Sets the gap of a word that begins directly behind the end of another one.
    #[inline(always)]
    pub(super) fn begin_gap(&mut self)
        ensures { self.new ≡ record self.old { blanks = begun_blanks self.old } }
    {
        if self.blanks == 0 {
            self.blanks = self.begun_blanks();
        }
    }

    /// The blanks before the open word, or before one that begins now: directly behind the end of
    /// another word those of a line's end.
    #[inline(always)]
    pub(super) fn begun_blanks(&self) -> u64
        ensures { result ≡ begun_blanks self.now }
    {
        if self.blanks > 0 {
            self.blanks
        } else if self.ends_sentence {
            2
        } else {
            1
        }
    }

    /// Whether a sentence ends with the glyphs of the open word: behind none where none is open.
    #[inline(always)]
    pub(super) fn ends_in_word(&self) -> bool
        ensures { result ≡ ends_in_word self.now }
    {
        self.is_open && self.ends_sentence
    }

    /// Puts the open word into the pending line, or into a line of its own behind it.
    #[inline(always)]
    pub(super) fn place_word(&mut self) -> Option<Shape>
        ensures kept { self.new ≡ with_word_ended self.old }
        ensures line { option_map (λ s. shaped s self.new.finished) result
            ≡ finished_by_word self.old }
    {
        if self.join_word() {
            return None;
        }
        let full = Shape::of(self.settings, true, self.indent, &self.line);
        self.last_width = full.width();
        self.finished.take_over(&mut self.line);
        self.line.take_over(&mut self.word);
        self.indent = indent_of_line(self.temporary_indent, self.settings);
        self.temporary_indent = None;
        self.is_open = false;
        self.blanks = 0;
        Some(full)
    }

    /// Whether the open word fits behind the pending line.
    #[inline(always)]
    pub(super) fn word_fits(&self) -> bool
        ensures { result ≡ word_fits self.now }
    {
        fits(
            self.settings,
            self.indent,
            &self.line,
            self.blanks,
            self.word.width(),
        )
    }

    /// Puts the open word into the pending line, where that finishes none. Says whether it does;
    /// else the environment is as it was.
    #[inline(always)]
    pub(super) fn join_word(&mut self) -> bool
        ensures joins { result ≡ not (word_finishes self.old) }
        ensures kept { self.new ≡ (if result then with_word_ended self.old else self.old) }
    {
        if !self.is_open {
            return true;
        }
        if !self.has_line {
            mem::swap(&mut self.line, &mut self.word);
            self.indent = indent_of_line(self.temporary_indent, self.settings);
            self.temporary_indent = None;
            self.has_line = true;
        } else if self.word_fits() {
            push_gap(&mut self.line, self.blanks as usize);
            self.line.append(&self.word);
            self.word.clear();
        } else {
            return false;
        }
        self.is_open = false;
        self.blanks = 0;
        true
    }
}

/// Whether a word of so many columns fits behind a line: with the indent within the line length,
/// and always where words aren't measured.
pub(super) fn fits(settings: Settings, indent: u32, line: &Stretch, blanks: u64, word: u64) -> bool
    requires blanks { blanks ≤ 2 ^ 33 }
    requires line { line.now.room < 2 ^ 32 }
    requires word { word < 2 ^ 35 }
    ensures { result ≡ may_be_wide settings indent (text_width line.now.text + blanks + word) }
{
    let width = line.width() + blanks + word;
    !settings.fills() || u64::from(indent) + width <= u64::from(settings.line_length)
}

/// The indent of a line that begins: the one that is pending for it alone, else that in force.
fn indent_of_line(temporary: Option<u32>, settings: Settings) -> u32
    ensures { result ≡ indent_by temporary settings }
{
    match temporary {
        Some(indent) => indent,
        None => settings.indent,
    }
}

/// A place with so many columns more.
pub(super) fn moved(place: u32, columns: u64) -> u32
    ensures { result ≡ moved columns place }
{
    u64::from(place).saturating_add(columns).min(MOST_PLACE) as u32
}

/// Adds a gap of so many blanks.
pub(super) fn push_gap(line: &mut Stretch, blanks: usize)
    requires { length line.old.text + blanks ≤ line.old.room }
    ensures { line.new ≡ record line.old { text = line.old.text ++ gap_text blanks } }
{
    if blanks > 0 {
        line.push(GAP);
        line.push_times(FURTHER_BLANK, blanks - 1);
    }
}
