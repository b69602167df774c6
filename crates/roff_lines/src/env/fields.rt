//! Fields: what stands behind a tab to a stop at which text ends, or has its middle (manual,
//! section 9.1).

ghost use Rattle.std.specs.Prelude.{◌≡◌, ℕ, ◌+◌, ◌<◌, ◌≤◌, ◌↔◌, ◌∷◌, None, true, is_some};
ghost use Rattle.std.specs.Prelude.{drop, length, take};
ghost use Rattle.std.specs.Prelude.{IfOk, IfSome, OnOk, OnErr, IsErr, IsOkUnless, option_map};
ghost use Rattle.std.specs.Borrow.{sem};
ghost use Rattle.std.specs.List.{AllByRecursion};
ghost use Rattle.roff_lines.specs.Clauses.{Blanks, FieldEnd, Tab, History, finished_of};
ghost use Rattle.roff_lines.specs.Clauses.{is_in_field};
ghost use Rattle.roff_lines.specs.Clauses.{length_reached, pending_length, shaped, text_width};

use super::Env;
use super::words::{fits, moved};
use crate::glyph::{ends_sentence_behind, ends_sentence_behind_glyph, kept_byte};
use crate::shape::Shape;
use crate::words::measured_glyphs;
use page_model::{Glyph, Line, StopKind, UNPADDABLE};
use roff_num::Limit;

impl Env {
    ghost use Rattle.roff_lines.specs.Env.Kept.{at_tab, finished_at_tab, kept_length, kept_motion};
    ghost use Rattle.roff_lines.specs.Env.Kept.{length_ended, length_told, length_with};
    ghost use Rattle.roff_lines.specs.Env.Kept.{kept_with_glyph};
    ghost use Rattle.roff_lines.specs.Env.Kept.{with_field_ended, with_field_left};
    ghost use Rattle.roff_lines.specs.Env.Kept.{with_field_opened, with_glyph_told};
    ghost use Rattle.roff_lines.specs.Env.Kept.{field_room, with_glyphs_told};
    ghost use Rattle.roff_lines.specs.Env.Stands.{Finishes, Stands, StandsBehind, StandsBehindTab};
    ghost use Rattle.roff_lines.specs.Env.Stands.{StandsPlain, length_at_tab};
    ghost use Rattle.roff_lines.specs.Env.Rests.{Rests};
    ghost use Rattle.roff_lines.specs.Env.Tells.{EndsInField, Tells};

    /// Whether a field is open.
    #[inline(always)]
    pub fn is_in_field(&self) -> bool
        ensures kept { result ≡ is_some self.now.field }
        ensures open { (line_cap : ℕ) (h : History)
            → Stands line_cap h self.now → result ≡ is_in_field h }
    {
        self.room == 0
    }

    /// Ends the open field, if one is open: its text then ends at its stop, or has its middle
    /// there, unless it is longer than the way to it.
    ///
    /// # Errors
    ///
    /// [`Limit::Line`] if the pending line would pass its limit with the columns in front of the
    /// text; the environment is then as it was.
    #[cold]
    #[inline(never)]
    pub fn end_field(&mut self) -> Result<(), Limit>
        ensures stands { OnOk result (StandsBehind self.old FieldEnd self.new) }
        ensures limit { (line_cap : ℕ) (h : History) → Stands line_cap h self.old
            → (IsErr result ↔ (line_cap < pending_length (FieldEnd ∷ h))) }
        ensures error { IsOkUnless result Limit.Line }
        ensures unchanged { OnErr result (self.new ≡ self.old) }
    {
        self.finish_field()
    }

    /// Ends the open field, if one is open: blanks that no adjusting widens move its text to its
    /// stop. Nothing happens if the pending line would pass its limit by that ([`Limit::Line`]).
    fn finish_field(&mut self) -> Result<(), Limit>
        ensures kept { OnOk result (self.new ≡ with_field_ended self.old) }
        ensures limit { IsErr result ↔ (self.old.cap < length_ended self.old) }
        ensures error { IsOkUnless result Limit.Line }
        ensures unchanged { OnErr result (self.new ≡ self.old) }
    {
        if !self.is_in_field() {
            return Ok(());
        }
        let motion = self.field_motion();
        if self.length_in_field() + u64::from(motion) > self.cap as u64 {
            return Err(Limit::Line);
        }
        self.word.push_times(UNPADDABLE, motion as usize);
        self.leave_field();
        self.place = moved(self.place, u64::from(motion));
        Ok(())
    }

    /// Moves to the next tab stop, with a glyph of as many blanks as there are to it; where text
    /// ends at the stop, or has its middle there, with one of none, and opens a field. An open
    /// field ends first, and with it the word before a gap at its end. Returns the line that this
    /// word finishes.
    ///
    /// # Errors
    ///
    /// [`Limit::Line`] if the pending line would pass its limit, as the open field ends or behind
    /// the tab. Where no field was open the environment is then as it was; else the field may have
    /// ended, and the line that its word finished isn't returned.
    pub fn tab(&mut self) -> Result<Option<Line<'_>>, Limit>
        ensures* stands { sem 𝓛 (Rests self.entry
            (λ n. OnOk result (StandsBehind self.entry.now Tab n))) }
        ensures line { IfOk result
            (λ line. Finishes self.old Tab (option_map finished_of line)) }
        ensures limit { (line_cap : ℕ) (h : History) → Stands line_cap h self.old
            → (IsErr result ↔ (line_cap < length_reached Tab h)) }
        ensures error { IsOkUnless result Limit.Line }
    {
        match self.tab_told() {
            Ok(shape) => Ok(self.lent(shape)),
            Err(limit) => Err(limit),
        }
    }

    /// Moves to the next tab stop where no field is open, as [`tab`](Env::tab) does. That finishes
    /// no line.
    ///
    /// # Errors
    ///
    /// [`Limit::Line`] if the pending line would pass its limit; the environment is then as it was.
    #[inline(always)]
    pub fn tab_outside(&mut self) -> Result<(), Limit>
        requires { self.old.field ≡ None }
        ensures stands { OnOk result (StandsBehind self.old Tab self.new) }
        ensures line { Finishes self.old Tab None }
        ensures limit { (line_cap : ℕ) (h : History) → Stands line_cap h self.old
            → (IsErr result ↔ (line_cap < length_reached Tab h)) }
        ensures error { IsOkUnless result Limit.Line }
    {
        self.move_to_stop()
    }

    /// Moves to the next tab stop, behind the end of the open field, if one is open. Returns how
    /// the line is laid out that this finishes, if it finishes one.
    fn tab_told(&mut self) -> Result<Option<Shape>, Limit>
        ensures stands { OnOk result (StandsBehind self.old Tab self.new) }
        ensures line { IfOk result (λ shape. Finishes self.old Tab
            (option_map (λ s. shaped s self.new.finished) shape)) }
        ensures limit { (line_cap : ℕ) (h : History) → Stands line_cap h self.old
            → (IsErr result ↔ (line_cap < length_reached Tab h)) }
        ensures error { IsOkUnless result Limit.Line }
    {
        match self.end_field_at_tab() {
            Ok(shape) => match self.move_to_stop() {
                Ok(()) => Ok(shape),
                Err(limit) => Err(limit),
            },
            Err(limit) => Err(limit),
        }
    }

    /// Ends the open field in front of a tab, and the word before a gap at its end. Returns the
    /// line that this finishes, without its text.
    #[inline(always)]
    fn end_field_at_tab(&mut self) -> Result<Option<Shape>, Limit>
        ensures kept { OnOk result (self.new ≡ at_tab self.old) }
        ensures line { IfOk result (λ shape.
            option_map (λ s. shaped s self.new.finished) shape ≡ finished_at_tab self.old) }
        ensures limit { IsErr result ↔ (self.old.cap < length_ended self.old) }
        ensures error { IsOkUnless result Limit.Line }
    {
        if !self.is_in_field() {
            return Ok(None);
        }
        let blanks = self.blanks;
        self.finish_field()?;
        if blanks == 0 {
            return Ok(None);
        }
        let shape = self.place_word();
        self.blanks = blanks;
        Ok(shape)
    }

    /// Moves to the next tab stop where no field is open.
    #[inline(always)]
    fn move_to_stop(&mut self) -> Result<(), Limit>
        requires { self.old.field ≡ None }
        ensures stands { OnOk result (StandsBehindTab self.old self.new) }
        ensures limit { (line_cap : ℕ) (h : History) → StandsPlain line_cap h self.old
            → (IsErr result ↔ (line_cap < length_at_tab h)) }
        ensures error { IsOkUnless result Limit.Line }
        ensures finished { self.new.finished ≡ self.old.finished }
    {
        match self.stops.next_from(self.place) {
            None => self.glyph(Glyph::Blanks(0)),
            Some(way) => match way.kind {
                StopKind::Left => self.glyph(Glyph::Blanks(way.columns)),
                StopKind::Right => self.open_field(way.columns, false),
                StopKind::Centred => self.open_field(way.columns, true),
            },
        }
    }

    /// Opens a field behind a glyph of no columns, so many columns in front of its stop.
    #[cold]
    #[inline(never)]
    fn open_field(&mut self, way: u32, is_centred: bool) -> Result<(), Limit>
        requires { self.old.field ≡ None }
        ensures kept { OnOk result (self.new
            ≡ with_field_opened way is_centred (kept_with_glyph (Blanks 0) self.old)) }
        ensures limit { IsErr result ↔ (self.old.cap < length_with (Blanks 0) self.old) }
        ensures error { IsOkUnless result Limit.Line }
        ensures unchanged { OnErr result (self.new ≡ self.old) }
    {
        self.glyph(Glyph::Blanks(0))?;
        self.room = 0;
        self.field_way = way;
        self.is_field_centred = is_centred;
        self.word_blanks = self.blanks;
        self.blanks = 0;
        self.is_open = false;
        Ok(())
    }

    /// Adds a glyph for which there is no room in the open word: one to the open field, if one is
    /// open.
    #[cold]
    #[inline(never)]
    pub(super) fn glyph_in_field(&mut self, glyph: Glyph) -> Result<(), Limit>
        requires { self.old.field ≡ None → self.old.cap < length_told glyph self.old }
        ensures kept { OnOk result (self.new ≡ with_glyph_told glyph self.old) }
        ensures limit { IsErr result ↔ (self.old.cap < length_told glyph self.old) }
        ensures error { IsOkUnless result Limit.Line }
        ensures unchanged { OnErr result (self.new ≡ self.old) }
    {
        if !self.is_in_field() {
            return Err(Limit::Line);
        }
        let more = self.blanks + glyph.length() as u64;
        if self.length_in_field() + more > self.cap as u64 {
            return Err(Limit::Line);
        }
        self.print_in_field(glyph);
        Ok(())
    }

    /// Adds a glyph to the open field, for which there is room, behind the blanks of a gap there.
    fn print_in_field(&mut self, glyph: Glyph)
        requires open { is_some self.old.field ≡ true }
        requires room { length_told glyph self.old ≤ self.old.cap }
        ensures { self.new ≡ with_glyph_told glyph self.old }
    {
        let before = self.blanks == 0 && self.ends_sentence;
        self.field.push_times(UNPADDABLE, self.blanks as usize);
        self.blanks = 0;
        match glyph {
            Glyph::Printed(byte) => self.field.push(kept_byte(byte)),
            Glyph::Blanks(columns) => self.field.push_times(UNPADDABLE, columns as usize),
        }
        self.has_glyph = true;
        self.ends_sentence = ends_sentence_behind_glyph(glyph, before);
        self.place = moved(self.place, glyph.width());
    }

    /// The columns in front of the open field's text.
    pub(super) fn field_motion(&self) -> u32
        ensures { IfSome self.now.field (λ f. result ≡ kept_motion f) }
    {
        let width = if self.is_field_centred {
            self.field.width() / 2
        } else {
            self.field.width()
        };
        u64::from(self.field_way).saturating_sub(width) as u32
    }

    /// The pending line's length in bytes, the open field's text included.
    fn length_in_field(&self) -> u64
        requires { is_some self.now.field ≡ true }
        ensures { result ≡ kept_length self.now }
    {
        let gap = if self.has_line { self.word_blanks } else { 0 };
        (self.line.len() + self.word.len() + self.field.len()) as u64 + gap
    }

    /// Puts the open field's text into its word, as it stands.
    #[cold]
    #[inline(never)]
    pub(super) fn leave_field(&mut self)
        requires { is_some self.old.field ≡ true }
        ensures { self.new ≡ with_field_left self.old }
    {
        self.word.append(&self.field);
        self.field.clear();
        self.is_open = true;
        self.blanks = self.word_blanks;
        self.room = self.cap as u64 + 1;
    }

    /// Whether a tab finishes a line: a word stands before a gap at the end of the open field, and
    /// doesn't fit behind the pending line.
    pub(super) fn tab_finishes(&self) -> bool
        requires { is_some self.now.field ≡ true }
        ensures { result ≡ is_some (finished_at_tab self.now) }
    {
        if self.blanks == 0 || !self.has_line {
            return false;
        }
        let motion = u64::from(self.field_motion());
        let width = self.word.width() + motion + self.field.width();
        !fits(
            self.settings,
            self.indent,
            &self.line,
            self.word_blanks,
            width,
        )
    }

    /// Adds bytes in front up to a blank to the open field, as many as the limit on the pending
    /// line lets through. Tells how many.
    #[cold]
    #[inline(never)]
    pub(super) fn field_front(&mut self, bytes: &[u8], count: usize) -> usize
        requires open { is_some self.old.field ≡ true }
        requires text { count ≤ length bytes.now }
        requires above { AllByRecursion (λ b. 31 < b) (take count bytes.now) }
        ensures within { result ≤ count }
        ensures told { Tells (take result bytes.now) self.old self.new }
        ensures ends { EndsInField (drop result (take count bytes.now)) self.new }
    {
        let (told, width) = measured_glyphs(bytes, self.field_room().min(count));
        if told == 0 {
            return 0;
        }
        self.glyphs_in_field(bytes, told, width);
        told
    }

    /// How many bytes of glyphs the limit on the pending line lets through in the open field.
    fn field_room(&self) -> usize
        requires { is_some self.now.field ≡ true }
        ensures { result ≡ field_room self.now }
    {
        let bytes = self.length_in_field() + self.blanks;
        (self.cap as u64).saturating_sub(bytes) as usize
    }

    /// Adds glyphs of so many bytes in front, so many columns wide, to the open field, behind the
    /// blanks of a gap there.
    fn glyphs_in_field(&mut self, bytes: &[u8], count: usize, width: u64)
        requires text { count ≤ length bytes.now }
        requires some { 0 < count }
        requires open { is_some self.old.field ≡ true }
        requires room { count ≤ field_room self.old }
        requires above { AllByRecursion (λ b. 32 < b) (take count bytes.now) }
        requires width { text_width (take count bytes.now) ≡ width }
        ensures { self.new ≡ with_glyphs_told (take count bytes.now) self.old }
    {
        let gap = self.blanks as usize;
        let before = gap == 0 && self.ends_sentence;
        self.field.push_times(UNPADDABLE, gap);
        self.blanks = 0;
        self.field.extend(bytes, count, width, 0);
        self.has_glyph = true;
        let (front, _) = bytes.split_at(count);
        self.ends_sentence = ends_sentence_behind(front, before);
        self.place = moved(self.place, width);
    }
}
