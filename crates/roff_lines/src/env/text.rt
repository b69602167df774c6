//! Bytes of a text line that are told at once.

ghost use Rattle.std.specs.Prelude.{◌≡◌, ℕ, ◌+◌, ◌<◌, ◌≤◌, ◌^◌, [], ◌∷◌, length, ◌-◌, take, true};
ghost use Rattle.std.specs.Prelude.{drop, false, None, slice_index_or};
ghost use Rattle.std.specs.Bool.{MatchBool};
ghost use Rattle.std.specs.List.{AllByRecursion};
ghost use Rattle.roff_lines.specs.Clauses.{History, bytes_told, QuietlyTold, text_width, gaps_in};
ghost use Rattle.roff_lines.specs.Clauses.{is_in_field, may_be_wide};
ghost use Rattle.roff_lines.specs.Env.Tells.{EndsGlyphs};

use super::Env;
use super::words::moved;
use crate::glyph::ends_sentence_behind;
use crate::stretch::Stretch;
use crate::words::{measured_glyphs, whole_words};
use page_model::Settings;

/// More columns than the pending line has, its indent among them.
const MOST_COLUMNS: u64 = 1 << 35;

impl Env {
    ghost use Rattle.roff_lines.specs.Env.Kept.{with_glyphs, with_words, glyph_room, word_finishes};
    ghost use Rattle.roff_lines.specs.Env.Stands.{Stands, StandsPlain};
    ghost use Rattle.roff_lines.specs.Env.Tells.{PlainlyTold, TellsPlain, TellsOf, HasRoom};
    ghost use Rattle.roff_lines.specs.Env.Tells.{EndsBlanks};

    /// Adds bytes of a text line, which are blanks and bytes above the blank: of so many in front
    /// as many as finish no line and keep the pending line within its limit. Says how many that
    /// are. A blank ends the open word, and a gap of one blank follows; each other byte is a glyph.
    /// What stands behind those in front is none of the text line; that it lies there lets steps of
    /// sixteen be looked at. While a field is open no blank is taken.
    pub fn text_front(&mut self, bytes: &[u8], count: usize) -> usize
        requires text { count ≤ length bytes.now }
        requires above { AllByRecursion (λ b. 31 < b) (take count bytes.now) }
        ensures within { result ≤ count }
        ensures quiet { (line_cap : ℕ) (h : History) → Stands line_cap h self.old
            → QuietlyTold line_cap (take result bytes.now) h }
        ensures stands { (line_cap : ℕ) (h : History) → Stands line_cap h self.old
            → Stands line_cap (bytes_told (take result bytes.now) h) self.new }
        ensures most { (line_cap : ℕ) (h : History) → Stands line_cap h self.old → result < count
            → QuietlyTold line_cap (take (result + 1) bytes.now) h
            → (is_in_field h ≡ true) × (slice_index_or bytes.now result 0 ≡ 32) }
    {
        if self.is_in_field() {
            return self.field_front(bytes, count);
        }
        self.words_front(bytes, count)
    }

    /// Adds bytes of a text line where no field is open: of so many in front, as many as finish no
    /// line and keep the pending line within its limit. Says how many that are. A blank ends the
    /// open word, and a gap of one blank follows; each other byte is a glyph.
    #[inline(always)]
    fn words_front(&mut self, bytes: &[u8], count: usize) -> usize
        requires text { count ≤ length bytes.now }
        requires above { AllByRecursion (λ b. 31 < b) (take count bytes.now) }
        requires no_field { self.old.field ≡ None }
        ensures within { result ≤ count }
        ensures quiet { (line_cap : ℕ) (h : History) → StandsPlain line_cap h self.old
            → PlainlyTold line_cap (take result bytes.now) h }
        ensures stands { (line_cap : ℕ) (h : History) → StandsPlain line_cap h self.old
            → StandsPlain line_cap (bytes_told (take result bytes.now) h) self.new }
        ensures most { (line_cap : ℕ) (h : History) → StandsPlain line_cap h self.old
            → result < count → PlainlyTold line_cap (take (result + 1) bytes.now) h → ⊥ }
    {
        let mut told = self.text_in_front(bytes, count);
        while self.blank_in_front(bytes, told, count) {
            let next = told + 1;
            let (_, rest) = bytes.split_at(next);
            told = next + self.text_in_front(rest, count - next);
        }
        told
    }

    /// Adds whole words in front, and then glyphs, as many as the limit on the pending line lets
    /// through. Tells how many bytes these are: none where a blank is in front.
    #[inline(always)]
    fn text_in_front(&mut self, bytes: &[u8], count: usize) -> usize
        requires text { count ≤ length bytes.now }
        requires no_field { self.old.field ≡ None }
        ensures few { result ≤ count }
        ensures told { TellsOf count bytes.now result self.old self.new }
        ensures ends { EndsGlyphs (drop result (take count bytes.now)) self.new }
    {
        if count == 0 || bytes[0] == b' ' {
            return 0;
        }
        self.words_and_glyphs(bytes, count)
    }

    /// Adds whole words in front, and then glyphs, as many as the limit on the pending line lets
    /// through, whatever byte is in front. Tells how many bytes these are.
    #[inline(never)]
    fn words_and_glyphs(&mut self, bytes: &[u8], count: usize) -> usize
        requires text { count ≤ length bytes.now }
        requires no_field { self.old.field ≡ None }
        ensures few { result ≤ count }
        ensures told { TellsOf count bytes.now result self.old self.new }
        ensures ends { EndsGlyphs (drop result (take count bytes.now)) self.new }
    {
        let words = self.sentences_in_front(bytes, count);
        let (_, rest) = bytes.split_at(words);
        words + self.glyphs_in_front(rest, count - words)
    }

    /// Adds whole words in front that fit into the pending line, and blanks behind them with which
    /// more of them stand. Tells how many bytes these are.
    #[inline(always)]
    fn sentences_in_front(&mut self, bytes: &[u8], count: usize) -> usize
        requires text { count ≤ length bytes.now }
        requires no_field { self.old.field ≡ None }
        ensures few { result ≤ count }
        ensures told { TellsOf count bytes.now result self.old self.new }
    {
        let mut told = 0;
        loop {
            let (_, rest) = bytes.split_at(told);
            told += self.words_in_front(rest, count - told);
            if !self.blank_behind_words(bytes, told, count) {
                return told;
            }
            told += 1;
        }
    }

    /// Adds the blank at a place of so many bytes, where another word stands behind it and it
    /// finishes no line. Says whether it did; else the environment is as it was.
    #[inline(always)]
    fn blank_behind_words(&mut self, bytes: &[u8], place: usize, count: usize) -> bool
        requires within { place ≤ count }
        requires text { count ≤ length bytes.now }
        requires no_field { self.old.field ≡ None }
        ensures { MatchBool result
            ((place < count) × ((32 ∷ drop (place + 1) (take count bytes.now)
            ≡ drop place (take count bytes.now)) × TellsPlain (32 ∷ []) self.old self.new))
            (self.new ≡ self.old) }
    {
        if count - place < 2 || bytes[place] != b' ' || bytes[place + 1] == b' ' {
            return false;
        }
        self.blank_apart()
    }

    /// What [`blank`](Env::blank) does, as a function of its own.
    #[inline(never)]
    fn blank_apart(&mut self) -> bool
        requires { self.old.field ≡ None }
        ensures { MatchBool result (TellsPlain (32 ∷ []) self.old self.new)
            ((self.new ≡ self.old) × (word_finishes self.old ≡ true)) }
    {
        self.blank()
    }

    /// Adds whole words in front that fit into the pending line, behind its gap. Tells how many
    /// bytes these are.
    #[inline(always)]
    fn words_in_front(&mut self, bytes: &[u8], count: usize) -> usize
        requires text { count ≤ length bytes.now }
        requires no_field { self.old.field ≡ None }
        ensures few { result ≤ count }
        ensures told { TellsOf count bytes.now result self.old self.new }
    {
        if self.is_open || !self.has_line || self.blanks == 0 {
            return 0;
        }
        let (told, words) = whole_words(bytes, self.word_room().min(count));
        if told == 0 {
            return 0;
        }
        self.words(bytes, told - 1, words - 1);
        told
    }

    /// How many bytes of words, which are a column wide each, the pending line has room for behind
    /// its gap, with a blank behind them: 0 where it has none.
    fn word_room(&self) -> usize
        requires { 0 < self.now.blanks }
        ensures { 0 < result → HasRoom (result - 1) self.now }
    {
        room_for_words(
            self.settings,
            self.indent,
            &self.line,
            self.blanks,
            self.cap,
        )
    }

    /// Puts words, so many bytes in front, into the pending line, behind its gap, with a gap of one
    /// blank behind them. Each of their bytes is a column wide.
    #[inline(always)]
    fn words(&mut self, bytes: &[u8], count: usize, gaps: u64)
        requires text { count ≤ length bytes.now }
        requires line { self.old.has_line ≡ true }
        requires closed { self.old.is_open ≡ false }
        requires room { HasRoom count self.old }
        requires gaps { gaps_in (take count bytes.now) ≡ gaps }
        requires width { text_width (take count bytes.now) ≡ count }
        requires no_field { self.old.field ≡ None }
        ensures { self.new ≡ with_words (take count bytes.now) self.old }
    {
        self.line.push_gap(self.blanks as usize);
        self.line.extend(bytes, count, count as u64, gaps);
        self.blanks = 1;
        self.has_glyph = true;
        let (text, _) = bytes.split_at(count);
        self.ends_sentence = ends_sentence_behind(text, false);
        self.place = moved(self.place, count as u64 + 1);
    }

    /// Adds the glyphs in front, as many as the limit on the pending line lets through. Tells how
    /// many bytes these are.
    #[inline(always)]
    fn glyphs_in_front(&mut self, bytes: &[u8], count: usize) -> usize
        requires text { count ≤ length bytes.now }
        requires no_field { self.old.field ≡ None }
        ensures few { result ≤ count }
        ensures told { TellsOf count bytes.now result self.old self.new }
        ensures ends { EndsGlyphs (drop result (take count bytes.now)) self.new }
    {
        let (told, width) = measured_glyphs(bytes, self.glyph_room().min(count));
        if told == 0 {
            return 0;
        }
        self.glyphs(bytes, told, width);
        told
    }

    /// How many bytes of glyphs the limit on the pending line lets through.
    fn glyph_room(&self) -> usize
        ensures { result ≡ glyph_room self.now }
    {
        let blanks = if self.has_line {
            self.begun_blanks()
        } else {
            0
        };
        let bytes = (self.line.len() + self.word.len()) as u64 + blanks;
        (self.cap as u64).saturating_sub(bytes) as usize
    }

    /// Adds glyphs of so many bytes in front, so many columns wide, to the open word, or opens one
    /// with them.
    fn glyphs(&mut self, bytes: &[u8], count: usize, width: u64)
        requires text { count ≤ length bytes.now }
        requires some { 0 < count }
        requires room { count ≤ glyph_room self.old }
        requires above { AllByRecursion (λ b. 32 < b) (take count bytes.now) }
        requires width { text_width (take count bytes.now) ≡ width }
        requires no_field { self.old.field ≡ None }
        ensures { self.new ≡ with_glyphs (take count bytes.now) self.old }
    {
        let before = self.ends_in_word();
        self.begin_gap();
        self.word.extend(bytes, count, width, 0);
        self.is_open = true;
        self.has_glyph = true;
        let (front, _) = bytes.split_at(count);
        self.ends_sentence = ends_sentence_behind(front, before);
        self.place = moved(self.place, width);
    }

    /// Adds the blank at a place of so many bytes, where it finishes no line. Says whether it did;
    /// else the environment is as it was.
    #[inline(always)]
    fn blank_in_front(&mut self, bytes: &[u8], place: usize, count: usize) -> bool
        requires within { place ≤ count }
        requires text { count ≤ length bytes.now }
        requires no_field { self.old.field ≡ None }
        ensures { MatchBool result
            ((place < count) × ((32 ∷ drop (place + 1) (take count bytes.now)
            ≡ drop place (take count bytes.now)) × TellsPlain (32 ∷ []) self.old self.new))
            ((self.new ≡ self.old) × EndsBlanks (drop place (take count bytes.now)) self.old) }
    {
        if place == count || bytes[place] != b' ' {
            return false;
        }
        self.blank()
    }

    /// Ends the open word, with a gap of one blank behind it, where that finishes no line. Says
    /// whether it does; else the environment is as it was.
    #[inline(always)]
    fn blank(&mut self) -> bool
        requires { self.old.field ≡ None }
        ensures { MatchBool result (TellsPlain (32 ∷ []) self.old self.new)
            ((self.new ≡ self.old) × (word_finishes self.old ≡ true)) }
    {
        if !self.join_word() {
            return false;
        }
        self.gap(1);
        true
    }
}

/// How many bytes of words, which are a column wide each, may stand behind a line and a gap, with a
/// blank behind them: 0 where there is no room for the gap.
fn room_for_words(settings: Settings, indent: u32, line: &Stretch, blanks: u64, cap: usize) -> usize
    requires blanks { blanks ≤ 2 ^ 33 }
    requires line { line.now.room < 2 ^ 32 }
    requires cap { cap < 2 ^ 32 }
    ensures limit { 0 < result → length line.now.text + blanks + (result - 1) ≤ cap }
    ensures fits { let width = text_width line.now.text + blanks + (result - 1) in
        0 < result → may_be_wide settings indent width ≡ true }
{
    let bytes = line.len() as u64 + blanks;
    let columns = u64::from(indent) + line.width() + blanks;
    let most = if settings.fills() {
        u64::from(settings.line_length)
    } else {
        MOST_COLUMNS
    };
    if bytes > cap as u64 || columns > most {
        return 0;
    }
    (cap as u64 - bytes).min(most - columns) as usize + 1
}
