//! How many bars meet a line of rules, or stand on it, between the lines above and below.

ghost use Rattle.std.specs.Prelude.{◌≡◌, ℕ, List, ◌+◌, ◌<◌, ◌≤◌, length, get_or, false, true};
ghost use Rattle.std.specs.Prelude.{if◌then◌else◌};
ghost use Rattle.tbl_format.specs.RowsServed.{all_rows};
ghost use Rattle.tbl_layout.specs.declared.bars.Bars.{Bars};
ghost use Rattle.tbl_lines.specs.LinesLeft.{Beside, OfRules, Over, bars_met, is_within, over_at};
ghost use Rattle.tbl_lines.specs.LinesLeft.{rules_boundary};
ghost use Rattle.tbl_lines.specs.PictureLines.{RuleLine};

use super::Band;
use tbl_format::format_rows::FormatRows;
use tbl_layout::bars::Bars;
use tbl_options::options::Boxing;

impl Band {
    ghost use Rattle.tbl_tall.specs.Bands.{AlikeLines, AlikeOvers, BandFits, BandStands};
    ghost use Rattle.tbl_tall.specs.Bands.{GoThrough, BandHasRoom, ShowBars, band_line};
    ghost use Rattle.tbl_tall.specs.Bands.{kept_band, lines_behind, passed_bars, rest_shown};

    /// How many bars stand at a boundary on lines that don't rule it, from one on: their own, and
    /// those of the row below, if that is the next line behind them.
    fn stretch(&self, format: &FormatRows, boxing: Boxing, at: usize, boundary: usize) -> u8
        requires fits { BandFits (all_rows format.now.format) (kept_band self.now) }
        requires line { at ≤ self.now.wholes + self.now.count }
        requires boundary { boundary ≤ length self.now.through.items }
        ensures { (all : List Over) (below : Beside) → GoThrough self.now.through.items all
            → ShowBars boxing (length self.now.through.items) self.now.below.items below
            → is_within (over_at all boundary) ≡ false → result
            ≡ rest_shown (all_rows format.now.format) boxing (length self.now.through.items)
            (kept_band self.now) all below at boundary }
    {
        let mut most = 0;
        for line in at..self.wholes + self.count {
            if self.is_ruled(format, line, boundary) {
                return most;
            }
            most = self.own(format, boxing, line, boundary).max(most);
        }
        self.below[boundary].max(most)
    }

    /// How many bars meet at each boundary on the next line, where it is ruled, and how many stand
    /// there, where it isn't.
    pub fn count(&mut self, format: &FormatRows, bars: Bars)
        requires fits { BandFits (all_rows format.now.format) (kept_band self.old) }
        requires line { self.old.at < self.old.wholes + self.old.count }
        requires room { BandHasRoom self.old (length self.old.through.items) }
        ensures count { length self.new.counts.items ≡ length self.old.through.items + 1 }
        ensures met { (all : List Over) (above below : Beside) → BandStands
            (all_rows format.now.format) bars (length self.old.through.items) (kept_band self.old)
            all above below → (boundary : ℕ) → boundary ≤ length self.old.through.items
            → get_or self.new.counts.items boundary 0
            ≡ bars_met bars (length self.old.through.items)
            (band_line (all_rows format.now.format) (kept_band self.old) self.old.at) all above
            (lines_behind (all_rows format.now.format) (kept_band self.old) all (self.old.at + 1)
            below) boundary }
        ensures rest { kept_band self.new ≡ kept_band self.old }
        ensures room { (many : ℕ) → BandHasRoom self.old many → BandHasRoom self.new many }
    {
        self.counts.clear();
        for boundary in 0..self.through.len() + 1 {
            let count = self.met_at(format, bars, boundary);
            self.counts.push_reserved(count);
        }
    }

    /// How many bars meet at a boundary on the next line, or stand there, where it isn't ruled. In
    /// a picture without bars there are none.
    fn met_at(&self, format: &FormatRows, bars: Bars, boundary: usize) -> u8
        requires fits { BandFits (all_rows format.now.format) (kept_band self.now) }
        requires line { self.now.at < self.now.wholes + self.now.count }
        requires boundary { boundary ≤ length self.now.through.items }
        ensures { (all : List Over) (above below : Beside) → BandStands
            (all_rows format.now.format) bars (length self.now.through.items) (kept_band self.now)
            all above below → result ≡ bars_met bars (length self.now.through.items)
            (band_line (all_rows format.now.format) (kept_band self.now) self.now.at) all above
            (lines_behind (all_rows format.now.format) (kept_band self.now) all (self.now.at + 1)
            below) boundary }
    {
        if bars.has_any {
            self.count_at(format, bars.boxing, boundary)
        } else {
            0
        }
    }

    /// How many bars meet at a boundary on the next line, or stand there, where it isn't ruled, in
    /// a picture that may have some.
    // Where the line before doesn't rule the boundary, the bars above have those of the stretch.
    fn count_at(&self, format: &FormatRows, boxing: Boxing, boundary: usize) -> u8
        requires fits { BandFits (all_rows format.now.format) (kept_band self.now) }
        requires line { self.now.at < self.now.wholes + self.now.count }
        requires boundary { boundary ≤ length self.now.through.items }
        ensures { (bars : Bars) (all : List Over) (above below : Beside) → bars.boxing ≡ boxing
            → BandStands (all_rows format.now.format) bars (length self.now.through.items)
            (kept_band self.now)
            all above below → result
            ≡ bars_met (record bars { has_any = true }) (length self.now.through.items)
            (band_line (all_rows format.now.format) (kept_band self.now) self.now.at) all above
            (lines_behind (all_rows format.now.format) (kept_band self.now) all (self.now.at + 1)
            below) boundary }
    {
        if self.is_inside(boundary) {
            return 0;
        }
        let above = self.above[boundary];
        if self.is_ruled(format, self.at, boundary) {
            return self
                .stretch(format, boxing, self.at + 1, boundary)
                .max(above);
        }
        if self.at > 0 && !self.is_ruled(format, self.at - 1, boundary) {
            return above;
        }
        self.stretch(format, boxing, self.at, boundary).max(above)
    }

    /// The next line was given.
    pub fn pass(&mut self, format: &FormatRows, boxing: Boxing)
        requires fits { BandFits (all_rows format.now.format) (kept_band self.old) }
        requires line { self.old.at < self.old.wholes + self.old.count }
        requires room { BandHasRoom self.old (length self.old.through.items) }
        ensures stands { (bars : Bars) (all other : List Over) (line : RuleLine)
            (above below : Beside) → bars.boxing ≡ boxing → BandStands (all_rows format.now.format)
            bars (length self.old.through.items) (kept_band self.old) all above below
            → AlikeOvers all other → AlikeLines line
            (band_line (all_rows format.now.format) (kept_band self.old) self.old.at)
            → BandStands (all_rows format.now.format) bars (length self.old.through.items)
            (kept_band self.new) other (OfRules line all above) below }
        ensures rest { kept_band self.new ≡ record (kept_band self.old) {
          above = self.new.above.items;
          at = self.old.at + 1;
        } }
        ensures room { (many : ℕ) → BandHasRoom self.old many → BandHasRoom self.new many }
    {
        self.counts.clear();
        for boundary in 0..self.through.len() + 1 {
            let bars = self.passed_at(format, boxing, boundary);
            self.counts.push_reserved(bars);
        }
        std::mem::swap(&mut self.above, &mut self.counts);
        self.at += 1;
    }

    /// How many bars the line above shows at a boundary, once the next line was given.
    fn passed_at(&self, format: &FormatRows, boxing: Boxing, boundary: usize) -> u8
        requires fits { BandFits (all_rows format.now.format) (kept_band self.now) }
        requires line { self.now.at < self.now.wholes + self.now.count }
        requires boundary { boundary ≤ length self.now.through.items }
        ensures { (bars : Bars) (all : List Over) (above below : Beside) → bars.boxing ≡ boxing
            → BandStands (all_rows format.now.format) bars (length self.now.through.items)
            (kept_band self.now) all above below → result
            ≡ passed_bars bars (length self.now.through.items)
            (band_line (all_rows format.now.format) (kept_band self.now) self.now.at) all above
            (lines_behind (all_rows format.now.format) (kept_band self.now) all (self.now.at + 1)
            below) boundary }
    {
        if self.is_ruled(format, self.at, boundary) {
            return 0;
        }
        self.count_at(format, boxing, boundary)
    }
}
