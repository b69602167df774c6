//! What holds of the bars that lines of rules show, as contracts of functions that do nothing.

ghost use Rattle.std.specs.Prelude.{◌≡◌, ℕ, ◌+◌, ◌≤◌, length, List, map};
ghost use Rattle.tbl_format.specs.Cells.{AreCells};
ghost use Rattle.tbl_format.specs.Format.{FormatRow, columns_of_keys};
ghost use Rattle.tbl_format.specs.FormatRows.{AreWithin};
ghost use Rattle.tbl_layout.specs.Entries.{Element};
ghost use Rattle.tbl_lines.specs.CellsLeft.{Left, all_keys, bars_at_end};
ghost use Rattle.tbl_lines.specs.LinesLeft.{Beside, OfRow, OfRules, Over, overs};
ghost use Rattle.tbl_lines.specs.PictureLines.{RuleLine, Sheet};
ghost use Rattle.tbl_lines.specs.RulePlaces.{HasPlaces};
ghost use Rattle.tbl_tall.specs.BandLaws.{ComesNext, HasLinePlaces};
ghost use Rattle.tbl_tall.specs.Bands.{AlikeOvers, KeptBand, keys_left, wholes_left};
ghost use Rattle.tbl_tall.specs.TallRows.{BarsFit, HaveKeys, RuleComes, keys_in_front};
ghost use Rattle.tbl_tall.specs.TallRows.{wholes_in_front};

/// A line of rules that comes next is one of those that are kept, and the line below it shows the
/// same bars as they do.
pub fn comes_next()
    ensures { (formats : List FormatRow) (s : Sheet) (b : KeptBand) (all : List Over)
        (cells : List Left) → AlikeOvers (overs 0 cells s.columns) all
        → b.at ≤ b.wholes + b.count → b.first + b.count ≤ length formats
        → (elements rest : List Element) (line : RuleLine) → RuleComes elements line rest
        → wholes_left b ≡ wholes_in_front elements → keys_left formats b ≡ keys_in_front elements
        → ComesNext formats s b all cells line elements rest }
{}

/// The bars that a line of rules shows have their places, where those above it have them.
pub fn rules_fit()
    ensures { (s : Sheet) (line : RuleLine) (all : List Over) (above : Beside)
        → HasLinePlaces s line → BarsFit s above → BarsFit s (OfRules line all above) }
{}

/// The bars that a line of a row shows have their places, where the columns have those of its
/// format.
pub fn row_fits()
    ensures { (s : Sheet) (format : FormatRow) (cells : List Left)
        → HasPlaces s.bars.front s.columns format
        → HaveKeys cells (all_keys (length s.columns) format)
        → AreCells 0 (map (λ (c : Left). c.key) cells)
        → columns_of_keys (map (λ (c : Left). c.key) cells) ≡ length s.columns
        → AreWithin (length s.columns) format.keys
        → BarsFit s (OfRow cells (bars_at_end (length s.columns) format)) }
{}
