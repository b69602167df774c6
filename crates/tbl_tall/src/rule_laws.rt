//! What holds of lines of rules that are laid, as contracts of functions that do nothing.

ghost use Rattle.std.specs.Prelude.{◌≡◌, ℕ, suc, List, ◌∷◌, drop, length};
ghost use Rattle.tbl_format.specs.Cells.{AreCells};
ghost use Rattle.tbl_format.specs.Format.{columns_of_keys};
ghost use Rattle.tbl_format.specs.declared.format.FormatKey.{FormatKey};
ghost use Rattle.tbl_layout.specs.LayoutLaws.{StandInOrder};
ghost use Rattle.tbl_layout.specs.declared.columns.Column.{Column};
ghost use Rattle.tbl_lines.specs.LinesLeft.{Beside, Over, bars_met};
ghost use Rattle.tbl_lines.specs.PictureLines.{RuleLine, Sheet};
ghost use Rattle.tbl_tall.specs.BandLaws.{HasLinePlaces};
ghost use Rattle.tbl_line_cells.specs.RulesDrawn.{Cover, FitBetween};
ghost use Rattle.tbl_tall.specs.TallRows.{BarsFit};

/// Bars that meet between two columns on a line of rules have their places there, where those of
/// the lines above and below have theirs.
pub fn bars_fit()
    ensures { (s : Sheet) (line : RuleLine) (all : List Over) (above below : Beside)
        → StandInOrder s.bars s.width s.columns → HasLinePlaces s line → BarsFit s above
        → BarsFit s below → (at : ℕ) (c d : Column) (others : List Column)
        → drop at s.columns ≡ c ∷ d ∷ others
        → FitBetween (bars_met s.bars (length s.columns) line all above below (suc at)) c d }
{}

/// Cells of a row with so many columns have all of them.
pub fn cells_cover()
    ensures { (count : ℕ) (keys : List FormatKey) → AreCells 0 keys → columns_of_keys keys ≡ count
        → Cover 0 count keys }
{}
