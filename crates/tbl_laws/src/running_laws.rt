//! That entries without width are cut to whole glyphs, run on as far as there is room and no
//! further, and move nothing, as contracts of functions that do nothing.

ghost use Rattle.std.specs.Prelude.{◌≡◌, ◌+◌, ◌≤◌, ℕ, List, false, length, map, true};
ghost use Rattle.tbl_format.specs.Cells.{AreCells};
ghost use Rattle.tbl_format.specs.declared.format.FormatKey.{FormatKey};
ghost use Rattle.tbl_laws.specs.PiecesApart.{CellsCover, InTurn, IsApart, RowStands};
ghost use Rattle.tbl_laws.specs.PiecesApart.{StandApart, fronts_of_row, shown_in_row};
ghost use Rattle.tbl_laws.specs.RunningOn.{AreAlike, FreeBelow, HaveCells, HaveColumns};
ghost use Rattle.tbl_laws.specs.RunningOn.{AreWords, EndInTime, FreeToStop, GoOnInFront};
ghost use Rattle.tbl_laws.specs.RunningOn.{HasNoBlank, IsLongestFront, IsLongestLine};
ghost use Rattle.tbl_laws.specs.RunningOn.{ShowIfUsed, ShowsNothing, StopInFront, cut_in_row};
ghost use Rattle.tbl_laws.specs.RunningOn.{front_of_word, row_filled};
ghost use Rattle.tbl_layout.specs.Entries.{Element, is_entry};
ghost use Rattle.tbl_layout.specs.LayoutLaws.{StandInOrder};
ghost use Rattle.tbl_lines.specs.CellsLeft.{Left, all_stopped, goes_on, stopped};
ghost use Rattle.tbl_lines.specs.LinesLeft.{Shown, all_cut, line_by, row_line};
ghost use Rattle.tbl_lines.specs.LinesLeft.{shown_cell};
ghost use Rattle.tbl_lines.specs.PictureLines.{Cell, Sheet, with_fronts};
ghost use Rattle.tbl_text.specs.BlockWords.{Part, Word};
ghost use Rattle.tbl_text.specs.Fitted.{fitting_text};
ghost use Rattle.tbl_text.specs.FittedWords.{line_fitted, word_fitted};
ghost use Rattle.tbl_text.specs.Items.{items};

/// A text that is cut to so many columns has the first of its items, whole, as many as fit: with
/// the next one they wouldn't.
pub fn text_cut()
    ensures { (room : ℕ) (text : List ℕ)
        → IsLongestFront room (items text) (items (fitting_text room text)) }
{}

/// A line of a text block that is cut to so many columns has the first of its words, and of the
/// next one as much as fits.
pub fn line_cut()
    ensures { (room : ℕ) (line : List Part) → AreWords line
        → IsLongestLine room line (line_fitted room line) }
{}

/// What fits of a word has the first of its items, whole, as many as fit, if one of them is a
/// glyph: without one nothing of it is shown.
pub fn word_cut()
    ensures { (room : ℕ) (w : Word) → HasNoBlank w → word_fitted room w ≡ front_of_word room w }
{}

/// What runs on ends in front of the next bar or rule on its line, and of the column where its cell
/// stops.
pub fn ends_in_time()
    ensures { (s : Sheet) (fronts : List Cell) (cells : List Shown)
        → EndInTime s fronts cells (all_cut s fronts cells) }
{}

/// What a line shows stays where it is, whatever is cut on it.
pub fn none_moved()
    ensures { (s : Sheet) (fronts : List Cell) (cells : List Shown)
        → map (λ c. c.at) (all_cut s fronts cells) ≡ map (λ c. c.at) cells }
{}

/// The pieces of a line on which entries run on stand apart, so each begins at its own column of
/// the page: where they would if these filled their columns, and up to where they stop nothing
/// stands but what they end in front of.
pub fn line_apart()
    ensures { (s : Sheet) (fronts : List Cell) (filled cells : List Shown) → AreAlike filled cells
        → FreeToStop s cells → HaveColumns fronts → length fronts ≤ length cells + 1
        → StandApart s.width 0 (with_fronts fronts (map shown_cell filled))
        → InTurn (all_cut s fronts cells)
        → IsApart s.width (line_by s fronts cells) fronts (all_cut s fronts cells) }
{}

/// The pieces of a line of a row on which entries run on stand apart, where its cells would stand
/// in order if what runs on filled its columns.
pub fn running_apart()
    ensures { (s : Sheet) (last : ℕ) (cells : List Left) → RowStands s last (row_filled s cells)
        → FreeToStop s (shown_in_row s cells) → InTurn (cut_in_row s last cells)
        → IsApart s.width (row_line s last cells) (fronts_of_row s last cells)
        (cut_in_row s last cells) }
{}

/// What has no width in a cell stops in front of each other cell of its row to its right in which
/// something stands, where it does so in cells that go on from the row above.
pub fn stops_in_front()
    ensures { (columns : ℕ) (keys : List FormatKey) (elements : List Element) (cell from : ℕ)
        (cells : List Left) → AreCells from (map (λ c. c.key) cells)
        → GoOnInFront cells
        → StopInFront (all_stopped columns keys elements cell cells) }
{}

/// What has no width in a cell that begins with its row stops in front of each entry to its right
/// in the rows below that its cell covers.
pub fn stops_below()
    ensures { (columns : ℕ) (keys : List FormatKey) (elements : List Element) (cell : ℕ) (c : Left)
        (others : List Left) → HaveCells columns elements → c.key.has_no_width ≡ true
        → goes_on c ≡ false → FreeBelow (stopped columns keys elements cell c others).stop columns
        keys cell elements }
{}

/// Where what has no width stops in front of the cells of its row, nothing stands in a cell of its
/// line up to there.
pub fn free_to_stop()
    ensures { (s : Sheet) (cells : List Left) → StandInOrder s.bars s.width s.columns
        → CellsCover s (row_filled s cells) → ShowIfUsed cells → StopInFront cells
        → FreeToStop s (shown_in_row s cells) }
{}

/// A cell whose field is no entry shows nothing.
pub fn shows_nothing()
    ensures { (own : Left) → is_entry own.field ≡ false → ShowsNothing own }
{}
