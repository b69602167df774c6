//! In how many entries of a picture something is cut (Lesk, "Tbl": Format, the key letter `z`).

ghost use Rattle.std.specs.Prelude.{◌≡◌, ℕ, suc, ◌+◌, ◌++◌, ◌<◌, ◌≤◌, List, drop, length};
ghost use Rattle.std.specs.Prelude.{map, true};
ghost use Rattle.tbl_format.specs.Format.{FormatRow};
ghost use Rattle.tbl_format.specs.RowsServed.{all_rows};
ghost use Rattle.tbl_giving.specs.CutsCounted.{CanCount, CutsCome, CutsGo, ElementGoes};
ghost use Rattle.tbl_giving.specs.CutsCounted.{ElementsCount, FrameComes, FrontComes, FrontOf};
ghost use Rattle.tbl_giving.specs.CutsCounted.{RowComes, RowOnly, SomeCount, sign_by};
ghost use Rattle.tbl_kept.specs.Rows.{Row, elements_of};
ghost use Rattle.tbl_kept.specs.RowsLaying.{element_at};
ghost use Rattle.tbl_layout.specs.Entries.{Content, Element};
ghost use Rattle.tbl_layout.specs.declared.entry.Entry.{Entry};
ghost use Rattle.tbl_lines.specs.CellsLeft.{Left, bars_at_end, behind_line};
ghost use Rattle.tbl_lines.specs.CutEntries.{all_with_cut, cut_entries, first_cut};
ghost use Rattle.tbl_lines.specs.LinesLeft.{OfRow, row_cut};
ghost use Rattle.tbl_lines.specs.PictureLines.{RuleLine, Sheet, boxed_from, frame_rules};
ghost use Rattle.tbl_lines.specs.RulePlaces.{HasPlaces, HavePlaces};
ghost use Rattle.tbl_tall.specs.BandLaws.{NextPlaces};
ghost use Rattle.tbl_tall.specs.Bands.{wholes_left};
ghost use Rattle.tbl_tall.specs.LinesNext.{CanLayRow, CanLayRule};
ghost use Rattle.tbl_tall.specs.LinesOver.{heights_kept};
ghost use Rattle.tbl_tall.specs.TallRows.{RowEnded, RowStands, RuleComes, SignIs};

use input_escapes::OpenEscapes;
use tbl_format::format_rows::FormatRows;
use tbl_kept::rows::{Lent, TableRows};
use tbl_layout::bars::Bars;
use tbl_layout::data_lines::RuleSign;
use tbl_picture::walk::rules::frame_sign;
use tbl_tall::tall_row::TallRow;

/// A picture: the bytes of its table, its bars, and how wide it is.
#[derive(Clone, Copy)]
pub struct Drawn<'a> {
    pub bytes: &'a [u8],
    pub bars: Bars,
    pub width: usize,
}

/// In how many entries of a picture something is cut.
pub fn count_cut(
    tall: &mut TallRow,
    escapes: &mut OpenEscapes,
    drawn: Drawn<'_>,
    rows: &TableRows,
    format: &FormatRows,
) -> usize
    requires can { CanCount drawn.bytes.now (all_rows format.now.format) (record {
      bars = drawn.bars;
      width = drawn.width;
      columns = rows.now.columns;
    }) rows.now tall.old.room }
    ensures count { let s : Sheet = record {
      bars = drawn.entry.bars;
      width = drawn.entry.width;
      columns = rows.now.columns;
    } in
        result ≡ cut_entries s (elements_of drawn.entry.bytes.now (all_rows format.now.format)
        rows.now.elements) }
    ensures room { tall.new.room ≡ tall.old.room }
    ensures escapes { escapes.new.room ≡ escapes.old.room }
{
    tall.start(rows, format, drawn.bars.boxing);
    let mut count = cut_on_frame(tall, escapes, drawn, rows, format);
    for at in 0..rows.count() {
        count += cut_in_element(tall, escapes, drawn, rows, format, at);
    }
    let below = cut_on_frame(tall, escapes, drawn, rows, format);
    count + below
}

/// In how many entries something is cut on the lines of an element: on those of a row and in front
/// of it, or on that of a rule.
fn cut_in_element(
    tall: &mut TallRow,
    escapes: &mut OpenEscapes,
    drawn: Drawn<'_>,
    rows: &TableRows,
    format: &FormatRows,
    at: usize,
) -> usize
    requires can { CanCount drawn.bytes.now (all_rows format.now.format) (record {
      bars = drawn.bars;
      width = drawn.width;
      columns = rows.now.columns;
    }) rows.now tall.old.room }
    requires at { at < length rows.now.elements }
    requires come { tall.old.come ≤ at }
    requires count { SomeCount drawn.bytes.now (all_rows format.now.format) (record {
      bars = drawn.bars;
      width = drawn.width;
      columns = rows.now.columns;
    }) rows.now tall.old at }
    ensures count { (count : ℕ) → let s : Sheet = record {
      bars = drawn.entry.bars;
      width = drawn.entry.width;
      columns = rows.now.columns;
    } in
        ElementsCount drawn.entry.bytes.now (all_rows format.now.format) s rows.now tall.old at
        count → ElementGoes result drawn.entry.bytes.now (all_rows format.now.format) s
        rows.now tall.new (suc at) count }
    ensures come { tall.new.come ≤ at + 1 }
    ensures room { tall.new.room ≡ tall.old.room }
    ensures escapes { escapes.new.room ≡ escapes.old.room }
{
    match rows.element(at) {
        Lent::Command(_, _) => 0,
        Lent::Rule(sign) => cut_on_rule(tall, escapes, drawn, rows, format, Some(sign)),
        Lent::Row(_, _, _, _) => {
            let in_front = cut_in_front(tall, escapes, drawn, rows, format);
            let in_row = cut_in_row(tall, escapes, drawn, rows, format, at);
            in_front + in_row
        }
    }
}

/// On a line above everything, or below, of a picture that is boxed.
fn cut_on_frame(
    tall: &mut TallRow,
    escapes: &mut OpenEscapes,
    drawn: Drawn<'_>,
    rows: &TableRows,
    format: &FormatRows,
) -> usize
    requires can { CanCount drawn.bytes.now (all_rows format.now.format) (record {
      bars = drawn.bars;
      width = drawn.width;
      columns = rows.now.columns;
    }) rows.now tall.old.room }
    requires next { FrameComes drawn.bytes.now (all_rows format.now.format) (record {
      bars = drawn.bars;
      width = drawn.width;
      columns = rows.now.columns;
    }) tall.old }
    ensures count { (heights : List ℕ) (rest : List Element) (count : ℕ) → let s : Sheet = record {
      bars = drawn.entry.bars;
      width = drawn.entry.width;
      columns = rows.now.columns;
    } in
        NextPlaces s (frame_rules s.bars.boxing ++ rest)
        → CutsCome drawn.entry.bytes.now (all_rows format.now.format) s tall.old heights
        (frame_rules s.bars.boxing ++ rest) count
        → CutsGo result drawn.entry.bytes.now (all_rows format.now.format) s tall.new heights
        rest count }
    ensures come { tall.new.come ≡ tall.old.come }
    ensures room { tall.new.room ≡ tall.old.room }
    ensures escapes { escapes.new.room ≡ escapes.old.room }
{
    let bars = drawn.bars.boxing.bars;
    if bars == 0 {
        return 0;
    }
    let sign = Some(frame_sign(bars));
    cut_on_rule(tall, escapes, drawn, rows, format, sign)
}

/// On the lines of rules in front of the row that are no elements.
fn cut_in_front(
    tall: &mut TallRow,
    escapes: &mut OpenEscapes,
    drawn: Drawn<'_>,
    rows: &TableRows,
    format: &FormatRows,
) -> usize
    requires can { CanCount drawn.bytes.now (all_rows format.now.format) (record {
      bars = drawn.bars;
      width = drawn.width;
      columns = rows.now.columns;
    }) rows.now tall.old.room }
    requires next { FrontComes drawn.bytes.now (all_rows format.now.format) (record {
      bars = drawn.bars;
      width = drawn.width;
      columns = rows.now.columns;
    }) tall.old }
    ensures count { (heights : List ℕ) (elements row : List Element) (count : ℕ)
        → let s : Sheet = record {
          bars = drawn.entry.bars;
          width = drawn.entry.width;
          columns = rows.now.columns;
        } in
        NextPlaces s elements → FrontOf elements row
        → CutsCome drawn.entry.bytes.now (all_rows format.now.format) s tall.old heights
        elements count
        → CutsGo result drawn.entry.bytes.now (all_rows format.now.format) s tall.new heights
        row count }
    ensures come { tall.new.come ≡ tall.old.come }
    ensures room { tall.new.room ≡ tall.old.room }
    ensures escapes { escapes.new.room ≡ escapes.old.room }
{
    let mut count = 0;
    while tall.has_rule() {
        let whole = sign_in_front(tall);
        count += cut_on_rule(tall, escapes, drawn, rows, format, whole);
    }
    count
}

/// How the next of them is drawn, if it is a rule over the whole picture.
fn sign_in_front(tall: &TallRow) -> Option<RuleSign>
    ensures { result ≡ sign_by (wholes_left tall.now.band) }
{
    if tall.wholes_left() > 0 {
        return Some(RuleSign::Single);
    }
    None
}

/// On the next line of rules.
fn cut_on_rule(
    tall: &mut TallRow,
    escapes: &mut OpenEscapes,
    drawn: Drawn<'_>,
    rows: &TableRows,
    format: &FormatRows,
    whole: Option<RuleSign>,
) -> usize
    requires next { CanLayRule drawn.bytes.now (all_rows format.now.format) (record {
      bars = drawn.bars;
      width = drawn.width;
      columns = rows.now.columns;
    }) tall.old whole }
    ensures count { (heights : List ℕ) (elements rest : List Element) (line : RuleLine)
        (count : ℕ) → let s : Sheet = record {
          bars = drawn.entry.bars;
          width = drawn.entry.width;
          columns = rows.now.columns;
        } in
        HavePlaces (all_rows format.now.format) s → NextPlaces s elements
        → RuleComes elements line rest → SignIs whole line
        → CutsCome drawn.entry.bytes.now (all_rows format.now.format) s tall.old heights
        elements count
        → CutsGo result drawn.entry.bytes.now (all_rows format.now.format) s tall.new heights
        rest count }
    ensures come { tall.new.come ≡ tall.old.come }
    ensures room { tall.new.room ≡ tall.old.room }
    ensures escapes { escapes.new.room ≡ escapes.old.room }
{
    let bytes = drawn.bytes;
    tall.lay_rule(
        escapes,
        bytes,
        format,
        rows.columns(),
        drawn.bars,
        whole,
        drawn.width,
    );
    let count = tall.mark_cut();
    tall.pass_rule(escapes, bytes, format, drawn.bars.boxing);
    count
}

/// On the lines of the row, which is this element: it ends.
fn cut_in_row(
    tall: &mut TallRow,
    escapes: &mut OpenEscapes,
    drawn: Drawn<'_>,
    rows: &TableRows,
    format: &FormatRows,
    at: usize,
) -> usize
    requires can { CanCount drawn.bytes.now (all_rows format.now.format) (record {
      bars = drawn.bars;
      width = drawn.width;
      columns = rows.now.columns;
    }) rows.now tall.old.room }
    requires at { at < length rows.now.elements }
    requires come { tall.old.come ≤ at }
    requires next { RowComes drawn.bytes.now (all_rows format.now.format) (record {
      bars = drawn.bars;
      width = drawn.width;
      columns = rows.now.columns;
    }) rows.now tall.old at }
    ensures count { (keys rules height : ℕ) (entries : List Entry) (fields : List Content)
        (count : ℕ) → let s : Sheet = record {
          bars = drawn.entry.bars;
          width = drawn.entry.width;
          columns = rows.now.columns;
        } in
        element_at rows.now.elements at ≡ Row keys rules height entries
        → RowOnly drawn.entry.bytes.now (all_rows format.now.format) s rows.now tall.old at
        keys fields count
        → CutsGo result drawn.entry.bytes.now (all_rows format.now.format) s tall.new
        (heights_kept (drop (suc at) rows.now.elements)) (boxed_from s.bars.boxing true
        (elements_of drawn.entry.bytes.now (all_rows format.now.format)
        (drop (suc at) rows.now.elements))) count }
    ensures come { tall.new.come ≡ tall.old.come + 1 }
    ensures room { tall.new.room ≡ tall.old.room }
    ensures escapes { escapes.new.room ≡ escapes.old.room }
{
    let mut count = 0;
    while tall.lines_left() > 1 {
        count += cut_on_line(tall, escapes, drawn, rows);
    }
    let last = cut_on_line(tall, escapes, drawn, rows);
    tall.hand_on(rows, format, drawn.bars.boxing, at);
    count + last
}

/// On the next line of the row, which is given.
fn cut_on_line(
    tall: &mut TallRow,
    escapes: &mut OpenEscapes,
    drawn: Drawn<'_>,
    rows: &TableRows,
) -> usize
    requires next { CanLayRow drawn.bytes.now (record {
      bars = drawn.bars;
      width = drawn.width;
      columns = rows.now.columns;
    }) tall.old }
    ensures count { (format : FormatRow) (cells : List Left) (lines : ℕ)
        → let s : Sheet = record {
          bars = drawn.entry.bars;
          width = drawn.entry.width;
          columns = rows.now.columns;
        } in
        RowStands drawn.entry.bytes.now s tall.old format cells lines
        → result ≡ first_cut (length s.columns)
        (row_cut s (bars_at_end (length s.columns) format) cells) }
    ensures stands { (format : FormatRow) (cells : List Left) (more : ℕ)
        → let s : Sheet = record {
          bars = drawn.entry.bars;
          width = drawn.entry.width;
          columns = rows.now.columns;
        } in
        RowStands drawn.entry.bytes.now s tall.old format cells (suc more)
        → RowStands drawn.entry.bytes.now s tall.new format (map behind_line
        (all_with_cut (row_cut s (bars_at_end (length s.columns) format) cells) cells)) more }
    ensures ended { (format : FormatRow) (cells : List Left) → let s : Sheet = record {
      bars = drawn.entry.bars;
      width = drawn.entry.width;
      columns = rows.now.columns;
    } in
        let last = bars_at_end (length s.columns) format in
        let marked = all_with_cut (row_cut s last cells) cells in
        HasPlaces s.bars.front s.columns format
        → RowStands drawn.entry.bytes.now s tall.old format cells 1
        → RowEnded drawn.entry.bytes.now s tall.new (map behind_line marked)
        (OfRow marked last) }
    ensures come { tall.new.come ≡ tall.old.come }
    ensures room { tall.new.room ≡ tall.old.room }
    ensures escapes { escapes.new.room ≡ escapes.old.room }
{
    tall.lay_row(
        escapes,
        drawn.bytes,
        rows.columns(),
        drawn.bars,
        drawn.width,
    );
    let count = tall.mark_cut();
    tall.pass_line(escapes, drawn.bytes, drawn.bars.boxing);
    count
}
