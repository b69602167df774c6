//! What stands above and below a line of rules: how many bars it shows (Lesk, "Tbl": Options,
//! Format).

ghost use Rattle.std.specs.Prelude.{◌≡◌, ℕ, ◌+◌, ◌-◌, ◌<◌, ◌≤◌, ◌^◌, ◌||◌, ◌&&◌, max};
ghost use Rattle.std.specs.Prelude.{Bool, List, drop, is_some, length, not, true, ◌==◌};
ghost use Rattle.std.specs.Prelude.{if◌then◌else◌};
ghost use Rattle.tbl_format.specs.Format.{FormatRow};
ghost use Rattle.tbl_format.specs.RowsServed.{all_rows, row_at};
ghost use Rattle.tbl_kept.specs.Rows.{elements_of};
ghost use Rattle.tbl_lines.specs.PictureLines.{bars_of, line_below};
ghost use Rattle.tbl_lines.specs.PictureLines.{shown_at_edge, shown_behind};
ghost use Rattle.tbl_lines.specs.PictureLines.{Neighbour, OfRules, behind_rules};
ghost use Rattle.tbl_picture.specs.RulesWalked.{AreLengths, AreServed, IsRowThere, LastIs};
ghost use Rattle.tbl_picture.specs.RulesWalked.{LengthsAre};
ghost use Rattle.tbl_picture.specs.RulesWalked.{ShownThrough, line_beside, rows_at, rows_of};
ghost use Rattle.tbl_picture.specs.RulesWalked.{rules_beside, rules_first_beside, shown_through};
ghost use Rattle.tbl_picture.specs.RulesWalked.{with_keys};

use tbl_format::cells::cell_behind;
use tbl_format::format_rows::FormatRows;
use tbl_kept::rows::{Lent, TableRows};
use tbl_layout::bars::{edge_bars, inner_bars};
use tbl_layout::data_lines::RuleSign;
use tbl_lines::fronts::joined_at;
use tbl_lines::row_lent::bars_among;
use tbl_options::options::Boxing;

/// What stands directly above or below a line of the picture: commands between don't count.
#[derive(Clone, Copy)]
pub enum Beside {
    /// No line of a row.
    Nothing,
    /// A line of the row that is this element.
    Row(usize),
}

/// So many rows of rule keys, one after another among the rows of all formats.
#[derive(Clone, Copy)]
pub struct RuleRows {
    /// The first of them.
    pub first: usize,
    /// How many there are.
    pub count: usize,
}

/// How many keys rows of rule keys have.
#[derive(Clone, Copy)]
pub struct Lengths {
    /// How many the nearest has.
    pub nearest: usize,
    /// How many the longest has.
    pub longest: usize,
    /// The last of all rows of the formats that has so many.
    pub last: usize,
}

/// What stands directly above or below a line of rules.
#[derive(Clone, Copy)]
pub struct Side {
    /// The line behind all rows of rule keys that stand there.
    pub line: Beside,
    /// How many keys these rows have, if there are some.
    pub rules: Option<Lengths>,
}

impl Side {
    /// Nothing stands there.
    pub const NOTHING: Side = Side {
        line: Beside::Nothing,
        rules: None,
    };
}

/// What stands below the line in front of an element.
pub(super) fn row_below(rows: &TableRows, element: usize) -> Beside
    requires { element ≤ length rows.now.elements }
    ensures there { IsRowThere rows.now.elements result }
    ensures line { (bytes : List ℕ) (formats : List FormatRow)
        → behind_rules (rules_beside formats rows.now.elements result)
        (line_beside bytes formats true rows.now.elements result)
        ≡ line_below (elements_of bytes formats (drop element rows.now.elements)) }
{
    let mut at = element;
    while at < rows.count() {
        match rows.element(at) {
            Lent::Row(_, _, _, _) => return Beside::Row(at),
            Lent::Rule(_) => return Beside::Nothing,
            Lent::Command(_, _) => at += 1,
        }
    }
    Beside::Nothing
}

/// The rows of rule keys that stand directly in front of a row, or none.
pub(super) fn rules_of(rows: &TableRows, beside: Beside) -> RuleRows
    requires there { IsRowThere rows.now.elements beside }
    ensures value { result ≡ rules_first_beside rows.now.elements beside }
    ensures rows { (formats : List FormatRow) → AreServed formats rows.now.elements
        → rows_of formats result ≡ rules_beside formats rows.now.elements beside }
    ensures within { (formats : List FormatRow) → AreServed formats rows.now.elements
        → result.first + result.count ≤ length formats }
{
    match beside {
        Beside::Nothing => RuleRows { first: 0, count: 0 },
        Beside::Row(element) => match rows.element(element) {
            Lent::Row(keys, rules, _, _) => RuleRows {
                first: keys.saturating_sub(rules),
                count: rules,
            },
            _ => RuleRows { first: 0, count: 0 },
        },
    }
}

/// Behind the last of these rows, which is no further than behind all rows of the formats.
fn rows_end(format: &FormatRows, rules: RuleRows) -> usize
    requires { rules.first + rules.count ≤ length (all_rows format.now.format) }
    ensures { result ≡ rules.first + rules.count }
{
    let all = format.all_rows();
    (rules.first + rules.count).min(all)
}

/// How many keys these rows have, the first of which is the nearest.
pub(super) fn lengths_of(format: &FormatRows, rules: RuleRows) -> Option<Lengths>
    requires { rules.first + rules.count ≤ length (all_rows format.now.format) }
    ensures lengths { LengthsAre (rows_of (all_rows format.now.format) rules) result }
    ensures last { LastIs (all_rows format.now.format) rules.first rules.count result }
{
    if rules.count == 0 {
        return None;
    }
    Some(lengths_of_some(format, rules))
}

/// How many keys these rows have, of which there is one at least, and the first is the nearest.
fn lengths_of_some(format: &FormatRows, rules: RuleRows) -> Lengths
    requires some { 0 < rules.count }
    requires within { rules.first + rules.count ≤ length (all_rows format.now.format) }
    ensures lengths { AreLengths (rows_of (all_rows format.now.format) rules) result }
    ensures last { LastIs (all_rows format.now.format) rules.first rules.count (Some result) }
{
    let nearest = format.row_of_all(rules.first).len();
    let mut lengths = Lengths {
        nearest,
        longest: nearest,
        last: rules.first,
    };
    for at in rules.first..rows_end(format, rules) {
        let keys = format.row_of_all(at).len();
        let more = lengths_with(lengths, keys, at);
        lengths = more;
    }
    lengths
}

/// How many keys rows have with one more behind the others.
fn lengths_with(lengths: Lengths, keys: usize, at: usize) -> Lengths
    ensures { result ≡ with_keys lengths keys at }
{
    if keys < lengths.longest {
        return lengths;
    }
    Lengths {
        nearest: lengths.nearest,
        longest: keys,
        last: at,
    }
}

/// How many keys these rows have, which are all but the first of rows of which the longest is
/// known: that is looked for again only where it was the first.
pub(super) fn lengths_behind(
    format: &FormatRows,
    before: Option<Lengths>,
    rules: RuleRows,
) -> Option<Lengths>
    requires some { 0 < rules.first }
    requires within { rules.first + rules.count ≤ length (all_rows format.now.format) }
    requires lengths { LengthsAre
        (rows_at (all_rows format.now.format) (rules.first - 1) (rules.count + 1)) before }
    requires last { LastIs
        (all_rows format.now.format) (rules.first - 1) (rules.count + 1) before }
    ensures lengths { LengthsAre (rows_of (all_rows format.now.format) rules) result }
    ensures last { LastIs (all_rows format.now.format) rules.first rules.count result }
{
    let lengths = before?;
    if rules.count > 0 && lengths.last >= rules.first {
        return Some(Lengths {
            nearest: format.row_of_all(rules.first).len(),
            longest: lengths.longest,
            last: lengths.last,
        });
    }
    lengths_of(format, rules)
}

/// How many keys rows have with one more, which is nearer than the others.
pub(super) fn lengths_above(before: Option<Lengths>, keys: usize, at: usize) -> Option<Lengths>
    ensures { (boxing : Boxing) (line seen : Neighbour) (format : FormatRow)
        → length format.keys ≡ keys → ShownThrough boxing before line seen
        → ShownThrough boxing result line (OfRules format seen) }
{
    Some(Lengths {
        nearest: keys,
        longest: match before {
            Some(lengths) => lengths.longest.max(keys),
            None => keys,
        },
        last: at,
    })
}

/// How many bars the line that stands there shows in front of a column, which is the first, or
/// behind the last.
pub(super) fn shown_at_edge(
    boxing: Boxing,
    rows: &TableRows,
    format: &FormatRows,
    beside: Beside,
    at: usize,
) -> u8
    requires there { IsRowThere rows.now.elements beside }
    requires served { AreServed (all_rows format.now.format) rows.now.elements }
    ensures { (bytes : List ℕ) (is_below : Bool) → result
        ≡ shown_at_edge boxing (line_beside bytes (all_rows format.now.format) is_below
        rows.now.elements beside) at }
{
    match beside {
        Beside::Nothing => 0,
        Beside::Row(element) => match rows.element(element) {
            Lent::Row(keys, _, _, _) => {
                let row = format.row_of_all(keys);
                match cell_behind(row, at) {
                    Some(cell) => {
                        edge_bars(boxing, bars_among(row, format.bars_of_all(keys), cell))
                    }
                    None => 0,
                }
            }
            _ => 0,
        },
    }
}

/// The most bars that these rows of rule keys have in front of a column, which is the first, or
/// behind the last.
pub(super) fn most_at_edge(boxing: Boxing, format: &FormatRows, rules: RuleRows, at: usize) -> u8
    requires { rules.first + rules.count ≤ length (all_rows format.now.format) }
    ensures { (line : Neighbour) → shown_at_edge boxing
        (behind_rules (rows_of (all_rows format.now.format) rules) line) at
        ≡ max result (shown_at_edge boxing line at) }
{
    let mut most = 0;
    for row in rules.first..rows_end(format, rules) {
        let bars = edge_bars(boxing, format_bars(format, row, at));
        let more = bars.max(most);
        most = more;
    }
    most
}

/// How many bars what stands there, above a line of rules or below it, shows behind a column.
pub(super) fn side_behind(
    boxing: Boxing,
    rows: &TableRows,
    format: &FormatRows,
    side: Side,
    is_below: bool,
    column: usize,
) -> u8
    requires there { IsRowThere rows.now.elements side.line }
    requires served { AreServed (all_rows format.now.format) rows.now.elements }
    requires small { column < 2 ^ 64 - 1 }
    ensures { (bytes : List ℕ) → result ≡ shown_through boxing side.rules column
        (shown_behind boxing (line_beside bytes (all_rows format.now.format) is_below
        rows.now.elements side.line) column) }
{
    match side.rules {
        None => shown_behind(boxing, rows, format, side.line, is_below, column),
        Some(lengths) => {
            if column < lengths.nearest {
                return 0;
            }
            let own = inner_bars(boxing, 0);
            if column < lengths.longest {
                return own;
            }
            shown_behind(boxing, rows, format, side.line, is_below, column).max(own)
        }
    }
}

/// How many bars the line that stands there, above a rule or below it, shows behind a column.
fn shown_behind(
    boxing: Boxing,
    rows: &TableRows,
    format: &FormatRows,
    beside: Beside,
    is_below: bool,
    column: usize,
) -> u8
    requires there { IsRowThere rows.now.elements beside }
    requires served { AreServed (all_rows format.now.format) rows.now.elements }
    requires small { column < 2 ^ 64 - 1 }
    ensures { (bytes : List ℕ) → result
        ≡ shown_behind boxing (line_beside bytes (all_rows format.now.format) is_below
        rows.now.elements beside) column }
{
    match beside {
        Beside::Nothing => 0,
        Beside::Row(element) => match rows.element(element) {
            Lent::Row(keys, _, height, entries) => {
                let row = format.row_of_all(keys);
                let cell = cell_behind(row, column + 1).unwrap_or(0);
                if cell == 0 {
                    return 0;
                }
                let bars = inner_bars(boxing, bars_among(row, format.bars_of_all(keys), cell));
                if bars == 0 || !is_first_line(is_below, height) {
                    return bars;
                }
                let joined = joined_at(row, entries, cell - 1);
                bars_if(joined.is_none(), bars)
            }
            _ => 0,
        },
    }
}

/// How many bars a row of the formats has in front of a column, or behind the last key.
pub(super) fn format_bars(format: &FormatRows, row: usize, at: usize) -> u8
    requires { row < length (all_rows format.now.format) }
    ensures { result ≡ bars_of (row_at (all_rows format.now.format) row) at }
{
    bars_among(format.row_of_all(row), format.bars_of_all(row), at)
}

/// So many bars, if this holds, else none.
fn bars_if(is_bar: bool, bars: u8) -> u8
    ensures { result ≡ (if is_bar then bars else 0) }
{
    if is_bar { bars } else { 0 }
}

/// Whether the line of a row that is so high is its first, which stands below a rule or above one.
fn is_first_line(is_below: bool, height: u32) -> bool
    ensures { result ≡ (is_below || height == 1) }
{
    is_below || height == 1
}
