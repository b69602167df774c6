//! What stands in front of the cells of a row, and behind the last, in a picture that has bars
//! (Lesk, "Tbl": Options, Format).

ghost use Rattle.std.specs.Prelude.{◌≡◌, ℕ, suc, ◌-◌, ◌<◌, ◌^◌, ◌∷◌, length, drop};
ghost use Rattle.tbl_lines.specs.RowsLeft.{cell_of_front, fronts_by, is_there};
ghost use Rattle.tbl_lines.specs.RowsLeft.{joined_first, joined_kinds};
ghost use Rattle.tbl_lines.specs.PictureLines.{bars_at, bars_by};
ghost use Rattle.tbl_lines.specs.RowsWalked.{HasBars, IsNarrow};
ghost use Rattle.tbl_lines.specs.RowsLent.{LiesInColumns, lent_columns, lent_entries};
ghost use Rattle.tbl_lines.specs.RowsLent.{lent_format, lent_row, row_fronts_of};
ghost use Rattle.tbl_layout.specs.KeptEntries.{all_entries};

use crate::row_columns::is_ruled;
use crate::row_lent::RowLent;
use tbl_format::format::FormatKey;
use tbl_layout::columns::{Column, bar_place};
use tbl_layout::data_lines::RuleSign;
use tbl_layout::entry::{Entry, EntryKind};
use tbl_layout::rule_keys::entry_at;

/// What stands in front of a cell.
#[derive(Clone, Copy)]
pub enum Front {
    /// Nothing.
    Nothing,
    /// Bars: the column of the page where they begin, and how many.
    Bars(usize, u8),
    /// Bars that two rules of the row cross on its first line: the column of the page where they
    /// begin, how many, the sign of the rules, and where the second one's column begins.
    Crossed(usize, u8, RuleSign, usize),
    /// A rule with this sign from a column of the page on, which so many bars cross at another one,
    /// and which ends there.
    Ruled(usize, RuleSign, usize, u8, usize),
}

/// What stands in front of a cell, or behind the last.
// It is called for each cell of a picture with bars.
#[inline(always)]
pub fn front_at(row: &RowLent<'_>, at: usize) -> Front
    requires within { at < length (row_fronts_of (lent_row row.now)) }
    requires lies { LiesInColumns row.now }
    ensures at { let all = row_fronts_of (lent_row row.now) in
        drop at all ≡ cell_of_front result ∷ drop (suc at) all }
    ensures some { HasBars result }
{
    match row.fronts {
        Some(fronts) => fronts[at],
        None => front_by_keys(row, at),
    }
}

/// What the keys of a row say that stands in front of a cell, or behind the last.
// It is called for each cell of a picture with bars.
#[inline(always)]
fn front_by_keys(row: &RowLent<'_>, at: usize) -> Front
    requires within { at < length (fronts_by row.now.bars row.now.width (lent_format row.now)
        (lent_columns row.now) (lent_entries row.now)) }
    requires lies { LiesInColumns row.now }
    ensures at { let all = fronts_by row.now.bars row.now.width (lent_format row.now)
        (lent_columns row.now) (lent_entries row.now) in
        drop at all ≡ cell_of_front result ∷ drop (suc at) all }
    ensures some { HasBars result }
{
    if at == 0 {
        return edge_front(0, row.edge_bars(0));
    }
    let cells = row.cells();
    if at >= cells {
        let bars = row.edge_bars(cells);
        return edge_front(row.width.saturating_sub(bars as usize), bars);
    }
    between(
        row.bars_between(at),
        joined_at(row.keys, row.entries, at - 1),
        row.cell(at - 1),
        row.cell(at),
    )
}

/// So many bars at an edge, which begin at a column of the page.
// It is called for each cell of a picture with bars.
#[inline(always)]
fn edge_front(place: usize, bars: u8) -> Front
    ensures cell { cell_of_front result ≡ bars_at place bars }
    ensures some { HasBars result }
{
    if bars == 0 {
        Front::Nothing
    } else {
        Front::Bars(place, bars)
    }
}

/// So many bars between a cell and the next, which rules of this sign may cross.
// It is called for each cell of a picture with bars.
#[inline(always)]
fn between(bars: u8, joined: Option<RuleSign>, column: Column, next: Column) -> Front
    requires { IsNarrow column }
    ensures cell { cell_of_front result ≡ bars_by joined bars column next }
    ensures some { HasBars result }
{
    if bars == 0 {
        return Front::Nothing;
    }
    let place = bar_place(bars, column, next);
    match joined {
        Some(sign) => Front::Crossed(place, bars, sign, next.start),
        None => Front::Bars(place, bars),
    }
}

/// The sign of the field of a cell and the next, if they are the same rule, in a row that has
/// these keys and these fields.
pub fn joined_at(keys: &[FormatKey], entries: &[Entry], at: usize) -> Option<RuleSign>
    requires { at < 2 ^ 64 - 1 }
    ensures { (bars : ℕ) → result ≡ joined_first
        (drop at (all_entries (record { keys = keys.now; bars = bars }) entries.now)) }
{
    match entry_at(keys, entries, at).kind {
        EntryKind::Ruled(sign) => joined_with(sign, entry_at(keys, entries, at + 1).kind),
        _ => None,
    }
}

/// This sign, if the next field is a rule that is drawn alike.
// Such a rule is rare.
#[inline(never)]
fn joined_with(sign: RuleSign, next: EntryKind) -> Option<RuleSign>
    ensures { result ≡ joined_kinds (EntryKind.Ruled sign) next }
{
    if is_ruled(sign, next) {
        Some(sign)
    } else {
        None
    }
}

impl Front {
    /// Whether something stands there.
    pub fn is_some(self) -> bool
        ensures { result ≡ is_there self }
    {
        match self {
            Front::Nothing => false,
            Front::Bars(_, _) => true,
            Front::Crossed(_, _, _, _) => true,
            Front::Ruled(from, _, _, _, end) => from < end,
        }
    }
}
