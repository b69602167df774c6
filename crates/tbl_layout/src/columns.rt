//! The columns of a table: how wide they are, and where they begin (Lesk, "Tbl": Format,
//! Formatting).

ghost use Rattle.std.specs.Prelude.{◌≡◌, ◌+◌, ◌-◌, ◌<◌, ◌^◌, length, map, min};
ghost use Rattle.tbl_layout.specs.Columns.{alone, bar_place, bars_end};
ghost use Rattle.tbl_layout.specs.Columns.{equal_width, equal_widths, equalled, gaps};
ghost use Rattle.tbl_layout.specs.Columns.{greatest};
ghost use Rattle.tbl_layout.specs.Columns.{in_strip};
ghost use Rattle.tbl_layout.specs.Columns.{lacking, made_equal, needing, place_in};
ghost use Rattle.tbl_layout.specs.Columns.{place_of_rule, placed_with, share, shift, shift_of_rule};
ghost use Rattle.tbl_layout.specs.Columns.{total, unsplit, widest_entry, width_by};
ghost use Rattle.tbl_layout.specs.Columns.{width_of_all, with_bars, with_equal, with_widths};
ghost use Rattle.tbl_layout.specs.Spans.{lacks, spread_over};

use crate::bars::Bars;
use crate::spread::{lacks, spread_over};
use crate::widths::{left_edge, right_edge, separation};
use tbl_format::format::{Asked, Key};

/// How an entry stands in its column. The numbers are columns of the page.
#[derive(Clone, Copy)]
pub enum Stands {
    /// Nowhere: it has no text.
    Nowhere,
    /// Split in two: the part left of its column's units, and the part right of them.
    Apart(u32, u32),
    /// In the strip of the entries under `a`.
    InStrip(u64),
    /// Alone.
    Alone(u64),
}

/// What the entries of a column need, in columns of the page.
#[derive(Clone, Copy)]
pub struct Needs {
    /// The widest entry that stands alone.
    pub alone: u64,
    /// The widest entry under `a`, with a place in front.
    pub strip: u64,
    /// The widest part left of units.
    pub left: u32,
    /// The widest part right of units.
    pub right: u32,
    /// The widest entry that is split.
    pub split: u64,
}

/// A column: what its entries need, and at last how wide it is and where it begins.
#[derive(Clone, Copy)]
pub struct Column {
    /// What its entries need.
    pub needs: Needs,
    /// The most bars that any row has behind it.
    pub bars: u8,
    /// How wide it is.
    pub width: usize,
    /// Where it begins.
    pub start: usize,
}

impl Stands {
    /// The columns of an entry that stands alone, else 0.
    pub fn alone(self) -> u64
        ensures { result ≡ alone self }
    {
        match self {
            Stands::Nowhere => 0,
            Stands::Apart(_, _) => 0,
            Stands::InStrip(_) => 0,
            Stands::Alone(columns) => columns,
        }
    }
}

impl Needs {
    /// No entry.
    pub const NOTHING: Needs = Needs {
        alone: 0,
        strip: 0,
        left: 0,
        right: 0,
        split: 0,
    };

    /// With an entry more.
    #[inline]
    pub fn with(self, entry: Stands) -> Needs
        requires { in_strip entry < 2 ^ 64 }
        ensures { result ≡ needing self entry }
    {
        match entry {
            Stands::Nowhere => self,
            Stands::Apart(left, right) => Needs {
                alone: self.alone,
                strip: self.strip,
                left: self.left.max(left),
                right: self.right.max(right),
                split: self.split.max(u64::from(left) + u64::from(right)),
            },
            Stands::InStrip(columns) => Needs {
                alone: self.alone,
                strip: self.strip.max(columns + 1),
                left: self.left,
                right: self.right,
                split: self.split,
            },
            Stands::Alone(columns) => Needs {
                alone: self.alone.max(columns),
                strip: self.strip,
                left: self.left,
                right: self.right,
                split: self.split,
            },
        }
    }

    /// The columns of the widest entry.
    pub fn widest_entry(self) -> usize
        ensures { result ≡ widest_entry self }
    {
        let others = self.strip.saturating_sub(1).max(self.split);
        self.alone.max(others) as usize
    }

    /// The least width that holds all entries, and what is asked.
    fn width(self, asked: Asked) -> usize
        ensures { result ≡ width_by asked self }
    {
        let sides = self.left as usize + self.right as usize;
        let entries = (self.alone as usize).max(self.strip as usize).max(sides);
        entries.max(asked.least.unwrap_or(0) as usize)
    }
}

/// An entry that isn't split, by its key.
#[inline]
pub fn unsplit(key: Key, columns: u64) -> Stands
    ensures { result ≡ unsplit key columns }
{
    match key {
        Key::Alphabetic => Stands::InStrip(columns),
        _ => Stands::Alone(columns),
    }
}

/// Columns have room for an entry that is so wide, which goes over all of them: what it lacks is
/// spread.
pub fn fit(columns: &mut [Column], bars: Bars, asked: &[Asked], width: u64)
    requires few { length columns.old < 2 ^ 32 }
    ensures { columns.new ≡ spread_over (lacks bars asked.now columns.old width)
        (length columns.old) 0 columns.old }
{
    let more = lacks(columns, bars, asked, width);
    if more > 0 {
        spread_over(columns, more);
    }
}

/// How wide columns are together, or 2^64 - 1 if they are wider.
pub(crate) fn total_width(columns: &[Column]) -> usize
    ensures { result ≡ min (total (map (λ c. c.width) columns.now)) (2 ^ 64 - 1) }
{
    let mut width: usize = 0;
    for column in columns {
        width = width.saturating_add(column.width);
    }
    width
}

/// Each column has the most bars behind it.
pub fn set_bars(columns: &mut [Column], asked: &[Asked])
    ensures { columns.new ≡ with_bars asked.now columns.old }
{
    for at in 0..columns.len().min(asked.len()) {
        let mut column = columns[at];
        column.bars = asked[at].bars;
        columns[at] = column;
    }
}

/// Gives those with `e` the greatest of their widths.
pub fn make_equal(columns: &mut [Column], asked: &[Asked])
    ensures { columns.new ≡ equalled asked.now columns.old }
{
    let width = equal_width(columns, asked);
    set_equal(columns, asked, width);
}

/// Gives each column the width that its own entries need.
pub fn set_needed(columns: &mut [Column], asked: &[Asked])
    ensures { columns.new ≡ with_widths asked.now columns.old }
{
    for at in 0..columns.len().min(asked.len()) {
        let mut column = columns[at];
        column.width = column.needs.width(asked[at]);
        columns[at] = column;
    }
}

/// The greatest width of a column with `e`.
fn equal_width(columns: &[Column], asked: &[Asked]) -> usize
    ensures { result ≡ greatest (equal_widths asked.now columns.now) }
{
    let mut width: usize = 0;
    for at in 0..columns.len().min(asked.len()) {
        width = width.max(columns[at].equal_width(asked[at]));
    }
    width
}

/// Gives each column with `e` a width.
fn set_equal(columns: &mut [Column], asked: &[Asked], width: usize)
    ensures { columns.new ≡ with_equal width asked.now columns.old }
{
    for at in 0..columns.len().min(asked.len()) {
        columns[at] = columns[at].made_equal(asked[at], width);
    }
}

/// The gaps between columns, or 2^64 - 1 if they are more.
pub fn all_gaps(bars: Bars, asked: &[Asked]) -> usize
    ensures { result ≡ min (total (gaps bars asked.now)) (2 ^ 64 - 1) }
{
    let mut all: usize = 0;
    let mut gap = 0;
    for at in 0..asked.len() {
        all = all.saturating_add(gap);
        gap = separation(bars, asked[at]);
    }
    all
}

/// The width of columns with the gaps between them and the edges, or 2^64 - 1 if it is greater.
pub fn width_of_all(bars: Bars, columns: &[Column], asked: &[Asked]) -> usize
    ensures { result ≡ min (width_of_all bars columns.now asked.now) (2 ^ 64 - 1) }
{
    total_width(columns)
        .saturating_add(all_gaps(bars, asked))
        .saturating_add(left_edge(bars) + right_edge(bars, asked))
}

/// How many columns of the page are spread over gaps, so that a picture of a width is as wide as
/// the line.
pub fn lacking(is_expanded: bool, line_length: u32, width: usize, gaps: usize) -> usize
    ensures value { result ≡ lacking is_expanded line_length width gaps }
    ensures most { result < 2 ^ 32 }
{
    if is_expanded && gaps != 0 {
        (line_length as usize).saturating_sub(width)
    } else {
        0
    }
}

/// Gives each column its place, the first one behind the edge. So many columns of the page more are
/// spread over the gaps.
pub fn set_starts(columns: &mut [Column], bars: Bars, asked: &[Asked], more: usize)
    requires { width_of_all bars columns.old asked.now + more < 2 ^ 32 }
    ensures { columns.new ≡ placed_with bars more asked.now columns.old }
{
    let all = all_gaps(bars, asked);
    let mut place = left_edge(bars);
    let mut front = 0;
    let mut gap = 0;
    for at in 0..columns.len().min(asked.len()) {
        let mut column = columns[at];
        let before = share(more, front, all);
        front += gap;
        column.start = place + (gap + (share(more, front, all).saturating_sub(before)));
        columns[at] = column;
        place = column.start + column.width;
        gap = separation(bars, asked[at]);
    }
}

/// The part of what is spread that falls to a front of all gaps.
fn share(more: usize, front: usize, all: usize) -> usize
    requires more { more < 2 ^ 32 }
    requires front { front < 2 ^ 32 }
    ensures { result ≡ share more front all }
{
    if all == 0 { 0 } else { more * front / all }
}

impl Column {
    /// A column without an entry.
    pub const EMPTY: Column = Column {
        needs: Needs::NOTHING,
        bars: 0,
        width: 0,
        start: 0,
    };

    /// The width of this column, if it has `e`, and else 0.
    fn equal_width(self, asked: Asked) -> usize
        ensures { result ≡ equal_width asked self }
    {
        if asked.is_equal { self.width } else { 0 }
    }

    /// With a width, if it has `e`.
    fn made_equal(self, asked: Asked, width: usize) -> Column
        ensures { result ≡ made_equal width asked self }
    {
        if asked.is_equal {
            return Column {
                needs: self.needs,
                bars: self.bars,
                width,
                start: self.start,
            };
        }
        self
    }

    /// Where an entry begins in it, by the key.
    #[inline]
    pub fn place_of(self, key: Key, entry: Stands) -> usize
        ensures { result ≡ place_in self key entry }
    {
        match entry {
            Stands::Nowhere => 0,
            Stands::Apart(left, _) => {
                let sides = self.needs.left as usize + self.needs.right as usize;
                let middle = self.width.saturating_sub(sides) / 2 + self.needs.left as usize;
                middle.saturating_sub(left as usize)
            }
            Stands::InStrip(_) => {
                let strip = (self.needs.strip as usize).saturating_sub(1);
                (self.width.saturating_sub(strip) / 2).max(1)
            }
            Stands::Alone(columns) => { shift(key, self.width.saturating_sub(columns as usize)) }
        }
    }

    /// Where a rule begins in it that is as wide as its widest entry, by the key.
    pub fn place_of_rule(self, key: Key) -> usize
        ensures { result ≡ place_of_rule self key }
    {
        shift_of_rule(key, self.width.saturating_sub(self.needs.widest_entry()))
    }
}

/// Where so many bars begin between two columns.
pub fn bar_place(bars: u8, column: Column, next: Column) -> usize
    requires { column.start + column.width < 2 ^ 63 }
    ensures { result ≡ bar_place bars column next }
{
    let end = column.start + column.width;
    end + next.start.saturating_sub(end).saturating_sub(bars as usize) / 2
}

/// Where the places of bars end behind a column and in front of the next one.
pub fn bars_end(column: Column, next: Column) -> usize
    requires { column.start + column.width < 2 ^ 63 }
    ensures { result ≡ bars_end column next }
{
    let end = column.start + column.width;
    let gap = next.start.saturating_sub(end);
    let count = (column.bars.max(1) as usize).min(gap);
    end + (gap - count) / 2 + count
}

/// How far a rule is moved that is as wide as its column's widest entry, by the key and the columns
/// to spare.
fn shift_of_rule(key: Key, spare: usize) -> usize
    ensures { result ≡ shift_of_rule key spare }
{
    match key {
        Key::Right => spare,
        Key::Center => spare / 2,
        _ => 0,
    }
}

/// How far an entry that stands alone is moved, by the key and the columns to spare.
#[inline]
fn shift(key: Key, spare: usize) -> usize
    ensures { result ≡ shift key spare }
{
    match key {
        Key::Right => spare,
        Key::Center | Key::Numeric | Key::WideNumeric => spare / 2,
        _ => 0,
    }
}
