//! The bars of a table's picture (Lesk, "Tbl": Options, Format).

ghost use Rattle.std.specs.Prelude.{◌≡◌, ◌<◌, ◌≤◌};
ghost use Rattle.tbl_layout.specs.Widths.{edge_bars, edge_width, has_bar, inner_bars, last_bars};
ghost use Rattle.tbl_layout.specs.Widths.{least_separation, table_bars};

use tbl_format::format::Asked;
use tbl_format::format_rows::FormatRows;
use tbl_options::options::Boxing;

/// What of a picture's bars isn't said by the rows of its formats alone.
#[derive(Clone, Copy)]
pub struct Bars {
    /// How the picture is boxed.
    pub boxing: Boxing,
    /// The most bars in front of a row's first key.
    pub front: u8,
    /// Whether it has a bar at all, or may have one.
    pub has_any: bool,
}

impl Bars {
    /// No bar.
    pub const NOTHING: Bars = Bars {
        boxing: Boxing::NOTHING,
        front: 0,
        has_any: false,
    };

    /// The bars of a table with these formats, whose picture is boxed so.
    pub fn of(boxing: Boxing, format: &FormatRows) -> Bars
        ensures { result ≡ table_bars boxing format.now.format }
    {
        let front = format.front_bars();
        let is_boxed = boxing.bars != 0 || boxing.is_inside;
        Bars {
            boxing,
            front,
            has_any: is_boxed || front != 0 || has_bar(format.asked()),
        }
    }
}

/// Whether a format has a bar behind a column.
fn has_bar(asked: &[Asked]) -> bool
    ensures { result ≡ has_bar asked.now }
{
    for column in asked {
        if column.bars != 0 {
            return true;
        }
    }
    false
}

/// How many bars stand at an edge, where a format has so many.
pub fn edge_bars(boxing: Boxing, count: u8) -> u8
    ensures { result ≡ edge_bars boxing count }
{
    boxing.bars.max(count)
}

/// How many bars stand between two columns, where a format has so many.
pub fn inner_bars(boxing: Boxing, count: u8) -> u8
    ensures { result ≡ inner_bars boxing count }
{
    if boxing.is_inside {
        count.max(1)
    } else {
        count
    }
}

/// The places that a separation has at least with so many bars.
pub(crate) fn least_separation(bars: u8) -> usize
    ensures value { result ≡ least_separation bars }
    ensures most { result < 1024 }
{
    if bars == 0 { 0 } else { bars as usize + 2 }
}

/// The columns of an edge with so many bars.
pub(crate) fn edge_width(bars: u8) -> usize
    ensures value { result ≡ edge_width bars }
    ensures most { result < 1024 }
{
    if bars == 0 { 0 } else { bars as usize + 1 }
}

/// The bars behind the last column.
pub(crate) fn last_bars(asked: &[Asked]) -> u8
    ensures { result ≡ last_bars asked.now }
{
    match asked.last() {
        Some(column) => column.bars,
        None => 0,
    }
}
