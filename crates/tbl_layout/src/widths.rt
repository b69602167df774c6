//! How wide the texts and the columns of a table are (Lesk, "Tbl": Formatting).

ghost use Rattle.std.specs.Prelude.{◌≡◌, ◌<◌, ◌≤◌, ◌^◌};
ghost use Rattle.tbl_layout.specs.Widths.{left_edge, right_edge, separation, separation_asked};
ghost use Rattle.tbl_layout.specs.Widths.{width_in_text};

use crate::bars::{Bars, edge_bars, edge_width, inner_bars, last_bars, least_separation};
use input_source::{is_dropped, is_silent};
use roff_num::width_of_byte;
use tbl_format::format::Asked;

/// The width of a byte of a text, in columns: of one that is dropped there is nothing.
#[inline(always)]
pub(crate) fn width_in_text(byte: u8) -> usize
    ensures value { result ≡ width_in_text byte }
    ensures most { result ≤ 1 }
{
    // Most bytes are such, and need no call.
    if byte >= b' ' && byte < 127 {
        return 1;
    }
    other_width(byte)
}

/// The width of any byte of a text, in columns: of one that is dropped or silent there is nothing,
/// nor of a tab.
fn other_width(byte: u8) -> usize
    ensures value { result ≡ width_in_text byte }
    ensures most { result ≤ 1 }
{
    if is_dropped(byte) || byte == b'\t' || is_silent(byte) {
        return 0;
    }
    width_of_byte(byte) as usize
}

/// The separation that is asked behind a column, else 3.
fn separation_asked(asked: Option<u32>) -> usize
    ensures value { result ≡ separation_asked asked }
    ensures most { result < 2 ^ 32 }
{
    match asked {
        None => 3,
        Some(number) => number as usize,
    }
}

/// The separation behind a column, in columns: it has room for the bars there.
pub fn separation(bars: Bars, asked: Asked) -> usize
    ensures value { result ≡ separation bars asked }
    ensures most { result < 2 ^ 32 }
{
    let least = least_separation(inner_bars(bars.boxing, asked.bars));
    separation_asked(asked.separation).max(least)
}

/// The columns of the left edge of the picture.
pub fn left_edge(bars: Bars) -> usize
    ensures value { result ≡ left_edge bars }
    ensures most { result < 1024 }
{
    edge_width(edge_bars(bars.boxing, bars.front))
}

/// The columns of its right edge.
pub fn right_edge(bars: Bars, asked: &[Asked]) -> usize
    ensures value { result ≡ right_edge bars asked.now }
    ensures most { result < 1024 }
{
    edge_width(edge_bars(bars.boxing, last_bars(asked)))
}
