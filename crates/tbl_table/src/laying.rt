//! How a table is laid out that is whole.

ghost use Rattle.std.specs.Prelude.{◌≡◌, ◌+◌, ◌-◌, ◌<◌, ◌^◌, min, length, Bool, List, ℕ};
ghost use Rattle.tbl_data.specs.TableData.{DataFits};
ghost use Rattle.tbl_data.specs.declared.table_data.OpenBlock.TheVariants.{Nothing};
ghost use Rattle.tbl_format.specs.Format.{FormatRow};
ghost use Rattle.tbl_kept.specs.Rows.{RowsLaid};
ghost use Rattle.tbl_layout.specs.Columns.{width_of_all};
ghost use Rattle.tbl_giving.specs.Frame.{indent};
ghost use Rattle.tbl_table.specs.Laying.{IsLaid, lacking_by, laid_by, with_places};

use tbl_data::table_data::TableData;
use tbl_layout::bars::Bars;
use tbl_layout::columns::{all_gaps, lacking, width_of_all};

/// How wide a picture is: its columns, or 2^64 - 1 if there are more, and how many of them are
/// spread between those of the table.
#[derive(Clone, Copy)]
pub struct LaidWidth {
    /// All columns.
    pub width: usize,
    /// Those that are spread.
    pub more: usize,
}

/// The columns of a table get their widths, and its blocks their lines; it lies in these bytes.
pub fn lay_out(
    kept: &mut TableData,
    bars: Bars,
    is_expanded: bool,
    settled: &[u8],
    line_length: u32,
) -> LaidWidth
    requires small { length settled.now < 2 ^ 32 }
    requires fits { DataFits settled.now kept.old }
    requires closed { kept.old.open ≡ Nothing }
    ensures laid { IsLaid settled.now bars line_length kept.old kept.new }
    ensures width { result.width
        ≡ min (laid_by bars is_expanded line_length settled.now kept.old).width (2 ^ 64 - 1) }
    ensures more { result.more ≡ lacking_by bars is_expanded line_length settled.now kept.old }
    ensures few { result.more < 2 ^ 32 }
{
    kept.rows.set_widths(&mut kept.escapes, settled, &kept.format, bars, line_length);
    let width = width_of_all(bars, kept.rows.columns(), kept.format.asked());
    let more = lacking(
        is_expanded,
        line_length,
        width,
        all_gaps(bars, kept.format.asked()),
    );
    LaidWidth {
        width: width.saturating_add(more),
        more,
    }
}

/// The columns of a table get their places, where so many columns of the page are spread over the
/// gaps.
pub fn set_places(kept: &mut TableData, bars: Bars, more: usize)
    requires { width_of_all bars kept.old.rows.columns kept.old.format.format.asked + more
        < 2 ^ 32 }
    ensures value { kept.new ≡ with_places bars more kept.old }
    ensures laid { (bytes : List ℕ) (formats : List FormatRow) (is_inside : Bool)
        → RowsLaid bytes formats is_inside kept.old.rows
        → RowsLaid bytes formats is_inside kept.new.rows }
{
    kept.rows.set_starts(bars, kept.format.asked(), more);
}

/// How far a picture is indented that has so many columns.
pub fn indent(is_centered: bool, line_length: u32, width: usize) -> u32
    ensures { result ≡ indent is_centered line_length width }
{
    if is_centered {
        ((line_length as usize).saturating_sub(width) / 2) as u32
    } else {
        0
    }
}
