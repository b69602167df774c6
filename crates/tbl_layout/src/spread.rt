//! The columns of the page that entries of several columns lack, spread over these columns (Lesk,
//! "Tbl": Format).

ghost use Rattle.std.specs.Prelude.{◌≡◌, suc, ◌+◌, ◌-◌, ◌*◌, ◌/◌, ◌<◌, ◌≤◌, ◌^◌, length, map};
ghost use Rattle.tbl_layout.specs.Columns.{total};
ghost use Rattle.tbl_layout.specs.Spans.{lacks, spread_over};

use crate::bars::Bars;
use crate::columns::{Column, all_gaps, total_width};
use tbl_format::format::Asked;

/// How much wider an entry is than these columns and the separations between.
pub(crate) fn lacks(columns: &[Column], bars: Bars, asked: &[Asked], width: u64) -> usize
    ensures { result ≡ lacks bars asked.now columns.now width }
{
    let own = total_width(columns).saturating_add(all_gaps(bars, asked));
    (width as usize).saturating_sub(own)
}

/// So many columns of the page are spread over columns.
pub(crate) fn spread_over(columns: &mut [Column], more: usize)
    requires few { length columns.old < 2 ^ 32 }
    requires small { total (map (λ c. c.width) columns.old) + more < 2 ^ 64 }
    ensures { columns.new ≡ spread_over more (length columns.old) 0 columns.old }
{
    let count = columns.len();
    for at in 0..count {
        let mut column = columns[at];
        column.width += part_of(more, count, at);
        columns[at] = column;
    }
}

/// The part of what is spread over so many columns that falls to the one behind some of them.
fn part_of(more: usize, count: usize, at: usize) -> usize
    requires few { count < 2 ^ 32 }
    requires within { at < count }
    ensures value { result ≡ suc at * more / count - at * more / count }
    ensures most { result ≤ more }
{
    let rest = more % count;
    more / count + ((at + 1) * rest / count - at * rest / count)
}
