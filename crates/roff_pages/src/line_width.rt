//! How wide a line is.

ghost use Rattle.std.specs.Prelude.{◌≡◌};
ghost use Rattle.page_model.specs.Columns.{added_columns, finished_of, printed};
ghost use Rattle.page_model.specs.Glyphs.{gaps_in, text_width};
ghost use Rattle.roff_pages.specs.Pages.Counted.{counted};

use crate::pages::MOST_COUNTED;
use page_model::{GAP, Line};
use roff_num::width_of_byte;

/// How wide a line is as it is printed, in columns. No more than 2^33 are counted.
pub(crate) fn width_of_line(line: Line<'_>) -> u64
    ensures { counted result ≡ counted (text_width (printed (finished_of line.entry))) }
{
    let (width, gaps) = width_and_gaps(line.text);
    let added = columns_added(line.spare, line.gaps, gaps);
    (u128::from(line.lead) + u128::from(width))
        .saturating_add(added)
        .min(u128::from(MOST_COUNTED)) as u64
}

/// How wide a text is without what adjusting adds, in columns, and how many gaps it has.
fn width_and_gaps(text: &[u8]) -> (u64, u64)
    ensures width { result.0 ≡ text_width text.now }
    ensures gaps { result.1 ≡ gaps_in text.now }
{
    let mut width = 0;
    let mut gaps = 0;
    for byte in text {
        width += width_of_byte(*byte);
        if *byte == GAP {
            gaps += 1;
        }
    }
    (width, gaps)
}

/// The columns that adjusting adds in front of a gap, in all.
fn columns_added(spare: u64, gaps: u64, gap: u64) -> u128
    ensures { result ≡ added_columns spare gaps gap }
{
    if gaps == 0 {
        return 0;
    }
    u128::from(gap) * u128::from(spare) / u128::from(gaps)
}
