//! Where the parts of a title stand.

ghost use Rattle.std.specs.Prelude.{◌≡◌, ◌+◌, ◌<◌, ◌^◌, slice_index_or};
ghost use Rattle.roff_lines.specs.Clauses.{title_columns};

/// The columns at which the left, the centre and the right part of a title stand, told how wide
/// they are and the title's length, in columns (manual, section 14).
///
/// The left part stands at 0. The centre part is centred and the right one ends at the length, but
/// neither begins before the part in front of it ends. A part of no width has its place too.
pub fn place_title(widths: [u64; 3], length: u64) -> [u64; 3]
    requires { slice_index_or widths 0 0 + slice_index_or widths 1 0 + slice_index_or widths 2 0
        + length < 2 ^ 64 }
    ensures { result ≡ title_columns length
        (slice_index_or widths 0 0) (slice_index_or widths 1 0) (slice_index_or widths 2 0) }
{
    let [left, centre, right] = widths;
    let centre_at = (length.saturating_sub(centre) / 2).max(left);
    let right_at = length.saturating_sub(right).max(centre_at + centre);
    [0, centre_at, right_at]
}
