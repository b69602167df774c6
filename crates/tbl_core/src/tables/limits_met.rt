//! The limits that the bytes of tables meet, and the messages of these and of tables that aren't
//! ended.

ghost use Rattle.std.specs.Prelude.{◌≡◌, option_to_list};
ghost use Rattle.tbl_core.specs.Machine.{limit_inside, not_ended, own_told};
ghost use Rattle.tbl_core.specs.Tables.{position_behind};

use crate::place::{Front, Position};
use roff_num::Limit;
use tbl_format::limits::TblLimits;
use tbl_options::message::{Message, Told};
use tbl_table::table::Table;

/// The message of a limit that was met.
pub(super) fn own_told(limits: TblLimits, limit: Option<Limit>, line: u32) -> Option<Told>
    ensures { option_to_list result ≡ own_told limits line limit }
{
    let limit = limit?;
    Some(Told {
        line,
        message: Message::LimitReached(limit, limits.value(limit)),
    })
}

/// Where the next byte stands behind a table, unless a limit has stopped there.
pub(super) fn position_behind(limit: Option<Limit>, front: Front) -> Position
    ensures { result ≡ position_behind limit front }
{
    match limit {
        Some(limit) => Position::Over(limit),
        None => Position::Outside(front),
    }
}

/// The message of a table that isn't ended, unless it was reported otherwise.
pub(super) fn not_ended(line: u32, is_reported: bool) -> Option<Told>
    ensures { option_to_list result ≡ not_ended line is_reported }
{
    if is_reported {
        None
    } else {
        Some(Told {
            line,
            message: Message::TableNotEnded,
        })
    }
}

/// The limit that a byte of a table meets: on rows at the newline that ends one, on columns at a
/// key, on the table's bytes at one that can't be of its `.TE` line.
pub(super) fn limit_met(limits: TblLimits, table: &Table, front: Front, byte: u8) -> Option<Limit>
    ensures { result ≡ limit_inside limits byte front table.now.reading }
{
    if byte == b'\n' && table.rows_with_line() > limits.rows as usize {
        Some(Limit::Rows)
    } else if table.columns_with(byte) > limits.columns as usize {
        Some(Limit::Columns)
    } else if !front.behind(b'E', byte).is_of_name() && table.len() >= limits.text as usize {
        Some(Limit::Text)
    } else {
        None
    }
}
