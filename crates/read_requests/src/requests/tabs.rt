//! Tab stops.

ghost use Rattle.std.specs.Prelude.{◌≡◌, ◌/◌, drop};
ghost use Rattle.run_model.specs.Numbers.{at_least_zero};
ghost use Rattle.input_arguments.specs.ArgumentList.{listed};
ghost use Rattle.read_requests.specs.Request.Coded.{stops_response};
ghost use Rattle.run_model.specs.Requests.Tabs.{behind_expression, kind_by, stop_kind, stop_place};
ghost use Rattle.run_model.specs.Requests.Tabs.{tab_stops};

use input_arguments::ArgumentList;
use page_model::{StopKind, TabStop};
use read_meaning::Stops;
use read_registers::{COLUMN, rounded_to_columns, value_beside, value_in};
use roff_num::{NumFault, Scale, eval};

/// Of more stops than this the others are ignored.
const MOST_STOPS: usize = 32;

/// `ta`: the tab stops that these arguments are, none where none are given; `None` if one of them
/// isn't a number, or is out of range.
pub fn tab_stops(given: ArgumentList<'_>) -> Option<Stops>
    ensures { stops_response result ≡ tab_stops (listed given.entry) }
{
    let mut stops = Stops::new();
    let mut before = 0;
    for index in 0..given.len().min(MOST_STOPS) {
        if let Some(text) = given.get(index) {
            match stop_place(before, text) {
                Ok(place) => {
                    before = rounded_to_columns(place);
                    stops.push(TabStop {
                        column: column_of(before),
                        kind: stop_kind(text),
                    });
                }
                Err(_) => return None,
            }
        }
    }
    Some(stops)
}

/// Where a stop lies, in basic units before it is rounded: behind a `+` it counts from the one
/// before.
fn stop_place(before: i32, text: &[u8]) -> Result<i32, NumFault>
    ensures { result ≡ stop_place before text.now }
{
    match text.first() {
        Some(b'+') => value_beside(i64::from(before), Scale::Columns, text),
        _ => value_in(Scale::Columns, text),
    }
}

/// The column of a stop at a place in basic units; one below 0 lies at the line's beginning, as it
/// is behind no place.
fn column_of(place: i32) -> u32
    ensures { result ≡ at_least_zero place / 24 }
{
    place.max(0) as u32 / COLUMN
}

/// The kind of a stop, by the byte directly behind its expression, which stands behind a `+`, if
/// there is one.
fn stop_kind(text: &[u8]) -> StopKind
    ensures { result ≡ stop_kind text.now }
{
    match text {
        [] => StopKind::Left,
        [b'+', expression @ ..] => kind_behind(expression),
        _ => kind_behind(text),
    }
}

/// The kind of a stop that begins with this expression.
fn kind_behind(text: &[u8]) -> StopKind
    ensures { result ≡ kind_by (behind_expression text.now) }
{
    match eval(text, 0, Scale::Columns, Some(0)) {
        Ok((_, behind)) => kind_at(text, behind),
        Err(_) => StopKind::Left,
    }
}

/// The kind that the byte at a place says: `R` and `C` are one, and another byte is nothing.
fn kind_at(text: &[u8], place: usize) -> StopKind
    ensures { result ≡ kind_by (drop place text.now) }
{
    match text.get(place) {
        Some(b'R') => StopKind::Right,
        Some(b'C') => StopKind::Centred,
        _ => StopKind::Left,
    }
}
