//! Adjusting and centring.

ghost use Rattle.std.specs.Prelude.{◌≡◌, ℕ, List, slice_get};
ghost use Rattle.std.specs.Option.{option_copied};
ghost use Rattle.read_requests.specs.Request.Coded.{response_of};
ghost use Rattle.run_model.specs.Requests.Adjustment.{adjust, centre, mode_named, mode_wanted};

use crate::requests::Response;
use page_model::{AdjustMode, Event, Param};
use read_registers::value_in;
use roff_num::Scale;
use run_model::PageEvent;

/// `ad`: adjusting on, in the mode of the argument or the one in force.
pub(super) fn adjust(argument: Option<&[u8]>) -> Response
    ensures { (as_given : List (List ℕ)) → option_copied argument.entry ≡ slice_get as_given 0
        → response_of as_given result ≡ adjust as_given }
{
    match mode_wanted(argument) {
        None => Response::setting(Param::Adjusting(true)),
        Some(mode) => Response::Two(
            PageEvent::Text(Event::Set(Param::Mode(mode))),
            PageEvent::Text(Event::Set(Param::Adjusting(true))),
        ),
    }
}

/// `ce`: so many lines are centred, one where no number is given.
pub(super) fn centre(argument: Option<&[u8]>) -> Response
    ensures { (as_given : List (List ℕ)) → option_copied argument.entry ≡ slice_get as_given 0
        → response_of as_given result ≡ centre as_given }
{
    match argument {
        None => Response::setting(Param::Centring(1)),
        Some(text) => match value_in(Scale::Units, text) {
            Ok(count) => Response::setting(Param::Centring(count.max(0) as u32)),
            Err(_) => Response::bad_number(),
        },
    }
}

/// The mode that the first letter of an argument stands for.
fn mode_wanted(argument: Option<&[u8]>) -> Option<AdjustMode>
    ensures { (as_given : List (List ℕ)) → option_copied argument.entry ≡ slice_get as_given 0
        → result ≡ mode_wanted as_given }
{
    mode_named(*argument?.first()?)
}

/// The mode of adjusting that a letter stands for.
fn mode_named(letter: u8) -> Option<AdjustMode>
    ensures { result ≡ mode_named letter }
{
    match letter {
        b'l' => Some(AdjustMode::Left),
        b'r' => Some(AdjustMode::Right),
        b'c' => Some(AdjustMode::Centre),
        b'b' | b'n' => Some(AdjustMode::Both),
        _ => None,
    }
}
