//! Switching to another environment, and back.

ghost use Rattle.std.specs.Prelude.{◌≡◌, ℕ, List, slice_get, Ok};
ghost use Rattle.std.specs.Option.{option_copied};
ghost use Rattle.run_model.specs.Registers.{Known};
ghost use Rattle.read_requests.specs.Request.Coded.{response_of};
ghost use Rattle.run_model.specs.Requests.Switching.{switch, switching_by, switching_to};

use crate::requests::Response;
use read_registers::value_in;
use roff_num::Scale;
use run_model::{EnvironmentNumber, PageEvent};

/// `ev`: another environment, or back to the one that was left last where no number is given.
pub(super) fn switch(has_left: bool, argument: Option<&[u8]>) -> Response
    ensures { (k : Known) (as_given : List (List ℕ)) → has_left ≡ k.has_left
        → option_copied argument.entry ≡ slice_get as_given 0
        → response_of as_given result ≡ switch k as_given }
{
    match argument {
        None => {
            if has_left {
                Response::Happens(PageEvent::Back)
            } else {
                Response::no_such_environment()
            }
        }
        Some(text) => match value_in(Scale::Units, text) {
            Ok(number) => switching_by(number),
            Err(_) => Response::bad_number(),
        },
    }
}

/// The environment is left for that of a number, if there is one.
fn switching_by(number: i32) -> Response
    ensures { (as_given : List (List ℕ)) → response_of as_given result ≡ switching_by (Ok number) }
{
    match u32::try_from(number) {
        Ok(number) => switching_to(EnvironmentNumber::of(number)),
        Err(_) => Response::no_such_environment(),
    }
}

/// The environment is left for this one, if there is one.
fn switching_to(number: Option<EnvironmentNumber>) -> Response
    ensures { (as_given : List (List ℕ)) → response_of as_given result ≡ switching_to number }
{
    match number {
        Some(number) => Response::Happens(PageEvent::Environment(number)),
        None => Response::no_such_environment(),
    }
}
