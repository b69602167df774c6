//! Diversions: they are opened and ended, and get a trap.

ghost use Rattle.std.specs.Prelude.{◌≡◌, ℕ, List, slice_get};
ghost use Rattle.std.specs.Option.{option_copied};
ghost use Rattle.read_requests.specs.Request.Coded.{KnowsPages, response_of};
ghost use Rattle.run_model.specs.Registers.{Known};
ghost use Rattle.run_model.specs.Requests.Diverting.{divert, diversion_trap, diversion_trapped};

use crate::requests::naming::name_in;
use crate::requests::traps::place_given;
use crate::requests::{PageFacts, Response};
use page_model::{LayoutEvent, Trap};
use roff_num::{NumFault, ShortName};

/// `di`, and `da`, which appends: a diversion of a name is opened; without a name the innermost one
/// ends.
pub(super) fn divert(appends: bool, first: Option<&[u8]>) -> Response
    ensures { (as_given : List (List ℕ)) → option_copied first.entry ≡ slice_get as_given 0
        → response_of as_given result ≡ divert appends as_given }
{
    match name_in(first) {
        Some(name) => Response::on_page(LayoutEvent::Divert(name, appends)),
        None => Response::on_page(LayoutEvent::EndDivert),
    }
}

/// `dt`: the innermost open diversion gets a trap at a place; without a name or a place it has none
/// any more.
pub(super) fn diversion_trap(
    known: PageFacts,
    first: Option<&[u8]>,
    second: Option<&[u8]>,
) -> Response
    ensures { (k : Known) (as_given : List (List ℕ)) → KnowsPages k.layout known
        → option_copied first.entry ≡ slice_get as_given 0
        → option_copied second.entry ≡ slice_get as_given 1
        → response_of as_given result ≡ diversion_trap k as_given }
{
    match first {
        None => Response::on_page(LayoutEvent::NoDiversionTrap),
        Some(text) => trapped(name_in(second), place_given(known, text)),
    }
}

/// A macro springs at a place of it, or without a name none does any more.
fn trapped(name: Option<ShortName>, place: Result<i32, NumFault>) -> Response
    ensures { (as_given : List (List ℕ))
        → response_of as_given result ≡ diversion_trapped name place }
{
    match (place, name) {
        (Ok(place), Some(name)) => {
            Response::on_page(LayoutEvent::DiversionTrap(Trap { place, name }))
        }
        (Ok(_), None) => Response::on_page(LayoutEvent::NoDiversionTrap),
        (Err(_), _) => Response::bad_number(),
    }
}
