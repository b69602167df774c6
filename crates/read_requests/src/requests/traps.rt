//! Traps of pages: they are planted, moved and removed.

ghost use Rattle.std.specs.Prelude.{◌≡◌, ℕ, List, Ok, slice_get};
ghost use Rattle.std.specs.Option.{option_copied};
ghost use Rattle.roff_num.specs.Steps.{followed};
ghost use Rattle.roff_pages.specs.Pages.Counted.{counted};
ghost use Rattle.page_model.specs.Queries.{place_now};
ghost use Rattle.read_requests.specs.Request.Coded.{KnowsPages, response_of};
ghost use Rattle.run_model.specs.Numbers.{rounded_in_range};
ghost use Rattle.run_model.specs.Registers.{Known};
ghost use Rattle.run_model.specs.Requests.Traps.{change_trap, in_lines, moved, moved_to};
ghost use Rattle.run_model.specs.Requests.Traps.{place_given};
ghost use Rattle.run_model.specs.Requests.Traps.{plant_trap, planted};

use crate::requests::naming::name_in;
use crate::requests::{PageFacts, Response};
use page_model::{LayoutEvent, Trap};
use read_registers::{LINE, height_in, rounded_to_lines};
use roff_num::{NumFault, ShortName};

/// `wh`: a macro springs at a place on each page. Without a name the first trap that was planted at
/// that place goes, and without a place it is ignored.
pub(super) fn plant_trap(known: PageFacts, first: Option<&[u8]>, second: Option<&[u8]>) -> Response
    ensures { (k : Known) (as_given : List (List ℕ)) → KnowsPages k.layout known
        → option_copied first.entry ≡ slice_get as_given 0
        → option_copied second.entry ≡ slice_get as_given 1
        → response_of as_given result ≡ plant_trap k as_given }
{
    match first {
        None => Response::unsaid(),
        Some(text) => planted(name_in(second), place_given(known, text)),
    }
}

/// A trap is planted at a place, or without a name the first one there goes.
fn planted(name: Option<ShortName>, place: Result<i32, NumFault>) -> Response
    ensures { (as_given : List (List ℕ)) → response_of as_given result ≡ planted name place }
{
    match (place, name) {
        (Ok(place), Some(name)) => Response::on_page(LayoutEvent::Plant(Trap { place, name })),
        (Ok(place), None) => Response::on_page(LayoutEvent::Uproot(place)),
        (Err(_), _) => Response::bad_number(),
    }
}

/// `ch`: the first trap of a name is moved to a place; without a place it goes, and without a name
/// it is ignored.
pub(super) fn change_trap(known: PageFacts, first: Option<&[u8]>, second: Option<&[u8]>) -> Response
    ensures { (k : Known) (as_given : List (List ℕ)) → KnowsPages k.layout known
        → option_copied first.entry ≡ slice_get as_given 0
        → option_copied second.entry ≡ slice_get as_given 1
        → response_of as_given result ≡ change_trap k as_given }
{
    match (name_in(first), second) {
        (Some(name), Some(text)) => moved(name, place_given(known, text)),
        (Some(name), None) => Response::on_page(LayoutEvent::RemoveTrap(name)),
        (None, _) => Response::unsaid(),
    }
}

/// The first trap of a name is moved to a place.
fn moved(name: ShortName, place: Result<i32, NumFault>) -> Response
    ensures { (as_given : List (List ℕ)) → response_of as_given result ≡ moved name place }
{
    match place {
        Ok(place) => Response::on_page(LayoutEvent::MoveTrap(name, place)),
        Err(_) => Response::bad_number(),
    }
}

/// The place that a text gives, in lines: below 0 it counts from the page's end.
pub(super) fn place_given(known: PageFacts, text: &[u8]) -> Result<i32, NumFault>
    ensures { (k : Known) → known.place ≡ counted (place_now k.layout)
        → result ≡ place_given k text.now }
{
    match height_in(known.place_down(), text) {
        Ok(height) => Ok(place_in_lines(height)),
        Err(fault) => Err(fault),
    }
}

/// The lines of a height in basic units, which is rounded.
fn place_in_lines(height: i32) -> i32
    ensures { Ok result ≡ followed (rounded_in_range 40 height) (λ r. Ok (in_lines r)) }
{
    rounded_to_lines(height) / LINE as i32
}
