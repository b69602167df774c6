//! The character that stands for the page number in titles.

ghost use Rattle.std.specs.Prelude.{◌≡◌, ℕ, List, slice_get};
ghost use Rattle.std.specs.Option.{option_copied};
ghost use Rattle.read_requests.specs.Request.Coded.{response_of};
ghost use Rattle.run_model.specs.Requests.Titles.{first_byte, page_character, place_title};

use crate::requests::{Changes, Response};
use read_registers::Change;
use run_model::{PageEvent, WhichTitle};

/// `pc`: the first byte of its argument stands for the page number; without one none does.
pub(super) fn page_character(argument: Option<&[u8]>) -> Response
    ensures { (as_given : List (List ℕ)) → option_copied argument.entry ≡ slice_get as_given 0
        → response_of as_given result ≡ page_character as_given }
{
    Response::changing(Changes::One(Change::CharacterIs(first_byte(argument))))
}

/// The first byte of an argument, if there is one.
fn first_byte(argument: Option<&[u8]>) -> Option<u8>
    ensures { (as_given : List (List ℕ)) → option_copied argument.entry ≡ slice_get as_given 0
        → result ≡ first_byte as_given }
{
    match argument {
        Some(text) => text.first().copied(),
        None => None,
    }
}

/// `tl`: the title that was read is placed.
pub(super) fn place_title() -> Response
    ensures { (as_given : List (List ℕ)) → response_of as_given result ≡ place_title }
{
    Response::Happens(PageEvent::Title(WhichTitle::Read))
}
