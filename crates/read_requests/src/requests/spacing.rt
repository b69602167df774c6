//! Blank lines, lines that are needed, no-space mode, and the spacing of lines.

ghost use Rattle.std.specs.Prelude.{◌≡◌, ℕ, List, slice_get, Ok};
ghost use Rattle.std.specs.Option.{option_copied};
ghost use Rattle.read_requests.specs.Request.Coded.{KnowsPages, response_of};
ghost use Rattle.run_model.specs.Requests.Spacing.{line_spacing, need, space_down, spaced};
ghost use Rattle.run_model.specs.Requests.Spacing.{spaceless};
ghost use Rattle.run_model.specs.Registers.{Known};

use crate::requests::{PageFacts, Response};
use page_model::{LayoutEvent, Param, Settings};
use read_registers::{LINE, height_in, lines_in, rounded_to_lines, value_in};
use roff_num::Scale;
use run_model::{Message, PageEvent};

/// `sp`: so many blank lines, one where no height is given.
pub(super) fn space_down(known: PageFacts, argument: Option<&[u8]>) -> Response
    ensures { (k : Known) (as_given : List (List ℕ)) → KnowsPages k.layout known
        → option_copied argument.entry ≡ slice_get as_given 0
        → response_of as_given result ≡ space_down k as_given }
{
    match argument {
        None => Response::on_page(LayoutEvent::Space(1)),
        Some(text) => match height_in(known.place_down(), text) {
            Ok(height) => spaced(rounded_to_lines(height)),
            Err(_) => Response::bad_number(),
        },
    }
}

/// The blank lines of a height in basic units: none if it is below 0, which is reported.
fn spaced(height: i32) -> Response
    ensures { (as_given : List (List ℕ)) → response_of as_given result ≡ spaced (Ok height) }
{
    if height < 0 {
        let none = PageEvent::Page(LayoutEvent::Space(0));
        return Response::Says(Message::BackwardMotion, none);
    }
    Response::on_page(LayoutEvent::Space(height as u32 / LINE))
}

/// `ne`: so many lines are to stand together, one where no height is given.
pub(super) fn need(known: PageFacts, argument: Option<&[u8]>) -> Response
    ensures { (k : Known) (as_given : List (List ℕ)) → KnowsPages k.layout known
        → option_copied argument.entry ≡ slice_get as_given 0
        → response_of as_given result ≡ need k as_given }
{
    match argument {
        None => Response::on_page(LayoutEvent::Need(1)),
        Some(text) => match height_in(known.place_down(), text) {
            Ok(height) => Response::on_page(LayoutEvent::Need(lines_in(height))),
            Err(_) => Response::bad_number(),
        },
    }
}

/// `ns`, `rs`: no-space mode goes on, or off.
pub(super) fn spaceless(on: bool) -> Response
    ensures { (as_given : List (List ℕ)) → response_of as_given result ≡ spaceless on }
{
    Response::on_page(LayoutEvent::NoSpace(on))
}

/// `ls`: the spacing of lines, the previous one where none is given.
pub(super) fn line_spacing(settings: Settings, argument: Option<&[u8]>) -> Response
    ensures { (k : Known) (as_given : List (List ℕ)) → settings ≡ k.settings
        → option_copied argument.entry ≡ slice_get as_given 0
        → response_of as_given result ≡ line_spacing k as_given }
{
    match argument {
        None => Response::setting(Param::Spacing(settings.previous_spacing)),
        Some(text) => match value_in(Scale::Units, text) {
            Ok(lines) => Response::setting(Param::Spacing(lines.max(1) as u32)),
            Err(_) => Response::bad_number(),
        },
    }
}
