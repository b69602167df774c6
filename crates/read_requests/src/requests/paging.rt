//! The page length, the page offset, the number of the next page, and ejecting a page.

ghost use Rattle.std.specs.Prelude.{◌≡◌, ◌^◌, ℕ, List, min, slice_get};
ghost use Rattle.std.specs.Option.{option_copied};
ghost use Rattle.page_model.specs.Layout.{Layout};
ghost use Rattle.page_model.specs.Queries.{is_diverting};
ghost use Rattle.run_model.specs.Registers.{Known};
ghost use Rattle.read_requests.specs.Request.Coded.{KnowsPages, response_of};
ghost use Rattle.run_model.specs.Requests.Paging.{begin_page, ejected, ejected_by, ejected_to};
ghost use Rattle.run_model.specs.Requests.Paging.{lines_on_page, lines_set, next_numbered};
ghost use Rattle.run_model.specs.Requests.Paging.{page_ejected};
ghost use Rattle.run_model.specs.Requests.Paging.{page_length, page_number, page_offset};

use super::lengths::length_wanted;
use crate::requests::{PageFacts, Response};
use page_model::LayoutEvent;
use read_registers::{LINE, height_beside, lines_in, value_beside};
use roff_num::{Num, NumFault, Scale};
use run_model::{Message, PageEvent};

/// The page length where none is given, in lines: 11 inches.
const USUAL_LENGTH: u32 = 66;

/// `pl`: the page length, 66 lines where none is given.
pub(super) fn page_length(known: PageFacts, argument: Option<&[u8]>) -> Response
    ensures { (k : Known) (as_given : List (List ℕ)) → KnowsPages k.layout known
        → option_copied argument.entry ≡ slice_get as_given 0
        → response_of as_given result ≡ page_length k as_given }
{
    match argument {
        None => lines_on_page(USUAL_LENGTH),
        Some(text) => match lines_set(known, text) {
            Ok(lines) => lines_on_page(lines),
            Err(_) => Response::bad_number(),
        },
    }
}

/// The lines that a text sets: it is rounded, and not below 0.
fn lines_set(known: PageFacts, text: &[u8]) -> Result<u32, NumFault>
    ensures { (k : Known) (as_given : List (List ℕ)) → KnowsPages k.layout known
        → result ≡ lines_set k text.now }
{
    let units = i64::from(LINE) * i64::from(known.page_length);
    match height_beside(known.place_down(), units, text) {
        Ok(height) => Ok(lines_in(height)),
        Err(fault) => Err(fault),
    }
}

/// The page has so many lines from now on; one that would have none is refused.
fn lines_on_page(lines: u32) -> Response
    ensures { (as_given : List (List ℕ)) → response_of as_given result ≡ lines_on_page lines }
{
    if lines == 0 {
        return Response::Ignored(Some(Message::PageTooShort));
    }
    Response::on_page(LayoutEvent::Length(lines))
}

/// `po`: the page offset, the previous one where none is given.
pub(super) fn page_offset(known: PageFacts, argument: Option<&[u8]>) -> Response
    ensures { (k : Known) (as_given : List (List ℕ)) → known.page_offset ≡ k.layout.offset
        → known.previous_page_offset ≡ k.layout.previous_offset
        → option_copied argument.entry ≡ slice_get as_given 0
        → response_of as_given result ≡ page_offset k as_given }
{
    match length_wanted(known.page_offset, known.previous_page_offset, argument) {
        Ok(columns) => Response::on_page(LayoutEvent::Offset(columns)),
        Err(_) => Response::bad_number(),
    }
}

/// `pn`: the number of the next page. A sign in front adds to that of the page in force, or takes
/// from it; without an argument it is ignored.
pub(super) fn page_number(known: PageFacts, argument: Option<&[u8]>) -> Response
    ensures { (k : Known) (as_given : List (List ℕ)) → known.page_number ≡ k.layout.number
        → option_copied argument.entry ≡ slice_get as_given 0
        → response_of as_given result ≡ page_number k as_given }
{
    match argument {
        None => Response::unsaid(),
        Some(text) => next_numbered(value_beside(
            i64::from(known.page_number.0),
            Scale::Units,
            text,
        )),
    }
}

/// The next page gets this number.
fn next_numbered(number: Result<i32, NumFault>) -> Response
    ensures { (as_given : List (List ℕ)) → response_of as_given result ≡ next_numbered number }
{
    match number {
        Ok(number) => Response::on_page(LayoutEvent::Next(Num(number))),
        Err(_) => Response::bad_number(),
    }
}

/// `bp`: the page is ejected, where no diversion is open; the next one gets the number that is
/// given. A sign in front adds to that of the page in force, or takes from it.
pub(super) fn begin_page(known: PageFacts, argument: Option<&[u8]>) -> Response
    ensures { (k : Known) (as_given : List (List ℕ)) → KnowsPages k.layout known
        → option_copied argument.entry ≡ slice_get as_given 0
        → response_of as_given result ≡ begin_page k as_given }
{
    match argument {
        None => ejected(known),
        Some(text) => ejected_by(
            value_beside(i64::from(known.page_number.0), Scale::Units, text),
            known,
        ),
    }
}

/// The page is ejected for one of this number.
fn ejected_by(number: Result<i32, NumFault>, known: PageFacts) -> Response
    ensures { (L : Layout) (as_given : List (List ℕ)) → known.begun ≡ min L.begun (2 ^ 32)
        → known.diverts ≡ is_diverting L → response_of as_given result ≡ ejected_by L number }
{
    match number {
        Ok(number) => ejected_to(Num(number), known),
        Err(_) => Response::bad_number(),
    }
}

/// The page is ejected.
fn ejected(known: PageFacts) -> Response
    ensures { (L : Layout) (as_given : List (List ℕ)) → known.begun ≡ min L.begun (2 ^ 32)
        → known.diverts ≡ is_diverting L → response_of as_given result ≡ ejected L }
{
    if known.diverts {
        return Response::nothing();
    }
    Response::on_page(LayoutEvent::Eject(page_ejected(known.begun)))
}

/// The page is ejected, and the next page gets this number.
fn ejected_to(number: Num, known: PageFacts) -> Response
    ensures { (L : Layout) (as_given : List (List ℕ)) → known.begun ≡ min L.begun (2 ^ 32)
        → known.diverts ≡ is_diverting L → response_of as_given result ≡ ejected_to number L }
{
    if known.diverts {
        return Response::nothing();
    }
    let eject = LayoutEvent::EjectTo(page_ejected(known.begun), number);
    if known.begun == 0 {
        return Response::on_page(eject);
    }
    Response::Around(
        PageEvent::Page(LayoutEvent::Next(number)),
        PageEvent::Page(eject),
    )
}

/// The page that is ejected where so many were begun: the last of them, or else the first.
fn page_ejected(begun: u64) -> u32
    ensures { (L : Layout) → begun ≡ min L.begun (2 ^ 32) → result ≡ page_ejected L }
{
    begun.min(u64::from(u32::MAX)).max(1) as u32
}
