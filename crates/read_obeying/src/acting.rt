//! What a request does with the arguments of its line, which has ended.

ghost use Rattle.std.specs.Prelude.{◌≡◌, ℕ, List, IfSome, reverse, slice_get};
ghost use Rattle.std.specs.Option.{option_copied};
ghost use Rattle.run_state.specs.Composer.Standing.{StandFor};
ghost use Rattle.roff_num.specs.declared.limits.Limits.{Limits};
ghost use Rattle.read_obeying.specs.Acting.{Acts, Changed, DoesEffect, kept, texts_read};
ghost use Rattle.read_requests.specs.Request.Coded.{calls_of, changes_of, register_named};
ghost use Rattle.read_requests.specs.Request.Coded.{response_of};
ghost use Rattle.run_model.specs.Environments.{PageHistory};
ghost use Rattle.run_model.specs.Reading.Arguments.{calling_all};
ghost use Rattle.run_model.specs.Registers.{value_in_force};
ghost use Rattle.run_model.specs.Requests.{row_of};
ghost use Rattle.run_model.specs.Requests.Effects.{meant_by};
ghost use Rattle.run_model.specs.Run.{known_at};
ghost use Rattle.run_model.specs.declared.request.Request.TheVariants.{NumberRegister};

use crate::lengths::set_indent;
use crate::numbering::{set_numbers, set_register};
use crate::registers::{in_force, remove_given};
use crate::telling::{happen, keep, keep_stops, say, set_always};
use page_model::{LayoutEvent, Param};
use read_meaning::{Meaning, RequestEvents};
use read_names::remove_names_given;
use read_registers::{Lasting, page_name};
use read_requests::{Changes, Given, Numbers, RequestFacts, Response, response};
use roff_num::{Limit, Num};
use roff_scan::Unread;
use run_model::{PageEvent, Request, Step, breaks_by, broken};
use run_state::Composer;

/// Does what a request does with the arguments that were read: those that come often, and need
/// little or nothing of the run, by themselves.
///
/// # Errors
///
/// The limit on names, if more would have a register.
#[inline(always)]
pub fn act(
    lasting: &mut Lasting,
    meaning: &mut Meaning,
    breaks: bool,
    request: Request,
    composer: &Composer,
    unread: &mut Unread<PageEvent>,
) -> Result<Step, Limit>
    ensures { Acts breaks request composer.now
        (kept lasting.old meaning.old) (kept lasting.new meaning.new)
        unread.old unread.new result }
{
    match request {
        Request::Break => Ok(broken(breaks)),
        Request::NumberRegister => set_register(lasting, meaning, composer, unread),
        Request::Indent => Ok(set_indent(meaning, breaks, composer, unread)),
        Request::WithoutEffect(_) => Ok(Step::Nothing),
        Request::Fill => Ok(set_always(meaning, breaks, Param::Filling(true))),
        Request::NoFill => Ok(set_always(meaning, breaks, Param::Filling(false))),
        Request::NoAdjust => Ok(set_always(meaning, false, Param::Adjusting(false))),
        _ => act_on_arguments(lasting, meaning, breaks, request, composer, unread),
    }
}

/// Does what any request does with the arguments that were read, by what it answers to them.
///
/// # Errors
///
/// The limit on names, if more would have a register.
#[inline(never)]
fn act_on_arguments(
    lasting: &mut Lasting,
    meaning: &mut Meaning,
    breaks: bool,
    request: Request,
    composer: &Composer,
    unread: &mut Unread<PageEvent>,
) -> Result<Step, Limit>
    ensures { Acts breaks request composer.now
        (kept lasting.old meaning.old) (kept lasting.new meaning.new)
        unread.old unread.new result }
{
    let breaks = breaks_by(breaks, request);
    let response = response_to(lasting, request, composer, unread);
    respond(lasting, meaning, breaks, response, unread)
}

/// Does what a request answers.
///
/// # Errors
///
/// The limit on names, if more would have a register.
#[inline(always)]
fn respond(
    lasting: &mut Lasting,
    meaning: &mut Meaning,
    breaks: bool,
    response: Response,
    unread: &mut Unread<PageEvent>,
) -> Result<Step, Limit>
    ensures { DoesEffect (meant_by breaks (response_of (texts_read unread.old) response))
        (kept lasting.old meaning.old) (kept lasting.new meaning.new)
        unread.old unread.new result }
{
    match response {
        Response::Ignored(message) => Ok(say(meaning, message)),
        Response::Nothing => Ok(broken(breaks)),
        Response::Happens(event) => Ok(happen(meaning, breaks, event)),
        Response::Says(message, event) => Ok(keep(
            meaning,
            Some(message),
            None,
            breaks,
            RequestEvents::One(event),
        )),
        Response::Two(first, second) => Ok(keep(
            meaning,
            None,
            None,
            breaks,
            RequestEvents::Two(first, second),
        )),
        Response::Around(before, behind) => Ok(keep(
            meaning,
            None,
            Some(before),
            breaks,
            RequestEvents::One(behind),
        )),
        Response::Changes(changes) => {
            change(lasting, &changes, unread)?;
            Ok(broken(breaks))
        }
        Response::Numbers(value, increment) => {
            set_numbers(lasting, &page_name(), Numbers { value, increment })?;
            Ok(happen(meaning, breaks, PageEvent::Page(LayoutEvent::Number(value))))
        }
        Response::SetsStops => Ok(keep_stops(meaning, breaks, unread.arguments())),
    }
}

/// What a request does behind its break, with the arguments that were read.
fn response_to(
    lasting: &Lasting,
    request: Request,
    composer: &Composer,
    unread: &Unread<PageEvent>,
) -> Response
    ensures { (l : Limits) (h : PageHistory) → StandFor l h composer.now
        → response_of (texts_read unread.now) result ≡ (row_of request).does
        (known_at h lasting.now.all unread.now.input) (texts_read unread.now) }
{
    let arguments = unread.arguments();
    let given = Given {
        first: arguments.get(0),
        second: arguments.get(1),
        third: arguments.get(2),
    };
    let known = RequestFacts {
        composer,
        in_force: in_force_for(lasting, request, given.first, composer, unread),
    };
    response(request, known, given)
}

/// The value in force of the register that a first argument names, if the request asks for it.
#[inline(always)]
fn in_force_for(
    lasting: &Lasting,
    request: Request,
    first: Option<&[u8]>,
    composer: &Composer,
    unread: &Unread<PageEvent>,
) -> Num
    ensures { (l : Limits) (h : PageHistory) (as_given : List (List ℕ))
        → StandFor l h composer.now → option_copied first.entry ≡ slice_get as_given 0
        → request ≡ NumberRegister → IfSome (register_named as_given) (λ name. result
        ≡ value_in_force (known_at h lasting.now.all unread.now.input) name) }
{
    match request {
        Request::NumberRegister => in_force(lasting, first, composer, unread),
        _ => Num(0),
    }
}

/// Changes registers, or what names stand for.
///
/// # Errors
///
/// The limit on names, if more would have a register.
fn change(
    lasting: &mut Lasting,
    changes: &Changes,
    unread: &mut Unread<PageEvent>,
) -> Result<(), Limit>
    ensures changed { Changed (changes_of (reverse unread.old.input.arguments.whole) changes.now)
        lasting.old lasting.new result }
    ensures called { unread.new ≡ record unread.old {
      input = calling_all (calls_of (reverse unread.old.input.arguments.whole) changes.now)
          unread.old.input;
    } }
{
    match changes {
        Changes::Nothing => Ok(()),
        Changes::One(change) => lasting.apply(change),
        Changes::RemoveGiven => {
            remove_given(lasting, unread.arguments());
            Ok(())
        }
        Changes::RemoveNamesGiven => {
            remove_names_given(unread);
            Ok(())
        }
        Changes::Rename { from, to } => {
            unread.rename(from, to);
            Ok(())
        }
    }
}
