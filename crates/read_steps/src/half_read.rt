//! Bytes above what is half read, where that is often: in conditions, arguments and text lines.
//! Most often such a byte gives nothing yet, or is held.

ghost use Rattle.input_escapes.specs.OpenEscapes.{byte_read};
ghost use Rattle.read_steps.specs.Clauses.{TakesAs, condition_found};
ghost use Rattle.run_model.specs.Reading.Found.{found_in, place_in, read_in};
ghost use Rattle.run_model.specs.declared.line_state.LineState.TheVariants.{Collecting, Deciding};
ghost use Rattle.run_model.specs.declared.line_state.LineState.TheVariants.{Text as InText};
ghost use Rattle.run_model.specs.declared.purpose.Purpose.TheVariants.{Arguments as InArguments};

use crate::found::read_collected;
use read_lines::Reader;
use roff_num::Limit;
use roff_scan::{Found, Surroundings, Unread};
use run_model::{LineState, PageEvent, Purpose, Request, Step, TextLine};
use run_state::{Composer, on_line};

/// A byte of a condition that isn't dropped.
#[inline(always)]
pub(crate) fn read_byte_of_condition(
    reader: &mut Reader,
    keeps: bool,
    byte: u8,
    composer: &Composer,
    unread: &mut Unread<PageEvent>,
) -> Result<Step, Limit>
    ensures { TakesAs (λ k. read_in k (Deciding keeps) unread.old.input
        (byte_read (place_in k (Deciding keeps)) unread.old.input.escapes byte))
        composer.now reader.old reader.new unread.old unread.new result }
{
    let found = unread.read_byte(Surroundings::Arguments, byte);
    read_in_condition(reader, keeps, found, composer, unread)
}

/// Something of a condition.
#[inline(always)]
pub(crate) fn read_in_condition(
    reader: &mut Reader,
    keeps: bool,
    found: Found,
    composer: &Composer,
    unread: &mut Unread<PageEvent>,
) -> Result<Step, Limit>
    ensures { TakesAs (λ k. condition_found k unread.old.input keeps found)
        composer.now reader.old reader.new unread.old unread.new result }
{
    let reading = LineState::Deciding { keeps };
    match found {
        Found::GoesOn => reader.read_in_arguments(reading, Found::GoesOn, composer, unread),
        Found::Holds(unit) => {
            reader.read_in_arguments(reading, Found::Holds(unit), composer, unread)
        }
        _ => reader.read_condition(keeps, found, composer, unread),
    }
}

/// A byte behind a request's name that isn't dropped.
#[inline(always)]
pub(crate) fn read_byte_of_arguments(
    reader: &mut Reader,
    breaks: bool,
    request: Request,
    byte: u8,
    composer: &Composer,
    unread: &mut Unread<PageEvent>,
) -> Result<Step, Limit>
    ensures { TakesAs (λ k. read_in k (Collecting (InArguments breaks request)) unread.old.input
        (byte_read (place_in k (Collecting (InArguments breaks request))) unread.old.input.escapes
        byte))
        composer.now reader.old reader.new unread.old unread.new result }
{
    let found = unread.read_byte(Surroundings::Arguments, byte);
    read_among_arguments(reader, breaks, request, found, composer, unread)
}

/// Something behind a request's name.
#[inline(always)]
fn read_among_arguments(
    reader: &mut Reader,
    breaks: bool,
    request: Request,
    found: Found,
    composer: &Composer,
    unread: &mut Unread<PageEvent>,
) -> Result<Step, Limit>
    ensures { TakesAs (λ k. found_in k unread.old.input
        (Collecting (InArguments breaks request)) found)
        composer.now reader.old reader.new unread.old unread.new result }
{
    match found {
        Found::GoesOn => {
            unread.settle();
            let reading = LineState::Collecting(Purpose::Arguments { breaks, request });
            reader.read_in_arguments(reading, Found::GoesOn, composer, unread)
        }
        _ => read_arguments(reader, breaks, request, found, composer, unread),
    }
}

/// Something behind a request's name, whatever it is. Most often nothing is found there yet.
#[inline(never)]
fn read_arguments(
    reader: &mut Reader,
    breaks: bool,
    request: Request,
    found: Found,
    composer: &Composer,
    unread: &mut Unread<PageEvent>,
) -> Result<Step, Limit>
    ensures { TakesAs (λ k. found_in k unread.old.input
        (Collecting (InArguments breaks request)) found)
        composer.now reader.old reader.new unread.old unread.new result }
{
    reader.reading = LineState::Collecting(Purpose::Arguments { breaks, request });
    read_collected(reader, found, composer, unread)
}

/// A byte of a text line that isn't dropped.
#[inline(never)]
pub(crate) fn read_byte_of_text(
    reader: &mut Reader,
    line: TextLine,
    byte: u8,
    composer: &Composer,
    unread: &mut Unread<PageEvent>,
) -> Result<Step, Limit>
    ensures { TakesAs (λ k. read_in k (InText line) unread.old.input
        (byte_read (place_in k (InText line)) unread.old.input.escapes byte))
        composer.now reader.old reader.new unread.old unread.new result }
{
    let found = unread.read_byte(on_line(composer, line), byte);
    reader.read_text(line, found, composer, unread)
}
