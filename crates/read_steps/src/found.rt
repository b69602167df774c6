//! What a byte, or the end of what is half read, gives what is read.

ghost use Rattle.std.specs.Prelude.{◌≡◌};
ghost use Rattle.roff_num.specs.declared.limits.Limits.{Limits};
ghost use Rattle.input_escapes.specs.OpenEscapes.{byte_read};
ghost use Rattle.run_model.specs.Reading.Collecting.{collected, unit_taking};
ghost use Rattle.run_model.specs.Reading.Found.{found_in, place_in};
ghost use Rattle.run_model.specs.Reading.Items.{read_by};
ghost use Rattle.run_model.specs.Reading.Units.{unit_in};
ghost use Rattle.run_model.specs.declared.line_state.LineState.TheVariants.{Collecting};
ghost use Rattle.read_steps.specs.Clauses.{AllRegisters, PageHistory, PageInput, StandFor};
ghost use Rattle.read_steps.specs.Clauses.{TakesAs};
ghost use Rattle.read_steps.specs.Clauses.{known_at};

use crate::arguments::read_unit;
use crate::definitions::read_definition;
use crate::titles::{read_title, read_unit_in_front};
use read_lines::Reader;
use roff_num::Limit;
use roff_scan::{CopyUnit, Found, Surroundings, Unread};
use run_model::{LineState, PageEvent, Purpose, Step};
use run_state::{Composer, at_start, on_line};

/// How a byte is read above what is read of the line.
pub(crate) fn place(reader: &Reader, composer: &Composer) -> Surroundings
    ensures { (l : Limits) (h : PageHistory) (rs : AllRegisters) (i : PageInput)
        → StandFor l h composer.now
        → result ≡ place_in (known_at h rs i) reader.now.reading }
{
    match reader.reading {
        LineState::LineStart => at_start(composer),
        LineState::Branch => at_start(composer),
        LineState::Braced => at_start(composer),
        LineState::Text(line) => on_line(composer, line),
        LineState::Collecting(purpose) => {
            if purpose.collects_arguments() {
                Surroundings::Arguments
            } else {
                Surroundings::Copy
            }
        }
        LineState::Deciding { .. } => Surroundings::Arguments,
        LineState::TitleFront => Surroundings::Arguments,
        LineState::Control { .. } => Surroundings::Text(0),
        LineState::Name { .. } => Surroundings::Text(0),
        LineState::Skipping { .. } => Surroundings::Text(0),
        LineState::Dropped => Surroundings::Text(0),
        LineState::Told { .. } => Surroundings::Text(0),
        LineState::Exiting => Surroundings::Text(0),
        LineState::Title { .. } => Surroundings::Text(0),
    }
}

/// Does what was found there.
///
/// # Errors
///
/// A limit that it would pass; what was changed then is of no more use.
pub(crate) fn read_found(
    reader: &mut Reader,
    found: Found,
    composer: &Composer,
    unread: &mut Unread<PageEvent>,
) -> Result<Step, Limit>
    ensures { TakesAs (λ k. found_in k unread.old.input reader.old.reading found)
        composer.now reader.old reader.new unread.old unread.new result }
{
    match reader.reading {
        LineState::LineStart => { reader.begin_line(LineState::LineStart, found, composer, unread) }
        LineState::Branch => reader.begin_line(LineState::Branch, found, composer, unread),
        LineState::Braced => reader.begin_line(LineState::Braced, found, composer, unread),
        LineState::Text(line) => reader.read_text(line, found, composer, unread),
        LineState::Deciding { keeps } => reader.read_condition(keeps, found, composer, unread),
        LineState::Collecting(purpose) => read_for(reader, purpose, found, composer, unread),
        LineState::TitleFront => read_collected(reader, found, composer, unread),
        LineState::Title { delimiter } => { read_title(reader, delimiter, found, composer, unread) }
        _ => Ok(Step::Nothing),
    }
}

/// Does what was found in a line whose bytes are collected for this.
#[inline(always)]
fn read_for(
    reader: &mut Reader,
    purpose: Purpose,
    found: Found,
    composer: &Composer,
    unread: &mut Unread<PageEvent>,
) -> Result<Step, Limit>
    requires { reader.old.reading ≡ Collecting purpose }
    ensures { TakesAs (λ k. found_in k unread.old.input (Collecting purpose) found)
        composer.now reader.old reader.new unread.old unread.new result }
{
    match purpose {
        Purpose::Defining {
            name,
            appends,
            end,
            matched,
        } => read_definition(reader, name, appends, end, matched, found, composer, unread),
        _ => read_collected(reader, found, composer, unread),
    }
}

/// Does what was found by a byte behind a name, where a line collects units from here on.
pub(crate) fn read_from(
    reader: &mut Reader,
    reading: LineState,
    byte: u8,
    composer: &Composer,
    unread: &mut Unread<PageEvent>,
) -> Result<Step, Limit>
    ensures { TakesAs (λ k. read_by (λ i. collected k i reading) unread.old.input
        (byte_read (place_in k reading) unread.old.input.escapes byte))
        composer.now reader.old reader.new unread.old unread.new result }
{
    reader.reading = reading;
    let place = place(reader, composer);
    let found = unread.read_byte(place, byte);
    read_collected(reader, found, composer, unread)
}

/// Does what was found where a line collects units.
#[inline(always)]
pub(crate) fn read_collected(
    reader: &mut Reader,
    found: Found,
    composer: &Composer,
    unread: &mut Unread<PageEvent>,
) -> Result<Step, Limit>
    ensures { TakesAs (λ k. collected k unread.old.input reader.old.reading found)
        composer.now reader.old reader.new unread.old unread.new result }
{
    match unit_in(&found) {
        Some(unit) => read_unit_here(reader, unit, composer, unread),
        None => {
            reader.interrupt(unread);
            let reading = reader.reading;
            reader.read_in_arguments(reading, found, composer, unread)
        }
    }
}

/// What a unit does where a line collects units.
#[inline(always)]
fn read_unit_here(
    reader: &mut Reader,
    unit: CopyUnit,
    composer: &Composer,
    unread: &mut Unread<PageEvent>,
) -> Result<Step, Limit>
    ensures { TakesAs (λ k. unit_taking k unread.old.input reader.old.reading unit)
        composer.now reader.old reader.new unread.old unread.new result }
{
    match reader.reading {
        LineState::Collecting(purpose) => read_unit_for(reader, purpose, unit, composer, unread),
        LineState::TitleFront => read_unit_in_front(reader, unit, composer, unread),
        _ => Ok(Step::Nothing),
    }
}

/// What a unit does in a line whose bytes are collected for this; those of a definition are read
/// otherwise.
#[inline(always)]
pub(crate) fn read_unit_for(
    reader: &mut Reader,
    purpose: Purpose,
    unit: CopyUnit,
    composer: &Composer,
    unread: &mut Unread<PageEvent>,
) -> Result<Step, Limit>
    requires { reader.old.reading ≡ Collecting purpose }
    ensures { TakesAs (λ k. unit_taking k unread.old.input (Collecting purpose) unit)
        composer.now reader.old reader.new unread.old unread.new result }
{
    match purpose {
        Purpose::Arguments { breaks, request } => {
            read_unit(reader, breaks, request, unit, composer, unread)
        }
        Purpose::StringName { appends } => reader.read_unit_of_string_name(appends, unit, unread),
        Purpose::StringText {
            name,
            appends,
            is_front,
        } => reader.read_unit_of_string(name, appends, is_front, unit, unread),
        Purpose::Telling { aborts, is_front } => {
            reader.read_unit_of_message(aborts, is_front, unit, unread)
        }
        Purpose::Calling { name } => reader.read_unit_of_call(name, unit, unread),
        Purpose::Defining { .. } => Ok(Step::Nothing),
    }
}

/// The unit that was found, if one was: of an escape that is no name's, its backslash and byte.
#[inline(always)]
pub(crate) fn unit_in(found: &Found) -> Option<CopyUnit>
    ensures { result ≡ unit_in found.now }
{
    match found {
        Found::Unit(unit) => Some(*unit),
        Found::Escape(byte) => Some(CopyUnit::Kept(*byte)),
        _ => None,
    }
}
