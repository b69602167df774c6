//! The end of what is half read, and of the input.

ghost use Rattle.std.specs.Prelude.{◌≡◌, Ok};
ghost use Rattle.run_model.specs.declared.line_state.LineState.TheVariants.{Collecting};
ghost use Rattle.read_steps.specs.Clauses.{ComposerOf, PageUnread, TakesAs, definition_cut};
ghost use Rattle.read_steps.specs.Clauses.{end_taking, escape_ended, interrupted_end};
ghost use Rattle.read_steps.specs.Clauses.{LineStart, meaning_events};

use crate::bytes::read_undropped;
use crate::found::{place, read_found};
use crate::half_read::read_in_condition;
use crate::line_ends::obey;
use read_lines::Reader;
use roff_num::{Limit, ShortName};
use roff_scan::{CopyUnit, Unread};
use run_model::{LineState, Message, PageEvent, Purpose, Request, Step};
use run_state::Composer;

/// What is half read ends, before what stays or at the end of the input.
///
/// # Errors
///
/// A limit that it would pass; what was changed then is of no more use.
pub fn end_escape(
    reader: &mut Reader,
    composer: &Composer,
    unread: &mut Unread<PageEvent>,
) -> Result<Step, Limit>
    ensures { TakesAs (λ k. escape_ended k reader.old.reading unread.old.input)
        composer.now reader.old reader.new unread.old unread.new result }
{
    if reader.ends_quietly(unread) {
        return Ok(Step::Nothing);
    }
    end_any(reader, composer, unread)
}

/// What is half read ends, whatever it is, before what stays or at the end of the input.
fn end_any(
    reader: &mut Reader,
    composer: &Composer,
    unread: &mut Unread<PageEvent>,
) -> Result<Step, Limit>
    ensures { TakesAs (λ k. escape_ended k reader.old.reading unread.old.input)
        composer.now reader.old reader.new unread.old unread.new result }
{
    let place = place(reader, composer);
    let found = unread.end_reading(place);
    match reader.reading {
        LineState::Deciding { keeps } => {
            read_in_condition(reader, keeps, found, composer, unread)
        }
        _ => read_found(reader, found, composer, unread),
    }
}

/// The end of the input: an unfinished line ends.
///
/// # Errors
///
/// A limit that it would pass; what was changed then is of no more use.
pub fn end_line_of_input(
    reader: &mut Reader,
    composer: &Composer,
    unread: &mut Unread<PageEvent>,
) -> Result<Step, Limit>
    ensures { TakesAs (λ k. end_taking k reader.old.reading unread.old.input)
        composer.now reader.old reader.new unread.old unread.new result }
{
    match reader.reading {
        LineState::LineStart => Ok(end_interrupted(reader, composer)),
        LineState::Braced => Ok(end_interrupted(reader, composer)),
        LineState::Control { .. } => Ok(end_interrupted(reader, composer)),
        LineState::Collecting(purpose) => end_collected(reader, purpose, composer, unread),
        LineState::Deciding { .. } => Ok(end_interrupted(reader, composer)),
        LineState::Skipping { .. } => Ok(end_interrupted(reader, composer)),
        LineState::Dropped => Ok(end_interrupted(reader, composer)),
        LineState::Told { .. } => Ok(end_interrupted(reader, composer)),
        LineState::Exiting => Ok(end_interrupted(reader, composer)),
        LineState::Title { .. } => obey(reader, false, Request::Title, composer, unread),
        _ => read_undropped(reader, b'\n', composer, unread),
    }
}

/// The end of the input in a line whose bytes are collected for this: the line ends, and a
/// definition is dropped.
fn end_collected(
    reader: &mut Reader,
    purpose: Purpose,
    composer: &Composer,
    unread: &mut Unread<PageEvent>,
) -> Result<Step, Limit>
    requires { reader.old.reading ≡ Collecting purpose }
    ensures { TakesAs (λ k. end_taking k (Collecting purpose) unread.old.input)
        composer.now reader.old reader.new unread.old unread.new result }
{
    match purpose {
        Purpose::StringName { appends } => {
            reader.end_string_line(appends, unread)?;
            Ok(end_interrupted(reader, composer))
        }
        Purpose::StringText {
            name,
            appends,
            is_front,
        } => {
            let end = CopyUnit::Byte(b'\n');
            reader.read_unit_of_string(name, appends, is_front, end, unread)?;
            Ok(end_interrupted(reader, composer))
        }
        Purpose::Defining { name, .. } => Ok(drop_definition(reader, name, unread)),
        _ => read_undropped(reader, b'\n', composer, unread),
    }
}

/// An interrupted line that no text line went on with ends, and a line begins.
fn end_interrupted(reader: &mut Reader, composer: &Composer) -> Step
    ensures { (u : PageUnread) → TakesAs
        (λ k. meaning_events u.input LineStart (interrupted_end k.interrupted))
        composer.now reader.old reader.new u u (Ok result) }
{
    reader.reading = LineState::LineStart;
    match composer.environments.interrupted_line() {
        None => Step::Nothing,
        Some(line) => {
            reader.meaning.keep_line(None, true, line.end().line());
            Step::Meaning
        }
    }
}

/// A definition that ends with the input is dropped.
fn drop_definition(
    reader: &mut Reader,
    name: Option<ShortName>,
    unread: &mut Unread<PageEvent>,
) -> Step
    ensures { (es : ComposerOf)
        → TakesAs (λ k. definition_cut unread.old.input name)
        es reader.old reader.new unread.old unread.new (Ok result) }
{
    if name.is_some() {
        unread.drop_text();
        unread.stays_within();
    }
    reader.reading = LineState::LineStart;
    reader.report(Message::DefinitionNotEnded)
}
