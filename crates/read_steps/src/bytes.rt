//! A byte that was taken: what it means.

ghost use Rattle.std.specs.Prelude.{◌≡◌, ◌==◌, [], Ok, false};
ghost use Rattle.input_source.specs.Bytes.{backslash};
ghost use Rattle.run_model.specs.declared.event.PageEvent.TheVariants.{Text};
ghost use Rattle.run_model.specs.declared.line_state.LineState.TheVariants.{Collecting};
ghost use Rattle.run_model.specs.declared.line_state.LineState.TheVariants.{Text as InText};
ghost use Rattle.run_model.specs.declared.line_state.LineState.TheVariants.{Title as InTitle};
ghost use Rattle.read_steps.specs.Clauses.{ComposerOf, PageUnread, TakesAs};
ghost use Rattle.read_steps.specs.Clauses.{byte_taking};
ghost use Rattle.read_steps.specs.Clauses.{undropped_taking};
ghost use Rattle.input_escapes.specs.OpenEscapes.{byte_read};
ghost use Rattle.run_model.specs.Reading.Found.{place_in, read_in};

use crate::control_lines::end_name;
use crate::found::{place, read_found, read_unit_for};
use crate::half_read::{read_byte_of_arguments, read_byte_of_condition, read_byte_of_text};
use crate::reading::read_any;
use crate::titles::{end_title_part, read_byte_of_title};
use read_lines::Reader;
use roff_num::Limit;
use roff_scan::{CopyUnit, Unread, is_dropped};
use run_model::{LineState, PageEvent, Purpose, Step, TextLine};
use run_state::Composer;

/// What a byte does on this text line, where nothing is half read.
///
/// # Errors
///
/// A limit that it would pass; what was changed then is of no more use.
#[inline(always)]
pub fn read_on_line(
    reader: &mut Reader,
    line: TextLine,
    byte: u8,
    composer: &Composer,
    unread: &mut Unread<PageEvent>,
) -> Result<Step, Limit>
    requires line { reader.old.reading ≡ InText line }
    requires none_half { unread.old.input.escapes ≡ [] }
    ensures { TakesAs (λ k. byte_taking k reader.old.reading unread.old.input byte)
        composer.now reader.old reader.new unread.old unread.new result }
{
    if byte == b'\\' {
        return read_any(reader, byte, composer, unread);
    }
    if is_dropped(byte) {
        return read_any(reader, byte, composer, unread);
    }
    Ok(read_plain(reader, line, byte))
}

/// What a byte does on this text line that is neither dropped nor a backslash, where nothing is
/// half read.
#[inline(always)]
fn read_plain(reader: &mut Reader, line: TextLine, byte: u8) -> Step
    requires line { reader.old.reading ≡ InText line }
    requires no_escape { (byte == backslash) ≡ false }
    ensures { (es : ComposerOf) (u : PageUnread) → u.input.escapes ≡ []
        → TakesAs (λ k. undropped_taking k reader.old.reading u.input byte)
        es reader.old reader.new u u (Ok result) }
{
    reader.step_on(line.taking(byte))
}

/// What a byte does that is neither dropped nor a backslash, where nothing is half read.
#[inline(always)]
pub(crate) fn read_alone(
    reader: &mut Reader,
    byte: u8,
    composer: &Composer,
    unread: &mut Unread<PageEvent>,
) -> Result<Step, Limit>
    requires no_escape { (byte == backslash) ≡ false }
    requires none_half { unread.old.input.escapes ≡ [] }
    ensures { TakesAs (λ k. undropped_taking k reader.old.reading unread.old.input byte)
        composer.now reader.old reader.new unread.old unread.new result }
{
    match reader.reading {
        LineState::LineStart => { Ok(reader.begin_with(LineState::LineStart, byte, composer)) }
        LineState::Text(line) => Ok(reader.step_on(line.taking(byte))),
        LineState::Collecting(purpose) => read_byte_for(reader, purpose, byte, composer, unread),
        LineState::Title { delimiter } => {
            if byte == delimiter {
                return Ok(end_title_part(reader, delimiter));
            }
            read_byte_of_title(reader, delimiter, byte, composer, unread)
        }
        _ => read_undropped(reader, byte, composer, unread),
    }
}

/// What a byte does that is neither dropped nor a backslash in a line whose bytes are collected for
/// this, where nothing is half read.
#[inline(always)]
fn read_byte_for(
    reader: &mut Reader,
    purpose: Purpose,
    byte: u8,
    composer: &Composer,
    unread: &mut Unread<PageEvent>,
) -> Result<Step, Limit>
    requires collects { reader.old.reading ≡ Collecting purpose }
    requires no_escape { (byte == backslash) ≡ false }
    requires none_half { unread.old.input.escapes ≡ [] }
    ensures { TakesAs (λ k. undropped_taking k (Collecting purpose) unread.old.input byte)
        composer.now reader.old reader.new unread.old unread.new result }
{
    match purpose {
        Purpose::Defining { .. } => read_placed(reader, byte, composer, unread),
        _ => read_unit_for(reader, purpose, CopyUnit::Byte(byte), composer, unread),
    }
}

/// What a byte does that isn't dropped.
#[inline(always)]
pub(crate) fn read_undropped(
    reader: &mut Reader,
    byte: u8,
    composer: &Composer,
    unread: &mut Unread<PageEvent>,
) -> Result<Step, Limit>
    ensures { TakesAs (λ k. undropped_taking k reader.old.reading unread.old.input byte)
        composer.now reader.old reader.new unread.old unread.new result }
{
    match reader.reading {
        LineState::Control { breaks } => Ok(reader.read_on(LineState::behind_control(
            breaks, byte,
        ))),
        LineState::Name { breaks, first } => end_name(
            reader, breaks, first, byte, composer, unread,
        ),
        LineState::Skipping {
            opened,
            closed,
            behind,
        } => Ok(reader.read_on(LineState::behind_skipped(opened, closed, behind, byte))),
        LineState::Dropped => Ok(reader.read_on(LineState::behind_dropped(byte))),
        LineState::Told { aborts } => Ok(reader.read_on(LineState::Told { aborts })),
        LineState::Exiting => Ok(reader.read_on(LineState::Exiting)),
        LineState::Title { delimiter } => {
            read_between(reader, delimiter, byte, composer, unread)
        }
        LineState::Deciding { keeps } => {
            read_byte_of_condition(reader, keeps, byte, composer, unread)
        }
        LineState::Collecting(Purpose::Arguments { breaks, request }) => {
            read_byte_of_arguments(reader, breaks, request, byte, composer, unread)
        }
        LineState::Collecting(_) => read_placed(reader, byte, composer, unread),
        LineState::Text(line) => read_byte_of_text(reader, line, byte, composer, unread),
        _ => read_placed(reader, byte, composer, unread),
    }
}

/// What a byte does that isn't dropped in a title, between these delimiters: one is found where
/// nothing is half read.
fn read_between(
    reader: &mut Reader,
    delimiter: u8,
    byte: u8,
    composer: &Composer,
    unread: &mut Unread<PageEvent>,
) -> Result<Step, Limit>
    requires { reader.old.reading ≡ InTitle delimiter }
    ensures { TakesAs (λ k. undropped_taking k (InTitle delimiter) unread.old.input byte)
        composer.now reader.old reader.new unread.old unread.new result }
{
    if unread.has_open_escape() {
        return read_placed(reader, byte, composer, unread);
    }
    if byte == delimiter {
        return Ok(end_title_part(reader, delimiter));
    }
    read_placed(reader, byte, composer, unread)
}

/// What a byte does that isn't dropped, by what is half read, if something is, and what is read of
/// the line.
#[inline(always)]
fn read_placed(
    reader: &mut Reader,
    byte: u8,
    composer: &Composer,
    unread: &mut Unread<PageEvent>,
) -> Result<Step, Limit>
    ensures { TakesAs (λ k. read_in k reader.old.reading unread.old.input
        (byte_read (place_in k reader.old.reading) unread.old.input.escapes byte))
        composer.now reader.old reader.new unread.old unread.new result }
{
    let place = place(reader, composer);
    let found = unread.read_byte(place, byte);
    read_found(reader, found, composer, unread)
}
