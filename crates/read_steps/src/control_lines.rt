//! The names of control lines, and how what is behind one is read.

ghost use Rattle.std.specs.Prelude.{None, Ok};
ghost use Rattle.run_model.specs.Reading.ControlLines.{behind_called};
ghost use Rattle.run_model.specs.declared.step.Step.TheVariants.{Nothing};
ghost use Rattle.read_steps.specs.Clauses.{ComposerOf, NameOf, TakesAs};
ghost use Rattle.read_steps.specs.Clauses.{undropped_taking};
ghost use Rattle.read_steps.specs.Clauses.{line_taking, row_of, name_ended_taking, called_by};

use crate::found::read_from;
use read_lines::Reader;
use read_names::{begin_deciding, behind_called, called_by};
use roff_num::{Limit, ShortName};
use roff_scan::Unread;
use run_model::{Called, LineReading, LineState, PageEvent, Purpose, Request, Step, ends_name};
use run_state::Composer;

/// The byte behind the first one of a name.
pub(crate) fn end_name(
    reader: &mut Reader,
    breaks: bool,
    first: u8,
    byte: u8,
    composer: &Composer,
    unread: &mut Unread<PageEvent>,
) -> Result<Step, Limit>
    ensures { TakesAs (λ k. undropped_taking k (NameOf breaks first) unread.old.input byte)
        composer.now reader.old reader.new unread.old unread.new result }
{
    if ends_name(byte) {
        let name = ShortName {
            first,
            second: None,
        };
        return read_behind_name(reader, breaks, name, byte, composer, unread);
    }
    let name = ShortName {
        first,
        second: Some(byte),
    };
    begin_called(reader, breaks, called_by(name, unread), unread);
    Ok(Step::Nothing)
}

/// The first byte behind a name, which doesn't belong to it.
pub(crate) fn read_behind_name(
    reader: &mut Reader,
    breaks: bool,
    name: ShortName,
    byte: u8,
    composer: &Composer,
    unread: &mut Unread<PageEvent>,
) -> Result<Step, Limit>
    ensures { TakesAs (λ k. name_ended_taking k unread.old.input breaks name byte)
        composer.now reader.old reader.new unread.old unread.new result }
{
    match called_by(name, unread) {
        Called::Request(request) => read_first(reader, breaks, request, byte, composer, unread),
        Called::Body(name) => {
            let calling = LineState::Collecting(Purpose::Calling { name });
            read_from(reader, calling, byte, composer, unread)
        }
        Called::Nothing => Ok(reader.read_on(LineState::behind_dropped(byte))),
    }
}

/// The first byte behind a request's name, which ends the name.
fn read_first(
    reader: &mut Reader,
    breaks: bool,
    request: Request,
    byte: u8,
    composer: &Composer,
    unread: &mut Unread<PageEvent>,
) -> Result<Step, Limit>
    ensures { TakesAs (λ k. line_taking k unread.old.input breaks request
        (row_of request).line byte)
        composer.now reader.old reader.new unread.old unread.new result }
{
    let arguments = LineState::Collecting(Purpose::Arguments { breaks, request });
    match request.row().line {
        LineReading::ByArguments => read_from(reader, arguments, byte, composer, unread),
        LineReading::ByLastLine => read_from(reader, arguments, byte, composer, unread),
        LineReading::ByLines(_) => read_from(reader, arguments, byte, composer, unread),
        LineReading::ByString { appends } => {
            let reading = LineState::Collecting(Purpose::StringName { appends });
            read_from(reader, reading, byte, composer, unread)
        }
        LineReading::ByMessage { aborts } => {
            let reading = LineState::Collecting(Purpose::Telling {
                aborts,
                is_front: true,
            });
            read_from(reader, reading, byte, composer, unread)
        }
        LineReading::ByTitle => { read_from(reader, LineState::TitleFront, byte, composer, unread) }
        LineReading::ByCondition { keeps } => reader.begin_condition(keeps, byte, composer, unread),
        LineReading::ByElse => {
            let so = unread.take_result() == Some(false);
            reader.begin_branch(so, Some(byte), composer, unread)
        }
    }
}

/// What is read behind a name that stands for this; nothing is meant.
fn begin_called(reader: &mut Reader, breaks: bool, called: Called, unread: &mut Unread<PageEvent>)
    ensures { (es : ComposerOf)
        → TakesAs (λ k. behind_called unread.old.input breaks called)
        es reader.old reader.new unread.old unread.new (Ok Nothing) }
{
    match behind_called(breaks, called) {
        Some(reading) => {
            begin_deciding(reading, unread);
            reader.go_on(reading);
        }
        None => reader.go_on(LineState::branch(unread.take_result() == Some(false))),
    }
}
