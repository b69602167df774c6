//! The ends of control lines: what is done with the arguments that were read.

ghost use Rattle.std.specs.Prelude.{◌≡◌, [], Ok};
ghost use Rattle.input_source.specs.Bytes.{newline};
ghost use Rattle.run_model.specs.declared.line_state.LineState.TheVariants.{Collecting};
ghost use Rattle.run_model.specs.declared.purpose.Purpose.TheVariants.{Arguments, Calling};
ghost use Rattle.run_model.specs.declared.request.Request.TheVariants.{Break};
ghost use Rattle.read_steps.specs.Clauses.{ComposerOf, TakesAs, arguments_ended, line_ended};
ghost use Rattle.read_steps.specs.Clauses.{byte_taking};
ghost use Rattle.read_steps.specs.Clauses.{row_of};

use read_lines::Reader;
use read_obeying::act;
use roff_num::{Limit, ShortName};
use roff_scan::Unread;
use run_model::{LineReading, LineState, PageEvent, Request, Step, broken};
use run_state::Composer;

/// A newline behind the arguments of this request, where nothing is half read: it is obeyed.
///
/// # Errors
///
/// A limit that it would pass; what was changed then is of no more use.
#[inline(always)]
pub fn end_request(
    reader: &mut Reader,
    breaks: bool,
    request: Request,
    composer: &Composer,
    unread: &mut Unread<PageEvent>,
) -> Result<Step, Limit>
    requires line { reader.old.reading ≡ Collecting (Arguments breaks request) }
    requires none_half { unread.old.input.escapes ≡ [] }
    ensures { TakesAs (λ k. byte_taking k reader.old.reading unread.old.input newline)
        composer.now reader.old reader.new unread.old unread.new result }
{
    end_arguments(reader, breaks, request, composer, unread)
}

/// The end of a line that was read as arguments.
#[inline(always)]
pub(crate) fn end_arguments(
    reader: &mut Reader,
    breaks: bool,
    request: Request,
    composer: &Composer,
    unread: &mut Unread<PageEvent>,
) -> Result<Step, Limit>
    ensures { TakesAs (λ k. arguments_ended k unread.old.input breaks request
        (row_of request).line)
        composer.now reader.old reader.new unread.old unread.new result }
{
    match request.row().line {
        LineReading::ByLines(lines) => reader.begin_lines(lines, unread),
        _ => obey(reader, breaks, request, composer, unread),
    }
}

/// The end of a request's line: it is obeyed with the arguments that were read.
pub(crate) fn obey(
    reader: &mut Reader,
    breaks: bool,
    request: Request,
    composer: &Composer,
    unread: &mut Unread<PageEvent>,
) -> Result<Step, Limit>
    ensures { TakesAs (λ k. line_ended k unread.old.input breaks request)
        composer.now reader.old reader.new unread.old unread.new result }
{
    unread.finish_arguments();
    let step = act(
        &mut reader.lasting,
        &mut reader.meaning,
        breaks,
        request,
        composer,
        unread,
    )?;
    let behind = LineState::behind_line(request.row().line);
    unread.begin_arguments();
    reader.reading = behind;
    Ok(step)
}

/// A newline that ends the line of a break.
#[inline(always)]
pub fn end_break(reader: &mut Reader, breaks: bool, unread: &mut Unread<PageEvent>) -> Step
    requires line { reader.old.reading ≡ Collecting (Arguments breaks Break) }
    requires none_half { unread.old.input.escapes ≡ [] }
    ensures { (es : ComposerOf)
        → TakesAs (λ k. byte_taking k reader.old.reading unread.old.input newline)
        es reader.old reader.new unread.old unread.new (Ok result) }
{
    obey_break(reader, breaks, unread)
}

/// The end of the line of a break, whose arguments mean nothing.
#[inline(always)]
fn obey_break(reader: &mut Reader, breaks: bool, unread: &mut Unread<PageEvent>) -> Step
    ensures { (es : ComposerOf)
        → TakesAs (λ k. line_ended k unread.old.input breaks Break)
        es reader.old reader.new unread.old unread.new (Ok result) }
{
    unread.begin_arguments();
    reader.go_on(LineState::LineStart);
    broken(breaks)
}

/// A newline behind the arguments of a line that calls this body, which is read.
///
/// # Errors
///
/// A limit that it would pass; what was changed then is of no more use.
#[inline(always)]
pub fn end_call_line(
    reader: &mut Reader,
    name: ShortName,
    unread: &mut Unread<PageEvent>,
) -> Result<Step, Limit>
    requires line { reader.old.reading ≡ Collecting (Calling name) }
    requires none_half { unread.old.input.escapes ≡ [] }
    ensures { (es : ComposerOf)
        → TakesAs (λ k. byte_taking k reader.old.reading unread.old.input newline)
        es reader.old reader.new unread.old unread.new result }
{
    reader.call_body(name, unread)
}
