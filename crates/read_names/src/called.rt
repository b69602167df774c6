//! What a line does that begins with a name, and how what is behind the name is read.

ghost use Rattle.std.specs.Prelude.{◌≡◌, None, IfSome, true};
ghost use Rattle.roff_num.specs.ShortNames.{name_bytes};
ghost use Rattle.read_names.specs.NamesRead.{LeadsTo, LeadsToElse, input_begun};
ghost use Rattle.read_names.specs.NamesRead.{is_by_else, reads_other_branch};
ghost use Rattle.run_model.specs.Reading.ControlLines.{behind_called, behind_name};
ghost use Rattle.run_model.specs.Requests.{called_by, row_of};

use roff_num::{Name, ShortName};
use roff_scan::Unread;
use roff_store::Kind;
use run_model::{Called, LineReading, LineState, PageEvent, Purpose, Request};

/// What is read behind a name that stands for this, if nothing else changes but what is half read:
/// of all but the other branch of a condition.
#[inline(always)]
pub fn behind_called(breaks: bool, called: Called) -> Option<LineState>
    ensures leads { IfSome result
        (λ reading. LeadsTo (λ i. behind_called i breaks called) reading) }
    ensures other { result ≡ None → LeadsToElse (λ i. behind_called i breaks called) }
    ensures alone { result ≡ None → reads_other_branch called ≡ true }
{
    match called {
        Called::Request(request) => behind_request(breaks, request),
        Called::Body(name) => Some(LineState::Collecting(Purpose::Calling { name })),
        Called::Nothing => Some(LineState::Dropped),
    }
}

/// What is read behind the name of a request, if nothing else changes but what is half read: of all
/// but the other branch of a condition.
#[inline(always)]
fn behind_request(breaks: bool, request: Request) -> Option<LineState>
    ensures leads { IfSome result (λ reading.
        LeadsTo (λ i. behind_name i breaks request (row_of request).line) reading) }
    ensures other { result ≡ None
        → LeadsToElse (λ i. behind_name i breaks request (row_of request).line) }
    ensures alone { result ≡ None → is_by_else (row_of request).line ≡ true }
{
    let arguments = LineState::Collecting(Purpose::Arguments { breaks, request });
    match request.row().line {
        LineReading::ByArguments => Some(arguments),
        LineReading::ByLines(_) => Some(arguments),
        LineReading::ByLastLine => Some(arguments),
        LineReading::ByCondition { keeps } => Some(LineState::Deciding { keeps }),
        LineReading::ByString { appends } => {
            Some(LineState::Collecting(Purpose::StringName { appends }))
        }
        LineReading::ByMessage { aborts } => Some(LineState::Collecting(Purpose::Telling {
            aborts,
            is_front: true,
        })),
        LineReading::ByTitle => Some(LineState::TitleFront),
        LineReading::ByElse => None,
    }
}

/// Begins to read a condition, if one is read.
pub fn begin_deciding(reading: LineState, unread: &mut Unread<PageEvent>)
    ensures { unread.new
        ≡ record unread.old { input = input_begun reading unread.old.input } }
{
    match reading {
        LineState::Deciding { .. } => unread.begin_condition(),
        _ => {}
    }
}

/// A short name as a name: each length has a copy of its own, for which the compiler knows it.
#[inline(always)]
pub fn whole_name(name: ShortName) -> Name
    ensures { result ≡ name_bytes name }
{
    match name.second {
        Some(second) => ShortName {
            first: name.first,
            second: Some(second),
        }
        .name(),
        None => ShortName {
            first: name.first,
            second: None,
        }
        .name(),
    }
}

/// What a line does that begins with a name.
#[inline(always)]
pub fn called_by(name: ShortName, unread: &Unread<PageEvent>) -> Called
    ensures { result ≡ called_by name unread.now.input.names }
{
    match unread.get(&name.name()) {
        Some(Kind::Request(number)) => match Request::numbered(number as usize) {
            Some(request) => Called::Request(request),
            None => Called::Nothing,
        },
        Some(Kind::Body(_)) => Called::Body(name),
        None => Called::Nothing,
    }
}
