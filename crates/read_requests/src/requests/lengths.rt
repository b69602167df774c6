//! The line length, the indent, the indent of one line, and the title length.

ghost use Rattle.std.specs.Prelude.{◌≡◌, ℕ, List, slice_get};
ghost use Rattle.std.specs.Option.{option_copied};
ghost use Rattle.run_model.specs.Registers.{Known};
ghost use Rattle.read_requests.specs.Request.Coded.{response_of};
ghost use Rattle.run_model.specs.Requests.Lengths.{indent, length_set, length_wanted, line_length};
ghost use Rattle.run_model.specs.Requests.Lengths.{temporary_indent, title_length};

use crate::requests::Response;
use page_model::{Param, Settings};
use read_registers::{COLUMN, rounded_to_columns, value_beside};
use roff_num::{NumFault, Scale};

/// `ll`: the line length.
pub(super) fn line_length(settings: Settings, argument: Option<&[u8]>) -> Response
    ensures { (k : Known) (as_given : List (List ℕ)) → settings ≡ k.settings
        → option_copied argument.entry ≡ slice_get as_given 0
        → response_of as_given result ≡ line_length k as_given }
{
    match length_wanted(
        settings.line_length,
        settings.previous_line_length,
        argument,
    ) {
        Ok(columns) => Response::setting(Param::LineLength(columns)),
        Err(_) => Response::bad_number(),
    }
}

/// `in`: the indent.
pub(super) fn indent(settings: Settings, argument: Option<&[u8]>) -> Response
    ensures { (k : Known) (as_given : List (List ℕ)) → settings ≡ k.settings
        → option_copied argument.entry ≡ slice_get as_given 0
        → response_of as_given result ≡ indent k as_given }
{
    match length_wanted(settings.indent, settings.previous_indent, argument) {
        Ok(columns) => Response::setting(Param::Indent(columns)),
        Err(_) => Response::bad_number(),
    }
}

/// `ti`: the indent of the next line that a word begins; without an argument it is ignored.
pub(super) fn temporary_indent(settings: Settings, argument: Option<&[u8]>) -> Response
    ensures { (k : Known) (as_given : List (List ℕ)) → settings ≡ k.settings
        → option_copied argument.entry ≡ slice_get as_given 0
        → response_of as_given result ≡ temporary_indent k as_given }
{
    match argument {
        None => Response::unsaid(),
        Some(text) => match length_set(settings.indent, text) {
            Ok(columns) => Response::setting(Param::TemporaryIndent(columns)),
            Err(_) => Response::bad_number(),
        },
    }
}

/// `lt`: the title length.
pub(super) fn title_length(settings: Settings, argument: Option<&[u8]>) -> Response
    ensures { (k : Known) (as_given : List (List ℕ)) → settings ≡ k.settings
        → option_copied argument.entry ≡ slice_get as_given 0
        → response_of as_given result ≡ title_length k as_given }
{
    match length_wanted(
        settings.title_length,
        settings.previous_title_length,
        argument,
    ) {
        Ok(columns) => Response::setting(Param::TitleLength(columns)),
        Err(_) => Response::bad_number(),
    }
}

/// The length that is wanted, in columns: the previous one where none is given.
pub fn length_wanted(in_force: u32, previous: u32, argument: Option<&[u8]>) -> Result<u32, NumFault>
    ensures { (as_given : List (List ℕ)) → option_copied argument.entry ≡ slice_get as_given 0
        → result ≡ length_wanted in_force previous as_given }
{
    match argument {
        None => Ok(previous),
        Some(text) => length_set(in_force, text),
    }
}

/// The length in columns that a text sets: it is rounded, and not below 0.
fn length_set(in_force: u32, text: &[u8]) -> Result<u32, NumFault>
    ensures { result ≡ length_set in_force text.now }
{
    let units = i64::from(COLUMN) * i64::from(in_force);
    match value_beside(units, Scale::Columns, text) {
        Ok(length) => Ok(rounded_to_columns(length).max(0) as u32 / COLUMN),
        Err(fault) => Err(fault),
    }
}
