//! Lines by which macros are defined, or that are ignored.

ghost use Rattle.std.specs.Prelude.{◌≡◌, true};
ghost use Rattle.read_steps.specs.Clauses.{TakesAs};
ghost use Rattle.read_steps.specs.Clauses.{string_entered, behind_definition};
ghost use Rattle.read_steps.specs.Clauses.{definition_found};
ghost use Rattle.read_steps.specs.Clauses.{definition_line, ends_mark};

use crate::control_lines::read_behind_name;
use crate::found::unit_in;
use read_lines::Reader;
use read_names::{enter_string, grow_definition};
use roff_num::{Limit, ShortName};
use roff_scan::{CopyUnit, Found, Unread};
use run_model::{DefinitionLine, EndMark, LineState, PageEvent, Purpose, Step, matched_behind};
use run_state::Composer;

/// Something of a definition's text.
pub(crate) fn read_definition(
    reader: &mut Reader,
    name: Option<ShortName>,
    appends: bool,
    end: Option<ShortName>,
    matched: Option<u8>,
    found: Found,
    composer: &Composer,
    unread: &mut Unread<PageEvent>,
) -> Result<Step, Limit>
    ensures { TakesAs (λ k. definition_found k unread.old.input name appends end matched found)
        composer.now reader.old reader.new unread.old unread.new result }
{
    match unit_in(&found) {
        Some(unit) => {
            read_unit_of_definition(reader, name, appends, end, matched, unit, composer, unread)
        }
        None => {
            let reading = LineState::Collecting(Purpose::Defining {
                name,
                appends,
                end,
                matched,
            });
            reader.read_in_arguments(reading, found, composer, unread)
        }
    }
}

/// A unit of a definition's text: what stands in front of a line that may be the last one is no
/// text yet.
fn read_unit_of_definition(
    reader: &mut Reader,
    name: Option<ShortName>,
    appends: bool,
    end: Option<ShortName>,
    matched: Option<u8>,
    unit: CopyUnit,
    composer: &Composer,
    unread: &mut Unread<PageEvent>,
) -> Result<Step, Limit>
    ensures { TakesAs (λ k. definition_line k unread.old.input name appends end matched unit)
        composer.now reader.old reader.new unread.old unread.new result }
{
    let defining = |matched| {
        LineState::Collecting(Purpose::Defining {
            name,
            appends,
            end,
            matched,
        })
    };
    let mark = EndMark::of(end);
    match mark.line_with(matched, unit) {
        DefinitionLine::MayBeLast(matched) => Ok(reader.read_on(defining(Some(matched)))),
        DefinitionLine::IsLast(byte) => {
            end_definition(reader, name, appends, end, byte, composer, unread)
        }
        DefinitionLine::IsText => {
            grow_definition(name, mark.front(matched), unit, unread)?;
            Ok(reader.read_on(defining(matched_behind(unit))))
        }
    }
}

/// The line that ends a definition, up to the first byte behind its name.
fn end_definition(
    reader: &mut Reader,
    name: Option<ShortName>,
    appends: bool,
    end: Option<ShortName>,
    byte: u8,
    composer: &Composer,
    unread: &mut Unread<PageEvent>,
) -> Result<Step, Limit>
    requires { ends_mark byte ≡ true }
    ensures { TakesAs (λ k. behind_definition k
        (string_entered name appends unread.old.input) end byte)
        composer.now reader.old reader.new unread.old unread.new result }
{
    enter_string(name, appends, unread)?;
    read_behind_definition(reader, end, byte, composer, unread)
}

/// The first byte behind the name on that line: the name is called, if there is one, and else
/// the line is dropped.
fn read_behind_definition(
    reader: &mut Reader,
    end: Option<ShortName>,
    byte: u8,
    composer: &Composer,
    unread: &mut Unread<PageEvent>,
) -> Result<Step, Limit>
    ensures { TakesAs (λ k. behind_definition k unread.old.input end byte)
        composer.now reader.old reader.new unread.old unread.new result }
{
    match end {
        Some(end) => {
            unread.begin_line();
            read_behind_name(reader, true, end, byte, composer, unread)
        }
        None => Ok(reader.read_on(LineState::behind_dropped(byte))),
    }
}
