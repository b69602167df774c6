//! The texts of strings, which their names get.

ghost use Rattle.std.specs.Prelude.{◌≡◌, length, Some};
ghost use Rattle.read_names.specs.FirstUnits.{first_text};
ghost use Rattle.read_names.specs.Inputs.{InputCameTo};
ghost use Rattle.run_model.specs.Reading.Strings.{string_begun, string_emptied, string_entered};
ghost use Rattle.run_model.specs.Reading.Strings.{string_grown};

use crate::called::whole_name;
use roff_num::{Limit, ShortName};
use roff_scan::{CopyUnit, Unread};
use roff_store::{Entry, Kind};
use run_model::PageEvent;

/// Begins the text of a string, and releases the argument that gave its name.
pub fn begin_string(name: Option<ShortName>, unread: &mut Unread<PageEvent>) -> Result<(), Limit>
    ensures { InputCameTo (string_begun name unread.old.input) unread.old unread.new result }
{
    unread.begin_arguments();
    match name {
        Some(_) => unread.begin_text(),
        None => Ok(()),
    }
}

/// Puts a unit behind the text of a string, if it has a name.
pub fn grow_string(
    name: Option<ShortName>,
    unit: CopyUnit,
    unread: &mut Unread<PageEvent>,
) -> Result<(), Limit>
    ensures { InputCameTo (string_grown name unit unread.old.input) unread.old unread.new result }
{
    if name.is_none() {
        return Ok(());
    }
    match unit {
        CopyUnit::Byte(byte) => unread.add(&[byte]),
        CopyUnit::Kept(byte) => unread.add(&[b'\\', byte]),
    }
}

/// Ends the text of a string.
pub fn enter_string(
    name: Option<ShortName>,
    appends: bool,
    unread: &mut Unread<PageEvent>,
) -> Result<(), Limit>
    ensures { InputCameTo (string_entered name appends unread.old.input)
        unread.old unread.new result }
{
    match name {
        Some(name) => unread.enter(&whole_name(name), appends),
        None => Ok(()),
    }
}

/// How many bytes the first unit adds to the text of a string, if it has a name: in front of the
/// text a blank and a quote are dropped.
pub fn first_bytes(name: Option<ShortName>, unit: CopyUnit) -> usize
    ensures { result ≡ length (first_text name unit) }
{
    match (name, unit) {
        (None, _) => 0,
        (Some(_), CopyUnit::Byte(b' ')) => 0,
        (Some(_), CopyUnit::Byte(b'"')) => 0,
        (Some(_), CopyUnit::Byte(_)) => 1,
        (Some(_), CopyUnit::Kept(_)) => 2,
    }
}

/// A string without a text is empty; one that is appended to stays.
pub fn empty_string(
    name: ShortName,
    appends: bool,
    unread: &mut Unread<PageEvent>,
) -> Result<(), Limit>
    ensures { InputCameTo (string_emptied (Some name) appends unread.old.input)
        unread.old unread.new result }
{
    let name = name.name();
    match unread.get(&name) {
        Some(Kind::Body(_)) if appends => Ok(()),
        _ => unread.set(&name, Entry::Body(&[])),
    }
}
