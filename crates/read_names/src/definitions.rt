//! The texts of definitions, which their names get.

ghost use Rattle.std.specs.Prelude.{◌≤◌, ◌++◌, length};
ghost use Rattle.input_escapes.specs.OpenEscape.{unit_bytes};
ghost use Rattle.read_names.specs.Inputs.{InputCameTo};
ghost use Rattle.run_model.specs.Reading.Definitions.{definition_grown};

use arrayvec::ArrayVec;
use roff_num::{Limit, ShortName};
use roff_scan::{CopyUnit, Unread};
use run_model::PageEvent;

/// Puts what stood in front of a line and a unit behind the text of a definition, if it has a name.
pub fn grow_definition(
    name: Option<ShortName>,
    front: &[u8],
    unit: CopyUnit,
    unread: &mut Unread<PageEvent>,
) -> Result<(), Limit>
    requires { length front.now ≤ 3 }
    ensures { InputCameTo (definition_grown name (front.now ++ unit_bytes unit) unread.old.input)
        unread.old unread.new result }
{
    if name.is_none() {
        return Ok(());
    }
    let mut text: ArrayVec<u8, 5> = ArrayVec::new();
    text.try_extend_from_slice(front).unwrap();
    match unit {
        CopyUnit::Byte(byte) => text.push(byte),
        CopyUnit::Kept(byte) => text.try_extend_from_slice(&[b'\\', byte]).unwrap(),
    }
    unread.add(&text)
}
