//! Macros that spring: the input-line trap.

ghost use Rattle.std.specs.Prelude.{◌≡◌, ℕ, List, slice_get};
ghost use Rattle.std.specs.Option.{option_copied};
ghost use Rattle.read_requests.specs.Request.Coded.{response_of};
ghost use Rattle.run_model.specs.Requests.Springing.{input_trap, trap_of};

use crate::requests::Response;
use crate::requests::naming::name_in;
use read_registers::value_in;
use roff_num::{Scale, ShortName};
use run_model::{InputTrap, PageEvent};

/// `it`: a macro springs behind so many text lines; without both there is no trap any more.
pub(super) fn input_trap(first: Option<&[u8]>, second: Option<&[u8]>) -> Response
    ensures { (as_given : List (List ℕ)) → option_copied first.entry ≡ slice_get as_given 0
        → option_copied second.entry ≡ slice_get as_given 1
        → response_of as_given result ≡ input_trap as_given }
{
    match first {
        None => Response::Happens(PageEvent::InputTrap(None)),
        Some(text) => match value_in(Scale::Units, text) {
            Ok(lines) => Response::Happens(PageEvent::InputTrap(trap_of(
                lines.max(0) as u32,
                name_in(second),
            ))),
            Err(_) => Response::bad_number(),
        },
    }
}

/// The trap of so many lines and a name, if there is a name and one line at least.
fn trap_of(lines: u32, name: Option<ShortName>) -> Option<InputTrap>
    ensures { result ≡ trap_of lines name }
{
    match name {
        Some(name) => {
            if lines == 0 {
                return None;
            }
            Some(InputTrap { lines, name })
        }
        None => None,
    }
}
