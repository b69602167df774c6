//! Renaming strings, macros and requests, and the macro that is read last.

ghost use Rattle.std.specs.Prelude.{◌≡◌, ℕ, List, slice_get};
ghost use Rattle.std.specs.Option.{option_copied};
ghost use Rattle.read_requests.specs.Request.Coded.{response_of};
ghost use Rattle.run_model.specs.Requests.Naming.{end_macro, rename};
ghost use Rattle.roff_num.specs.ShortNames.{name_at, name_or_none};

use crate::requests::{Changes, Response, register_named};
use read_registers::Change;
use roff_num::ShortName;
use run_model::name_given;

/// `rn`: what a name stands for goes to another one.
pub(super) fn rename(first: Option<&[u8]>, second: Option<&[u8]>) -> Response
    ensures { (as_given : List (List ℕ)) → option_copied first.entry ≡ slice_get as_given 0
        → option_copied second.entry ≡ slice_get as_given 1
        → response_of as_given result ≡ rename as_given }
{
    match (register_named(first), second) {
        (Some(from), Some(text)) => match name_given(text) {
            Some(to) => Response::changing(Changes::Rename { from, to }),
            None => Response::unsaid(),
        },
        _ => Response::unsaid(),
    }
}

/// `em`: this is the macro that is read behind the input; without a name there is none.
pub(super) fn end_macro(first: Option<&[u8]>) -> Response
    ensures { (as_given : List (List ℕ)) → option_copied first.entry ≡ slice_get as_given 0
        → response_of as_given result ≡ end_macro as_given }
{
    Response::changing(Changes::One(Change::ReadLast(name_in(first))))
}

/// The name that an argument gives, if it is there and gives one.
pub(super) fn name_in(argument: Option<&[u8]>) -> Option<ShortName>
    ensures { (index : ℕ) (as_given : List (List ℕ))
        → option_copied argument.entry ≡ slice_get as_given index
        → result ≡ name_or_none (name_at index as_given) }
{
    match argument {
        Some(text) => ShortName::of(text),
        None => None,
    }
}
