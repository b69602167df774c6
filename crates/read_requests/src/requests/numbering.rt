//! Setting and formatting number registers.

ghost use Rattle.std.specs.Prelude.{◌≡◌, ℕ, List, drop, slice_get};
ghost use Rattle.std.specs.Option.{option_copied};
ghost use Rattle.run_model.specs.Registers.{Known};
ghost use Rattle.read_requests.specs.Request.Coded.{GivesFirst, KnowsOf, response_of};
ghost use Rattle.read_requests.specs.Request.Coded.{register_named, set_by};
ghost use Rattle.roff_num.specs.declared.num.Scale.TheVariants.{Units};
ghost use Rattle.run_model.specs.Numbers.{value_beside};
ghost use Rattle.run_model.specs.declared.request.Request.TheVariants.{NumberRegister};
ghost use Rattle.run_model.specs.Requests.Numbering.{assign_format, format_as, increment_given};
ghost use Rattle.run_model.specs.Requests.Numbering.{name_given, set_register, set_to};

use crate::requests::{Changes, Given, RequestFacts, Response};
use read_registers::{Change, is_page, value_beside, value_in};
use roff_num::{Format, Name, Num, NumFault, Scale, read_format};
use run_model::name_given;

/// A register's value and increment.
#[derive(Clone, Copy)]
pub struct Numbers {
    /// The value.
    pub value: Num,
    /// The increment.
    pub increment: Num,
}

/// `nr`: a register's value and increment.
pub(super) fn set_register(known: RequestFacts<'_>, given: Given<'_>) -> Response
    ensures { (k : Known) (as_given : List (List ℕ))
        → KnowsOf k NumberRegister as_given known.entry → GivesFirst as_given given.entry
        → response_of as_given result ≡ set_register k as_given }
{
    match (register_named(given.first), given.second) {
        (Some(name), Some(text)) => set_to(name, numbers_given(known.in_force, text, given.third)),
        _ => Response::unsaid(),
    }
}

/// `af`: how a register is written.
pub(super) fn assign_format(first: Option<&[u8]>, second: Option<&[u8]>) -> Response
    ensures { (as_given : List (List ℕ)) → option_copied first.entry ≡ slice_get as_given 0
        → option_copied second.entry ≡ slice_get as_given 1
        → response_of as_given result ≡ assign_format as_given }
{
    match (register_named(first), second) {
        (Some(name), Some(text)) => format_as(name, read_format(text)),
        _ => Response::unsaid(),
    }
}

/// The register that a first argument names, if there is one that names one.
pub fn register_named(first: Option<&[u8]>) -> Option<Name>
    ensures { (as_given : List (List ℕ)) → option_copied first.entry ≡ slice_get as_given 0
        → result ≡ register_named as_given }
{
    match first {
        Some(text) => name_given(text),
        None => None,
    }
}

/// The increment: 0 where none is given.
fn increment_given(third: Option<&[u8]>) -> Result<i32, NumFault>
    ensures { (as_given : List (List ℕ)) → option_copied third.entry ≡ slice_get as_given 2
        → result ≡ increment_given (drop 2 as_given) }
{
    match third {
        Some(text) => value_in(Scale::Units, text),
        None => Ok(0),
    }
}

/// The value that a text gives beside the one in force, and the increment, if both are numbers.
#[inline(always)]
pub fn numbers_given(in_force: Num, text: &[u8], third: Option<&[u8]>) -> Option<Numbers>
    ensures { (name : List ℕ) (as_given : List (List ℕ))
        → option_copied third.entry ≡ slice_get as_given 2
        → set_by name result ≡ set_to name (value_beside in_force.0 Units text.now)
        (increment_given (drop 2 as_given)) }
{
    let value = value_beside(i64::from(in_force.0), Scale::Units, text);
    match (value, increment_given(third)) {
        (Ok(value), Ok(increment)) => Some(Numbers {
            value: Num(value),
            increment: Num(increment),
        }),
        _ => None,
    }
}

/// A register is set to these, if they are numbers.
fn set_to(name: Name, numbers: Option<Numbers>) -> Response
    ensures { (as_given : List (List ℕ)) → response_of as_given result ≡ set_by name numbers }
{
    match numbers {
        Some(numbers) => {
            if is_page(&name) {
                return Response::Numbers(numbers.value, numbers.increment);
            }
            Response::changing(Changes::One(Change::SetTo {
                name,
                value: numbers.value,
                increment: numbers.increment,
            }))
        }
        None => Response::bad_number(),
    }
}

/// A register is given a format, if it is one.
fn format_as(name: Name, format: Option<Format>) -> Response
    ensures { (as_given : List (List ℕ)) → response_of as_given result ≡ format_as name format }
{
    match format {
        Some(format) => Response::changing(Changes::One(Change::FormatAs { name, format })),
        None => Response::bad_format(),
    }
}
