//! The names that the arguments of a line give.

ghost use Rattle.std.specs.Prelude.{◌≡◌, reverse, slice_get};
ghost use Rattle.input_arguments.specs.ArgumentList.{listed};
ghost use Rattle.read_names.specs.NamesGiven.{name_in};
ghost use Rattle.roff_num.specs.ShortNames.{name_at as name_given_at};
ghost use Rattle.run_model.specs.Reading.Arguments.{calling_all};
ghost use Rattle.run_model.specs.Requests.Naming.{removals};
ghost use Rattle.run_model.specs.Requests.Numbering.{names_given};

use roff_num::{Name, ShortName};
use roff_scan::{ArgumentList, Unread};
use run_model::{PageEvent, name_given};

/// The name that the first of these arguments gives, if there is one.
pub fn first_name(arguments: ArgumentList<'_>) -> Option<Option<ShortName>>
    ensures { result ≡ name_given_at 0 (listed arguments.entry) }
{
    short_name_at(0, arguments)
}

/// The name that the argument at an index gives, if the argument is there.
pub fn short_name_at(index: usize, arguments: ArgumentList<'_>) -> Option<Option<ShortName>>
    ensures { result ≡ name_given_at index (listed arguments.entry) }
{
    arguments.get(index).map(ShortName::of)
}

/// Removes what the names stand for that the arguments give.
pub fn remove_names_given(unread: &mut Unread<PageEvent>)
    ensures { unread.new ≡ record unread.old {
      input = calling_all (removals (names_given (reverse unread.old.input.arguments.whole)))
          unread.old.input;
    } }
{
    for index in 0..unread.arguments().len() {
        if let Some(name) = name_at(index, unread) {
            unread.remove(&name);
        }
    }
}

/// The name that the argument at an index gives, if there is one that gives one.
fn name_at(index: usize, unread: &Unread<PageEvent>) -> Option<Name>
    ensures { result ≡ name_in (slice_get (reverse unread.now.input.arguments.whole) index) }
{
    match unread.arguments().get(index) {
        Some(text) => name_given(text),
        None => None,
    }
}
