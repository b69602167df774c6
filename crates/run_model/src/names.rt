//! The names that arguments give.

ghost use Rattle.std.specs.Prelude.{◌≡◌};
ghost use Rattle.roff_num.specs.Names.{name_of};
ghost use Rattle.run_model.specs.Requests.Numbering.{name_given};

use roff_num::Name;

/// The name that an argument gives: its first two bytes. None if it has none.
pub fn name_given(text: &[u8]) -> Option<Name>
    ensures { result ≡ name_of (name_given text.now) }
{
    match text {
        [] => None,
        [only] => Name::new(&[*only]),
        [first, second, ..] => Name::new(&[*first, *second]),
    }
}
