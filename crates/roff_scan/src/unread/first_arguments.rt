//! The first argument of a line, taken as far as it isn't whole.

ghost use Rattle.std.specs.Prelude.{◌≡◌, ◌≤◌, drop, length, take, take_while, false, true};
ghost use Rattle.input_model.specs.Arguments.{is_behind_quote};
ghost use Rattle.input_model.specs.declared.place.Place.TheVariants.{Between};
ghost use Rattle.roff_scan.specs.Unread.FirstArguments.{Unended, is_inside, first_argument};

use super::Unread;
use super::fronts::front_of;
use super::runs::{blanks_in_front, take_part};
use crate::run_kind::RunKind;
use input_arguments::ArgumentTexts;
use input_escapes::CopyUnit;
use input_source::{ByteSource, at_most};

impl<E: Copy> Unread<E> {
    ghost use Rattle.roff_scan.specs.Unread.FirstArguments.{TakesFirst};

    /// Takes bytes together that stand in front, as they lie together, and are held in the first
    /// argument of the line: blanks in front of it, and then its bytes up to one that may end it,
    /// and no more than the limits have room for. Returns how many; none where an argument is
    /// whole.
    #[inline(never)]
    pub fn take_first_argument<S: ByteSource>(&mut self, source: &mut S) -> usize
        requires { is_behind_quote self.old.input.arguments.place ≡ false }
        ensures takes { TakesFirst (S.gives source.old) (S.gives source.new) (S.ready source.old)
            result self.old self.new }
        ensures notes { S.notes source.new ≤ S.notes source.old }
        ensures failures { S.failures source.new ≡ S.failures source.old }
    {
        let kind = RunKind::CallArguments(1);
        let most = self.room_for(kind);
        let bytes = front_of(&self.input_ahead, self.looked, source, most);
        let front = argument_in_front(bytes, is_between(&self.arguments));
        if front.is_empty() {
            return 0;
        }
        let count = take_part(kind, front, &mut self.arguments, &mut self.escapes);
        self.pass_front(source, count, false);
        count
    }
}

/// Whether no argument is being read, so that a blank changes nothing.
#[inline(always)]
fn is_between(arguments: &ArgumentTexts) -> bool
    ensures between { result ≡ true → arguments.now.arguments.place ≡ Between }
    ensures others { result ≡ false → arguments.now.arguments.place ≡ Between → ⊥ }
{
    arguments.bytes_more(CopyUnit::Byte(b' ')) == 0
        && arguments.bytes_more(CopyUnit::Byte(b'"')) == 0
}

/// Of these bytes the blanks in front of an argument, if none is begun, and the bytes behind them
/// up to a blank or a quote.
#[inline(always)]
fn argument_in_front(bytes: &[u8], none_begun: bool) -> &[u8]
    ensures begins { result.now ≡ take (length result.now) bytes.now }
    ensures among { length result.now ≤ length bytes.now }
    ensures unended { Unended none_begun result.now }
    ensures whole { result.now ≡ first_argument none_begun bytes.now }
{
    if !none_begun {
        return at_most(bytes, inside_in_front(bytes));
    }
    let blanks = blanks_in_front(bytes);
    at_most(bytes, blanks + inside_in_front(behind(bytes, blanks)))
}

/// These bytes behind the first ones, of which there are so many.
#[inline(always)]
fn behind(bytes: &[u8], count: usize) -> &[u8]
    requires { count ≤ length bytes.now }
    ensures { result.now ≡ drop count bytes.now }
{
    bytes.split_at(count).1
}

/// How many of these bytes are neither blanks nor quotes, up to the first that is one.
#[inline(always)]
fn inside_in_front(bytes: &[u8]) -> usize
    ensures { result ≡ length (take_while is_inside bytes.now) }
{
    bytes
        .iter()
        .take_while(|byte| **byte != b' ' && **byte != b'"')
        .count()
}
