//! Names behind escapes.

ghost use Rattle.std.specs.Prelude.{◌≡◌, ◌≤◌, List, ◌∷◌, length};
ghost use Rattle.input_escapes.specs.OpenEscape.{OpenEscape, Backslash as OpenBackslash};
ghost use Rattle.input_escapes.specs.OpenEscape.{Name as OpenName};
ghost use Rattle.input_escapes.specs.EscapeTexts.{leaving};
ghost use Rattle.input_escapes.specs.OpenEscapes.{name_beginning, name_begun, name_ended};
ghost use Rattle.input_escapes.specs.OpenEscapes.{name_given, part_at_first, unit_of_name};
ghost use Rattle.input_escapes.specs.Nesting.{IsNested};
ghost use Rattle.input_escapes.specs.declared.escapes.NameUse.{NameUse as UseOf};

use super::{MOST_NAMES, OpenEscapes};
use crate::escapes::NameUse;
use crate::measures::Measured;
use crate::open_escape::{CopyUnit, Found, HeldEscape, NamePart};
use roff_num::{Direction, Name};

impl OpenEscapes {
    /// A name begins, unless it would be one too many.
    pub(super) fn begin_name(&mut self, purpose: NameUse) -> Found
        requires { IsNested (OpenBackslash ∷ self.old.escapes) }
        ensures { (result, self.new) ≡ leaving (name_beginning self.old.escapes purpose) self.old }
    {
        if self.names() < MOST_NAMES {
            self.push(HeldEscape::Name(purpose, part_at_first(purpose)));
        }
        Found::GoesOn
    }

    /// A unit of a name, which is off already.
    #[inline(always)]
    pub(super) fn read_unit_of_name(
        &mut self,
        purpose: NameUse,
        part: NamePart,
        unit: CopyUnit,
    ) -> Found
        requires { IsNested (OpenName purpose part ∷ self.old.escapes) }
        ensures { (result, self.new)
            ≡ leaving (unit_of_name self.old.escapes purpose part unit) self.old }
    {
        let kept = match (part, unit) {
            (NamePart::Nothing, CopyUnit::Byte(byte)) => return self.read_first(purpose, byte),
            (NamePart::Nothing, CopyUnit::Kept(byte)) => [b'\\', byte],
            (NamePart::Opened, CopyUnit::Byte(byte)) => {
                self.push(HeldEscape::Name(purpose, NamePart::First(byte)));
                return Found::GoesOn;
            }
            (NamePart::Opened, CopyUnit::Kept(byte)) => [b'\\', byte],
            (NamePart::First(first), CopyUnit::Byte(byte)) => [first, byte],
            (NamePart::First(first), CopyUnit::Kept(_)) => [first, b'\\'],
        };
        self.give_name(purpose, Some(short_name(&kept)))
    }

    /// The first byte of a name, which is off already: a sign, a parenthesis, or all of it.
    #[inline(always)]
    fn read_first(&mut self, purpose: NameUse, byte: u8) -> Found
        requires { IsNested (OpenName purpose NamePart.Nothing ∷ self.old.escapes) }
        ensures { (result, self.new) ≡ leaving (name_begun self.old.escapes purpose byte) self.old }
    {
        let escape = match (byte, purpose) {
            (b'+', NameUse::Register(None)) => {
                HeldEscape::Name(NameUse::Register(Some(Direction::Up)), NamePart::Nothing)
            }
            (b'-', NameUse::Register(None)) => {
                HeldEscape::Name(NameUse::Register(Some(Direction::Down)), NamePart::Nothing)
            }
            (_, NameUse::Argument) => {
                return self.give_name(purpose, Some(short_name(&[byte])));
            }
            (b'(', _) => HeldEscape::Name(purpose, NamePart::Opened),
            _ => return self.give_name(purpose, Some(short_name(&[byte]))),
        };
        self.push(escape);
        Found::GoesOn
    }

    /// A name: a text that is measured grows by what isn't read in the escape's place.
    #[inline(always)]
    pub(super) fn give_name(&mut self, purpose: NameUse, name: Option<Name>) -> Found
        ensures { (result, self.new) ≡ leaving (name_given self.old.escapes purpose name) self.old }
    {
        match self.top() {
            Some(HeldEscape::Width(delimiter, width, is_deep)) if !purpose.is_copied() => {
                self.grow(delimiter, width, is_deep, Measured::of_name(purpose, name))
            }
            _ => Found::Asks(purpose, name),
        }
    }
}

/// A name of one or two bytes.
#[inline(always)]
fn short_name(bytes: &[u8]) -> Name
    requires some { 1 ≤ length bytes.now }
    requires few { length bytes.now ≤ 2 }
    ensures { result ≡ bytes.now }
{
    Name::new(bytes).unwrap()
}

/// The bytes so far of a name that isn't whole.
pub(super) fn name_so_far(part: NamePart) -> Option<Name>
    ensures { (rest : List OpenEscape) (purpose : UseOf)
        → name_given rest purpose result ≡ name_ended rest purpose part }
{
    match part {
        NamePart::First(first) => Some(short_name(&[first])),
        NamePart::Nothing | NamePart::Opened => None,
    }
}

/// How much of a name its escape has: `\(` is a parenthesis itself.
fn part_at_first(purpose: NameUse) -> NamePart
    ensures { result ≡ part_at_first purpose }
{
    match purpose {
        NameUse::Character => NamePart::Opened,
        _ => NamePart::Nothing,
    }
}
