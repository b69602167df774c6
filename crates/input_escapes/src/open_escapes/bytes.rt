//! A byte that is read, behind backslashes too, and the end of what is on top.

ghost use Rattle.std.specs.Prelude.{◌≡◌, ◌∷◌};
ghost use Rattle.input_escapes.specs.OpenEscape.{Backslash as OpenBackslash, Size as OpenSize};
ghost use Rattle.input_escapes.specs.OpenEscape.{texts_held};
ghost use Rattle.input_escapes.specs.EscapeTexts.{BeginsBehind, IsOnTop, begun, leaving};
ghost use Rattle.input_escapes.specs.OpenEscapes.{byte_read, copied_escape, escape_given};
ghost use Rattle.input_escapes.specs.OpenEscapes.{escape_taken, reading_ended, size_read};
ghost use Rattle.input_escapes.specs.OpenEscapes.{surroundings, unit_taken};
ghost use Rattle.input_escapes.specs.Nesting.{IsNested};

use super::OpenEscapes;
use super::names::name_so_far;
use super::texts::unit_of_text;
use crate::escapes::{Escape, escape_of};
use crate::measures::Measured;
use crate::open_escape::{CopyUnit, Found, HeldEscape, SizePart, Surroundings};

/// STX: behind a backslash it prints nothing.
const START_OF_TEXT: u8 = 2;

impl OpenEscapes {
    /// Reads a byte that isn't dropped; above a text line, above arguments, or in copy mode.
    pub fn read_byte(&mut self, base: Surroundings, byte: u8) -> Found
        ensures { (result, self.new) ≡ leaving (byte_read base self.old.escapes byte) self.old }
    {
        match self.top() {
            None => {
                if byte == b'\\' {
                    self.push(HeldEscape::Backslash);
                    Found::GoesOn
                } else {
                    Found::Unit(CopyUnit::Byte(byte))
                }
            }
            Some(HeldEscape::Backslash) => self.read_behind_backslash(base, byte),
            Some(HeldEscape::Comment) => Found::GoesOn,
            Some(HeldEscape::Name(purpose, part)) => {
                if byte == b'\\' {
                    self.push(HeldEscape::Backslash);
                    Found::GoesOn
                } else {
                    self.pop();
                    self.read_unit_of_name(purpose, part, CopyUnit::Byte(byte))
                }
            }
            Some(HeldEscape::Size(part)) => {
                self.pop();
                self.read_size(part, byte)
            }
            Some(HeldEscape::Delimited(purpose, delimiter, begin)) => {
                self.read_byte_of_text(base, purpose, delimiter, begin, byte)
            }
            Some(HeldEscape::Width(delimiter, width, is_deep)) => {
                self.read_byte_of_width(delimiter, width, is_deep, byte)
            }
            Some(HeldEscape::Condition(part, begin)) => {
                self.read_byte_of_condition(part, begin, byte)
            }
        }
    }

    /// Ends the reading on top, before what stays.
    pub fn end_reading(&mut self, base: Surroundings) -> Found
        ensures { (result, self.new) ≡ leaving (reading_ended base self.old.escapes) self.old }
    {
        match self.top() {
            None => Found::GoesOn,
            Some(HeldEscape::Backslash) => {
                self.pop();
                if self.surroundings(base).reads_text() {
                    self.give_escape(START_OF_TEXT)
                } else {
                    self.read_unit(CopyUnit::Byte(b'\\'))
                }
            }
            Some(HeldEscape::Comment) => {
                self.pop();
                if self.surroundings(base).reads_text() {
                    self.give_escape(b'"')
                } else {
                    Found::GoesOn
                }
            }
            Some(HeldEscape::Name(purpose, part)) => {
                self.pop();
                self.give_name(purpose, name_so_far(part))
            }
            Some(HeldEscape::Size(_)) => {
                self.pop();
                self.give_escape(b's')
            }
            Some(HeldEscape::Delimited(purpose, _, begin)) => {
                self.end_text(base, purpose, begin)
            }
            Some(HeldEscape::Width(_, width, _)) => {
                self.pop();
                Found::Measures(width)
            }
            Some(HeldEscape::Condition(part, begin)) => self.end_condition(part, begin),
        }
    }

    /// How the byte behind a backslash above these is read; above a text line, above arguments, or
    /// in copy mode.
    fn surroundings(&self, base: Surroundings) -> Surroundings
        ensures { result ≡ surroundings base self.now.escapes }
    {
        match self.top() {
            None => base,
            Some(HeldEscape::Delimited(..)) => Surroundings::Arguments,
            Some(HeldEscape::Condition(..)) => Surroundings::Arguments,
            Some(HeldEscape::Width(_, _, false)) => Surroundings::Text(base.place()),
            Some(_) => Surroundings::Copy,
        }
    }

    /// The byte behind the backslash on top: most begin a name.
    #[inline(always)]
    fn read_behind_backslash(&mut self, base: Surroundings, byte: u8) -> Found
        requires nested { IsNested self.old.escapes }
        requires on_top { IsOnTop HeldEscape.Backslash self.old.escapes }
        ensures { (result, self.new) ≡ leaving (byte_read base self.old.escapes byte) self.old }
    {
        if self.name_escape(byte) {
            return Found::GoesOn;
        }
        self.pop();
        self.read_escape(base, byte)
    }

    /// The byte behind a backslash, which is off already.
    fn read_escape(&mut self, base: Surroundings, byte: u8) -> Found
        requires { IsNested (OpenBackslash ∷ self.old.escapes) }
        ensures { (result, self.new) ≡ leaving (escape_taken base self.old.escapes byte) self.old }
    {
        let around = self.surroundings(base);
        let in_text = around.reads_text();
        match escape_of(byte) {
            Escape::Comment => self.begin(HeldEscape::Comment),
            Escape::Name(purpose) => {
                if purpose.is_copied() || in_text {
                    self.begin_name(purpose)
                } else {
                    self.read_unit(CopyUnit::Kept(byte))
                }
            }
            Escape::Width => {
                if around == Surroundings::Copy {
                    self.copy_escape(byte)
                } else {
                    self.begin_width()
                }
            }
            Escape::Size if in_text => self.begin(HeldEscape::Size(SizePart::Nothing)),
            Escape::Text(purpose) if in_text => self.begin_text(purpose),
            _ if in_text => self.give_escape(byte),
            _ => self.copy_escape(byte),
        }
    }

    /// The byte behind a backslash of copy mode that begins nothing.
    fn copy_escape(&mut self, byte: u8) -> Found
        ensures { (result, self.new) ≡ leaving (copied_escape self.old.escapes byte) self.old }
    {
        match byte {
            b'\n' => Found::GoesOn,
            b'\\' | b'.' => self.read_unit(CopyUnit::Byte(byte)),
            b't' => self.read_unit(CopyUnit::Byte(b'\t')),
            _ => self.read_unit(CopyUnit::Kept(byte)),
        }
    }

    /// Something begins, which may stand above these.
    pub(super) fn begin(&mut self, escape: HeldEscape) -> Found
        requires stands { IsNested (begun escape ∷ self.old.escapes) }
        requires begins { BeginsBehind (texts_held self.old.escapes) escape }
        ensures going { result ≡ Found.GoesOn }
        ensures begun { self.new ≡ record self.old { escapes = begun escape ∷ self.old.escapes } }
    {
        self.push(escape);
        Found::GoesOn
    }

    /// A unit of copy mode.
    fn read_unit(&mut self, unit: CopyUnit) -> Found
        ensures { (result, self.new) ≡ leaving (unit_taken self.old.escapes unit) self.old }
    {
        match self.top() {
            None => Found::Unit(unit),
            Some(HeldEscape::Name(purpose, part)) => {
                self.pop();
                self.read_unit_of_name(purpose, part, unit)
            }
            Some(HeldEscape::Delimited(purpose, _, _)) => unit_of_text(purpose, unit),
            Some(HeldEscape::Condition(part, begin)) => self.read_unit_of_condition(
                part, begin, unit,
            ),
            Some(_) => Found::GoesOn,
        }
    }

    /// A byte of a size, which is off already: behind no sign a second digit belongs to it where
    /// the first is 1, 2 or 3.
    fn read_size(&mut self, part: SizePart, byte: u8) -> Found
        requires { IsNested (OpenSize part ∷ self.old.escapes) }
        ensures { (result, self.new) ≡ leaving (size_read self.old.escapes part byte) self.old }
    {
        let part = match (part, byte) {
            (SizePart::Nothing, b'+' | b'-') => SizePart::Sign,
            (SizePart::Nothing, b'1'..=b'3') => SizePart::Digit,
            _ => return self.give_escape(b's'),
        };
        self.push(HeldEscape::Size(part));
        Found::GoesOn
    }

    /// An escape of the text without a name: a text that is measured grows by it.
    pub(super) fn give_escape(&mut self, byte: u8) -> Found
        ensures { (result, self.new) ≡ leaving (escape_given self.old.escapes byte) self.old }
    {
        match self.top() {
            Some(HeldEscape::Width(delimiter, width, is_deep)) => {
                self.grow(delimiter, width, is_deep, Measured::of_escape(byte))
            }
            _ => Found::Escape(byte),
        }
    }
}
