//! Bytes that change only what is half read, one after another: the fronts of names, and
//! expressions.

ghost use Rattle.std.specs.Prelude.{◌≡◌, ◌≤◌, ◌<◌, ◌+◌, List, ◌∷◌, length, IfSome};
ghost use Rattle.input_escapes.specs.ConditionFronts.{TakesByte, TakesFront, is_of_expression};
ghost use Rattle.input_escapes.specs.OpenEscape.{OpenEscape, Backslash as OpenBackslash};
ghost use Rattle.input_escapes.specs.OpenEscape.{Name as OpenName};
ghost use Rattle.input_escapes.specs.OpenEscape.{names_in, texts_held};
ghost use Rattle.input_escapes.specs.EscapeFronts.{ReadsByte, ReadsFront, ReadsOn, may_open};
ghost use Rattle.input_escapes.specs.EscapeTexts.{IsOnTop};
ghost use Rattle.input_escapes.specs.Nesting.{IsNested};

use super::OpenEscapes;
use crate::conditions::begins_expression;
use crate::escapes::NameUse;
use crate::open_escape::{ConditionPart, CopyUnit, HeldEscape, NamePart};
use input_source::is_argument_byte;

impl OpenEscapes {
    /// Reads bytes one after another, as long as they are of a comment, or in the front of an
    /// escape that reads a name. Returns how many.
    pub fn read_front(&mut self, bytes: &[u8]) -> usize
        ensures { ReadsFront bytes.now result self.old self.new }
    {
        let mut count = 0;
        while count < bytes.len() {
            if !self.read_on(bytes[count]) {
                return count;
            }
            count += 1;
        }
        count
    }

    /// Reads a byte, if it is of a comment, or in the front of an escape that reads a name. Returns
    /// whether it was read; else nothing happens.
    #[inline(always)]
    fn read_on(&mut self, byte: u8) -> bool
        ensures { ReadsByte byte result self.old self.new }
    {
        match self.top() {
            None => self.begin_escape(byte),
            Some(HeldEscape::Backslash) => self.read_letter(byte),
            Some(HeldEscape::Name(purpose, part)) => self.read_on_in_name(purpose, part, byte),
            Some(HeldEscape::Comment) => self.read_on_in_comment(byte),
            Some(_) => false,
        }
    }

    /// Reads one byte behind a backslash, if it begins a comment, or the front of an escape that
    /// reads a name. Returns whether it was read.
    #[inline(always)]
    fn read_letter(&mut self, byte: u8) -> bool
        requires nested { IsNested self.old.escapes }
        requires on_top { IsOnTop HeldEscape.Backslash self.old.escapes }
        ensures { ReadsByte byte result self.old self.new }
    {
        if byte == b'"' {
            self.pop();
            self.push(HeldEscape::Comment);
            return true;
        }
        self.name_escape(byte)
    }

    /// Reads one byte of a comment, unless it may end it or is dropped. Returns whether it was
    /// read.
    #[inline(always)]
    fn read_on_in_comment(&self, byte: u8) -> bool
        requires { IsOnTop HeldEscape.Comment self.now.escapes }
        ensures { ReadsByte byte result self.now self.now }
    {
        byte == b'\\' || is_argument_byte(byte)
    }

    /// Reads a byte where it may begin an escape: only a backslash is read. Returns whether it was.
    #[inline(always)]
    fn begin_escape(&mut self, byte: u8) -> bool
        requires nested { IsNested (OpenBackslash ∷ self.old.escapes) }
        requires reads { ReadsOn self.old.escapes 92 (OpenBackslash ∷ self.old.escapes) }
        ensures { ReadsByte byte result self.old self.new }
    {
        if byte != b'\\' {
            return false;
        }
        self.push(HeldEscape::Backslash);
        true
    }

    /// Reads a byte behind a backslash, if it begins a name, and not too much is half read for one.
    /// Returns whether it was read; else nothing happens.
    #[inline(always)]
    pub(super) fn name_escape(&mut self, byte: u8) -> bool
        requires nested { IsNested self.old.escapes }
        requires on_top { IsOnTop HeldEscape.Backslash self.old.escapes }
        ensures { ReadsByte byte result self.old self.new }
    {
        if !self.is_shallow() {
            return false;
        }
        let Some(purpose) = use_of_name(byte) else {
            return false;
        };
        self.pop();
        self.push(HeldEscape::Name(purpose, NamePart::Nothing));
        true
    }

    /// Reads a byte of the name on top, of which so much is read, if the name goes on behind it.
    /// Returns whether it was read.
    #[inline(always)]
    fn read_on_in_name(&mut self, purpose: NameUse, part: NamePart, byte: u8) -> bool
        requires nested { IsNested self.old.escapes }
        requires on_top { IsOnTop (HeldEscape.Name purpose part) self.old.escapes }
        ensures { ReadsByte byte result self.old self.new }
    {
        let Some(more) = front_behind(purpose, part, byte) else {
            return false;
        };
        self.pop();
        self.push(HeldEscape::Name(purpose, more));
        true
    }

    /// Takes bytes one after another where a condition is half read: those that its expression
    /// holds, and the fronts of names in it. Returns how many.
    pub fn take_front(&mut self, bytes: &[u8]) -> usize
        requires { texts_held self.old.escapes + length bytes.now ≤ self.old.room }
        ensures { TakesFront bytes.now result self.old self.new }
    {
        let mut count = 0;
        while count < bytes.len() {
            if !self.take_on(bytes[count]) {
                return count;
            }
            count += 1;
        }
        count
    }

    /// Takes a byte where it changes only what is half read. Returns whether it was taken.
    #[inline(always)]
    pub fn take_on(&mut self, byte: u8) -> bool
        requires { texts_held self.old.escapes < self.old.room }
        ensures { TakesByte byte result self.old self.new }
    {
        match self.top() {
            None => false,
            Some(HeldEscape::Condition(part, begin)) => {
                self.take_on_in_condition(part, begin, byte)
            }
            Some(HeldEscape::Name(purpose, part)) => self.read_on_in_name(purpose, part, byte),
            Some(HeldEscape::Backslash) => self.name_escape(byte),
            Some(_) => false,
        }
    }

    /// Takes a byte in the condition on top, of which so much is read, where it changes only what
    /// is half read. Returns whether it was taken.
    #[inline(always)]
    fn take_on_in_condition(&mut self, part: ConditionPart, begin: usize, byte: u8) -> bool
        requires room { texts_held self.old.escapes < self.old.room }
        requires nested { IsNested self.old.escapes }
        requires on_top { IsOnTop (HeldEscape.Condition part begin) self.old.escapes }
        ensures { TakesByte byte result self.old self.new }
    {
        match part {
            ConditionPart::Expression { .. } => {
                if !is_of_expression(byte) {
                    return self.begin_escape(byte);
                }
                self.hold(CopyUnit::Byte(byte));
                true
            }
            ConditionPart::Choice { negated } => self.take_first(negated, begin, byte),
            ConditionPart::Compared {
                negated,
                delimiter,
                first,
            } => self.take_on_in_texts(negated, delimiter, first, begin, byte),
            ConditionPart::Decided { .. } => false,
        }
    }

    /// Takes a byte behind the blanks and the `!` of a condition, of which nothing else is read: a
    /// digit begins an expression. Returns whether it was taken.
    fn take_first(&mut self, negated: bool, begin: usize, byte: u8) -> bool
        requires room { texts_held self.old.escapes < self.old.room }
        requires nested { IsNested self.old.escapes }
        requires on_top { IsOnTop
            (HeldEscape.Condition (ConditionPart.Choice negated) begin) self.old.escapes }
        ensures { TakesByte byte result self.old self.new }
    {
        if !byte.is_ascii_digit() {
            return self.pass_first(negated, begin, byte);
        }
        let _ = self.turn(ConditionPart::Expression { negated });
        self.hold(CopyUnit::Byte(byte));
        true
    }

    /// Takes a byte that is no digit behind the blanks and the `!` of a condition: it says what is
    /// asked, unless it begins an expression. Returns whether it was taken.
    #[inline(always)]
    fn pass_first(&mut self, negated: bool, begin: usize, byte: u8) -> bool
        requires nested { IsNested self.old.escapes }
        requires on_top { IsOnTop
            (HeldEscape.Condition (ConditionPart.Choice negated) begin) self.old.escapes }
        ensures { ReadsByte byte result self.old self.new }
    {
        if !is_argument_byte(byte) {
            return self.begin_escape(byte);
        }
        if begins_expression(byte) {
            return false;
        }
        let _ = self.choose(negated, byte);
        true
    }

    /// Takes a byte of two texts that are compared, of which the first may be whole: the delimiter
    /// ends one of them, and others are held. Returns whether it was taken.
    fn take_on_in_texts(
        &mut self,
        negated: bool,
        delimiter: u8,
        first: Option<usize>,
        begin: usize,
        byte: u8,
    ) -> bool
        requires room { texts_held self.old.escapes < self.old.room }
        requires nested { IsNested self.old.escapes }
        requires on_top { IsOnTop
            (HeldEscape.Condition (ConditionPart.Compared negated delimiter first) begin)
            self.old.escapes }
        ensures { TakesByte byte result self.old self.new }
    {
        if !is_argument_byte(byte) {
            return false;
        }
        if byte == delimiter {
            let _ = self.meet_delimiter(negated, delimiter, first, begin);
            return true;
        }
        self.hold(CopyUnit::Byte(byte));
        true
    }
}

/// What the name is read for that a byte behind a backslash begins, if it begins one that is read
/// everywhere: of a register, a string or an argument.
#[inline(always)]
fn use_of_name(byte: u8) -> Option<NameUse>
    ensures { IfSome result (λ purpose. (rest : List OpenEscape) → names_in rest < 8
        → ReadsOn (OpenBackslash ∷ rest) byte (OpenName purpose NamePart.Nothing ∷ rest)) }
{
    match byte {
        b'n' => Some(NameUse::Register(None)),
        b'*' => Some(NameUse::Text),
        b'$' => Some(NameUse::Argument),
        _ => None,
    }
}

/// How much of a name is read behind a byte that belongs to its front, if it does.
#[inline(always)]
fn front_behind(purpose: NameUse, part: NamePart, byte: u8) -> Option<NamePart>
    ensures { IfSome result (λ more. (rest : List OpenEscape)
        → ReadsOn (OpenName purpose part ∷ rest) byte (OpenName purpose more ∷ rest)) }
{
    match part {
        NamePart::Nothing => {
            if byte != b'(' {
                return None;
            }
            if !may_open(purpose) {
                return None;
            }
            Some(NamePart::Opened)
        }
        NamePart::Opened => {
            if !is_argument_byte(byte) {
                return None;
            }
            Some(NamePart::First(byte))
        }
        NamePart::First(_) => None,
    }
}

/// Whether a parenthesis opens a name of two bytes: that of a register or a string.
fn may_open(purpose: NameUse) -> bool
    ensures { result ≡ may_open purpose }
{
    match purpose {
        NameUse::Register(_) => true,
        NameUse::Text => true,
        _ => false,
    }
}

/// Whether a byte is held where an expression is read: neither a backslash nor one that ends it or
/// is dropped.
#[inline(always)]
fn is_of_expression(byte: u8) -> bool
    ensures { result ≡ is_of_expression byte }
{
    if byte > b' ' && byte < b'\\' {
        return true;
    }
    is_argument_byte(byte) && !(byte == b' ' || byte == b'\t')
}
