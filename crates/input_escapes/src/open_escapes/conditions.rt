//! Conditions.

ghost use Rattle.std.specs.Prelude.{◌≡◌, ℕ, true, false, List, None, [], ◌∷◌, drop, IfSome};
ghost use Rattle.input_escapes.specs.OpenEscape.{OpenEscape, Condition as OpenCondition};
ghost use Rattle.input_escapes.specs.OpenEscape.{texts_held};
ghost use Rattle.input_escapes.specs.EscapeTexts.{IsOnTop, leaving};
ghost use Rattle.input_escapes.specs.OpenEscapes.{reading_ended};
ghost use Rattle.input_escapes.specs.Conditions.{byte_of_condition, byte_or_backslash, choice_made};
ghost use Rattle.input_escapes.specs.Conditions.{condition_ended, delimiter_met, expression_over};
ghost use Rattle.input_escapes.specs.Conditions.{to_decide, texts_compared, unit_of_condition};
ghost use Rattle.input_escapes.specs.Nesting.{IsNested};
ghost use Rattle.input_escapes.specs.Waiting.{decided_on_top, is_number_on_top};
ghost use Rattle.input_escapes.specs.declared.open_escape.ConditionPart.{ConditionPart as PartOf};

use super::OpenEscapes;
use crate::conditions::{begins_expression, is_text_same, so_unless};
use crate::open_escape::{
    ConditionPart, CopyUnit, Decision, Found, HeldEscape, Remark, Surroundings,
};
use roff_num::{Scale, eval};

impl OpenEscapes {
    /// A condition begins, and nothing else is half read.
    pub fn begin_condition(&mut self)
        ensures { self.new ≡ record self.old {
          escapes = OpenCondition (ConditionPart.Choice false) [] ∷ [];
        } }
    {
        self.items.clear();
        self.texts.clear();
        self.items.push(HeldEscape::Condition(ConditionPart::Choice { negated: false }, 0));
    }

    /// Ends the condition on top, if it is read and asks nothing more, and no byte ended it that
    /// may be the first of what follows: whether it is so. Else nothing happens.
    #[inline(always)]
    pub fn end_decided(&mut self) -> Option<bool>
        ensures ended { IfSome result (λ so. (base : Surroundings)
            → (Found.Decides (Decision.Is so) None, self.new)
            ≡ leaving (reading_ended base self.old.escapes) self.old) }
        ensures kept { result ≡ None → self.new ≡ self.old }
        ensures decided { result ≡ decided_on_top self.old.escapes }
    {
        match self.top() {
            Some(
                HeldEscape::Condition(
                    ConditionPart::Decided {
                        decision: Decision::Is(so),
                        freed: None,
                    },
                    _,
                ),
            ) => {
                self.pop();
                Some(so)
            }
            _ => None,
        }
    }

    /// Ends the expression of the condition on top, if it is read and is a number: it decides next.
    /// Whether it did; else nothing happens.
    pub fn decide_expression(&mut self) -> bool
        ensures ended { result ≡ true → (base : Surroundings)
            → (Found.GoesOn, self.new) ≡ leaving (reading_ended base self.old.escapes) self.old }
        ensures kept { result ≡ false → self.new ≡ self.old }
        ensures number { result ≡ is_number_on_top self.old.escapes }
    {
        match self.top() {
            Some(HeldEscape::Condition(ConditionPart::Expression { negated }, begin)) => {
                self.decide_number(negated, begin)
            }
            _ => false,
        }
    }

    /// Ends the expression on top, whose bytes are held from a place on, behind a `!` or not, if it
    /// is a number: it decides next. Returns whether it did; else nothing happens.
    #[inline(always)]
    fn decide_number(&mut self, negated: bool, begin: usize) -> bool
        requires nested { IsNested self.old.escapes }
        requires on_top { IsOnTop
            (HeldEscape.Condition (ConditionPart.Expression negated) begin) self.old.escapes }
        ensures ended { result ≡ true → (base : Surroundings)
            → (Found.GoesOn, self.new) ≡ leaving (reading_ended base self.old.escapes) self.old }
        ensures kept { result ≡ false → self.new ≡ self.old }
        ensures number { result ≡ is_number_on_top self.old.escapes }
    {
        match eval(self.text(begin), 0, Scale::Units, Some(0)) {
            Ok((value, _)) => {
                let is_true = so_unless(negated, value.0 > 0);
                let _ = self.decide_next(Decision::Is(is_true), None);
                true
            }
            Err(_) => false,
        }
    }

    /// A byte of the condition on top.
    pub(super) fn read_byte_of_condition(
        &mut self,
        part: ConditionPart,
        begin: usize,
        byte: u8,
    ) -> Found
        requires nested { IsNested self.old.escapes }
        requires on_top { IsOnTop (HeldEscape.Condition part begin) self.old.escapes }
        ensures { (text : List ℕ) (rest : List OpenEscape)
            → self.old.escapes ≡ OpenCondition part text ∷ rest
            → (result, self.new) ≡ leaving (byte_of_condition rest part text byte) self.old }
    {
        if let ConditionPart::Compared {
            negated,
            delimiter,
            first,
        } = part
        {
            if byte == delimiter {
                return self.meet_delimiter(negated, delimiter, first, begin);
            }
        }
        self.read_undelimited(part, begin, byte)
    }

    /// A byte of the condition on top that is no delimiter.
    fn read_undelimited(&mut self, part: ConditionPart, begin: usize, byte: u8) -> Found
        requires nested { IsNested self.old.escapes }
        requires on_top { IsOnTop (HeldEscape.Condition part begin) self.old.escapes }
        ensures { (text : List ℕ) (rest : List OpenEscape)
            → self.old.escapes ≡ OpenCondition part text ∷ rest
            → (result, self.new) ≡ leaving (byte_or_backslash rest part text byte) self.old }
    {
        if byte == b'\\' {
            self.begin(HeldEscape::Backslash)
        } else {
            self.read_unit_of_condition(part, begin, CopyUnit::Byte(byte))
        }
    }

    /// A unit of the condition on top.
    pub(super) fn read_unit_of_condition(
        &mut self,
        part: ConditionPart,
        begin: usize,
        unit: CopyUnit,
    ) -> Found
        requires nested { IsNested self.old.escapes }
        requires on_top { IsOnTop (HeldEscape.Condition part begin) self.old.escapes }
        ensures { (text : List ℕ) (rest : List OpenEscape)
            → self.old.escapes ≡ OpenCondition part text ∷ rest
            → (result, self.new) ≡ leaving (unit_of_condition rest part text unit) self.old }
    {
        match (part, unit) {
            (ConditionPart::Choice { negated }, CopyUnit::Byte(byte)) => self.choose(negated, byte),
            (ConditionPart::Choice { negated }, CopyUnit::Kept(byte)) => {
                let _ = self.begin_texts(negated, b'\\');
                Found::Holds(CopyUnit::Byte(byte))
            }
            (ConditionPart::Expression { negated }, CopyUnit::Byte(byte @ (b'\\' | b'\t'))) => {
                self.end_expression(negated, Some(byte), begin)
            }
            (ConditionPart::Decided { .. }, _) => Found::GoesOn,
            (_, _) => Found::Holds(unit),
        }
    }

    /// The byte that says what the condition on top asks.
    pub(super) fn choose(&mut self, negated: bool, byte: u8) -> Found
        requires { IsNested self.old.escapes }
        ensures { (text : List ℕ) (rest : List OpenEscape)
            → self.old.escapes ≡ OpenCondition (ConditionPart.Choice negated) text ∷ rest
            → (result, self.new) ≡ leaving (choice_made rest negated text byte) self.old }
    {
        let decision = match byte {
            b' ' if !negated => return Found::GoesOn,
            b'!' if !negated => return self.turn(ConditionPart::Choice { negated: true }),
            b'o' => Decision::OnPages(!negated),
            b'e' => Decision::OnPages(negated),
            b't' => Decision::Is(negated),
            b'n' => Decision::Is(!negated),
            _ if begins_expression(byte) => {
                let _ = self.turn(ConditionPart::Expression { negated });
                return Found::Holds(CopyUnit::Byte(byte));
            }
            _ => return self.begin_texts(negated, byte),
        };
        self.decide_next(decision, None)
    }

    /// The condition on top compares two texts with this delimiter.
    fn begin_texts(&mut self, negated: bool, delimiter: u8) -> Found
        requires { IsNested self.old.escapes }
        ensures { (part : PartOf) (text : List ℕ) (rest : List OpenEscape)
            → self.old.escapes ≡ OpenCondition part text ∷ rest
            → (result, self.new) ≡ leaving (
              Found.GoesOn,
              OpenCondition (ConditionPart.Compared negated delimiter None) text ∷ rest,
            ) self.old }
    {
        self.turn(ConditionPart::Compared {
            negated,
            delimiter,
            first: None,
        })
    }

    /// The delimiter of the texts on top: behind it is the second, or both are read.
    pub(super) fn meet_delimiter(
        &mut self,
        negated: bool,
        delimiter: u8,
        first: Option<usize>,
        begin: usize,
    ) -> Found
        requires nested { IsNested self.old.escapes }
        requires begins { begin ≡ texts_held (drop 1 self.old.escapes) }
        ensures { (part : PartOf) (text : List ℕ) (rest : List OpenEscape)
            → self.old.escapes ≡ OpenCondition part text ∷ rest
            → (result, self.new)
            ≡ leaving (delimiter_met rest negated delimiter first text) self.old }
    {
        match first {
            None => {
                let first = Some(self.text(begin).len());
                self.turn(ConditionPart::Compared {
                    negated,
                    delimiter,
                    first,
                })
            }
            Some(first) => self.compare_texts(negated, Some(first), begin),
        }
    }

    /// The condition on top ends before what stays, or decides.
    pub(super) fn end_condition(&mut self, part: ConditionPart, begin: usize) -> Found
        requires nested { IsNested self.old.escapes }
        requires on_top { IsOnTop (HeldEscape.Condition part begin) self.old.escapes }
        ensures { (text : List ℕ) (rest : List OpenEscape)
            → self.old.escapes ≡ OpenCondition part text ∷ rest
            → (result, self.new) ≡ leaving (condition_ended rest part text) self.old }
    {
        match part {
            ConditionPart::Choice { .. } => self.decide_next(Decision::Is(false), None),
            ConditionPart::Expression { negated } => self.end_expression(negated, None, begin),
            ConditionPart::Compared { negated, first, .. } => {
                self.compare_texts(negated, first, begin)
            }
            ConditionPart::Decided { decision, freed } => {
                self.pop();
                Found::Decides(decision, freed)
            }
        }
    }

    /// The condition on top is read, and decides next; the byte that ended it may be the first of
    /// what follows.
    fn decide_next(&mut self, decision: Decision, freed: Option<u8>) -> Found
        requires nested { IsNested self.old.escapes }
        ensures { (part : PartOf) (text : List ℕ) (rest : List OpenEscape)
            → self.old.escapes ≡ OpenCondition part text ∷ rest
            → (result, self.new)
            ≡ leaving (Found.GoesOn, to_decide rest text decision freed) self.old }
    {
        self.turn(ConditionPart::Decided { decision, freed })
    }

    /// The expression on top is whole; the byte that ended it may be the first of what follows.
    fn end_expression(&mut self, negated: bool, freed: Option<u8>, begin: usize) -> Found
        requires nested { IsNested self.old.escapes }
        requires begins { begin ≡ texts_held (drop 1 self.old.escapes) }
        ensures { (part : PartOf) (text : List ℕ) (rest : List OpenEscape)
            → self.old.escapes ≡ OpenCondition part text ∷ rest
            → (result, self.new) ≡ leaving (expression_over rest negated freed text) self.old }
    {
        match eval(self.text(begin), 0, Scale::Units, Some(0)) {
            Ok((value, _)) => {
                let is_true = so_unless(negated, value.0 > 0);
                self.decide_next(Decision::Is(is_true), freed)
            }
            Err(_) => {
                let _ = self.decide_next(Decision::Is(false), freed);
                Found::Tells(Remark::BadNumber)
            }
        }
    }

    /// The texts on top are compared: the first has so many bytes, or all that are held.
    fn compare_texts(&mut self, negated: bool, first: Option<usize>, begin: usize) -> Found
        requires nested { IsNested self.old.escapes }
        requires begins { begin ≡ texts_held (drop 1 self.old.escapes) }
        ensures { (part : PartOf) (text : List ℕ) (rest : List OpenEscape)
            → self.old.escapes ≡ OpenCondition part text ∷ rest
            → (result, self.new) ≡ leaving (texts_compared rest negated first text) self.old }
    {
        let same = is_text_same(self.text(begin), first);
        self.decide_next(Decision::Is(so_unless(negated, same)), None)
    }

    /// The condition on top is read so far; its text stays.
    pub(super) fn turn(&mut self, part: ConditionPart) -> Found
        requires { IsNested self.old.escapes }
        ensures { (before : PartOf) (text : List ℕ) (rest : List OpenEscape)
            → self.old.escapes ≡ OpenCondition before text ∷ rest
            → (result, self.new)
            ≡ leaving (Found.GoesOn, OpenCondition part text ∷ rest) self.old }
    {
        match self.top() {
            Some(HeldEscape::Condition(_, begin)) => {
                self.items.pop();
                self.items.push(HeldEscape::Condition(part, begin));
                Found::GoesOn
            }
            _ => Found::GoesOn,
        }
    }
}
