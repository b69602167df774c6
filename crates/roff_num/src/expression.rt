//! An expression that is being read, from the left, with a frame for each operand that holds
//! another one.

ghost use Rattle.std.specs.Prelude.{◌≡◌, ◌-◌, ◌<◌, ◌≤◌, ℕ, [], ◌∷◌, length, drop, reverse, nat_lt};
ghost use Rattle.std.specs.Prelude.{ℤ, Option, IfOk, OnOk, FitsSigned, neg_ℤ, if◌then◌else◌};
ghost use Rattle.roff_num.specs.Clauses.{w64, most_levels, sign_at, in_range, signed, followed};
ghost use Rattle.roff_num.specs.Clauses.{array_vec_len, Scale};
ghost use Rattle.roff_num.specs.Reading.Frames.{combined};

use crate::num::{NumFault, Scale};
use crate::numeral::{in_range, read_numeral};
use crate::operator::{Operator, begins_with};
use arrayvec::ArrayVec;

/// How many operands may hold one another.
const MOST_NESTED: usize = 32;

/// What opens an operand within an operand.
#[derive(Clone, Copy)]
pub(crate) enum Opening {
    /// `(`, before an expression.
    Parenthesis,
    /// `|`, before an operand, with the place that is taken from its value.
    Bar(i32),
}

/// An operand that holds another one, which isn't read to its end.
#[derive(Clone, Copy)]
pub(crate) struct Frame {
    /// The operator before it, with the value of what stands before that.
    pub(crate) pending: Option<(Operator, i32)>,
    /// Whether its sign is `-`.
    pub(crate) negative: bool,
    pub(crate) opening: Opening,
}

impl Default for Frame {
    fn default() -> Self {
        Frame {
            pending: None,
            negative: false,
            opening: Opening::Parenthesis,
        }
    }
}

/// What a step of the reading leads to.
#[derive(Clone, Copy)]
pub(crate) enum Next {
    /// An operand begins at the place reached.
    Opened,
    /// An operand of this value ends there.
    Operand(i32),
    /// The expression ends there, with this value.
    Ended(i32),
}

/// An expression that is being read.
#[derive(Drop)]
pub(crate) struct Reading {
    /// The place in the text.
    at: usize,
    /// The operator before the operand that is read next, with the value of what stands before it.
    pending: Option<(Operator, i32)>,
    /// The operands that hold the one that is read next, the outermost first.
    frames: ArrayVec<Frame, 32>,
}

impl Reading {
    ghost use Rattle.roff_num.specs.Reading.Frames.{come_to, entered, LeavesLess, left_behind};
    ghost use Rattle.roff_num.specs.Reading.Frames.{outcome_behind, outcome_now, outcome_opened};
    ghost use Rattle.roff_num.specs.Reading.Frames.{outcome_stepped, unheld, with_frame};

    /// The operand is read next that begins at a place and that no other one holds.
    pub(crate) fn new(at: usize, pending: Option<(Operator, i32)>) -> Self
        ensures { result ≡ unheld at pending }
    {
        Reading {
            at,
            pending,
            frames: ArrayVec::new(),
        }
    }

    /// The place reached.
    pub(crate) fn place(&self) -> usize
        ensures { result ≡ self.now.at }
    {
        self.at
    }

    /// Goes on where an operand is read next, or behind one of a value.
    pub(crate) fn step(
        &mut self,
        text: &[u8],
        scale: Scale,
        place: Option<i32>,
        operand: Option<i32>,
    ) -> Result<Next, NumFault>
        ensures goes_on { outcome_stepped text.now scale place self.new result
            ≡ outcome_now text.now scale place self.old operand }
        ensures less_left { IfOk result (LeavesLess text.now self.old self.new) }
    {
        match operand {
            None => self.open(text, scale, place),
            Some(value) => self.close(text, value),
        }
    }

    /// Reads an operand's sign, and a numeral or what opens an operand within.
    fn open(&mut self, text: &[u8], scale: Scale, place: Option<i32>) -> Result<Next, NumFault>
        ensures goes_on { outcome_stepped text.now scale place self.new result
            ≡ outcome_opened text.now scale place self.old }
        ensures less_left { IfOk result (LeavesLess text.now self.old self.new) }
    {
        prove!(self.frames.len() <= MOST_NESTED);
        let (negative, sign) = read_sign(text_from(text, self.at));
        let at = self.at + sign;
        let rest = text_from(text, at);
        if begins_with(rest, b'(') {
            return self.enter(at + 1, negative, Opening::Parenthesis);
        }
        if begins_with(rest, b'|') {
            return match place {
                Some(place) => self.enter(at + 1, negative, Opening::Bar(place)),
                None => Err(NumFault::Missing),
            };
        }
        match read_numeral(rest, scale, negative) {
            Ok((value, taken)) => {
                self.at = at + taken;
                Ok(Next::Operand(value))
            }
            Err(fault) => Err(fault),
        }
    }

    /// Goes on within an operand, which begins at a place.
    fn enter(&mut self, at: usize, negative: bool, opening: Opening) -> Result<Next, NumFault>
        ensures answer { result
            ≡ (if nat_lt (array_vec_len self.old.frames) 32 then Ok Next.Opened
            else Err NumFault.Missing) }
        ensures entered { OnOk result (self.new ≡ entered self.old at negative opening) }
    {
        let pending = self.pending;
        match self.frames.try_push(Frame {
            pending,
            negative,
            opening,
        }) {
            Ok(()) => {
                self.at = at;
                self.pending = None;
                Ok(Next::Opened)
            }
            Err(_) => Err(NumFault::Missing),
        }
    }

    /// Goes on behind an operand of a value: to the next operand, out of the operand that holds it,
    /// or to the expression's end.
    fn close(&mut self, text: &[u8], value: i32) -> Result<Next, NumFault>
        ensures goes_on { (scale : Scale) (place : Option ℤ)
            → outcome_stepped text.now scale place self.new result
            ≡ outcome_behind text.now scale place self.old value }
        ensures less_left { IfOk result (LeavesLess text.now self.old self.new) }
    {
        let value = match combined(self.pending, value) {
            Ok(value) => value,
            Err(fault) => return Err(fault),
        };
        prove!(self.frames.len() <= MOST_NESTED);
        match self.frames.pop() {
            None => self.end(text, value),
            Some(frame) => match frame.opening {
                Opening::Bar(place) => {
                    self.leave(frame, self.at, i64::from(value) - i64::from(place))
                }
                Opening::Parenthesis => self.close_parenthesis(text, frame, value),
            },
        }
    }

    /// Goes on behind a value that no operand holds: to the next operand, or to the expression's
    /// end.
    fn end(&mut self, text: &[u8], value: i32) -> Result<Next, NumFault>
        requires { self.old.frames.items ≡ [] }
        ensures goes_on { (scale : Scale) (place : Option ℤ)
            → outcome_stepped text.now scale place self.new result
            ≡ come_to text.now scale place most_levels [] value self.old.at }
        ensures less_left { IfOk result (LeavesLess text.now self.old self.new) }
    {
        match Operator::read(text_from(text, self.at)) {
            Some((operator, further)) => {
                self.at += 1 + further;
                self.pending = Some((operator, value));
                Ok(Next::Opened)
            }
            None => Ok(Next::Ended(value)),
        }
    }

    /// Goes on behind a value that an operand in parentheses holds: to the next operand, or out of
    /// the parentheses.
    fn close_parenthesis(&mut self, text: &[u8], frame: Frame, value: i32) -> Result<Next, NumFault>
        requires parenthesis { frame.opening ≡ Opening.Parenthesis }
        requires room { array_vec_len self.old.frames < 32 }
        ensures goes_on { (scale : Scale) (place : Option ℤ)
            → outcome_stepped text.now scale place self.new result
            ≡ come_to text.now scale place (32 - array_vec_len self.old.frames)
            (frame ∷ reverse self.old.frames.items) value self.old.at }
        ensures less_left { IfOk result
            (λ next. LeavesLess text.now (with_frame frame self.old) self.new next) }
    {
        let rest = text_from(text, self.at);
        match Operator::read(rest) {
            Some((operator, further)) => {
                self.frames.push(frame);
                self.at += 1 + further;
                self.pending = Some((operator, value));
                Ok(Next::Opened)
            }
            None if begins_with(rest, b')') => self.leave(frame, self.at + 1, i64::from(value)),
            None => Err(NumFault::Missing),
        }
    }

    /// Leaves an operand of a value, without its sign, that ends at a place.
    fn leave(&mut self, frame: Frame, at: usize, value: i64) -> Result<Next, NumFault>
        requires { FitsSigned w64 (neg_ℤ value) }
        ensures answer { result
            ≡ followed (in_range (signed frame.negative value)) (λ v. Ok (Next.Operand v)) }
        ensures left { OnOk result (self.new ≡ left_behind frame at self.old) }
    {
        match signed_in_range(frame.negative, value) {
            Ok(value) => {
                self.at = at;
                self.pending = frame.pending;
                Ok(Next::Operand(value))
            }
            Err(fault) => Err(fault),
        }
    }
}

/// The text from a place on.
pub(crate) fn text_from(text: &[u8], at: usize) -> &[u8]
    ensures value { result.now ≡ drop at text.now }
    ensures length { length result.now ≡ length text.now - at }
{
    if at < text.len() { &text[at..] } else { &[] }
}

/// The sign at a text's front: whether it is `-`, and how many bytes it takes.
pub(crate) fn read_sign(text: &[u8]) -> (bool, usize)
    ensures value { result ≡ sign_at text.now }
    ensures within { result.1 ≤ length text.now }
{
    match text.split_first() {
        Some((b'+', _)) => (false, 1),
        Some((b'-', _)) => (true, 1),
        _ => (false, 0),
    }
}

/// What an operand's value gives behind the operator before it.
#[inline(always)]
pub(crate) fn combined(pending: Option<(Operator, i32)>, value: i32) -> Result<i32, NumFault>
    ensures { result ≡ combined pending value }
{
    match pending {
        Some((operator, left)) => operator.apply(left, value),
        None => Ok(value),
    }
}

/// A value behind a sign, if it is in range.
fn signed_in_range(negative: bool, value: i64) -> Result<i32, NumFault>
    requires { FitsSigned w64 (neg_ℤ value) }
    ensures { result ≡ in_range (signed negative value) }
{
    in_range(if negative { -value } else { value })
}
