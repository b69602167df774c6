//! The value of an expression.

ghost use Rattle.std.specs.Prelude.{◌≡◌, ◌<◌, ◌≤◌, length, ℤ, Option, Ok, IfSome};
ghost use Rattle.roff_num.specs.Clauses.{as_number, value_at};
ghost use Rattle.roff_num.specs.Reading.Frames.{outcome_of, outcome_opened, unheld};

use crate::expression::{Next, Reading, combined, read_sign, text_from};
use crate::num::{Num, NumFault, Scale};
use crate::numeral::read_numeral;
use crate::operator::{Operator, begins_with};

/// The value of the expression that begins at a place of a text, and the place behind it, or the
/// first fault from the left.
///
/// An operand without a scale letter counts in `scale`. A `|` stands for the distance from `place`
/// in basic units; where there is no place it is [`NumFault::Missing`]. The manual's section 1.4.
pub fn eval(
    text: &[u8],
    at: usize,
    scale: Scale,
    place: Option<i32>,
) -> Result<(Num, usize), NumFault>
    ensures { result ≡ value_at text.now at scale place }
{
    let mut begin = at;
    let mut pending = None;
    while let Some((operand, behind)) = read_plain_operand(text, begin, scale) {
        let value = match combined(pending, operand) {
            Ok(value) => value,
            Err(fault) => return Err(fault),
        };
        match Operator::read(text_from(text, behind)) {
            Some((operator, further)) => {
                begin = behind + 1 + further;
                pending = Some((operator, value));
            }
            None => return Ok((Num(value), behind)),
        }
    }
    eval_from(text, begin, pending, scale, place)
}

/// The value of an operand that is a numeral behind its sign, and the place behind it; none where
/// it holds another operand, or has a fault.
fn read_plain_operand(text: &[u8], at: usize, scale: Scale) -> Option<(i32, usize)>
    ensures value { IfSome result (λ r. (place : Option ℤ) (pending : Option (Operator × ℤ))
        → outcome_of text.now scale place (unheld at pending) (Ok r)
        ≡ outcome_opened text.now scale place (unheld at pending)) }
    ensures further { IfSome result (λ r. at < r.1) }
    ensures within { IfSome result (λ r. r.1 ≤ length text.now) }
{
    let (negative, sign) = read_sign(text_from(text, at));
    let begin = at + sign;
    let rest = text_from(text, begin);
    if begins_with(rest, b'(') || begins_with(rest, b'|') {
        return None;
    }
    match read_numeral(rest, scale, negative) {
        Ok((value, taken)) => Some((value, begin + taken)),
        Err(_) => None,
    }
}

/// The value of an expression from an operand on that no other one holds, behind the operator
/// before it with the value of what stands before that. This makes room for all frames, which most
/// expressions don't need.
#[inline(never)]
fn eval_from(
    text: &[u8],
    at: usize,
    pending: Option<(Operator, i32)>,
    scale: Scale,
    place: Option<i32>,
) -> Result<(Num, usize), NumFault>
    ensures { result ≡ as_number (outcome_opened text.now scale place (unheld at pending)) }
{
    let mut reading = Reading::new(at, pending);
    let mut operand = None;
    loop {
        match reading.step(text, scale, place, operand) {
            Ok(Next::Opened) => operand = None,
            Ok(Next::Operand(value)) => operand = Some(value),
            Ok(Next::Ended(value)) => return Ok((Num(value), reading.place())),
            Err(fault) => return Err(fault),
        }
    }
}
