//! The operators of expressions.

ghost use Rattle.std.specs.Prelude.{◌≡◌, ◌<◌, length, IfSome, IsTrue};
ghost use Rattle.roff_num.specs.Clauses.{applied, begins_with, operator_at, truth};

use crate::num::NumFault;

/// An operator between two operands.
#[derive(Clone, Copy)]
pub(crate) enum Operator {
    Add,
    Subtract,
    Multiply,
    Divide,
    Remainder,
    Less,
    Greater,
    LessOrEqual,
    GreaterOrEqual,
    Equal,
    And,
    Or,
}

impl Operator {
    /// The operator at a text's front, and how many bytes it has behind its first.
    pub(crate) fn read(text: &[u8]) -> Option<(Operator, usize)>
        ensures value { result ≡ operator_at text.now }
        ensures within { IfSome result (λ o. o.1 < length text.now) }
    {
        let (first, rest) = text.split_first()?;
        match *first {
            b'+' => Some((Operator::Add, 0)),
            b'-' => Some((Operator::Subtract, 0)),
            b'*' => Some((Operator::Multiply, 0)),
            b'/' => Some((Operator::Divide, 0)),
            b'%' => Some((Operator::Remainder, 0)),
            b'<' if begins_with(rest, b'=') => Some((Operator::LessOrEqual, 1)),
            b'<' => Some((Operator::Less, 0)),
            b'>' if begins_with(rest, b'=') => Some((Operator::GreaterOrEqual, 1)),
            b'>' => Some((Operator::Greater, 0)),
            b'=' if begins_with(rest, b'=') => Some((Operator::Equal, 1)),
            b'=' => Some((Operator::Equal, 0)),
            b'&' => Some((Operator::And, 0)),
            b':' => Some((Operator::Or, 0)),
            _ => None,
        }
    }

    /// What the operator gives of two values, or why it gives nothing.
    #[inline(always)]
    pub(crate) fn apply(self, left: i32, right: i32) -> Result<i32, NumFault>
        ensures { result ≡ applied self left right }
    {
        match self {
            Operator::Add => left.checked_add(right).ok_or(NumFault::Range),
            Operator::Subtract => left.checked_sub(right).ok_or(NumFault::Range),
            Operator::Multiply => left.checked_mul(right).ok_or(NumFault::Range),
            Operator::Divide => quotient(left, right),
            Operator::Remainder => remainder(left, right),
            Operator::Less => Ok(truth(left < right)),
            Operator::Greater => Ok(truth(left > right)),
            Operator::LessOrEqual => Ok(truth(left <= right)),
            Operator::GreaterOrEqual => Ok(truth(left >= right)),
            Operator::Equal => Ok(truth(left == right)),
            Operator::And => Ok(truth(left > 0 && right > 0)),
            Operator::Or => Ok(truth(left > 0 || right > 0)),
        }
    }
}

/// What a division gives, rounded toward 0.
fn quotient(left: i32, right: i32) -> Result<i32, NumFault>
    ensures { result ≡ applied Operator.Divide left right }
{
    if right == 0 {
        return Err(NumFault::ZeroDivisor);
    }
    left.checked_div(right).ok_or(NumFault::Range)
}

/// What is left of a division that rounds toward 0.
fn remainder(left: i32, right: i32) -> Result<i32, NumFault>
    ensures { result ≡ applied Operator.Remainder left right }
{
    if right == 0 {
        return Err(NumFault::ZeroDivisor);
    }
    Ok(left.wrapping_rem(right))
}

/// 1 for what holds, 0 for what doesn't.
fn truth(holds: bool) -> i32
    ensures { result ≡ truth holds }
{
    if holds { 1 } else { 0 }
}

/// Whether a text begins with a byte.
pub(crate) fn begins_with(text: &[u8], byte: u8) -> bool
    ensures value { result ≡ begins_with byte text.now }
    ensures some { IsTrue result → 0 < length text.now }
{
    match text.split_first() {
        Some((first, _)) => *first == byte,
        None => false,
    }
}
