//! Numbers as arguments of requests: the values of expressions, and the lengths that they set.

ghost use Rattle.std.specs.Prelude.{◌≡◌, ◌∷◌, ◌/◌, ◌+ℤ◌, [], IfSome, Ok};
ghost use Rattle.roff_num.specs.declared.num.Scale.TheVariants.{Units};
ghost use Rattle.roff_num.specs.Ranges.{in_range};
ghost use Rattle.roff_num.specs.Steps.{followed};
ghost use Rattle.run_model.specs.Numbers.{height_beside, height_in, rounded_in_range, value_beside};
ghost use Rattle.run_model.specs.Numbers.{at_least_zero, value_in};

use roff_num::{NumFault, Scale, eval, round_h, round_v};

/// The basic units of a column.
pub const COLUMN: u32 = 24;

/// The basic units of a line.
pub const LINE: u32 = 40;

/// The value of an argument, in basic units where it is a length. What follows the expression in it
/// is passed over.
///
/// # Errors
///
/// The expression's first fault.
pub fn value_in(scale: Scale, text: &[u8]) -> Result<i32, NumFault>
    ensures { result ≡ value_in scale text.now }
{
    if let Some(value) = short_value(scale, text) {
        return Ok(value);
    }
    match eval(text, 0, scale, Some(0)) {
        Ok((value, _)) => Ok(value.0),
        Err(fault) => Err(fault),
    }
}

/// The value of a text that is one digit, and maybe the letter of a column behind it.
#[inline(always)]
fn short_value(scale: Scale, text: &[u8]) -> Option<i32>
    ensures { IfSome result (λ value. value_in scale text.now ≡ Ok value) }
{
    match text {
        [digit] => value_of_digit(scale, *digit),
        [digit, b'n'] => columns_of_digit(*digit),
        _ => None,
    }
}

/// The value of a digit.
#[inline(always)]
fn value_of_digit(scale: Scale, byte: u8) -> Option<i32>
    ensures { IfSome result (λ value. value_in scale (byte ∷ []) ≡ Ok value) }
{
    if byte < b'0' || byte > b'9' {
        return None;
    }
    let number = u32::from(byte - b'0');
    match scale {
        Scale::Units => Some(number as i32),
        Scale::Columns => Some((number * COLUMN) as i32),
        Scale::Lines => Some((number * LINE) as i32),
    }
}

/// The value of so many columns as a digit says.
#[inline(always)]
fn columns_of_digit(byte: u8) -> Option<i32>
    ensures { (scale : Scale)
        → IfSome result (λ value. value_in scale (byte ∷ 110 ∷ []) ≡ Ok value) }
{
    if byte < b'0' || byte > b'9' {
        return None;
    }
    let number = u32::from(byte - b'0');
    Some((number * COLUMN) as i32)
}

/// The value of a height down the page, in basic units, where this is the place.
///
/// # Errors
///
/// The expression's first fault.
pub fn height_in(place: i32, text: &[u8]) -> Result<i32, NumFault>
    ensures { result ≡ height_in place text.now }
{
    match eval(text, 0, Scale::Lines, Some(place)) {
        Ok((value, _)) => Ok(value.0),
        Err(fault) => Err(fault),
    }
}

/// The value of an argument beside the one in force: a sign in front adds to that, or takes from
/// it.
///
/// # Errors
///
/// The expression's first fault, or [`NumFault::Range`] for the sum.
#[inline(always)]
pub fn value_beside(in_force: i64, scale: Scale, text: &[u8]) -> Result<i32, NumFault>
    ensures { result ≡ value_beside in_force scale text.now }
{
    match text.split_first() {
        Some((b'+', unsigned)) => match value_in(scale, unsigned) {
            Ok(value) => sum_in_range(in_force, i64::from(value)),
            Err(fault) => Err(fault),
        },
        Some((b'-', unsigned)) => match value_in(scale, unsigned) {
            Ok(value) => sum_in_range(in_force, -i64::from(value)),
            Err(fault) => Err(fault),
        },
        _ => value_in(scale, text),
    }
}

/// The value of a height beside the one in force, where this is the place: a sign in front adds to
/// that, or takes from it.
///
/// # Errors
///
/// The expression's first fault, or [`NumFault::Range`] for the sum.
pub fn height_beside(place: i32, in_force: i64, text: &[u8]) -> Result<i32, NumFault>
    ensures { result ≡ height_beside place in_force text.now }
{
    match text.split_first() {
        Some((b'+', unsigned)) => match height_in(place, unsigned) {
            Ok(value) => sum_in_range(in_force, i64::from(value)),
            Err(fault) => Err(fault),
        },
        Some((b'-', unsigned)) => match height_in(place, unsigned) {
            Ok(value) => sum_in_range(in_force, -i64::from(value)),
            Err(fault) => Err(fault),
        },
        _ => height_in(place, text),
    }
}

/// The sum of two values, if it is in range.
fn sum_in_range(left: i64, right: i64) -> Result<i32, NumFault>
    ensures { result ≡ in_range (left +ℤ right) }
{
    match left.checked_add(right) {
        Some(sum) => in_range(sum),
        None => Err(NumFault::Range),
    }
}

/// A value, if it is in range.
fn in_range(value: i64) -> Result<i32, NumFault>
    ensures { result ≡ in_range value }
{
    match i32::try_from(value) {
        Ok(value) => Ok(value),
        Err(_) => Err(NumFault::Range),
    }
}

/// A horizontal length as a whole number of columns, in basic units.
pub fn rounded_to_columns(length: i32) -> i32
    ensures { Ok result ≡ rounded_in_range 24 length }
{
    round_h(length)
}

/// A height as a whole number of lines, in basic units.
pub fn rounded_to_lines(height: i32) -> i32
    ensures { Ok result ≡ rounded_in_range 40 height }
{
    round_v(height)
}

/// The whole lines of a height: it is rounded, and not below 0.
pub fn lines_in(height: i32) -> u32
    ensures { Ok result
        ≡ followed (rounded_in_range 40 height) (λ r. Ok (at_least_zero r / 40)) }
{
    rounded_to_lines(height).max(0) as u32 / LINE
}
