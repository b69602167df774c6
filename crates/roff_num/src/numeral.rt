//! Numerals: digits with at most one dot, and a scale letter.

ghost use Rattle.std.specs.Prelude.{◌≡◌, ◌+◌, ◌*◌, ◌/◌, ◌-◌, ◌^◌, ◌<◌, ◌≤◌, ◌++◌, length, take};
ghost use Rattle.std.specs.Prelude.{drop, min, pos, IfOk, IfSome};
ghost use Rattle.roff_num.specs.Clauses.{AllDigits, digits_value, digits_value_after, decimals_at};
ghost use Rattle.roff_num.specs.Clauses.{digits_at, dot_at, letter_unit, numeral_at, scale_unit};
ghost use Rattle.roff_num.specs.Clauses.{size_of, unit_at, in_range, signed};

use crate::num::{NumFault, Scale};
use crate::operator::begins_with;

/// A unit: `over` basic units in each `under` of it.
#[derive(Clone, Copy)]
pub(crate) struct Ratio {
    pub(crate) over: u16,
    pub(crate) under: u16,
}

/// The most decimals of a number that count.
const MOST_DECIMALS: usize = 9;

/// What a number of whole digits counts at the most; more of any unit is out of range as well.
const MOST_COUNTED: u64 = 4_294_967_296;

/// The value of the numeral at a text's front behind a sign, in basic units, and how many bytes it
/// takes.
#[inline(always)]
pub(crate) fn read_numeral(
    text: &[u8],
    scale: Scale,
    negative: bool,
) -> Result<(i32, usize), NumFault>
    ensures value { result ≡ numeral_at scale negative text.now }
    ensures some { IfOk result (λ r. 0 < r.1) }
    ensures within { IfOk result (λ r. r.1 ≤ length text.now) }
{
    let (number, count) = leading_number(text);
    let (_, behind) = text.split_at(count);
    if begins_with(behind, b'.') {
        return read_with_decimals(text, scale, negative);
    }
    if count == 0 {
        return Err(NumFault::Missing);
    }
    let (unit, letters) = read_unit(behind, scale);
    match value_of_whole(negative, number, unit) {
        Ok(value) => Ok((value, count + letters)),
        Err(fault) => Err(fault),
    }
}

/// The number that the digits at a text's front write, or 2^32 if it is greater, and how many
/// digits they are.
fn leading_number(text: &[u8]) -> (u64, usize)
    ensures number { result.0 ≡ min (digits_value 10 (digits_at text.now)) (2 ^ 32) }
    ensures count { result.1 ≡ length (digits_at text.now) }
{
    let mut number: u64 = 0;
    let mut count = 0;
    for digit in text {
        if !digit.is_ascii_digit() {
            return (number, count);
        }
        number = (number * 10 + u64::from(*digit - b'0')).min(MOST_COUNTED);
        count += 1;
    }
    (number, count)
}

/// The value of a whole number of a unit behind a sign, if it is in range.
fn value_of_whole(negative: bool, number: u64, unit: Ratio) -> Result<i32, NumFault>
    requires some { 0 < unit.under }
    requires one_or_more { unit.under ≤ unit.over }
    ensures { result ≡ in_range (signed negative (pos (number * unit.over / unit.under))) }
{
    if number > 2_147_483_648 {
        return Err(NumFault::Range);
    }
    let product = number * u64::from(unit.over);
    let size = if unit.under == 1 {
        product
    } else {
        product / u64::from(unit.under)
    } as i64;
    in_range(if negative { -size } else { size })
}

/// The value of the numeral at a text's front, which may have decimals, and how many bytes it
/// takes.
#[inline(never)]
fn read_with_decimals(text: &[u8], scale: Scale, negative: bool) -> Result<(i32, usize), NumFault>
    ensures value { result ≡ numeral_at scale negative text.now }
    ensures some { IfOk result (λ r. 0 < r.1) }
    ensures within { IfOk result (λ r. r.1 ≤ length text.now) }
{
    let (whole, behind) = text.split_at(digit_count(text));
    let (dot, decimals, rest) = split_decimals(behind);
    if whole.len() + decimals.len() == 0 {
        return Err(NumFault::Missing);
    }
    let (unit, letters) = read_unit(rest, scale);
    match value_of(negative, whole, decimals, unit) {
        Ok(value) => Ok((value, whole.len() + (dot + decimals.len()) + letters)),
        Err(fault) => Err(fault),
    }
}

/// The value of a numeral of these digits behind a sign, if it is in range.
fn value_of(negative: bool, whole: &[u8], decimals: &[u8], unit: Ratio) -> Result<i32, NumFault>
    requires whole { AllDigits 10 whole.now }
    requires decimals { AllDigits 10 decimals.now }
    requires some { 0 < unit.under }
    requires one_or_more { unit.under ≤ unit.over }
    ensures { result ≡ in_range (signed negative (pos (size_of whole.now decimals.now unit))) }
{
    with_sign(negative, capped_size(whole, decimals, unit))
}

/// The size of a numeral of these digits, truncated; one that is out of range may be less than it
/// is, but is out of range.
fn capped_size(whole: &[u8], decimals: &[u8], unit: Ratio) -> u128
    requires whole { AllDigits 10 whole.now }
    requires decimals { AllDigits 10 decimals.now }
    requires unit { 0 < unit.under }
    ensures { let number = min (digits_value 10 (whole.now ++ take 9 decimals.now)) (2 ^ 64 - 1) in
        result ≡ number * unit.over / (10 ^ min 9 (length decimals.now) * unit.under) }
{
    let kept = &decimals[..decimals.len().min(MOST_DECIMALS)];
    let number = digits_behind(digits_behind(0, whole), kept);
    let part = 10u64.pow(kept.len() as u32);
    u128::from(number) * u128::from(unit.over) / (u128::from(part) * u128::from(unit.under))
}

/// The number that digits write when they follow those of another one, or 2^64 - 1 if it is
/// greater.
fn digits_behind(before: u64, digits: &[u8]) -> u64
    requires { AllDigits 10 digits.now }
    ensures { result ≡ min (digits_value_after 10 before digits.now) (2 ^ 64 - 1) }
{
    let mut number = before;
    for digit in digits {
        number = number
            .saturating_mul(10)
            .saturating_add(u64::from(*digit - b'0'));
    }
    number
}

/// A size behind a sign, if it is in range.
fn with_sign(negative: bool, size: u128) -> Result<i32, NumFault>
    ensures { result ≡ in_range (signed negative (pos size)) }
{
    if size > 2_147_483_648 {
        return Err(NumFault::Range);
    }
    let size = size as i64;
    in_range(if negative { -size } else { size })
}

/// A value, if it is in range.
pub(crate) fn in_range(value: i64) -> Result<i32, NumFault>
    ensures { result ≡ in_range value }
{
    if value < -2_147_483_648 || value > 2_147_483_647 {
        return Err(NumFault::Range);
    }
    Ok(value as i32)
}

/// How many digits a text begins with.
fn digit_count(text: &[u8]) -> usize
    ensures { result ≡ length (digits_at text.now) }
{
    text.iter().take_while(|byte| byte.is_ascii_digit()).count()
}

/// The dot behind a numeral's whole digits, as a number of bytes, the digits behind it, and what
/// follows them.
fn split_decimals(behind: &[u8]) -> (usize, &[u8], &[u8])
    ensures dot { result.0 ≡ dot_at behind.now }
    ensures decimals { result.1.now ≡ decimals_at behind.now }
    ensures digits { AllDigits 10 result.1.now }
    ensures rest { result.2.now ≡ drop (result.0 + length result.1.now) behind.now }
    ensures all { result.0 + length result.1.now + length result.2.now ≡ length behind.now }
{
    match behind.split_first() {
        Some((b'.', fraction)) => {
            let (decimals, rest) = fraction.split_at(digit_count(fraction));
            (1, decimals, rest)
        }
        _ => (0, &[], behind),
    }
}

/// The unit at a text's front, and how many bytes it takes.
#[inline(always)]
fn read_unit(text: &[u8], scale: Scale) -> (Ratio, usize)
    ensures value { result ≡ unit_at scale text.now }
    ensures within { result.1 ≤ length text.now }
    ensures some { 0 < result.0.under }
    ensures one_or_more { result.0.under ≤ result.0.over }
{
    match text.split_first() {
        Some((letter, _)) => match letter_unit(*letter) {
            Some(unit) => (unit, 1),
            None => (scale_unit(scale), 0),
        },
        None => (scale_unit(scale), 0),
    }
}

/// The unit of a scale letter.
fn letter_unit(letter: u8) -> Option<Ratio>
    ensures value { result ≡ letter_unit letter }
    ensures some { IfSome result (λ unit. 0 < unit.under) }
    ensures one_or_more { IfSome result (λ unit. unit.under ≤ unit.over) }
{
    match letter {
        b'i' => Some(Ratio {
            over: 240,
            under: 1,
        }),
        b'P' => Some(Ratio { over: 40, under: 1 }),
        b'p' => Some(Ratio { over: 10, under: 3 }),
        b'c' => Some(Ratio {
            over: 12_000,
            under: 127,
        }),
        b'm' | b'n' => Some(Ratio { over: 24, under: 1 }),
        b'v' => Some(Ratio { over: 40, under: 1 }),
        b'u' => Some(Ratio { over: 1, under: 1 }),
        _ => None,
    }
}

/// The unit of a number without a scale letter.
fn scale_unit(scale: Scale) -> Ratio
    ensures value { result ≡ scale_unit scale }
    ensures some { 0 < result.under }
    ensures one_or_more { result.under ≤ result.over }
{
    match scale {
        Scale::Units => Ratio { over: 1, under: 1 },
        Scale::Columns => Ratio { over: 24, under: 1 },
        Scale::Lines => Ratio { over: 40, under: 1 },
    }
}
