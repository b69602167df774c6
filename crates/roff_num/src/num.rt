//! Numbers in basic units, 240 to the inch, and their rounding (manual, section 1.3).

ghost use Rattle.std.specs.Prelude.{◌≡◌, FitsSigned};
ghost use Rattle.roff_num.specs.Clauses.{w32, rounded};

/// A number, in basic units where it is a length.
#[derive(Clone, Copy, Default, PartialEq, Eq)]
pub struct Num(pub i32);

/// What a number counts that has no scale letter.
#[derive(Clone, Copy)]
pub enum Scale {
    /// Basic units.
    Units,
    /// Columns of 24 basic units.
    Columns,
    /// Lines of 40 basic units.
    Lines,
}

/// Why a text isn't a number.
#[derive(Clone, Copy, PartialEq, Eq)]
pub enum NumFault {
    /// An operand is missing.
    Missing,
    /// A value is below -2147483648 or above 2147483647.
    Range,
    /// The divisor is 0.
    ZeroDivisor,
}

/// A horizontal length, in basic units, as a whole number of columns of 24: the nearest one, and of
/// two as near the greater.
pub fn round_h(length: i32) -> i32
    requires { FitsSigned w32 (rounded 24 length) }
    ensures { result ≡ rounded 24 length }
{
    let raised = i64::from(length) + 12;
    (raised.div_euclid(24) * 24) as i32
}

/// A vertical length, in basic units, as a whole number of lines of 40: the nearest one, and of two
/// as near the greater.
pub fn round_v(length: i32) -> i32
    requires { FitsSigned w32 (rounded 40 length) }
    ensures { result ≡ rounded 40 length }
{
    let raised = i64::from(length) + 20;
    (raised.div_euclid(40) * 40) as i32
}
