//! Worked numbers. The values were computed apart from the program, in exact fractions.

use roff_num::{Limit, Limits, Name, Num, NumFault, Scale, eval, round_h, round_v};
use std::test::Fail;

/// A text, the scale of its numbers, the present place, and what it gives: its value in basic units
/// and its length in bytes, or why it gives none.
type Row = (
    &'static [u8],
    Scale,
    Option<i32>,
    Result<(i32, usize), NumFault>,
);

/// Signs, scales, decimals, parentheses, distances, and what ends an expression.
const NUMBERS: [Row; 59] = [
    (b"3+4*2", Scale::Units, None, Ok((14, 5))),
    (b"(0-7)/2", Scale::Units, None, Ok((-3, 7))),
    (b"(0-7)%2", Scale::Units, None, Ok((-1, 7))),
    (b"1.5i", Scale::Units, None, Ok((360, 4))),
    (b"2c", Scale::Units, None, Ok((188, 2))),
    (b"-7+2", Scale::Units, None, Ok((-5, 4))),
    (b"1.5", Scale::Columns, None, Ok((36, 3))),
    (b"1.5", Scale::Lines, None, Ok((60, 3))),
    (b"1.26i", Scale::Units, None, Ok((302, 5))),
    (b"1.26P", Scale::Units, None, Ok((50, 5))),
    (b"1.26p", Scale::Units, None, Ok((4, 5))),
    (b"1.26c", Scale::Units, None, Ok((119, 5))),
    (b"1.26m", Scale::Units, None, Ok((30, 5))),
    (b"1.26n", Scale::Units, None, Ok((30, 5))),
    (b"1.26v", Scale::Units, None, Ok((50, 5))),
    (b"1.96u", Scale::Columns, None, Ok((1, 5))),
    (b".5i", Scale::Units, None, Ok((120, 3))),
    (b"5.", Scale::Units, None, Ok((5, 2))),
    (b"5.i", Scale::Units, None, Ok((1200, 3))),
    (b"1.5.5", Scale::Units, None, Ok((1, 3))),
    (b"-1.9", Scale::Units, None, Ok((-1, 4))),
    (b"-.9v", Scale::Units, None, Ok((-36, 4))),
    (b"0.9999999999", Scale::Units, None, Ok((0, 12))),
    (b"0.0041666666666i", Scale::Units, None, Ok((0, 16))),
    (b"0.0041666660i", Scale::Units, None, Ok((0, 13))),
    (b"3cm", Scale::Units, None, Ok((283, 2))),
    (b"2*(3+4)-1", Scale::Units, None, Ok((13, 9))),
    (b"-(3-10)", Scale::Units, None, Ok((7, 7))),
    (b"-2147483648", Scale::Units, None, Ok((-2147483648, 11))),
    (b"2147483647", Scale::Units, None, Ok((2147483647, 10))),
    (
        b"00000000000000000000000000000001",
        Scale::Units,
        None,
        Ok((1, 32)),
    ),
    (b"7<=7", Scale::Units, None, Ok((1, 4))),
    (b"7<7", Scale::Units, None, Ok((0, 3))),
    (b"8>=7", Scale::Units, None, Ok((1, 4))),
    (b"7>7", Scale::Units, None, Ok((0, 3))),
    (b"7=7", Scale::Units, None, Ok((1, 3))),
    (b"7==8", Scale::Units, None, Ok((0, 4))),
    (b"2&0", Scale::Units, None, Ok((0, 3))),
    (b"(0-1):2", Scale::Units, None, Ok((1, 7))),
    (b"0:(0-1)", Scale::Units, None, Ok((0, 7))),
    (b"1<2+3", Scale::Units, None, Ok((4, 5))),
    (b"|100", Scale::Units, Some(30), Ok((70, 4))),
    (b"-|100", Scale::Units, Some(30), Ok((-70, 5))),
    (b"|-100", Scale::Units, Some(30), Ok((-130, 5))),
    (b"|(1+2)*2", Scale::Units, Some(1), Ok((4, 8))),
    (b"||10", Scale::Units, Some(3), Ok((4, 4))),
    (b"1+|2", Scale::Units, Some(5), Ok((-2, 4))),
    (b"8.5i", Scale::Lines, None, Ok((2040, 4))),
    (b"3 +4", Scale::Units, None, Ok((3, 1))),
    (b"3)", Scale::Units, None, Ok((3, 1))),
    (b"6/4*2", Scale::Units, None, Ok((2, 5))),
    (b"1--2", Scale::Units, None, Ok((3, 4))),
    (b"+5", Scale::Units, None, Ok((5, 2))),
    (
        b"-|2147483647u",
        Scale::Columns,
        Some(-1),
        Ok((-2147483648, 13)),
    ),
    (b"8947848.5i", Scale::Units, None, Ok((2147483640, 10))),
    (
        b"0.99999999999999999999i99",
        Scale::Units,
        None,
        Ok((239, 23)),
    ),
    (
        b"((((((((((((((((((((((((((((((((7))))))))))))))))))))))))))))))))",
        Scale::Units,
        None,
        Ok((7, 65)),
    ),
    (
        b"||||||||||||||||||||||||||||||||7",
        Scale::Units,
        Some(0),
        Ok((7, 33)),
    ),
    (
        b"(((((((((((((((((((((((((((((((|7)))))))))))))))))))))))))))))))",
        Scale::Units,
        Some(0),
        Ok((7, 64)),
    ),
];

/// Each operator at the ends of the range.
const EDGES: [Row; 55] = [
    (b"2147483647-1+1", Scale::Units, None, Ok((2147483647, 14))),
    (b"-2147483648<=2147483647", Scale::Units, None, Ok((1, 23))),
    (b"2147483647<=-2147483648", Scale::Units, None, Ok((0, 23))),
    (b"-2147483648<=-1", Scale::Units, None, Ok((1, 15))),
    (b"-2147483648<=-2147483648", Scale::Units, None, Ok((1, 24))),
    (b"2147483647<=2147483647", Scale::Units, None, Ok((1, 22))),
    (b"-2147483648>=2147483647", Scale::Units, None, Ok((0, 23))),
    (b"2147483647>=-2147483648", Scale::Units, None, Ok((1, 23))),
    (b"-2147483648>=-1", Scale::Units, None, Ok((0, 15))),
    (b"-2147483648>=-2147483648", Scale::Units, None, Ok((1, 24))),
    (b"2147483647>=2147483647", Scale::Units, None, Ok((1, 22))),
    (b"-2147483648==2147483647", Scale::Units, None, Ok((0, 23))),
    (b"2147483647==-2147483648", Scale::Units, None, Ok((0, 23))),
    (b"-2147483648==-1", Scale::Units, None, Ok((0, 15))),
    (b"-2147483648==-2147483648", Scale::Units, None, Ok((1, 24))),
    (b"2147483647==2147483647", Scale::Units, None, Ok((1, 22))),
    (b"-2147483648+2147483647", Scale::Units, None, Ok((-1, 22))),
    (b"2147483647+-2147483648", Scale::Units, None, Ok((-1, 22))),
    (b"-2147483648--1", Scale::Units, None, Ok((-2147483647, 14))),
    (b"-2147483648--2147483648", Scale::Units, None, Ok((0, 23))),
    (b"2147483647-2147483647", Scale::Units, None, Ok((0, 21))),
    (b"-2147483648/2147483647", Scale::Units, None, Ok((-1, 22))),
    (b"2147483647/-2147483648", Scale::Units, None, Ok((0, 22))),
    (b"-2147483648/-2147483648", Scale::Units, None, Ok((1, 23))),
    (b"2147483647/2147483647", Scale::Units, None, Ok((1, 21))),
    (b"-2147483648%2147483647", Scale::Units, None, Ok((-1, 22))),
    (
        b"2147483647%-2147483648",
        Scale::Units,
        None,
        Ok((2147483647, 22)),
    ),
    (b"-2147483648%-1", Scale::Units, None, Ok((0, 14))),
    (b"-2147483648%-2147483648", Scale::Units, None, Ok((0, 23))),
    (b"2147483647%2147483647", Scale::Units, None, Ok((0, 21))),
    (b"-2147483648<2147483647", Scale::Units, None, Ok((1, 22))),
    (b"2147483647<-2147483648", Scale::Units, None, Ok((0, 22))),
    (b"-2147483648<-1", Scale::Units, None, Ok((1, 14))),
    (b"-2147483648<-2147483648", Scale::Units, None, Ok((0, 23))),
    (b"2147483647<2147483647", Scale::Units, None, Ok((0, 21))),
    (b"-2147483648>2147483647", Scale::Units, None, Ok((0, 22))),
    (b"2147483647>-2147483648", Scale::Units, None, Ok((1, 22))),
    (b"-2147483648>-1", Scale::Units, None, Ok((0, 14))),
    (b"-2147483648>-2147483648", Scale::Units, None, Ok((0, 23))),
    (b"2147483647>2147483647", Scale::Units, None, Ok((0, 21))),
    (b"-2147483648=2147483647", Scale::Units, None, Ok((0, 22))),
    (b"2147483647=-2147483648", Scale::Units, None, Ok((0, 22))),
    (b"-2147483648=-1", Scale::Units, None, Ok((0, 14))),
    (b"-2147483648=-2147483648", Scale::Units, None, Ok((1, 23))),
    (b"2147483647=2147483647", Scale::Units, None, Ok((1, 21))),
    (b"-2147483648&2147483647", Scale::Units, None, Ok((0, 22))),
    (b"2147483647&-2147483648", Scale::Units, None, Ok((0, 22))),
    (b"-2147483648&-1", Scale::Units, None, Ok((0, 14))),
    (b"-2147483648&-2147483648", Scale::Units, None, Ok((0, 23))),
    (b"2147483647&2147483647", Scale::Units, None, Ok((1, 21))),
    (b"-2147483648:2147483647", Scale::Units, None, Ok((1, 22))),
    (b"2147483647:-2147483648", Scale::Units, None, Ok((1, 22))),
    (b"-2147483648:-1", Scale::Units, None, Ok((0, 14))),
    (b"-2147483648:-2147483648", Scale::Units, None, Ok((0, 23))),
    (b"2147483647:2147483647", Scale::Units, None, Ok((1, 21))),
];

/// The first fault from the left.
const FAULTS: [Row; 40] = [
    (b"-2147483648+-1", Scale::Units, None, Err(NumFault::Range)),
    (
        b"-2147483648+-2147483648",
        Scale::Units,
        None,
        Err(NumFault::Range),
    ),
    (
        b"2147483647+2147483647",
        Scale::Units,
        None,
        Err(NumFault::Range),
    ),
    (
        b"-2147483648-2147483647",
        Scale::Units,
        None,
        Err(NumFault::Range),
    ),
    (
        b"2147483647--2147483648",
        Scale::Units,
        None,
        Err(NumFault::Range),
    ),
    (
        b"-2147483648*2147483647",
        Scale::Units,
        None,
        Err(NumFault::Range),
    ),
    (
        b"2147483647*-2147483648",
        Scale::Units,
        None,
        Err(NumFault::Range),
    ),
    (b"-2147483648*-1", Scale::Units, None, Err(NumFault::Range)),
    (
        b"-2147483648*-2147483648",
        Scale::Units,
        None,
        Err(NumFault::Range),
    ),
    (
        b"2147483647*2147483647",
        Scale::Units,
        None,
        Err(NumFault::Range),
    ),
    (b"-2147483648/-1", Scale::Units, None, Err(NumFault::Range)),
    (b"", Scale::Units, None, Err(NumFault::Missing)),
    (b".", Scale::Units, None, Err(NumFault::Missing)),
    (b"-", Scale::Units, None, Err(NumFault::Missing)),
    (b"x", Scale::Units, None, Err(NumFault::Missing)),
    (b"--3", Scale::Units, None, Err(NumFault::Missing)),
    (b"1+", Scale::Units, None, Err(NumFault::Missing)),
    (b"1+x", Scale::Units, None, Err(NumFault::Missing)),
    (b"(1", Scale::Units, None, Err(NumFault::Missing)),
    (b"(1+2x)", Scale::Units, None, Err(NumFault::Missing)),
    (b"()", Scale::Units, None, Err(NumFault::Missing)),
    (b"|5", Scale::Units, None, Err(NumFault::Missing)),
    (b"1/0", Scale::Units, None, Err(NumFault::ZeroDivisor)),
    (b"1%0", Scale::Units, None, Err(NumFault::ZeroDivisor)),
    (b"1/0+", Scale::Units, None, Err(NumFault::ZeroDivisor)),
    (b"2147483648", Scale::Units, None, Err(NumFault::Range)),
    (b"-2147483649", Scale::Units, None, Err(NumFault::Range)),
    (
        b"99999999999999999999999999",
        Scale::Units,
        None,
        Err(NumFault::Range),
    ),
    (b"2147483647+1+", Scale::Units, None, Err(NumFault::Range)),
    (b"1/(2-2", Scale::Units, None, Err(NumFault::Missing)),
    (b"1+|", Scale::Units, None, Err(NumFault::Missing)),
    (b"8947849i", Scale::Units, None, Err(NumFault::Range)),
    (b"-(0-2147483648)", Scale::Units, None, Err(NumFault::Range)),
    (b"2147483647+1-1", Scale::Units, None, Err(NumFault::Range)),
    (b"|-2147483648", Scale::Units, Some(1), Err(NumFault::Range)),
    (b"1===2", Scale::Units, None, Err(NumFault::Missing)),
    (b"1<>2", Scale::Units, None, Err(NumFault::Missing)),
    (
        b"(((((((((((((((((((((((((((((((((7)))))))))))))))))))))))))))))))))",
        Scale::Units,
        None,
        Err(NumFault::Missing),
    ),
    (
        b"|||||||||||||||||||||||||||||||||7",
        Scale::Units,
        Some(0),
        Err(NumFault::Missing),
    ),
    (
        b"((((((((((((((((((((((((((((((((|7))))))))))))))))))))))))))))))))",
        Scale::Units,
        Some(0),
        Err(NumFault::Missing),
    ),
];

/// Whether a text gives what its row says.
fn is_right(row: &Row) -> bool {
    let (text, scale, place, value) = *row;
    match (eval(text, 0, scale, place), value) {
        (Ok((Num(value), behind)), Ok((wanted, taken))) => value == wanted && behind == taken,
        (Err(fault), Err(wanted)) => fault == wanted,
        _ => false,
    }
}

#[test]
fn numbers(rt: HostRuntime) {
    for row in &NUMBERS {
        assert!(rt; is_right(row));
    }
}

#[test]
fn edges(rt: HostRuntime) {
    for row in &EDGES {
        assert!(rt; is_right(row));
    }
}

#[test]
fn faults(rt: HostRuntime) {
    for row in &FAULTS {
        assert!(rt; is_right(row));
    }
}

#[test]
fn a_place_in_the_text(rt: HostRuntime) {
    assert!(rt; eval(b".sp 3+4", 4, Scale::Lines, None) == Ok((Num(280), 7)));
    assert!(rt; eval(b"12", 2, Scale::Units, None) == Err(NumFault::Missing));
    assert!(rt; eval(b"12", 7, Scale::Units, None) == Err(NumFault::Missing));
}

#[test]
fn rounding(rt: HostRuntime) {
    assert!(rt; round_h(36) == 48 && round_h(35) == 24 && round_h(-12) == 0 && round_h(-13) == -24);
    assert!(rt; round_v(20) == 40 && round_v(19) == 0 && round_v(-20) == 0 && round_v(-21) == -40);
}

#[test]
fn names(rt: HostRuntime) -> Result<(), Fail> {
    let name = Name::new(b"page-header1").ok_or("a name")?;
    assert!(rt; name.as_bytes() == b"page-header1".as_slice());
    assert!(rt; Name::new(b"page-header12").is_none());
    assert!(rt; Name::new(b"").is_none());
    Ok(())
}

#[test]
fn limits(rt: HostRuntime) {
    let limits = Limits::default();
    assert!(rt; limits.bytes == 50_000_000 && limits.output == 200_000_000 && limits.line == 4_096);
    assert_eq!(rt; Limits::default_text(Limit::Line), "4096");
}
