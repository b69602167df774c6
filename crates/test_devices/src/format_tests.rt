//! Formats and texts that a program in another language made, to show that the definitions say what
//! is meant: Roman numbers by taking away the greatest part, words by listing them.

use roff_num::{Format, Num, NumText, read_format, write_num};

/// The formats in which each row has its value.
const COLUMNS: [&str; 6] = ["1", "001", "i", "I", "a", "A"];

/// Adds a byte to a checksum (FNV-1a of 32 bits).
fn added(sum: u32, byte: u8) -> u32 {
    (sum ^ u32::from(byte)).wrapping_mul(16777619)
}

/// The checksum of the texts from -40 to 4100, each with a newline.
fn checksum(format: Format) -> u32 {
    let mut sum = 2166136261;
    let mut text = NumText::new();
    for value in -40..4101 {
        write_num(Num(value), format, &mut text);
        for byte in text.as_slice() {
            sum = added(sum, *byte);
        }
        sum = added(sum, b'\n');
    }
    sum
}

/// A format's name, and the checksum of its texts.
const SUMS: [(&str, u32); 8] = [
    ("1", 2313999864),
    ("00", 302969820),
    ("001", 2324123042),
    ("00000000000000000000000000000000", 3663910182),
    ("i", 3931991840),
    ("I", 2048729568),
    ("a", 515204835),
    ("A", 1497082275),
];

/// Whether the texts of a format have a checksum.
fn has_checksum(name: &str, sum: u32) -> bool {
    match read_format(name.as_bytes()) {
        Some(format) => checksum(format) == sum,
        None => false,
    }
}

#[test]
fn texts_of_all_small_values(rt: HostRuntime) {
    for (name, sum) in &SUMS {
        assert!(rt; has_checksum(name, *sum), "{name}");
    }
}

/// A value, and its texts in each of these formats.
const SOME_VALUES: [(i32, &str); 28] = [
    (
        -2147483648,
        "-2147483648 -2147483648 -2147483648 -2147483648 -fxshrxx -FXSHRXX",
    ),
    (-4000, "-4000 -4000 -4000 -4000 -ewv -EWV"),
    (-3999, "-3999 -3999 -mmmcmxcix -MMMCMXCIX -ewu -EWU"),
    (-40, "-40 -040 -xl -XL -an -AN"),
    (-28, "-28 -028 -xxviii -XXVIII -ab -AB"),
    (-5, "-5 -005 -v -V -e -E"),
    (-1, "-1 -001 -i -I -a -A"),
    (0, "0 000 0 0 0 0"),
    (1, "1 001 i I a A"),
    (4, "4 004 iv IV d D"),
    (9, "9 009 ix IX i I"),
    (14, "14 014 xiv XIV n N"),
    (26, "26 026 xxvi XXVI z Z"),
    (27, "27 027 xxvii XXVII aa AA"),
    (28, "28 028 xxviii XXVIII ab AB"),
    (49, "49 049 xlix XLIX aw AW"),
    (52, "52 052 lii LII az AZ"),
    (90, "90 090 xc XC cl CL"),
    (444, "444 444 cdxliv CDXLIV qb QB"),
    (702, "702 702 dccii DCCII zz ZZ"),
    (703, "703 703 dcciii DCCIII aaa AAA"),
    (1994, "1994 1994 mcmxciv MCMXCIV bxr BXR"),
    (3888, "3888 3888 mmmdccclxxxviii MMMDCCCLXXXVIII esn ESN"),
    (3999, "3999 3999 mmmcmxcix MMMCMXCIX ewu EWU"),
    (4000, "4000 4000 4000 4000 ewv EWV"),
    (18278, "18278 18278 18278 18278 zzz ZZZ"),
    (18279, "18279 18279 18279 18279 aaaa AAAA"),
    (
        2147483647,
        "2147483647 2147483647 2147483647 2147483647 fxshrxw FXSHRXW",
    ),
];

/// Whether a value has a text in a format.
fn is_text_of(value: i32, name: &str, want: &str) -> bool {
    let Some(format) = read_format(name.as_bytes()) else {
        return false;
    };
    let mut text = NumText::new();
    write_num(Num(value), format, &mut text);
    text.as_slice() == want.as_bytes()
}

/// Whether a value has these texts, one for each format.
fn are_texts_of(value: i32, texts: &str) -> bool {
    for (name, want) in COLUMNS.iter().zip(texts.split_whitespace()) {
        if !is_text_of(value, name, want) {
            return false;
        }
    }
    true
}

#[test]
fn texts_of_some_values(rt: HostRuntime) {
    for (value, texts) in &SOME_VALUES {
        assert!(rt; are_texts_of(*value, texts), "{value}");
    }
}

/// Texts that are no format.
const NO_FORMATS: [&str; 13] = [
    "",
    "x",
    "ii",
    "aa",
    "1a",
    "a1",
    "+1",
    "-1",
    " 1",
    "1 ",
    "1.",
    "\u{e9}",
    "000000000000000000000000000000001",
];

#[test]
fn texts_that_are_no_format(rt: HostRuntime) {
    for text in &NO_FORMATS {
        assert!(rt; read_format(text.as_bytes()).is_none(), "{text}");
    }
}

/// Whether a value has a text in a decimal field.
fn is_field(value: i32, digits: u8, want: &str) -> bool {
    let mut text = NumText::new();
    write_num(Num(value), Format::Decimal(digits), &mut text);
    text.as_slice() == want.as_bytes()
}

#[test]
fn a_wider_field_is_cut_to_32_digits(rt: HostRuntime) {
    assert!(rt; is_field(-7, 255, "-00000000000000000000000000000007"));
    assert!(rt; is_field(7, 0, "7"));
}
