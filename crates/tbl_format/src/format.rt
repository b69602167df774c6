//! What a format says: keys, what is asked of columns, and where its reading stands (Lesk, "Tbl":
//! Format).

ghost use Rattle.std.specs.Prelude.{◌≡◌, ◌-◌, ◌<◌, ◌^◌};
ghost use Rattle.tbl_format.specs.Format.{plain_key, spanning, widened};
ghost use Rattle.tbl_format.specs.Keys.{is_between, key_of, separates_rows};

use tbl_options::option_words::as_small;

/// A key of the format: how the texts of a column stand in it.
#[derive(Clone, Copy)]
pub enum Key {
    /// `l`: at the left edge.
    Left,
    /// `r`: at the right edge.
    Right,
    /// `c`: in the middle.
    Center,
    /// `n`: numbers, units below units.
    Numeric,
    /// `n` of a cell of several columns: a text in the middle.
    WideNumeric,
    /// `a`: at the left edge of a strip in the middle.
    Alphabetic,
    /// `s`: the column belongs to the cell at its left, so no row keeps it.
    Spanned,
    /// `^`: the cell above goes on.
    Above,
    /// `_` or `-`: a rule.
    Rule,
    /// `=`: a double rule.
    DoubleRule,
}

/// Where a cell stands in its rows that is lower than they are.
#[derive(Clone, Copy)]
pub enum Standing {
    /// In their middle.
    Middle,
    /// `t`: at their top.
    Top,
    /// `d`: at their bottom.
    Bottom,
}

/// A key of a row, with the bars in front of it, the columns of its cells, and what its letters say
/// of them.
#[derive(Clone, Copy)]
pub struct FormatKey {
    /// How many bars stand in front of it, behind the key before.
    pub bars: u8,
    /// What it is.
    pub key: Key,
    /// How many columns there are up to the last of its cell, which begins behind those of the key
    /// before.
    pub end: u32,
    /// Where its cells stand.
    pub standing: Standing,
    /// `z`: whether its texts count for no width.
    pub has_no_width: bool,
}

/// What the keys of a column ask for it, in all rows of all formats.
#[derive(Clone, Copy)]
pub struct Asked {
    /// The greatest number behind them: the blanks behind the column.
    pub separation: Option<u32>,
    /// The greatest width behind a `w`, in columns of the page.
    pub least: Option<u32>,
    /// `e`: whether it is as wide as all such columns.
    pub is_equal: bool,
    /// The most bars that stand behind it in a row.
    pub bars: u8,
}

/// Where the reading of a format stands.
#[derive(Clone, Copy)]
pub enum FormatPlace {
    /// In its rows.
    InRows(RowPart),
    /// Behind the dot that ends it.
    AtEnd,
    /// Behind a fault.
    AtFault,
}

/// What of a row is read. Places of a line count from its first byte.
#[derive(Clone, Copy)]
pub enum RowPart {
    /// A key or a bar: neither a number nor a letter may follow.
    AtKeys,
    /// Behind a key, a number or a letter.
    BehindKey,
    /// A number, of this value so far.
    Number(u32),
    /// Behind `w`.
    AtWidth,
    /// The digits of a width that begin at this place of the line.
    WidthDigits(usize),
    /// The brackets of a width: where its expression begins on the line, and how many brackets
    /// are open in it.
    Brackets(usize, usize),
    /// Behind `f`.
    AtFont,
    /// Behind the first byte of a font's name.
    BehindFont,
    /// The brackets of a font.
    InFont,
    /// Behind `m`, which is written so.
    AtMacro(u8),
    /// Behind the first of the two bytes of a macro's name.
    BehindMacro(u8),
    /// The brackets of a macro.
    InMacro(u8),
    /// Behind `p` or `v`.
    AtSize,
    /// Behind its sign.
    Signed,
    /// Its digits.
    Sized,
}

impl Key {
    /// What it is over several columns.
    fn spanning(self) -> Key
        ensures { result ≡ spanning self }
    {
        match self {
            Key::Numeric => Key::WideNumeric,
            Key::Alphabetic => Key::Left,
            _ => self,
        }
    }
}

impl FormatKey {
    /// A key behind so many bars, without letters, whose cell has one column, behind so many.
    pub fn new(bars: u8, key: Key, column: u32) -> FormatKey
        requires { column < 2 ^ 32 - 1 }
        ensures { result ≡ plain_key bars key column }
    {
        FormatKey {
            bars,
            key,
            end: column + 1,
            standing: Standing::Middle,
            has_no_width: false,
        }
    }

    /// This key, with a cell that has one column more.
    pub fn widened(self) -> FormatKey
        requires { self.end < 2 ^ 32 - 1 }
        ensures { result ≡ widened self }
    {
        FormatKey {
            bars: self.bars,
            key: self.key.spanning(),
            end: self.end + 1,
            standing: self.standing,
            has_no_width: self.has_no_width,
        }
    }
}

impl Asked {
    /// Nothing.
    pub const NOTHING: Asked = Asked {
        separation: None,
        least: None,
        is_equal: false,
        bars: 0,
    };
}

/// The key that a byte is, in either case.
pub fn key_of(byte: u8) -> Option<Key>
    ensures { result ≡ key_of byte }
{
    match as_small(byte) {
        b'l' => Some(Key::Left),
        b'r' => Some(Key::Right),
        b'c' => Some(Key::Center),
        b'n' => Some(Key::Numeric),
        b'a' => Some(Key::Alphabetic),
        b's' => Some(Key::Spanned),
        b'^' => Some(Key::Above),
        b'_' | b'-' => Some(Key::Rule),
        b'=' => Some(Key::DoubleRule),
        _ => None,
    }
}

/// Whether a byte separates rows.
pub fn separates_rows(byte: u8) -> bool
    ensures { result ≡ separates_rows byte }
{
    byte == b',' || byte == b'\n'
}

/// Whether a byte may stand between keys, numbers and letters.
pub fn is_between(byte: u8) -> bool
    ensures { result ≡ is_between byte }
{
    byte == b' ' || byte == b'\t'
}
