//! One step of a format's reading: what a byte does, by where the reading stands (Lesk, "Tbl":
//! Format).

ghost use Rattle.std.specs.Prelude.{◌≡◌, length};
ghost use Rattle.tbl_format.specs.FormatSteps.{again, among_keys};
ghost use Rattle.tbl_format.specs.FormatSteps.{at_font, at_macro, at_size, at_width, behind};
ghost use Rattle.tbl_format.specs.FormatSteps.{behind_font, behind_key, behind_macro, between};
ghost use Rattle.tbl_format.specs.FormatSteps.{fault, in_brackets, in_font, in_macro, in_number};
ghost use Rattle.tbl_format.specs.FormatSteps.{in_width_digits, signed, sized, step, to};
ghost use Rattle.tbl_format.specs.Format.{asked_by, greater, left_out, most_bars, said_by};
ghost use Rattle.tbl_format.specs.KeyCounts.{IsOnLine};

use crate::format::{Asked, FormatKey, FormatPlace, Key, RowPart, Standing};
use crate::format_parts::{
    among_keys, at_font, at_macro, at_size, at_width, behind_font, behind_key, behind_macro,
    in_brackets, in_font, in_macro, in_number, in_width_digits, signed, sized,
};

/// What a byte of a format does.
#[derive(Clone, Copy)]
pub enum Does {
    /// Nothing that counts.
    Nothing,
    /// It is a key of the row.
    AddKey(Key),
    /// It is a bar.
    AddBar,
    /// It ends a number: so many blanks are asked for behind the column.
    Separate(u32),
    /// It ends a width: so many columns of the page are asked for.
    Widen(u32),
    /// `e`: the column is to be as wide as all such columns.
    Equalize,
    /// `z`: the texts of the key count for no width.
    DropWidth,
    /// `t` or `d`: where the cells of the key stand.
    Stand(Standing),
    /// `x`, or the end of what `m` has: it is left out, by its letter as it is written.
    LeaveOut(u8),
    /// It ends a row.
    EndRow,
    /// It ends the last row, and the format.
    EndFormat,
}

/// A step: where the reading stands then, what the byte does, and whether it is looked at again,
/// behind a key, as it only ended what stood before it.
#[derive(Clone, Copy)]
pub struct FormatStep {
    /// Where the reading stands then.
    pub place: FormatPlace,
    /// What the byte does.
    pub does: Does,
    /// Whether it is looked at again.
    pub is_again: bool,
}

/// What a byte does that stands behind this front of its line, by what of a row is read.
#[tactic(auto, unfolding(crate::specs::FormatSteps::step))]
pub fn step(part: RowPart, front: &[u8], byte: u8) -> FormatStep
    requires { IsOnLine (length front.now) part }
    ensures { result ≡ step part front.now byte }
{
    match part {
        RowPart::AtKeys => among_keys(byte),
        RowPart::BehindKey => behind_key(byte),
        RowPart::Number(number) => in_number(number, byte),
        RowPart::AtWidth => at_width(front, byte),
        RowPart::WidthDigits(from) => in_width_digits(from, front, byte),
        RowPart::Brackets(from, depth) => in_brackets(from, depth, front, byte),
        RowPart::AtFont => at_font(byte),
        RowPart::BehindFont => behind_font(byte),
        RowPart::InFont => in_font(byte),
        RowPart::AtMacro(letter) => at_macro(letter, byte),
        RowPart::BehindMacro(letter) => behind_macro(letter, byte),
        RowPart::InMacro(letter) => in_macro(letter, byte),
        RowPart::AtSize => at_size(byte),
        RowPart::Signed => signed(byte),
        RowPart::Sized => sized(byte),
    }
}

impl Does {
    /// The letter of what is left out, if anything is.
    pub fn left_out(self) -> Option<u8>
        ensures { result ≡ left_out self }
    {
        match self {
            Does::LeaveOut(letter) => Some(letter),
            Does::Nothing => None,
            Does::AddKey(_) => None,
            Does::AddBar => None,
            Does::Separate(_) => None,
            Does::Widen(_) => None,
            Does::Equalize => None,
            Does::DropWidth => None,
            Does::Stand(_) => None,
            Does::EndRow => None,
            Does::EndFormat => None,
        }
    }
}

impl Asked {
    /// With so many bars behind a key of the column.
    pub(crate) fn with_bars(self, bars: u8) -> Asked
        ensures { result ≡ most_bars bars self }
    {
        Asked {
            separation: self.separation,
            least: self.least,
            is_equal: self.is_equal,
            bars: self.bars.max(bars),
        }
    }

    /// With what is asked by this, if it asks anything.
    pub(crate) fn asked_by(self, does: Does) -> Asked
        ensures { result ≡ asked_by does self }
    {
        match does {
            Does::Separate(number) => self.separated(number),
            Does::Widen(columns) => self.widened(columns),
            Does::Equalize => Asked {
                separation: self.separation,
                least: self.least,
                is_equal: true,
                bars: self.bars,
            },
            Does::Nothing => self,
            Does::AddKey(_) => self,
            Does::AddBar => self,
            Does::DropWidth => self,
            Does::Stand(_) => self,
            Does::LeaveOut(_) => self,
            Does::EndRow => self,
            Does::EndFormat => self,
        }
    }

    /// With a number.
    fn separated(self, number: u32) -> Asked
        ensures { result ≡ asked_by (Does.Separate number) self }
    {
        Asked {
            separation: Some(greater(self.separation, number)),
            least: self.least,
            is_equal: self.is_equal,
            bars: self.bars,
        }
    }

    /// With a width.
    fn widened(self, columns: u32) -> Asked
        ensures { result ≡ asked_by (Does.Widen columns) self }
    {
        Asked {
            separation: self.separation,
            least: Some(greater(self.least, columns)),
            is_equal: self.is_equal,
            bars: self.bars,
        }
    }
}

/// The greater of what was asked and a number.
fn greater(asked: Option<u32>, number: u32) -> u32
    ensures { result ≡ greater asked number }
{
    match asked {
        None => number,
        Some(asked) => asked.max(number),
    }
}

impl FormatKey {
    /// With what is said by this, if it says anything of a key.
    pub(crate) fn said_by(self, does: Does) -> FormatKey
        ensures { result ≡ said_by does self }
    {
        match does {
            Does::DropWidth => FormatKey {
                bars: self.bars,
                key: self.key,
                end: self.end,
                standing: self.standing,
                has_no_width: true,
            },
            Does::Stand(standing) => FormatKey {
                bars: self.bars,
                key: self.key,
                end: self.end,
                standing,
                has_no_width: self.has_no_width,
            },
            Does::Nothing => self,
            Does::AddKey(_) => self,
            Does::AddBar => self,
            Does::Separate(_) => self,
            Does::Widen(_) => self,
            Does::Equalize => self,
            Does::LeaveOut(_) => self,
            Does::EndRow => self,
            Does::EndFormat => self,
        }
    }
}

impl FormatStep {
    /// The byte goes on with what is read.
    pub(crate) fn to(part: RowPart) -> FormatStep
        ensures { result ≡ to part }
    {
        FormatStep {
            place: FormatPlace::InRows(part),
            does: Does::Nothing,
            is_again: false,
        }
    }

    /// The byte ends a key, or what belongs to it.
    pub(crate) fn behind(does: Does) -> FormatStep
        ensures { result ≡ behind does }
    {
        FormatStep {
            place: FormatPlace::InRows(RowPart::BehindKey),
            does,
            is_again: false,
        }
    }

    /// The byte stands behind what it ends, and is looked at again.
    pub(crate) fn again(does: Does) -> FormatStep
        ensures { result ≡ again does }
    {
        FormatStep {
            place: FormatPlace::InRows(RowPart::BehindKey),
            does,
            is_again: true,
        }
    }

    /// The byte stands between the keys of rows.
    pub(crate) fn between(does: Does) -> FormatStep
        ensures { result ≡ between does }
    {
        FormatStep {
            place: FormatPlace::InRows(RowPart::AtKeys),
            does,
            is_again: false,
        }
    }

    /// The byte is a fault.
    pub(crate) fn fault() -> FormatStep
        ensures { result ≡ fault }
    {
        FormatStep {
            place: FormatPlace::AtFault,
            does: Does::Nothing,
            is_again: false,
        }
    }
}
