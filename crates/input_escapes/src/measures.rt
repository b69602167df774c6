//! What escapes of the text measure: characters, motions and the rest, in columns.

ghost use Rattle.std.specs.Prelude.{◌≡◌};
ghost use Rattle.input_escapes.specs.Escapes.{escape_of as kind_of};
ghost use Rattle.input_escapes.specs.Measures.{byte_columns, columns_of, escape_measures};
ghost use Rattle.input_escapes.specs.Measures.{motion_of, motion_over, name_measures, remarked};
ghost use Rattle.input_escapes.specs.Measures.{wider};

use crate::characters::character;
use crate::escapes::{Escape, NameUse, TextUse, escape_of};
use crate::open_escape::Remark;
use input_source::is_silent;
use roff_num::{Name, Scale, eval, round_h, width_of_byte};

/// A width above this, in basic units, reads as this.
const MOST_WIDTH: u64 = 2_147_483_647;

/// The columns of something, and what is said of it.
#[derive(Drop)]
pub(crate) struct Measured {
    /// In columns.
    pub(crate) columns: u32,
    pub(crate) remark: Option<Remark>,
}

impl Measured {
    /// So many columns.
    pub(crate) fn columns(columns: u32) -> Self
        ensures { result ≡ columns_of columns }
    {
        Measured {
            columns,
            remark: None,
        }
    }

    /// Nothing that has columns, and of which this is said.
    pub(crate) fn remarked(remark: Remark) -> Self
        ensures { result ≡ remarked remark }
    {
        Measured {
            columns: 0,
            remark: Some(remark),
        }
    }

    /// The columns of an escape without a name, by the byte behind its backslash.
    pub(crate) fn of_escape(byte: u8) -> Self
        ensures { result ≡ escape_measures byte (kind_of byte) }
    {
        match escape_of(byte) {
            Escape::Prints(printed) => Measured::columns(width_of_byte(printed) as u32),
            Escape::Blank => Measured::columns(1),
            Escape::LeftOut => Measured::remarked(Remark::LeftOut(byte)),
            Escape::Text(TextUse::LeftOut(left_out)) => {
                Measured::remarked(Remark::LeftOut(left_out))
            }
            _ => Measured::columns(0),
        }
    }

    /// The columns of what the name behind an escape asks for, where it isn't read in the escape's
    /// place.
    pub(crate) fn of_name(purpose: NameUse, name: Option<Name>) -> Self
        ensures { result ≡ name_measures purpose name }
    {
        match purpose {
            NameUse::Character => Measured::of_character(name),
            NameUse::LeftOut(byte) => Measured::remarked(Remark::LeftOut(byte)),
            _ => Measured::columns(0),
        }
    }

    /// The columns of a character, by its name, if there is one.
    fn of_character(name: Option<Name>) -> Self
        ensures { result ≡ name_measures NameUse.Character name }
    {
        let found = match &name {
            Some(name) => character(name.as_bytes()),
            None => None,
        };
        match found {
            Some(text) => Measured::columns(text.len() as u32),
            None => Measured::remarked(Remark::UnknownCharacter(name)),
        }
    }

    /// The motion that a text asks for, at this place of the input line in basic units.
    pub(crate) fn of_motion(place: i32, text: &[u8]) -> Self
        ensures { result ≡ motion_of place text.now }
    {
        match eval(text, 0, Scale::Columns, Some(place)) {
            Ok((length, _)) => Measured::of_length(round_h(length.0)),
            Err(_) => Measured::remarked(Remark::BadNumber),
        }
    }

    /// A motion of this length in basic units: one below 0 is none, and is told.
    fn of_length(length: i32) -> Self
        ensures { result ≡ motion_over length }
    {
        match u32::try_from(length) {
            Ok(length) => Measured::columns(length / 24),
            Err(_) => Measured::remarked(Remark::BackwardMotion),
        }
    }
}

/// A width in basic units with so many columns more.
pub(crate) fn wider(width: u32, columns: u32) -> u32
    ensures { result ≡ wider width columns }
{
    (u64::from(width) + 24 * u64::from(columns)).min(MOST_WIDTH) as u32
}

/// The columns of a byte: tabs and bytes that print nothing have none.
pub(crate) fn byte_columns(byte: u8) -> u32
    ensures { result ≡ byte_columns byte }
{
    if byte == b'\t' || is_silent(byte) {
        0
    } else {
        width_of_byte(byte) as u32
    }
}
