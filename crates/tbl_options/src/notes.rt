//! The messages of a table, as they are kept until they are told.

ghost use Rattle.std.specs.Prelude.{◌≡◌, ◌+◌, ◌≤◌, ◌++◌, length, take};
ghost use Rattle.arrayvec.specs.ArrayVec.{array_vec_len};
ghost use Rattle.tbl_options.specs.Notes.{IsWithin, told_of};

use crate::message::{Message, OptionText, Told};
use input_source::at_most;

/// What is reported.
#[derive(Clone, Copy)]
pub enum Cause {
    /// A table that can't be formatted.
    BadFormat,
    /// A row has more fields than the format has columns.
    TooManyFields,
    /// An option that is ignored, by where it lies in the block.
    OptionIgnored(u32, u32),
    /// What is left out of the format, by its letter.
    LeftOut(u8),
    /// An item of a text that isn't measured, by its byte.
    NotMeasured(u8),
    /// A request in a text block.
    RequestInTextBlock,
    /// An entry that is cut.
    EntryCut,
}

/// A message that is kept.
#[derive(Clone, Copy)]
pub struct KeptNote {
    /// The line that it names.
    pub line: u32,
    /// What is reported.
    pub cause: Cause,
}

/// The most bytes of an option that a message has.
const MOST: usize = 32;

impl KeptNote {
    /// The message.
    pub fn told(self, block: &[u8]) -> Told
        requires { IsWithin (length block.now) self.cause }
        ensures { result ≡ told_of block.now self }
    {
        Told {
            line: self.line,
            message: match self.cause {
                Cause::BadFormat => Message::BadFormat,
                Cause::TooManyFields => Message::TooManyFields,
                Cause::OptionIgnored(from, to) => {
                    Message::OptionIgnored(option_text(&block[from as usize..to as usize]))
                }
                Cause::LeftOut(letter) => Message::LeftOut(letter),
                Cause::NotMeasured(byte) => Message::NotMeasured(byte),
                Cause::RequestInTextBlock => Message::RequestInTextBlock,
                Cause::EntryCut => Message::EntryCut,
            },
        }
    }
}

/// An option, or its first bytes.
fn option_text(option: &[u8]) -> OptionText
    ensures { result.items ≡ take 32 option.now }
{
    let mut text = OptionText::new();
    append(&mut text, at_most(option, MOST));
    text
}

/// Adds bytes.
fn append(text: &mut OptionText, bytes: &[u8])
    requires { array_vec_len text.old + length bytes.now ≤ 32 }
    ensures { text.new.items ≡ text.old.items ++ bytes.now }
{
    text.try_extend_from_slice(bytes).unwrap();
}
