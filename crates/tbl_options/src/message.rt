//! The messages about tables.

ghost use Rattle.std.specs.Prelude.{◌≡◌, ◌+◌, ◌≤◌, ◌++◌, length};
ghost use Rattle.arrayvec.specs.ArrayVec.{array_vec_len};
ghost use Rattle.tbl_options.specs.Messages.{tbl_message_line, tbl_message_text};

use arrayvec::ArrayVec;
use input_source::Note;
use itoa::Buffer;
use roff_num::Limit;

/// An option as it is written, or its first 32 bytes.
pub type OptionText = ArrayVec<u8, 32>;

/// What is reported of the input of tables.
#[derive(Drop)]
pub enum Message {
    /// A limit of this value stopped the run.
    LimitReached(Limit, u64),
    /// A table that can't be formatted, or holds what isn't built. It passes as it was read.
    BadFormat,
    /// The input ended within a table.
    TableNotEnded,
    /// An option that isn't known.
    OptionIgnored(OptionText),
    /// Something of the manual that isn't built, by its letter in a format.
    LeftOut(u8),
    /// A row has more fields than the formats read so far have columns.
    TooManyFields,
    /// An escape that is passed on and measured as nothing, by the byte behind its backslash.
    NotMeasured(u8),
    /// A request in a text block, which is dropped.
    RequestInTextBlock,
    /// An entry without width that is cut where it meets something.
    EntryCut,
    /// The source failed.
    ReadFailed,
    /// The output failed.
    WriteFailed,
}

/// A message, with the line of the input that it names.
#[derive(Drop)]
pub struct Told {
    /// The line, from 1 on.
    pub line: u32,
    /// What is reported.
    pub message: Message,
}

impl Told {
    /// The message as it is written.
    pub fn note(&self) -> Note
        ensures { result.items ≡ tbl_message_line self.now.line self.now.message }
    {
        let mut text = Note::new();
        append(&mut text, b"tbl: line ");
        append(&mut text, Buffer::new().format(self.line).as_bytes());
        append(&mut text, b": ");
        self.message.say(&mut text);
        append(&mut text, b"\n");
        text
    }
}

impl Message {
    /// Adds what the message says.
    fn say(&self, text: &mut Note)
        requires { array_vec_len text.old ≤ 40 }
        ensures said { text.new.items ≡ text.old.items ++ tbl_message_text self.now }
        ensures room { array_vec_len text.new ≤ array_vec_len text.old + 52 }
    {
        match self {
            Message::LimitReached(limit, value) => {
                append(text, b"limit ");
                append(text, limit.name().as_bytes());
                append(text, b" (");
                append(text, Buffer::new().format(*value).as_bytes());
                append(text, b") reached");
            }
            Message::BadFormat => append(text, b"bad format"),
            Message::TableNotEnded => append(text, b"table not ended"),
            Message::OptionIgnored(option) => {
                append(text, b"option ignored: ");
                append(text, option.as_slice());
            }
            Message::LeftOut(letter) => {
                append(text, b"left out: ");
                append(text, &[*letter]);
            }
            Message::TooManyFields => append(text, b"too many fields"),
            Message::NotMeasured(byte) => {
                append(text, b"not measured: \\");
                append(text, &[*byte]);
            }
            Message::RequestInTextBlock => append(text, b"request in text block"),
            Message::EntryCut => append(text, b"entry cut"),
            Message::ReadFailed => append(text, b"read failed"),
            Message::WriteFailed => append(text, b"write failed"),
        }
    }
}

/// Adds bytes.
fn append(text: &mut Note, bytes: &[u8])
    requires { array_vec_len text.old + length bytes.now ≤ 96 }
    ensures items { text.new.items ≡ text.old.items ++ bytes.now }
    ensures len { array_vec_len text.new ≡ array_vec_len text.old + length bytes.now }
{
    text.try_extend_from_slice(bytes).unwrap();
}
