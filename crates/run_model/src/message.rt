//! The messages of a run.

ghost use Rattle.std.specs.Prelude.{◌≡◌, ◌+◌, ◌≤◌, ◌++◌, length, Some};
ghost use Rattle.arrayvec.specs.ArrayVec.{array_vec_len};
ghost use Rattle.run_model.specs.Messages.{character_name, message_line, message_text, name_bytes};
ghost use Rattle.run_model.specs.Messages.{remark_message};
ghost use Rattle.run_model.specs.declared.message.Message.TheVariants.{LimitReached};

use arrayvec::ArrayVec;
use input_escapes::Remark;
use itoa::Buffer;
use roff_num::{Limit, Name};

/// What a run reports.
#[derive(Clone, Copy)]
pub enum Message {
    /// A limit of this value stopped the run.
    LimitReached(Limit, u64),
    /// An argument that should be a number isn't one, or is out of range; or a register's step is.
    BadNumber,
    /// An argument that should be a format isn't one.
    BadFormat,
    /// A page length below one line.
    PageTooShort,
    /// A space below 0.
    BackwardMotion,
    /// Something of the manual that isn't built, by the two bytes that stand for it.
    LeftOut([u8; 2]),
    /// No character has this name.
    UnknownCharacter(CharacterName),
    /// No environment has this number, or none was left that may be gone back to.
    NoSuchEnvironment,
    /// The input ended within a definition.
    DefinitionNotEnded,
    /// The source failed.
    ReadFailed,
    /// The output failed.
    WriteFailed,
}

/// The name of a character, as far as it was read: the first two bytes of it count.
#[derive(Clone, Copy)]
pub enum CharacterName {
    /// No byte.
    Nothing,
    /// One byte.
    One(u8),
    /// Two bytes.
    Two([u8; 2]),
}

/// Room for the longest message.
pub type MessageLine = ArrayVec<u8, 128>;

impl Message {
    /// The message as it is written, on this line of the input.
    pub fn line(self, line: u32) -> MessageLine
        ensures { result.items ≡ message_line line self }
    {
        let mut text = MessageLine::new();
        append(&mut text, b"nroff: line ");
        append(&mut text, Buffer::new().format(line).as_bytes());
        append(&mut text, b": ");
        self.say(&mut text);
        append(&mut text, b"\n");
        text
    }

    /// Adds what the message says.
    fn say(self, text: &mut MessageLine)
        requires { array_vec_len text.old ≤ 64 }
        ensures said { text.new.items ≡ text.old.items ++ message_text self }
        ensures room { array_vec_len text.new ≤ array_vec_len text.old + 50 }
    {
        match self {
            Message::LimitReached(limit, value) => say_limit(limit, value, text),
            Message::BadNumber => append(text, b"bad number"),
            Message::BadFormat => append(text, b"bad format"),
            Message::PageTooShort => append(text, b"page length too small"),
            Message::BackwardMotion => append(text, b"backward motion"),
            Message::LeftOut(name) => {
                append(text, b"left out: ");
                append(text, &name);
            }
            Message::UnknownCharacter(name) => {
                append(text, b"unknown character: ");
                name.say(text);
            }
            Message::NoSuchEnvironment => append(text, b"no such environment"),
            Message::DefinitionNotEnded => append(text, b"definition not ended"),
            Message::ReadFailed => append(text, b"read failed"),
            Message::WriteFailed => append(text, b"write failed"),
        }
    }
}

impl Message {
    /// What is said of something that was read.
    pub fn of_remark(remark: Remark) -> Message
        ensures { result ≡ remark_message remark }
    {
        match remark {
            Remark::LeftOut(byte) => Message::LeftOut([b'\\', byte]),
            Remark::UnknownCharacter(None) => Message::UnknownCharacter(CharacterName::Nothing),
            Remark::UnknownCharacter(Some(name)) => {
                Message::UnknownCharacter(CharacterName::of(&name))
            }
            Remark::BadNumber => Message::BadNumber,
            Remark::BackwardMotion => Message::BackwardMotion,
        }
    }
}

impl CharacterName {
    /// The first two bytes of a name.
    pub fn of(name: &Name) -> CharacterName
        ensures { result ≡ character_name (Some name.now) }
    {
        let bytes = name.as_bytes();
        match bytes.get(1) {
            Some(second) => CharacterName::Two([bytes[0], *second]),
            None => CharacterName::One(bytes[0]),
        }
    }

    /// Adds the bytes.
    fn say(self, text: &mut MessageLine)
        requires { array_vec_len text.old ≤ 83 }
        ensures said { text.new.items ≡ text.old.items ++ name_bytes self }
        ensures room { array_vec_len text.new ≤ array_vec_len text.old + 2 }
    {
        match self {
            CharacterName::Nothing => {}
            CharacterName::One(byte) => append(text, &[byte]),
            CharacterName::Two(bytes) => append(text, &bytes),
        }
    }
}

/// Adds what is said of a limit of this value.
#[inline(always)]
fn say_limit(limit: Limit, value: u64, text: &mut MessageLine)
    requires { array_vec_len text.old ≤ 64 }
    ensures said { text.new.items
        ≡ text.old.items ++ message_text (LimitReached limit value) }
    ensures room { array_vec_len text.new ≤ array_vec_len text.old + 50 }
{
    append(text, b"limit ");
    append(text, limit.name().as_bytes());
    append(text, b" (");
    append(text, Buffer::new().format(value).as_bytes());
    append(text, b") reached");
}

/// Adds bytes.
fn append(text: &mut MessageLine, bytes: &[u8])
    requires { array_vec_len text.old + length bytes.now ≤ 128 }
    ensures items { text.new.items ≡ text.old.items ++ bytes.now }
    ensures len { array_vec_len text.new ≡ array_vec_len text.old + length bytes.now }
{
    text.try_extend_from_slice(bytes).unwrap();
}
