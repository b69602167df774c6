//! The escapes of a text line: what the byte behind a backslash means.

ghost use Rattle.std.specs.Prelude.{◌≡◌, ◌==◌, find};
ghost use Rattle.std.specs.Option.{option_copied};
ghost use Rattle.input_escapes.specs.Escapes.{escape_of, is_copied};

use roff_num::Direction;

/// What an escape is, by the byte behind its backslash.
#[derive(Clone, Copy)]
pub enum Escape {
    /// It prints a byte.
    Prints(u8),
    /// A blank that ends no word.
    Blank,
    /// A glyph without width.
    NoWidth,
    /// It gives nothing.
    Nothing,
    /// A tab.
    Tab,
    /// It drops the rest of its line; the next text line goes on.
    Interrupts,
    /// It begins or ends a branch of a condition over several lines, and gives nothing elsewhere.
    Brace,
    /// It is left out, and has neither name nor text behind it.
    LeftOut,
    /// It begins a comment.
    Comment,
    /// A size stands behind it.
    Size,
    /// A name stands behind it.
    Name(NameUse),
    /// A text between two delimiters stands behind it.
    Text(TextUse),
    /// A text between two delimiters stands behind it, and is measured.
    Width,
}

/// What the text between two delimiters behind an escape is for.
#[derive(Clone, Copy)]
pub enum TextUse {
    /// The length of a motion along the line.
    Motion,
    /// The escape of this byte is left out, and its text with it.
    LeftOut(u8),
}

/// What the name behind an escape is for.
#[derive(Clone, Copy)]
pub enum NameUse {
    /// A register is read, and stepped first if there is a direction.
    Register(Option<Direction>),
    /// A string is read.
    Text,
    /// An argument is read.
    Argument,
    /// A character is printed.
    Character,
    /// A font is chosen.
    Font,
    /// The escape of this byte is left out, and its name with it.
    LeftOut(u8),
}

/// What is known of a byte behind a backslash.
#[derive(Clone, Copy)]
pub(crate) struct Row {
    /// The byte.
    pub(crate) byte: u8,
    /// The escape.
    pub(crate) escape: Escape,
}

/// The table of escapes. A byte that isn't in it prints itself.
#[rattlefmt::skip]
static ROWS: [Row; 49] = [
    Row { byte: b'\\', escape: Escape::Prints(b'\\') },
    Row { byte: b'e', escape: Escape::Prints(b'\\') },
    Row { byte: b' ', escape: Escape::Blank },
    Row { byte: b'0', escape: Escape::Blank },
    Row { byte: b'&', escape: Escape::NoWidth },
    Row { byte: b'%', escape: Escape::Nothing },
    Row { byte: b'|', escape: Escape::Nothing },
    Row { byte: b'^', escape: Escape::Nothing },
    Row { byte: b'c', escape: Escape::Interrupts },
    Row { byte: b't', escape: Escape::Tab },
    Row { byte: b'{', escape: Escape::Brace },
    Row { byte: b'}', escape: Escape::Brace },
    Row { byte: b'\n', escape: Escape::Nothing },
    Row { byte: b'\t', escape: Escape::Tab },
    Row { byte: 2, escape: Escape::Nothing },
    Row { byte: 3, escape: Escape::Nothing },
    Row { byte: 5, escape: Escape::Nothing },
    Row { byte: 6, escape: Escape::Nothing },
    Row { byte: 7, escape: Escape::Nothing },
    Row { byte: b'"', escape: Escape::Comment },
    Row { byte: b's', escape: Escape::Size },
    Row { byte: b'n', escape: Escape::Name(NameUse::Register(None)) },
    Row { byte: b'*', escape: Escape::Name(NameUse::Text) },
    Row { byte: b'$', escape: Escape::Name(NameUse::Argument) },
    Row { byte: b'(', escape: Escape::Name(NameUse::Character) },
    Row { byte: b'f', escape: Escape::Name(NameUse::Font) },
    Row { byte: b'g', escape: Escape::Name(NameUse::LeftOut(b'g')) },
    Row { byte: b'j', escape: Escape::Name(NameUse::LeftOut(b'j')) },
    Row { byte: b'k', escape: Escape::Name(NameUse::LeftOut(b'k')) },
    Row { byte: b'h', escape: Escape::Text(TextUse::Motion) },
    Row { byte: b'w', escape: Escape::Width },
    Row { byte: b'b', escape: Escape::Text(TextUse::LeftOut(b'b')) },
    Row { byte: b'D', escape: Escape::Text(TextUse::LeftOut(b'D')) },
    Row { byte: b'H', escape: Escape::Text(TextUse::LeftOut(b'H')) },
    Row { byte: b'l', escape: Escape::Text(TextUse::LeftOut(b'l')) },
    Row { byte: b'L', escape: Escape::Text(TextUse::LeftOut(b'L')) },
    Row { byte: b'N', escape: Escape::Text(TextUse::LeftOut(b'N')) },
    Row { byte: b'o', escape: Escape::Text(TextUse::LeftOut(b'o')) },
    Row { byte: b'S', escape: Escape::Text(TextUse::LeftOut(b'S')) },
    Row { byte: b'v', escape: Escape::Text(TextUse::LeftOut(b'v')) },
    Row { byte: b'x', escape: Escape::Text(TextUse::LeftOut(b'x')) },
    Row { byte: b'X', escape: Escape::Text(TextUse::LeftOut(b'X')) },
    Row { byte: b'a', escape: Escape::LeftOut },
    Row { byte: b'd', escape: Escape::LeftOut },
    Row { byte: b'p', escape: Escape::LeftOut },
    Row { byte: b'r', escape: Escape::LeftOut },
    Row { byte: b'u', escape: Escape::LeftOut },
    Row { byte: b'z', escape: Escape::LeftOut },
    Row { byte: b'!', escape: Escape::LeftOut },
];

/// The escape of the byte behind a backslash.
pub fn escape_of(byte: u8) -> Escape
    ensures { result ≡ escape_of byte }
{
    match row_of(byte) {
        Some(row) => row.escape,
        None => Escape::Prints(byte),
    }
}

/// The row of a byte.
fn row_of(byte: u8) -> Option<&'static Row>
    ensures { option_copied result ≡ find (λ row. row.byte == byte) ROWS }
{
    ROWS.iter().find(|row| row.byte == byte)
}

impl NameUse {
    /// Whether copy mode reads such a name too: of a register, a string or an argument.
    pub(crate) fn is_copied(self) -> bool
        ensures { result ≡ is_copied self }
    {
        matches!(
            self,
            NameUse::Register(_) | NameUse::Text | NameUse::Argument
        )
    }
}
