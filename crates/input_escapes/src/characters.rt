//! The characters that `\\(xx` prints.

ghost use Rattle.std.specs.Prelude.{◌≡◌, ◌≤◌, IfSome, bytes_eq, find, length};
ghost use Rattle.std.specs.Option.{option_copied};
ghost use Rattle.input_escapes.specs.Characters.{character};
ghost use Rattle.input_escapes.specs.Characters.Coded.{bytes_of};

/// The bytes that a character prints.
#[derive(Clone, Copy)]
enum Text {
    One([u8; 1]),
    Two([u8; 2]),
    Three([u8; 3]),
    Four([u8; 4]),
}

/// A row of the table: a character.
#[derive(Clone, Copy)]
struct Row {
    /// Its name.
    name: [u8; 2],
    /// What it prints.
    text: Text,
}

/// The table of characters.
#[rattlefmt::skip]
static ROWS: [Row; 52] = [
    Row { name: *b"em", text: Text::Two(*b"--") },
    Row { name: *b"en", text: Text::One(*b"-") },
    Row { name: *b"hy", text: Text::One(*b"-") },
    Row { name: *b"mi", text: Text::One(*b"-") },
    Row { name: *b"pl", text: Text::One(*b"+") },
    Row { name: *b"eq", text: Text::One(*b"=") },
    Row { name: *b"mu", text: Text::One(*b"x") },
    Row { name: *b"di", text: Text::One(*b"/") },
    Row { name: *b"sl", text: Text::One(*b"/") },
    Row { name: *b"+-", text: Text::Two(*b"+-") },
    Row { name: *b"bu", text: Text::One(*b"*") },
    Row { name: *b"**", text: Text::One(*b"*") },
    Row { name: *b"sq", text: Text::Two(*b"[]") },
    Row { name: *b"co", text: Text::Three(*b"(C)") },
    Row { name: *b"rg", text: Text::Three(*b"(R)") },
    Row { name: *b"tm", text: Text::Four(*b"(TM)") },
    Row { name: *b"14", text: Text::Three(*b"1/4") },
    Row { name: *b"12", text: Text::Three(*b"1/2") },
    Row { name: *b"34", text: Text::Three(*b"3/4") },
    Row { name: *b"fi", text: Text::Two(*b"fi") },
    Row { name: *b"fl", text: Text::Two(*b"fl") },
    Row { name: *b"ff", text: Text::Two(*b"ff") },
    Row { name: *b"Fi", text: Text::Three(*b"ffi") },
    Row { name: *b"Fl", text: Text::Three(*b"ffl") },
    Row { name: *b"aq", text: Text::One(*b"'") },
    Row { name: *b"cq", text: Text::One(*b"'") },
    Row { name: *b"aa", text: Text::One(*b"'") },
    Row { name: *b"fm", text: Text::One(*b"'") },
    Row { name: *b"oq", text: Text::One(*b"`") },
    Row { name: *b"ga", text: Text::One(*b"`") },
    Row { name: *b"dq", text: Text::One(*b"\"") },
    Row { name: *b"lq", text: Text::One(*b"\"") },
    Row { name: *b"rq", text: Text::One(*b"\"") },
    Row { name: *b"rs", text: Text::One(*b"\\") },
    Row { name: *b"ba", text: Text::One(*b"|") },
    Row { name: *b"br", text: Text::One(*b"|") },
    Row { name: *b"or", text: Text::One(*b"|") },
    Row { name: *b"ul", text: Text::One(*b"_") },
    Row { name: *b"ru", text: Text::One(*b"_") },
    Row { name: *b"->", text: Text::Two(*b"->") },
    Row { name: *b"<-", text: Text::Two(*b"<-") },
    Row { name: *b"<=", text: Text::Two(*b"<=") },
    Row { name: *b">=", text: Text::Two(*b">=") },
    Row { name: *b"!=", text: Text::Two(*b"!=") },
    Row { name: *b"==", text: Text::Two(*b"==") },
    Row { name: *b"ap", text: Text::One(*b"~") },
    Row { name: *b"ti", text: Text::One(*b"~") },
    Row { name: *b"ha", text: Text::One(*b"^") },
    Row { name: *b"at", text: Text::One(*b"@") },
    Row { name: *b"sh", text: Text::One(*b"#") },
    Row { name: *b"Do", text: Text::One(*b"$") },
    Row { name: *b"de", text: Text::Three(*b"deg") },
];

/// The bytes that a character prints, by its name; nothing where no character has it.
#[tactic(auto, using(crate::proofs::CharacterTable::character_found))]
pub fn character(name: &[u8]) -> Option<&'static [u8]>
    ensures text { option_copied result ≡ character name.now }
    ensures few { IfSome result (λ text. length text.now ≤ 4) }
{
    Some(row_named(name)?.text.bytes())
}

/// The row of a name.
fn row_named(name: &[u8]) -> Option<&'static Row>
    ensures { option_copied result ≡ find (λ row. bytes_eq name.now row.name) ROWS }
{
    ROWS.iter().find(|row| name == row.name.as_slice())
}

impl Text {
    /// The bytes themselves.
    fn bytes(&self) -> &[u8]
        ensures bytes { result.now ≡ bytes_of self.now }
        ensures few { length result.now ≤ 4 }
    {
        match self {
            Text::One(bytes) => bytes,
            Text::Two(bytes) => bytes,
            Text::Three(bytes) => bytes,
            Text::Four(bytes) => bytes,
        }
    }
}
