//! The registers that the options ask for.

ghost use Rattle.std.specs.Prelude.{◌≡◌, None, MatchBool, map};
ghost use Rattle.cli_words.specs.Clauses.{Adds, next_register, register_of, registers_of, told};
ghost use Rattle.cli_words.specs.Clauses.{whole_value};

use arrayvec::ArrayVec;
use roff_num::{Num, Scale, eval};

/// Number registers with their values, in basic units where they are lengths, in the order in which
/// they are to be set.
pub type StartRegisters = ArrayVec<(u8, Num), 64>;

/// What the options of registers ask for.
#[derive(Drop)]
pub enum Registers<'a> {
    /// These are to be set.
    Set(StartRegisters),
    /// This text asks for no register, or for one too many.
    Bad(&'a str),
}

/// What the texts ask for, each for one register.
pub fn read_registers<'a>(texts: &[&'a str]) -> Registers<'a>
    ensures { told result ≡ registers_of (map (λ text. text.now) texts.now) }
{
    let mut registers = ArrayVec::new();
    for text in texts {
        if !add_register(&mut registers, text.as_bytes()) {
            return Registers::Bad(text);
        }
    }
    Registers::Set(registers)
}

/// Puts the register that a text asks for behind the others. Answers whether it asks for one, and
/// there is room for it; otherwise nothing changed.
fn add_register(registers: &mut StartRegisters, text: &[u8]) -> bool
    ensures { MatchBool result
        (Adds (next_register registers.old.items text.now) registers.old.items registers.new.items)
        (next_register registers.old.items text.now ≡ None) }
{
    match read_register(text) {
        Some(register) => registers.try_push(register).is_ok(),
        None => false,
    }
}

/// The register that a text asks for: its name is the first byte, and its value all that follows.
fn read_register(text: &[u8]) -> Option<(u8, Num)>
    ensures { result ≡ register_of text.now }
{
    let (&name, value) = text.split_first()?;
    if !name.is_ascii_graphic() {
        return None;
    }
    Some((name, read_whole(value)?))
}

/// The value of a text that is an expression as a whole.
fn read_whole(text: &[u8]) -> Option<Num>
    ensures { result ≡ whole_value text.now }
{
    match eval(text, 0, Scale::Units, None) {
        Ok((value, end)) if end == text.len() => Some(value),
        _ => None,
    }
}
