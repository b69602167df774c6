//! The width of what is printed.

ghost use Rattle.std.specs.Prelude.{◌≡◌};
ghost use Rattle.roff_num.specs.Clauses.{byte_width};

/// The width of one byte of a text, in columns: none where it goes on with a character of several
/// bytes.
pub fn width_of_byte(byte: u8) -> u64
    ensures { result ≡ byte_width byte }
{
    if byte & 0xC0 == 0x80 { 0 } else { 1 }
}
