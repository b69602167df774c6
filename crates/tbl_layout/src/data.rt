//! The data of a table: lines, of which each is a row of fields (Lesk, "Tbl": Data).

ghost use Rattle.std.specs.Prelude.{◌≡◌, ◌≤◌, length, not, ◌==◌};
ghost use Rattle.std.specs.List.{list_all, prefix_len};
ghost use Rattle.input_source.specs.Bytes.{blank};
ghost use Rattle.tbl_layout.specs.Data.{is_brace, is_opening};

use memchr::memchr;

/// Whether a text is `T{` and blanks behind it.
pub(crate) fn is_opening(text: &[u8]) -> bool
    ensures { result ≡ is_opening text.now }
{
    match text.split_first() {
        Some((byte, behind)) => *byte == b'T' && is_brace(behind),
        None => false,
    }
}

/// Whether a text is a brace and blanks behind it.
fn is_brace(text: &[u8]) -> bool
    ensures { result ≡ is_brace text.now }
{
    match text.split_first() {
        Some((byte, behind)) => *byte == b'{' && are_blanks(behind),
        None => false,
    }
}

/// Whether a text has blanks alone.
fn are_blanks(text: &[u8]) -> bool
    ensures { result ≡ list_all (λ b. b == blank) text.now }
{
    for at in 0..text.len() {
        if text[at] != b' ' {
            return false;
        }
    }
    true
}

/// How many bytes a field has that begins a text.
pub fn field_len(separator: u8, text: &[u8]) -> usize
    ensures value { result ≡ prefix_len (λ b. not (b == separator)) text.now }
    ensures within { result ≤ length text.now }
{
    memchr(separator, text).unwrap_or(text.len())
}
