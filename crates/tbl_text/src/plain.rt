//! The bytes of a text that print themselves: how many stand in front, how wide they are, and which
//! is the last glyph.

ghost use Rattle.std.specs.Prelude.{◌≡◌, ◌≤◌, length, map, sum_by, take};
ghost use Rattle.roff_num.specs.Widths.{byte_width};
ghost use Rattle.tbl_text.specs.Laws.{ArePlain, byte_item};
ghost use Rattle.tbl_text.specs.MeasuredSoFar.{is_ascii_text};
ghost use Rattle.tbl_text.specs.Measuring.{len_of, up_to_last_glyph, width_of};

use input_source::text_in_front;
use roff_num::width_of_byte;

/// Texts of fewer bytes are looked at byte by byte.
const SHORT: usize = 16;

/// Bytes in front that print themselves, and their columns.
#[derive(Clone, Copy)]
pub(crate) struct Front {
    pub(crate) len: usize,
    pub(crate) width: usize,
}

/// Bytes that print themselves and stand in front. Of a short text the first of them are looked at
/// as ASCII alone, whose columns are as many as they.
#[inline(always)]
pub(crate) fn plain_in_front(bytes: &[u8]) -> Front
    ensures within { result.len ≤ length bytes.now }
    ensures plain { ArePlain (take result.len bytes.now) }
    ensures width { result.width ≡ width_of (map byte_item (take result.len bytes.now)) }
    ensures most { result.width ≤ result.len }
{
    if bytes.len() < SHORT {
        let len = ascii_in_front(bytes);
        if len > 0 {
            return Front { len, width: len };
        }
    }
    let len = text_in_front(bytes);
    let width = plain_width(&bytes[..len]);
    Front { len, width }
}

/// How many bytes in front are ASCII and print themselves.
#[inline(always)]
fn ascii_in_front(bytes: &[u8]) -> usize
    ensures within { result ≤ length bytes.now }
    ensures plain { ArePlain (take result bytes.now) }
    ensures width { sum_by byte_width (take result bytes.now) ≡ result }
{
    let mut count = 0;
    while count < bytes.len() && is_ascii_text(bytes[count]) {
        count += 1;
    }
    count
}

/// Whether a byte is ASCII and prints itself.
#[inline(always)]
fn is_ascii_text(byte: u8) -> bool
    ensures { result ≡ is_ascii_text byte }
{
    byte >= b' ' && byte < 127 && byte != b'\\'
}

/// The width of bytes that print themselves, in columns: where all are ASCII, their number.
pub(crate) fn plain_width(bytes: &[u8]) -> usize
    requires { ArePlain bytes.now }
    ensures value { result ≡ width_of (map byte_item bytes.now) }
    ensures most { result ≤ length bytes.now }
{
    if bytes.is_ascii() {
        return bytes.len();
    }
    width_by_bytes(bytes)
}

/// The width of bytes of text, byte by byte.
fn width_by_bytes(bytes: &[u8]) -> usize
    ensures value { result ≡ sum_by byte_width bytes.now }
    ensures most { result ≤ length bytes.now }
{
    let mut width = 0;
    for byte in bytes {
        width += width_of_byte(*byte) as usize;
    }
    width
}

/// How many of such bytes reach up to the last that is no blank.
pub(crate) fn plain_glyphs(bytes: &[u8]) -> usize
    requires { ArePlain bytes.now }
    ensures value { result ≡ len_of (up_to_last_glyph (map byte_item bytes.now)) }
    ensures within { result ≤ length bytes.now }
{
    let mut len = bytes.len();
    while len > 0 {
        if bytes[len - 1] != b' ' {
            return len;
        }
        len -= 1;
    }
    0
}
