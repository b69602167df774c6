//! Titles that may be placed.

ghost use Rattle.std.specs.Prelude.{◌≡◌, ◌+◌, ◌<◌, ◌≤◌, ◌*◌, ◌^◌, true, length};
ghost use Rattle.page_model.specs.Glyphs.{text_width};
ghost use Rattle.page_bytes.specs.TitleParts.{HasNoBlank};
ghost use Rattle.page_model.specs.Titles.{part_text};

use roff_pages::TitleLine;

/// The longest part, and the longest number.
const MOST: usize = 100;

/// Whether a title is short enough for any use, and its number has a byte and no blank.
pub(crate) fn is_fit(title: TitleLine<'_>) -> bool
    ensures some { result ≡ true → 0 < length title.entry.number.now }
    ensures shown { result ≡ true → HasNoBlank title.entry.number.now }
    ensures width { result ≡ true → let number = title.entry.number.now in
        text_width (part_text number title.entry.left.now)
        + text_width (part_text number title.entry.centre.now)
        + text_width (part_text number title.entry.right.now) + title.entry.length < 2 ^ 64 }
{
    if title.number.is_empty() || title.number.len() > MOST || title.length >= 1 << 62 {
        return false;
    }
    if title.left.len() > MOST || title.centre.len() > MOST || title.right.len() > MOST {
        return false;
    }
    has_no_blank(title.number)
}

/// Whether a text has no blank.
fn has_no_blank(text: &[u8]) -> bool
    ensures { result ≡ true → HasNoBlank text.now }
{
    let mut rest = text;
    while let Some((&byte, behind)) = rest.split_first() {
        if byte == b' ' {
            return false;
        }
        rest = behind;
    }
    true
}
