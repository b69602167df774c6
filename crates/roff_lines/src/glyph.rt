//! What stands in a line's text for a printed byte, and the ends of sentences.

ghost use Rattle.std.specs.Prelude.{◌≡◌, ◌<◌, if◌then◌else◌, true};
ghost use Rattle.roff_lines.specs.Clauses.{text_byte, is_closer};
ghost use Rattle.roff_lines.specs.Clauses.{is_sentence_mark, ends_sentence_behind};

use page_model::{Glyph, UNPADDABLE};

/// What stands for a printed byte in a line's text.
pub(crate) fn kept_byte(byte: u8) -> u8
    ensures { result ≡ text_byte byte }
{
    if byte <= b' ' { UNPADDABLE } else { byte }
}

/// Whether a glyph may stand behind the end of a sentence.
fn is_closer(glyph: Glyph) -> bool
    ensures { result ≡ is_closer glyph }
{
    matches!(glyph, Glyph::Printed(b'"' | b'\'' | b')' | b']' | b'*'))
}

/// Whether a byte is above those that end a sentence and those that may stand behind its end, as
/// most letters are.
#[inline(always)]
fn is_above_marks(byte: u8) -> bool
    ensures { result ≡ true → 93 < byte }
{
    byte > b']'
}

/// Whether a sentence ends behind a glyph: a closer leaves that as it was before it.
pub(crate) fn ends_sentence_behind_glyph(glyph: Glyph, before: bool) -> bool
    ensures { result ≡ (if is_closer glyph then before else is_sentence_mark glyph) }
{
    match glyph {
        Glyph::Printed(b'"' | b'\'' | b')' | b']' | b'*') => before,
        Glyph::Printed(b'.' | b'?' | b'!') => true,
        Glyph::Printed(_) | Glyph::Blanks(_) => false,
    }
}

/// Whether a sentence ends behind these printed bytes: closers leave that as it was before them,
/// and behind a blank none does.
#[tactic(auto, using(crate::proofs::Sentences::ends_sentence_behind_push))]
pub fn ends_sentence_behind(bytes: &[u8], before: bool) -> bool
    ensures { result ≡ ends_sentence_behind bytes.now before }
{
    let mut front = bytes;
    while let Some((last, others)) = front.split_last() {
        if is_above_marks(*last) {
            return false;
        }
        let glyph = Glyph::Printed(*last);
        if !is_closer(glyph) {
            return ends_sentence_behind_glyph(glyph, before);
        }
        front = others;
    }
    before
}
