//! Conditions that compare the text of an argument, read at once where they stand whole in front.

ghost use Rattle.std.specs.Prelude.{◌≡◌, ◌<◌, ◌≤◌, true, false, IfSome, length, take};
ghost use Rattle.input_escapes.specs.Conditions.{so_unless};
ghost use Rattle.run_model.specs.declared.line_state.LineState.TheVariants.{Deciding};
ghost use Rattle.read_shortcuts.specs.Compared.{AnswersText, ComparesBehind, ComparesFront};
ghost use Rattle.read_shortcuts.specs.Compared.{OfText, bytes_beside, is_delimiter, is_of_text};
ghost use Rattle.read_shortcuts.specs.Conditions.{DecidesTexts};
ghost use Rattle.read_shortcuts.specs.ControlFronts.{StandsName};
ghost use Rattle.run_state.specs.declared.composer.Composer.{Composer as ComposerOf};

use crate::answered::{Answer, may_hold};
use crate::control::{ControlFront, take_front};
use crate::kept::{forget_if, keep_if};
use crate::registers::place_of;
use input_source::is_argument_byte;
use read_lines::Reader;
use roff_scan::{ByteSource, Unread};
use run_model::{LineState, PageEvent};

/// Takes a name of two bytes that stands in front, with its dot or apostrophe, and a condition
/// behind it that compares an argument with a text: it decides. It stands whole in front, and the
/// limits have room for what is read of it. Else nothing happens. Returns whether it did.
#[inline(never)]
pub(super) fn decide_texts<S: ByteSource>(
    reader: &mut Reader,
    keeps: bool,
    front: ControlFront,
    unread: &mut Unread<PageEvent>,
    source: &mut S,
) -> bool
    requires { StandsName front (Deciding keeps) reader.old.reading
        (S.ready source.old) unread.old }
    ensures decides { result ≡ true → (es : ComposerOf) → DecidesTexts es (S.gives source.old)
        (S.gives source.new) reader.old reader.new unread.old unread.new }
    ensures taken { result ≡ true → unread.old.input.charge < unread.new.input.charge }
    ensures unchanged { result ≡ false
        → (reader.new ≡ reader.old) × (unread.new ≡ unread.old) × (source.new ≡ source.old) }
    ensures notes { S.notes source.new ≤ S.notes source.old }
    ensures failures { S.failures source.new ≡ S.failures source.old }
{
    match comparison_in_front(unread, source) {
        Some(answer) => {
            unread.stays_within();
            if !may_hold(answer, unread) {
                return false;
            }
            if !keep_if(keeps, answer.so, unread) {
                return false;
            }
            if !unread.count_text(answer.len, answer.count) {
                forget_if(keeps, unread);
                return false;
            }
            take_front(unread, source, answer.count);
            unread.stays_within();
            reader.go_on(LineState::branch(answer.so));
            true
        }
        None => false,
    }
}

/// What the condition answers that stands in front behind a name of two bytes and a blank, if it
/// stands there whole and compares an argument with a text.
#[inline(always)]
fn comparison_in_front<S: ByteSource>(unread: &Unread<PageEvent>, source: &S) -> Option<Answer>
    ensures { IfSome result (λ answer. ComparesFront (S.ready source.now) unread.now answer) }
{
    match unread.front(source) {
        [_, _, _, b' ', b'!', bytes @ ..] => comparison(true, bytes, unread),
        [_, _, _, b' ', bytes @ ..] => comparison(false, bytes, unread),
        _ => None,
    }
}

/// What the condition answers with which these bytes begin, behind a `!` or not, if it stands there
/// whole and compares an argument with a text.
#[inline(always)]
fn comparison(negated: bool, bytes: &[u8], unread: &Unread<PageEvent>) -> Option<Answer>
    ensures { IfSome result (λ answer. ComparesBehind negated bytes.now unread.now answer) }
{
    match bytes {
        [
            delimiter,
            b'\\',
            b'$',
            digit @ b'1'..=b'9',
            ended,
            behind @ ..,
        ] => {
            if *ended != *delimiter || !is_delimiter(*delimiter) {
                return None;
            }
            let text = unread.argument(place_of(*digit));
            if text_len(*delimiter, text) != text.len() {
                return None;
            }
            compared(negated, *delimiter, text, behind)
        }
        _ => None,
    }
}

/// What the condition answers, behind a `!` or not, that compares the text of an argument with the
/// one in front of these bytes, up to the delimiter. None where no delimiter ends that.
#[inline(always)]
fn compared(negated: bool, delimiter: u8, text: &[u8], behind: &[u8]) -> Option<Answer>
    ensures { IfSome result (λ answer. AnswersText negated delimiter text.now behind.now answer) }
{
    let len = text_len(delimiter, behind);
    let (other, rest) = behind.split_at(len);
    match rest {
        [ended, ..] => {
            if *ended != delimiter {
                return None;
            }
            Some(Answer {
                count: bytes_beside(negated) + len,
                len: text.len(),
                so: (text == other) != negated,
            })
        }
        [] => None,
    }
}

/// How many bytes such a condition has with the front of its line, but for those of the text.
#[inline(always)]
fn bytes_beside(negated: bool) -> usize
    ensures { result ≡ bytes_beside negated }
{
    if negated { 11 } else { 10 }
}

/// How many of these bytes belong to a text between delimiters, up to the first that doesn't.
#[inline(always)]
fn text_len(delimiter: u8, bytes: &[u8]) -> usize
    ensures few { result ≤ length bytes.now }
    ensures are { OfText delimiter (take result bytes.now) }
{
    let mut count = 0;
    while count < bytes.len() {
        if !is_of_text(delimiter, bytes[count]) {
            return count;
        }
        count += 1;
    }
    count
}

/// Whether a byte belongs to such a text.
#[inline(always)]
fn is_of_text(delimiter: u8, byte: u8) -> bool
    ensures { result ≡ is_of_text delimiter byte }
{
    is_argument_byte(byte) && byte != delimiter
}

/// Whether a byte is an apostrophe or a quote.
#[inline(always)]
fn is_delimiter(byte: u8) -> bool
    ensures { result ≡ is_delimiter byte }
{
    byte == b'\'' || byte == b'"'
}
