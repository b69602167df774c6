//! Conditions that ask for a register, read at once where they stand whole in front.

ghost use Rattle.std.specs.Prelude.{◌≡◌, ◌<◌, ◌≤◌, true, false, IfSome, length, take};
ghost use Rattle.input_escapes.specs.ConditionFronts.{is_of_expression};
ghost use Rattle.run_model.specs.declared.line_state.LineState.TheVariants.{Deciding};
ghost use Rattle.read_shortcuts.specs.Answered.{AnswersBehind, AnswersFront, AreOfExpression};
ghost use Rattle.read_shortcuts.specs.Answered.{BeginsNumber, EndsBehind, IsAnswer, begins_number};
ghost use Rattle.read_shortcuts.specs.Conditions.{DecidesRegister, HoldsMore};
ghost use Rattle.read_shortcuts.specs.ControlFronts.{StandsName};

use crate::control::{ControlFront, take_front};
use crate::kept::{forget_if, keep_if};
use crate::registers::{escape_len, register_in_front};
use input_source::is_argument_byte;
use read_lines::Reader;
use roff_num::{Scale, ShortName, eval};
use roff_scan::{ByteSource, Unread};
use run_model::{LineState, PageEvent};
use run_state::Composer;

/// What a condition in front answers that asks for a register, or for an argument.
#[derive(Clone, Copy)]
pub(super) struct Answer {
    /// How many bytes stand in front up to its end: those of the line's front and its own, and the
    /// blank behind it.
    pub(super) count: usize,
    /// How many bytes the register's text has.
    pub(super) len: usize,
    /// Whether it is so.
    pub(super) so: bool,
}

/// Takes a name of two bytes that stands in front, with its dot or apostrophe, and a condition
/// behind it that asks for a register: it decides. It stands whole in front, and the
/// limits have room for what is read of it. Else nothing happens. Returns whether it did.
#[inline(never)]
pub(super) fn decide_register<S: ByteSource>(
    reader: &mut Reader,
    keeps: bool,
    front: ControlFront,
    composer: &Composer,
    unread: &mut Unread<PageEvent>,
    source: &mut S,
) -> bool
    requires { StandsName front (Deciding keeps) reader.old.reading
        (S.ready source.old) unread.old }
    ensures decides { result ≡ true → DecidesRegister composer.now (S.gives source.old)
        (S.gives source.new) reader.old reader.new unread.old unread.new }
    ensures taken { result ≡ true → unread.old.input.charge < unread.new.input.charge }
    ensures unchanged { result ≡ false
        → (reader.new ≡ reader.old) × (unread.new ≡ unread.old) × (source.new ≡ source.old) }
    ensures notes { S.notes source.new ≤ S.notes source.old }
    ensures failures { S.failures source.new ≡ S.failures source.old }
{
    match answer_in_front(reader, composer, unread, source) {
        Some(answer) => {
            unread.stays_within();
            if !may_hold(answer, unread) {
                return false;
            }
            if !keep_if(keeps, answer.so, unread) {
                return false;
            }
            if !unread.count_text(answer.len, answer.count) {
                forget_if(keeps, unread);
                return false;
            }
            take_front(unread, source, answer.count);
            unread.stays_within();
            reader.go_on(LineState::branch(answer.so));
            true
        }
        None => false,
    }
}

/// Whether the limits have room for the bytes of such a condition in what is half read, where it
/// stands in the source.
#[inline(always)]
pub(super) fn may_hold(answer: Answer, unread: &Unread<PageEvent>) -> bool
    ensures { result ≡ true → HoldsMore answer unread.now }
{
    if !unread.is_none_ahead() {
        return true;
    }
    let room = (unread.limits().stack as usize).saturating_sub(unread.pushed());
    answer.count <= room.saturating_sub(answer.len)
}

/// What the condition answers that stands in front behind a name of two bytes and a blank, if it
/// stands there whole and asks for a register.
#[inline(always)]
fn answer_in_front<S: ByteSource>(
    reader: &Reader,
    composer: &Composer,
    unread: &Unread<PageEvent>,
    source: &S,
) -> Option<Answer>
    ensures { IfSome result (λ answer.
        AnswersFront reader.now composer.now (S.ready source.now) unread.now answer) }
{
    match unread.front(source) {
        [_, _, _, b' ', bytes @ ..] => answer_behind(reader, bytes, composer, unread),
        _ => None,
    }
}

/// What the condition answers with which these bytes begin, if it stands there whole and asks for a
/// register.
#[inline(always)]
fn answer_behind(
    reader: &Reader,
    bytes: &[u8],
    composer: &Composer,
    unread: &Unread<PageEvent>,
) -> Option<Answer>
    ensures { IfSome result (λ answer.
        AnswersBehind reader.now composer.now unread.now bytes.now answer) }
{
    match register_in_front(bytes) {
        Some(name) => {
            let (_, behind) = bytes.split_at(escape_len(name));
            match expression_in_front(behind) {
                Some(count) => {
                    let (rest, _) = behind.split_at(count);
                    answer_of(reader, name, rest, composer, unread)
                }
                None => None,
            }
        }
        None => None,
    }
}

/// What a condition answers that asks for this register, and has these bytes of an expression
/// behind its escape, if that is a number which the register's text begins.
#[inline(always)]
fn answer_of(
    reader: &Reader,
    name: ShortName,
    rest: &[u8],
    composer: &Composer,
    unread: &Unread<PageEvent>,
) -> Option<Answer>
    ensures { IfSome result (λ answer.
        IsAnswer reader.now composer.now unread.now name rest.now answer) }
{
    let mut text = reader.register_text(name, composer, unread);
    if !is_number_begun(text.as_slice()) {
        return None;
    }
    let len = text.len();
    match text.try_extend_from_slice(rest) {
        Ok(()) => match eval(text.as_slice(), 0, Scale::Units, Some(0)) {
            Ok((value, _)) => Some(Answer {
                count: 5 + (escape_len(name) + rest.len()),
                len,
                so: value.0 > 0,
            }),
            Err(_) => None,
        },
        Err(_) => None,
    }
}

/// How many of these bytes belong to an expression, if a blank ends it behind them.
#[inline(always)]
fn expression_in_front(bytes: &[u8]) -> Option<usize>
    ensures { IfSome result (λ count. EndsBehind count bytes.now) }
{
    let count = expression_len(bytes);
    let (_, behind) = bytes.split_at(count);
    match behind {
        [b' ', ..] => Some(count),
        _ => None,
    }
}

/// Whether the first of these bytes begins a number, and all belong to an expression.
#[inline(always)]
fn is_number_begun(bytes: &[u8]) -> bool
    ensures { result ≡ true → BeginsNumber bytes.now }
{
    match bytes {
        [first, ..] => {
            if begins_number(*first) {
                expression_len(bytes) == bytes.len()
            } else {
                false
            }
        }
        [] => false,
    }
}

/// How many of these bytes belong to an expression, up to the first that doesn't.
#[inline(always)]
fn expression_len(bytes: &[u8]) -> usize
    ensures few { result ≤ length bytes.now }
    ensures are { AreOfExpression (take result bytes.now) }
{
    let mut count = 0;
    while count < bytes.len() {
        if !is_of_expression(bytes[count]) {
            return count;
        }
        count += 1;
    }
    count
}

/// Whether a byte belongs to an expression.
#[inline(always)]
fn is_of_expression(byte: u8) -> bool
    ensures { result ≡ is_of_expression byte }
{
    is_argument_byte(byte) && !(byte == b' ' || byte == b'\t')
}

/// Whether a byte is a digit or a minus.
#[inline(always)]
fn begins_number(byte: u8) -> bool
    ensures { result ≡ begins_number byte }
{
    (byte >= b'0' && byte <= b'9') || byte == b'-'
}
