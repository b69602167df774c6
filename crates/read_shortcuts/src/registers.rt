//! Registers and arguments, read at once where their escapes stand whole in front.

ghost use Rattle.std.specs.Prelude.{◌≡◌, ◌≤◌, ◌<◌, ◌+◌, ◌-◌, true, false, IfSome, None, Some};
ghost use Rattle.std.specs.Prelude.{length};
ghost use Rattle.run_state.specs.declared.composer.Composer.{Composer as ComposerOf};
ghost use Rattle.read_shortcuts.specs.Registers.{BeginsRegister, BeginsText, HoldsText};
ghost use Rattle.read_shortcuts.specs.Registers.{IsArgumentAhead, IsRegisterAhead, IsShort};
ghost use Rattle.read_shortcuts.specs.Registers.{IsTextAhead, MayRead};
ghost use Rattle.read_shortcuts.specs.Registers.{NamesRegister, OfArgument, PutsRegister, PutsText};
ghost use Rattle.read_shortcuts.specs.Registers.{ReadsNames, asked_by, register_escape, with_text};
ghost use Rattle.read_shortcuts.specs.Runs.{IsRun, run_holding};
ghost use Rattle.input_model.specs.Input.{depth, pushed};
ghost use Rattle.input_model.specs.Input.Calls.{argument_live};

use input_source::is_argument_byte;
use read_lines::Reader;
use roff_num::{NumText, ShortName};
use roff_scan::{ByteSource, Unread};
use run_model::{LineState, PageEvent, Purpose};
use run_state::Composer;

/// The most bytes that the text of a number has.
pub(super) const TEXT: usize = 48;

/// The most bytes that are taken of a register: its escape, its text, and the end of that.
const TAKEN: usize = 5 + TEXT + 1;

/// The escape of a register or an argument, which stands whole in front, and is read at once.
#[derive(Clone, Copy)]
pub enum TextAhead {
    /// That of the register of a name.
    Register(ShortName),
    /// That of the argument of this digit.
    Argument(u8),
}

/// Takes the escape of a register or an argument at once that stands whole in front, where
/// arguments are read, as long as fewer than so many are whole, where there is a bound, and holds
/// its text in them, if these limits have room for any. Returns whether it did.
#[inline(never)]
pub fn hold_text<S: ByteSource>(
    reader: &Reader,
    most: Option<usize>,
    composer: &Composer,
    unread: &mut Unread<PageEvent>,
    source: &mut S,
) -> bool
    requires { IsRun (run_holding most) reader.now.reading unread.old.input.escapes }
    ensures holds { result ≡ true → HoldsText (S.gives source.old) (S.gives source.new)
        reader.now composer.now unread.old unread.new }
    ensures unchanged { result ≡ false → (unread.new ≡ unread.old) × (source.new ≡ source.old) }
    ensures notes { S.notes source.new ≤ S.notes source.old }
    ensures failures { S.failures source.new ≡ S.failures source.old }
{
    match text_ahead(reader, unread, source) {
        Some(ahead) => {
            hold_ahead(reader, most, ahead, composer, unread, source);
            true
        }
        None => false,
    }
}

/// Takes this escape of a register or an argument at once, which stands in front, and holds its
/// text in the arguments, as long as fewer than so many are whole, where there is a bound. What
/// isn't held of it is put in front.
#[inline(always)]
fn hold_ahead<S: ByteSource>(
    reader: &Reader,
    most: Option<usize>,
    ahead: TextAhead,
    composer: &Composer,
    unread: &mut Unread<PageEvent>,
    source: &mut S,
)
    requires run { IsRun (run_holding most) reader.now.reading unread.old.input.escapes }
    requires ahead { IsTextAhead ahead reader.now.reading (S.ready source.old) unread.old }
    ensures holds { HoldsText (S.gives source.old) (S.gives source.new)
        reader.now composer.now unread.old unread.new }
    ensures notes { S.notes source.new ≤ S.notes source.old }
    ensures failures { S.failures source.new ≡ S.failures source.old }
{
    let text = pass_text(reader, ahead, composer, unread, source);
    let bytes = text.as_slice();
    let count = unread.hold_bytes(bytes, most);
    let _ = unread.push_read(bytes, count);
    unread.stays_within();
}

/// The escape of a register or an argument that stands whole in front, where a line begins, or a
/// text line or arguments are read, and nothing is half read, if the limits have room for any.
#[inline(always)]
pub fn text_ahead<S: ByteSource>(
    reader: &Reader,
    unread: &Unread<PageEvent>,
    source: &S,
) -> Option<TextAhead>
    ensures { IfSome result (λ ahead.
        IsTextAhead ahead reader.now.reading (S.ready source.now) unread.now) }
{
    match text_in_front(unread.front(source)) {
        Some(ahead) => {
            if may_read(reader, ahead, unread) {
                Some(ahead)
            } else {
                None
            }
        }
        None => None,
    }
}

/// Whether such an escape is read at once here: where names are read, and nothing is half read, if
/// the limits have room for any number, and its text is no longer than one.
#[inline(always)]
fn may_read(reader: &Reader, ahead: TextAhead, unread: &Unread<PageEvent>) -> bool
    ensures { result ≡ true → MayRead ahead reader.now.reading unread.now }
{
    if unread.has_open_escape() {
        return false;
    }
    if !reads_names(reader) {
        return false;
    }
    if !has_room(unread) {
        return false;
    }
    is_short(ahead, unread)
}

/// Whether the text of a register or an argument is no longer than any number.
#[inline(always)]
fn is_short(ahead: TextAhead, unread: &Unread<PageEvent>) -> bool
    ensures { result ≡ true → IsShort ahead unread.now.input }
{
    match ahead {
        TextAhead::Register(_) => true,
        TextAhead::Argument(digit) => unread.argument(place_of(digit)).len() <= TEXT,
    }
}

/// The place of the argument of a digit, from 0 on.
#[inline(always)]
pub(super) fn place_of(digit: u8) -> usize
    ensures { result ≡ digit - 49 }
{
    (digit as usize).saturating_sub(49)
}

/// Takes the escape of a register or an argument at once, which stands in front. Returns its text,
/// which isn't put in front.
#[inline(always)]
pub fn pass_text<S: ByteSource>(
    reader: &Reader,
    ahead: TextAhead,
    composer: &Composer,
    unread: &mut Unread<PageEvent>,
    source: &mut S,
) -> NumText
    requires { IsTextAhead ahead reader.now.reading (S.ready source.old) unread.old }
    ensures puts { PutsText (asked_by ahead) (S.gives source.old) (S.gives source.new)
        reader.now composer.now unread.old (with_text result.items unread.new) }
    ensures bytes { unread.new.input.charge + length result.items < unread.new.limits.bytes }
    ensures notes { S.notes source.new ≤ S.notes source.old }
    ensures failures { S.failures source.new ≡ S.failures source.old }
{
    match ahead {
        TextAhead::Register(name) => pass_register(reader, name, composer, unread, source),
        TextAhead::Argument(digit) => pass_argument(reader, digit, unread, source),
    }
}

/// Takes the escape of the argument of this digit at once, which stands in front. Returns its text,
/// which isn't put in front.
#[inline(always)]
fn pass_argument<S: ByteSource>(
    reader: &Reader,
    digit: u8,
    unread: &mut Unread<PageEvent>,
    source: &mut S,
) -> NumText
    requires { IsArgumentAhead digit reader.now.reading (S.ready source.old) unread.old }
    ensures puts { (es : ComposerOf) → PutsText OfArgument (S.gives source.old) (S.gives source.new)
        reader.now es unread.old (with_text result.items unread.new) }
    ensures bytes { unread.new.input.charge + length result.items < unread.new.limits.bytes }
    ensures notes { S.notes source.new ≤ S.notes source.old }
    ensures failures { S.failures source.new ≡ S.failures source.old }
{
    let text = argument_text(digit, unread);
    unread.pass(source, 3);
    reader.interrupt(unread);
    unread.stays_within();
    text
}

/// The text of the argument of a digit, which is no longer than any number.
#[inline(always)]
fn argument_text(digit: u8, unread: &Unread<PageEvent>) -> NumText
    requires { length (argument_live (digit - 49) unread.now.input) ≤ 48 }
    ensures { result.items ≡ argument_live (digit - 49) unread.now.input }
{
    let mut text = NumText::new();
    text.try_extend_from_slice(unread.argument(place_of(digit)))
        .unwrap();
    text
}

/// Takes the escape of the register of this name at once, which stands in front. Returns its text,
/// which isn't put in front.
#[inline(always)]
fn pass_register<S: ByteSource>(
    reader: &Reader,
    name: ShortName,
    composer: &Composer,
    unread: &mut Unread<PageEvent>,
    source: &mut S,
) -> NumText
    requires { IsRegisterAhead name reader.now.reading (S.ready source.old) unread.old }
    ensures puts { PutsRegister (S.gives source.old) (S.gives source.new) reader.now composer.now
        unread.old (with_text result.items unread.new) }
    ensures bytes { unread.new.input.charge + length result.items < unread.new.limits.bytes }
    ensures notes { S.notes source.new ≤ S.notes source.old }
    ensures failures { S.failures source.new ≡ S.failures source.old }
{
    unread.pass(source, escape_len(name));
    reader.interrupt(unread);
    let text = reader.register_text(name, composer, unread);
    // how long it may be is known where it is lent
    let _ = text.as_slice();
    unread.stays_within();
    text
}

/// Whether names behind escapes are read at once here: where a line begins, on a text line, and
/// behind the name of a request or a body.
#[inline(always)]
pub(super) fn reads_names(reader: &Reader) -> bool
    ensures { result ≡ true → ReadsNames reader.now.reading }
{
    match reader.reading() {
        LineState::LineStart => true,
        LineState::Text(_) => true,
        LineState::Collecting(Purpose::Arguments { .. }) => true,
        LineState::Collecting(Purpose::Calling { .. }) => true,
        _ => false,
    }
}

/// Whether the limits have room for the text of any number and its end, and for reading them.
#[inline(always)]
pub(super) fn has_room(unread: &Unread<PageEvent>) -> bool
    ensures room { result ≡ true → pushed unread.now.input + 48 ≤ unread.now.limits.stack }
    ensures shallow { result ≡ true → depth unread.now.input < unread.now.limits.depth }
    ensures bytes { result ≡ true → unread.now.input.charge + 54 ≤ unread.now.limits.bytes }
{
    let limits = unread.limits();
    if (limits.stack as usize).saturating_sub(unread.pushed()) < TEXT {
        return false;
    }
    if (limits.bytes as usize).saturating_sub(unread.charge() as usize) < TAKEN {
        return false;
    }
    unread.depth() < limits.depth as usize
}

/// The escape of a register or an argument with which these bytes begin, if they do.
#[inline(always)]
fn text_in_front(bytes: &[u8]) -> Option<TextAhead>
    ensures { IfSome result (λ ahead. BeginsText bytes.now ahead) }
{
    match bytes {
        [b'\\', b'n', ..] => match register_in_front(bytes) {
            Some(name) => Some(TextAhead::Register(name)),
            None => None,
        },
        [b'\\', b'$', digit @ b'1'..=b'9', ..] => Some(TextAhead::Argument(*digit)),
        _ => None,
    }
}

/// The name of the register whose escape these bytes begin with, if they do.
#[inline(always)]
pub(super) fn register_in_front(bytes: &[u8]) -> Option<ShortName>
    ensures { IfSome result (λ name. BeginsRegister bytes.now name) }
{
    match bytes {
        [b'\\', b'n', b'(', first, second, ..] => long_name(*first, *second),
        [b'\\', b'n', first, ..] => short_name(*first),
        _ => None,
    }
}

/// A name of two bytes, if both belong to one.
#[inline(always)]
pub(super) fn long_name(first: u8, second: u8) -> Option<ShortName>
    ensures { IfSome result (λ name. NamesRegister first (Some second) name) }
{
    if !is_argument_byte(first) {
        return None;
    }
    if !is_argument_byte(second) {
        return None;
    }
    Some(ShortName {
        first,
        second: Some(second),
    })
}

/// A name of one byte, if that is neither a sign nor a parenthesis.
#[inline(always)]
pub(super) fn short_name(first: u8) -> Option<ShortName>
    ensures { IfSome result (λ name. NamesRegister first None name) }
{
    if !is_argument_byte(first) {
        return None;
    }
    if first == b'(' {
        return None;
    }
    if first == b'+' {
        return None;
    }
    if first == b'-' {
        return None;
    }
    Some(ShortName {
        first,
        second: None,
    })
}

/// How many bytes the escape of a name has.
#[inline(always)]
pub(super) fn escape_len(name: ShortName) -> usize
    ensures { result ≡ length (register_escape name) }
{
    match name.second {
        Some(_) => 5,
        None => 3,
    }
}
