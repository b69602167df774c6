//! Registers that are stepped, read at once where their escapes stand whole in front.

ghost use Rattle.std.specs.Prelude.{◌≡◌, ◌≤◌, ◌<◌, ◌+◌, true, false, IfSome, None, Some, length};
ghost use Rattle.read_shortcuts.specs.Registers.{with_text};
ghost use Rattle.read_shortcuts.specs.Stepped.{IsStepAhead, StepsText};
ghost use Rattle.read_shortcuts.specs.SteppedNames.{BeginsStep, sign_of, step_escape};
ghost use Rattle.input_model.specs.Input.{depth, pushed};

use crate::registers::{TEXT, has_room, long_name, short_name};
use read_lines::Reader;
use roff_num::{Direction, NumText, ShortName};
use roff_scan::{ByteSource, Unread};
use run_model::{LineState, PageEvent};
use run_state::Composer;

/// The most bytes that are taken of a register that is stepped: its escape, its text, and the end
/// of that.
const TAKEN: usize = 6 + TEXT + 1;

/// The escape of a register that is stepped: which way, and its name.
#[derive(Clone, Copy)]
struct Stepped {
    direction: Direction,
    name: ShortName,
}

/// Takes the escape of a register at once that stands whole in front on a text line and steps it,
/// if the limits have room for any, nothing is said of the step, and the page gets no number by it.
/// Returns the register's text then, which isn't put in front; else nothing happens.
#[inline(never)]
pub fn step_register<S: ByteSource>(
    reader: &mut Reader,
    composer: &Composer,
    unread: &mut Unread<PageEvent>,
    source: &mut S,
) -> Option<NumText>
    ensures steps { IfSome result (λ text. StepsText (S.gives source.old) (S.gives source.new)
        reader.old reader.new composer.now unread.old (with_text text.items unread.new)) }
    ensures bytes { IfSome result (λ text.
        unread.new.input.charge + length text.items < unread.new.limits.bytes) }
    ensures unchanged { result ≡ None
        → (reader.new ≡ reader.old) × (unread.new ≡ unread.old) × (source.new ≡ source.old) }
    ensures notes { S.notes source.new ≤ S.notes source.old }
    ensures failures { S.failures source.new ≡ S.failures source.old }
{
    match step_ahead(reader, unread, source) {
        Some(stepped) => step_over(reader, stepped, composer, unread, source),
        None => None,
    }
}

/// Takes this escape of a register at once, which stands in front on a text line, and steps it, if
/// nothing is said of the step, and the page gets no number by it. Returns the register's text
/// then, which isn't put in front; else nothing happens.
#[inline(always)]
fn step_over<S: ByteSource>(
    reader: &mut Reader,
    stepped: Stepped,
    composer: &Composer,
    unread: &mut Unread<PageEvent>,
    source: &mut S,
) -> Option<NumText>
    requires { IsStepAhead stepped.direction stepped.name reader.old.reading
        (S.ready source.old) unread.old }
    ensures steps { IfSome result (λ text. StepsText (S.gives source.old) (S.gives source.new)
        reader.old reader.new composer.now unread.old (with_text text.items unread.new)) }
    ensures bytes { IfSome result (λ text.
        unread.new.input.charge + length text.items < unread.new.limits.bytes) }
    ensures unchanged { result ≡ None
        → (reader.new ≡ reader.old) × (unread.new ≡ unread.old) × (source.new ≡ source.old) }
    ensures notes { S.notes source.new ≤ S.notes source.old }
    ensures failures { S.failures source.new ≡ S.failures source.old }
{
    if !reader.step_quietly(stepped.direction, stepped.name) {
        return None;
    }
    unread.pass(source, step_len(stepped));
    let text = reader.register_text(stepped.name, composer, unread);
    // how long it may be is known where it is lent
    let _ = text.as_slice();
    unread.stays_within();
    Some(text)
}

/// The register that is stepped whose escape stands whole in front on a text line, where nothing is
/// half read, if the limits have room for any.
#[inline(always)]
fn step_ahead<S: ByteSource>(
    reader: &Reader,
    unread: &Unread<PageEvent>,
    source: &S,
) -> Option<Stepped>
    ensures { IfSome result (λ stepped. IsStepAhead stepped.direction stepped.name
        reader.now.reading (S.ready source.now) unread.now) }
{
    if unread.has_open_escape() {
        return None;
    }
    if !has_room_to_step(unread) {
        return None;
    }
    match reader.reading() {
        LineState::Text(_) => step_in_front(unread.front(source)),
        _ => None,
    }
}

/// Whether the limits have room for the text of any number and its end, and for reading them behind
/// an escape that steps.
#[inline(always)]
fn has_room_to_step(unread: &Unread<PageEvent>) -> bool
    ensures room { result ≡ true → pushed unread.now.input + 48 ≤ unread.now.limits.stack }
    ensures shallow { result ≡ true → depth unread.now.input < unread.now.limits.depth }
    ensures bytes { result ≡ true → unread.now.input.charge + 55 ≤ unread.now.limits.bytes }
{
    let limits = unread.limits();
    if (limits.bytes as usize).saturating_sub(unread.charge() as usize) < TAKEN {
        return false;
    }
    has_room(unread)
}

/// The register that is stepped whose escape these bytes begin with, if they do.
#[inline(always)]
fn step_in_front(bytes: &[u8]) -> Option<Stepped>
    ensures { IfSome result (λ stepped.
        BeginsStep bytes.now stepped.direction stepped.name) }
{
    match bytes {
        [b'\\', b'n', sign, b'(', first, second, ..] => {
            stepped_by(*sign, long_name(*first, *second))
        }
        [b'\\', b'n', sign, first, ..] => stepped_by(*sign, short_name(*first)),
        _ => None,
    }
}

/// The register of a name, if there is one, which a sign steps, if it is one.
#[inline(always)]
fn stepped_by(sign: u8, name: Option<ShortName>) -> Option<Stepped>
    ensures signed { IfSome result (λ stepped. sign ≡ sign_of stepped.direction) }
    ensures named { IfSome result (λ stepped. name ≡ Some stepped.name) }
{
    match (sign, name) {
        (b'+', Some(name)) => Some(Stepped {
            direction: Direction::Up,
            name,
        }),
        (b'-', Some(name)) => Some(Stepped {
            direction: Direction::Down,
            name,
        }),
        _ => None,
    }
}

/// How many bytes such an escape has.
#[inline(always)]
fn step_len(stepped: Stepped) -> usize
    ensures { result ≡ length (step_escape stepped.direction stepped.name) }
{
    match stepped.name.second {
        Some(_) => 6,
        None => 4,
    }
}
