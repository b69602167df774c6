//! Conditions behind the front of a control line, read at once with it where they ask nothing.

ghost use Rattle.std.specs.Prelude.{◌≡◌, ◌<◌, ◌≤◌, true, false, IfSome};
ghost use Rattle.input_model.specs.Input.{is_none_ahead};
ghost use Rattle.input_model.specs.Unread.{IsWithin};
ghost use Rattle.read_names.specs.NamesRead.{input_begun};
ghost use Rattle.run_model.specs.declared.line_state.LineState.TheVariants.{Deciding};
ghost use Rattle.read_shortcuts.specs.Conditions.{DecidesAtOnce};
ghost use Rattle.read_shortcuts.specs.Conditions.{SeesBehind, StandsBehind};
ghost use Rattle.read_shortcuts.specs.ControlFronts.{StandsName, is_past, is_read};
ghost use Rattle.read_shortcuts.specs.Runs.{IsRun};
ghost use Rattle.read_shortcuts.specs.Stages.{ReadsPast};
ghost use Rattle.read_shortcuts.specs.declared.conditions.BehindName.TheVariants.{Constant};
ghost use Rattle.read_shortcuts.specs.declared.control.ControlRead.TheVariants.{Condition, Decided};
ghost use Rattle.read_shortcuts.specs.declared.control.ControlRead.TheVariants.{Dropped, HeldToEnd};
ghost use Rattle.read_shortcuts.specs.declared.control.ControlRead.TheVariants.{Held, HeldForCall};
ghost use Rattle.roff_scan.specs.declared.unread.lines.BehindHeld.{BehindHeld};
ghost use Rattle.roff_scan.specs.declared.run_kind.RunKind.TheVariants.{Condition as ConditionRun};

use crate::answered::decide_register;
use crate::compared::decide_texts;
use crate::control::{ControlFront, ControlRead, take_front};
use read_lines::Reader;
use read_names::begin_deciding;
use roff_scan::{ByteSource, Unread};
use run_model::{LineState, PageEvent};
use run_state::Composer;

/// What stands behind the name of a request that asks a condition.
#[derive(Clone, Copy)]
enum BehindName {
    /// A condition that asks nothing, between blanks: `1` or `0`, by whether it is so.
    Constant(bool),
    /// A blank, and whether the escape of a register may stand behind it, and more behind that.
    Blank { asks: bool },
    /// A blank, and a text between delimiters that an argument may begin.
    Texts,
    /// Anything else, or nothing that is seen.
    Other,
}

/// Takes the name of a request that asks a condition, with its dot or apostrophe, and a blank
/// behind it; or a condition too that asks nothing, or asks for a register, and decides.
#[inline(never)]
pub(super) fn read_condition<S: ByteSource>(
    reader: &mut Reader,
    keeps: bool,
    front: ControlFront,
    composer: &Composer,
    unread: &mut Unread<PageEvent>,
    source: &mut S,
) -> ControlRead
    requires { StandsName front (Deciding keeps) reader.old.reading
        (S.ready source.old) unread.old }
    ensures past { is_past result ≡ true → ReadsPast (S.gives source.old) (S.gives source.new)
        reader.old reader.new unread.old unread.new }
    ensures condition { result ≡ Condition → IsRun ConditionRun reader.new.reading
        unread.new.input.escapes }
    ensures decides { result ≡ Decided → DecidesAtOnce composer.now (S.gives source.old)
        (S.gives source.new) reader.old reader.new unread.old unread.new }
    ensures line { result ≡ HeldToEnd → ⊥ }
    ensures held { (behind : BehindHeld) → result ≡ Held behind → ⊥ }
    ensures call { (behind : BehindHeld) → result ≡ HeldForCall behind → ⊥ }
    ensures dropped { result ≡ Dropped → ⊥ }
    ensures read { is_read result ≡ true }
    ensures taken { unread.old.input.charge < unread.new.input.charge }
    ensures notes { S.notes source.new ≤ S.notes source.old }
    ensures failures { S.failures source.new ≡ S.failures source.old }
{
    let behind = behind_name(unread.front(source));
    match decided_at_once(keeps, behind, unread) {
        Some(so) => {
            unread.stays_within();
            take_front(unread, source, 6);
            unread.stays_within();
            reader.go_on(LineState::branch(so));
            ControlRead::Decided
        }
        None => {
            if decide_asking(reader, keeps, front, behind, composer, unread, source) {
                return ControlRead::Decided;
            }
            read_undecided(reader, keeps, front, behind, unread, source)
        }
    }
}

/// What [`decide_register`] does, where a register may be asked for behind the name, or
/// [`decide_texts`], where an argument may be compared. Returns whether it decided.
#[inline(always)]
fn decide_asking<S: ByteSource>(
    reader: &mut Reader,
    keeps: bool,
    front: ControlFront,
    behind: BehindName,
    composer: &Composer,
    unread: &mut Unread<PageEvent>,
    source: &mut S,
) -> bool
    requires { StandsName front (Deciding keeps) reader.old.reading
        (S.ready source.old) unread.old }
    ensures decides { result ≡ true → DecidesAtOnce composer.now (S.gives source.old)
        (S.gives source.new) reader.old reader.new unread.old unread.new }
    ensures taken { result ≡ true → unread.old.input.charge < unread.new.input.charge }
    ensures unchanged { result ≡ false
        → (reader.new ≡ reader.old) × (unread.new ≡ unread.old) × (source.new ≡ source.old) }
    ensures notes { S.notes source.new ≤ S.notes source.old }
    ensures failures { S.failures source.new ≡ S.failures source.old }
{
    match behind {
        BehindName::Blank { asks: true } => {
            decide_register(reader, keeps, front, composer, unread, source)
        }
        BehindName::Texts => decide_texts(reader, keeps, front, unread, source),
        _ => false,
    }
}

/// Takes the name of a request that asks a condition, with its dot or apostrophe, and a blank
/// behind it, if this says that one is there. The condition doesn't decide at once: it is read
/// next.
#[inline(always)]
fn read_undecided<S: ByteSource>(
    reader: &mut Reader,
    keeps: bool,
    front: ControlFront,
    behind: BehindName,
    unread: &mut Unread<PageEvent>,
    source: &mut S,
) -> ControlRead
    requires named { StandsName front (Deciding keeps) reader.old.reading
        (S.ready source.old) unread.old }
    requires behind { SeesBehind behind (S.ready source.old) unread.old }
    ensures condition { result ≡ Condition }
    ensures past { ReadsPast (S.gives source.old) (S.gives source.new)
        reader.old reader.new unread.old unread.new }
    ensures run { IsRun ConditionRun reader.new.reading unread.new.input.escapes }
    ensures taken { unread.old.input.charge < unread.new.input.charge }
    ensures notes { S.notes source.new ≤ S.notes source.old }
    ensures failures { S.failures source.new ≡ S.failures source.old }
{
    match behind {
        BehindName::Blank { .. } => {
            take_front(unread, source, 4);
            begin_condition(reader, keeps, unread)
        }
        BehindName::Texts => {
            take_front(unread, source, 4);
            begin_condition(reader, keeps, unread)
        }
        _ => {
            take_front(unread, source, 3);
            begin_condition(reader, keeps, unread)
        }
    }
}

/// A condition begins.
#[inline(always)]
fn begin_condition(reader: &mut Reader, keeps: bool, unread: &mut Unread<PageEvent>) -> ControlRead
    ensures condition { result ≡ Condition }
    ensures reads { reader.new ≡ record reader.old { reading = Deciding keeps } }
    ensures begun { unread.new
        ≡ record unread.old { input = input_begun (Deciding keeps) unread.old.input } }
    ensures within { IsWithin unread.new }
{
    let reading = LineState::Deciding { keeps };
    begin_deciding(reading, unread);
    unread.stays_within();
    reader.go_on(reading);
    ControlRead::Condition
}

/// Whether a condition is so that asks nothing, unless its result is kept, if it stands ahead of
/// the source.
#[inline(always)]
fn decided_at_once(keeps: bool, behind: BehindName, unread: &Unread<PageEvent>) -> Option<bool>
    ensures deciding { IfSome result (λ so. keeps ≡ false) }
    ensures constant { IfSome result (λ so. behind ≡ Constant so) }
    ensures ahead { IfSome result (λ so. is_none_ahead unread.now.input.ahead ≡ false) }
{
    match behind {
        BehindName::Constant(so) => {
            if keeps || unread.is_none_ahead() {
                None
            } else {
                Some(so)
            }
        }
        BehindName::Blank { .. } => None,
        BehindName::Texts => None,
        BehindName::Other => None,
    }
}

/// What stands behind the first three of these bytes.
#[inline(always)]
fn behind_name(bytes: &[u8]) -> BehindName
    ensures { StandsBehind bytes.now result }
{
    match bytes {
        [_, _, _, b' ', b'0', b' ', ..] => BehindName::Constant(false),
        [_, _, _, b' ', b'1', b' ', ..] => BehindName::Constant(true),
        [_, _, _, b' ', b'\\', b'n', ..] => BehindName::Blank { asks: true },
        [_, _, _, b' ', b'\'' | b'"', b'\\', b'$', ..] => BehindName::Texts,
        [_, _, _, b' ', b'!', b'\'' | b'"', b'\\', b'$', ..] => BehindName::Texts,
        [_, _, _, b' ', ..] => BehindName::Blank { asks: false },
        _ => BehindName::Other,
    }
}
