//! The front of a control line, read at once where it stands ready.

ghost use Rattle.std.specs.Prelude.{◌≡◌, ◌≤◌, ◌∷◌, ℕ, Bool, [], None, true, false, IfSome};
ghost use Rattle.input_model.specs.Unread.{asks_to_take};
ghost use Rattle.run_model.specs.Reading.ControlLines.{BelongsToName};
ghost use Rattle.read_lines.specs.Clauses.{due};
ghost use Rattle.read_shortcuts.specs.ControlFronts.{BeginsControl, Fronts, StandsReady};
ghost use Rattle.read_shortcuts.specs.ControlFronts.{control_byte, HoldsArguments, StandsName};
ghost use Rattle.read_shortcuts.specs.ControlFronts.{TakesAtBeginning, is_past, is_read};
ghost use Rattle.read_shortcuts.specs.ControlFronts.{read_dropped, read_for_call, read_to};
ghost use Rattle.read_shortcuts.specs.declared.control.ControlRead.TheVariants.{HeldToEnd, Short};
ghost use Rattle.read_shortcuts.specs.Runs.{ready_allowed};
ghost use Rattle.roff_scan.specs.Unread.Lines.{StandsNewline, begins_with_newline};
ghost use Rattle.read_shortcuts.specs.ControlFronts.{begins_line, ends_short, is_front_read};
ghost use Rattle.read_shortcuts.specs.ControlFronts.{prints_in_name, reads_front, reads_short};
ghost use Rattle.read_shortcuts.specs.ControlReads.{ReadsControl};
ghost use Rattle.read_shortcuts.specs.Stages.{ReadsLine};
ghost use Rattle.roff_scan.specs.Unread.Calls.{IsFront, NoNewline, PassesFront, front_bytes};

use crate::conditions::read_condition;
use crate::dropped::drop_line;
use crate::other_branch::take_other;
use read_lines::{CALL_ARGUMENTS, Reader};
use read_names::{begin_deciding, behind_called, called_by};
use roff_num::ShortName;
use roff_scan::{BehindHeld, ByteSource, Unread, standing_at};
use run_model::{LineState, PageEvent, Purpose};
use run_state::Composer;

/// The first three bytes of a control line: the dot or apostrophe, by whether requests break behind
/// it, and two more; and whether a newline is next behind them.
#[derive(Clone, Copy)]
pub(super) struct ControlFront {
    pub(super) breaks: bool,
    pub(super) first: u8,
    pub(super) second: u8,
    pub(super) ends: bool,
}

/// What was read of a control line.
#[derive(Clone, Copy)]
pub enum ControlRead {
    /// Nothing.
    Nothing,
    /// Nothing, and the escape of a string, a register or an argument may stand in front.
    Escape,
    /// Nothing, and the name may have one byte: [`read_short_front`](crate::read_short_front) reads
    /// such fronts.
    Short,
    /// The bytes up to its name's end, or a dropped line's beginning.
    Front,
    /// All of a dropped line, with its newline: a line begins.
    Dropped,
    /// The bytes up to its name's end, and a blank behind it, if one is there: a condition is next.
    Condition,
    /// A condition too, and it decided; or the other branch of one: a branch begins, or is skipped.
    Decided,
    /// The bytes up to the name's end of a request, and bytes behind it that are held in its
    /// arguments: what stands behind them.
    Held(BehindHeld),
    /// The bytes up to the name's end of a line that calls a body, and bytes behind it that are
    /// held in its arguments: what stands behind them.
    HeldForCall(BehindHeld),
    /// The bytes up to its name's end, and those behind it up to its newline, which are held in its
    /// arguments. The newline was taken too, and isn't read yet.
    HeldToEnd,
}

/// Whether a control line may begin where nothing is half read: where a line or a branch begins.
#[inline(always)]
#[tactic(auto, using(crate::proofs::ControlFronts::begins_at_brace, crate::proofs::ControlFronts::begins_at_branch, crate::proofs::ControlFronts::begins_at_start))]
pub fn begins_control_line(reader: &Reader) -> bool
    ensures begins { result ≡ true → BeginsControl reader.now.reading }
    ensures none_due { result ≡ true → due reader.now.reading ≡ None }
    ensures takes { result ≡ true → TakesAtBeginning reader.now.reading }
{
    match reader.reading() {
        LineState::LineStart => true,
        LineState::Branch => true,
        LineState::Braced => true,
        _ => false,
    }
}

/// Reads at once the front of a control line, if it stands in front: the dot or apostrophe and a
/// name of two bytes, or a backslash, behind which the line is dropped. Else nothing happens.
/// Returns what was read, or that the name may have one byte.
#[inline(always)]
pub fn read_control_front<S: ByteSource>(
    reader: &mut Reader,
    composer: &Composer,
    unread: &mut Unread<PageEvent>,
    source: &mut S,
) -> ControlRead
    requires begins { BeginsControl reader.old.reading }
    requires none_due { due reader.old.reading ≡ None }
    requires none_half { unread.old.input.escapes ≡ [] }
    ensures read { ReadsControl S.ByteSource source.old source.new composer.now
        reader.old reader.new unread.old unread.new result }
    ensures whole { asks_to_take unread.old ≡ true
        → reads_front (ready_allowed unread.old (S.ready source.old)) ≡ true
        → is_read result ≡ true }
    ensures short { asks_to_take unread.old ≡ true
        → reads_short (ready_allowed unread.old (S.ready source.old)) ≡ true
        → result ≡ Short }
{
    let bytes = unread.front(source);
    match control_front(bytes) {
        Some(front) => read_control(reader, front, composer, unread, source),
        None => unread_front(bytes),
    }
}

/// Reads at once this front of a control line: the dot or apostrophe and a name of two bytes, or a
/// backslash, behind which the line is dropped. Else nothing happens. Returns what was read.
#[inline(always)]
fn read_control<S: ByteSource>(
    reader: &mut Reader,
    front: ControlFront,
    composer: &Composer,
    unread: &mut Unread<PageEvent>,
    source: &mut S,
) -> ControlRead
    requires begins { BeginsControl reader.old.reading }
    requires none_due { due reader.old.reading ≡ None }
    requires none_half { unread.old.input.escapes ≡ [] }
    requires ready { StandsReady (control_byte front.breaks ∷ front.first ∷ front.second ∷ [])
        (S.ready source.old) unread.old }
    requires ends { front.ends ≡ true → StandsNewline 3 (S.ready source.old) unread.old }
    ensures read { ReadsControl S.ByteSource source.old source.new composer.now
        reader.old reader.new unread.old unread.new result }
    ensures whole { is_front_read front.first front.second ≡ true
        → is_read result ≡ true }
    ensures short { ends_short front.first front.second ≡ true → result ≡ Short }
{
    if front.first == b'\\' {
        return dropped_to(drop_line(reader, unread, source, 2));
    }
    if !belongs_to_name(front.first) {
        return ControlRead::Nothing;
    }
    if !belongs_to_name(front.second) {
        return ControlRead::Short;
    }
    let name = ShortName {
        first: front.first,
        second: Some(front.second),
    };
    match behind_called(front.breaks, called_by(name, unread)) {
        None => {
            take_other(reader, front, unread, source);
            ControlRead::Decided
        }
        Some(reading) => read_behind_name(reader, front, reading, composer, unread, source),
    }
}

/// That nothing was read, with which bytes in front.
#[inline(always)]
fn unread_front(bytes: &[u8]) -> ControlRead
    ensures unread { is_read result ≡ false }
    ensures past { is_past result ≡ false }
{
    match standing_at(bytes, 0) {
        BehindHeld::Named => ControlRead::Escape,
        _ => ControlRead::Nothing,
    }
}

/// Takes so many bytes that stand in front. A function of its own, as what it does in place is then
/// put into place too.
#[inline(never)]
pub(super) fn take_front<S: ByteSource>(
    unread: &mut Unread<PageEvent>,
    source: &mut S,
    count: usize,
)
    requires front { IsFront count (S.ready source.old) unread.old }
    requires plain { NoNewline (front_bytes count (S.ready source.old) unread.old) }
    ensures passes { PassesFront (S.gives source.old) (S.gives source.new)
        (front_bytes count (S.ready source.old) unread.old) unread.old unread.new }
    ensures notes { S.notes source.new ≤ S.notes source.old }
    ensures failures { S.failures source.new ≡ S.failures source.old }
{
    unread.pass(source, count);
}

/// Takes a name with its dot or apostrophe, behind which this is read; then, where a request or a
/// body is named, bytes that are held in the line's arguments, and the newline behind them.
#[inline(always)]
fn read_behind_name<S: ByteSource>(
    reader: &mut Reader,
    front: ControlFront,
    reading: LineState,
    composer: &Composer,
    unread: &mut Unread<PageEvent>,
    source: &mut S,
) -> ControlRead
    requires { StandsName front reading reader.old.reading (S.ready source.old) unread.old }
    ensures read { ReadsControl S.ByteSource source.old source.new composer.now
        reader.old reader.new unread.old unread.new result }
    ensures some { is_read result ≡ true }
{
    match reading {
        LineState::Collecting(Purpose::Arguments { .. }) => {
            if front.ends {
                return read_ended(reader, front, reading, unread, source);
            }
            let behind = unread.hold_line(source, 3);
            unread.stays_within();
            reader.go_on(reading);
            held_to(behind)
        }
        LineState::Collecting(Purpose::Calling { .. }) => {
            if front.ends {
                return read_ended(reader, front, reading, unread, source);
            }
            let behind = unread.hold_call(source, 3, CALL_ARGUMENTS - 1);
            unread.stays_within();
            reader.go_on(reading);
            held_for_call(behind)
        }
        LineState::Deciding { keeps } => {
            read_condition(reader, keeps, front, composer, unread, source)
        }
        LineState::Dropped => dropped_to(drop_line(reader, unread, source, 3)),
        _ => {
            take_front(unread, source, 3);
            begin_deciding(reading, unread);
            unread.stays_within();
            reader.go_on(reading);
            ControlRead::Front
        }
    }
}

/// Takes a name with its dot or apostrophe, behind which arguments are read, and the newline that
/// is next. Nothing is held. Returns that the newline was taken.
#[inline(always)]
fn read_ended<S: ByteSource>(
    reader: &mut Reader,
    front: ControlFront,
    reading: LineState,
    unread: &mut Unread<PageEvent>,
    source: &mut S,
) -> ControlRead
    requires named { StandsName front reading reader.old.reading (S.ready source.old) unread.old }
    requires ends { front.ends ≡ true }
    requires holds { HoldsArguments reading }
    ensures ended { result ≡ HeldToEnd }
    ensures line { ReadsLine (S.gives source.old) (S.gives source.new)
        reader.old reader.new unread.old unread.new }
    ensures notes { S.notes source.new ≤ S.notes source.old }
    ensures failures { S.failures source.new ≡ S.failures source.old }
{
    unread.stays_within();
    unread.pass_line(source, 3);
    reader.go_on(reading);
    ControlRead::HeldToEnd
}

/// What was read of a control line, by what stands behind the bytes that were held.
#[inline(always)]
pub(super) fn held_to(behind: BehindHeld) -> ControlRead
    ensures { result ≡ read_to behind }
{
    match behind {
        BehindHeld::Newline => ControlRead::HeldToEnd,
        _ => ControlRead::Held(behind),
    }
}

/// What was read of a line that calls a body, by what stands behind the bytes that were held.
#[inline(always)]
pub(super) fn held_for_call(behind: BehindHeld) -> ControlRead
    ensures { result ≡ read_for_call behind }
{
    match behind {
        BehindHeld::Newline => ControlRead::HeldToEnd,
        _ => ControlRead::HeldForCall(behind),
    }
}

/// What was read of a line that is dropped, by whether its newline was taken.
#[inline(always)]
pub(super) fn dropped_to(is_ended: bool) -> ControlRead
    ensures { result ≡ read_dropped is_ended }
{
    if is_ended {
        ControlRead::Dropped
    } else {
        ControlRead::Front
    }
}

/// The first three bytes of a control line, if these bytes begin with such.
#[inline(always)]
pub(super) fn control_front(bytes: &[u8]) -> Option<ControlFront>
    ensures fronts { IfSome result (λ front. Fronts bytes.now front) }
    ensures none { (of : ℕ → ℕ → Bool) → result ≡ None → begins_line of bytes.now ≡ false }
{
    match bytes {
        [b'.', first, second, rest @ ..] => Some(ControlFront {
            breaks: true,
            first: *first,
            second: *second,
            ends: is_newline_next(rest),
        }),
        [b'\'', first, second, rest @ ..] => Some(ControlFront {
            breaks: false,
            first: *first,
            second: *second,
            ends: is_newline_next(rest),
        }),
        _ => None,
    }
}

/// Whether a newline is the first of these bytes.
#[inline(always)]
fn is_newline_next(bytes: &[u8]) -> bool
    ensures { result ≡ begins_with_newline bytes.now }
{
    matches!(bytes, [b'\n', ..])
}

/// Whether a byte belongs to a name behind a dot or apostrophe. Of a byte that prints nothing it
/// may say no, though it does.
pub(super) fn belongs_to_name(byte: u8) -> bool
    ensures belongs { result ≡ true → BelongsToName byte }
    ensures prints { result ≡ prints_in_name byte }
{
    byte > b' ' && byte != 127 && byte != b'\\'
}
