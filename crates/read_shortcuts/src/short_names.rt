//! Names of one byte behind the dot or apostrophe of a control line, read at once with the blank or
//! the newline that ends them.

ghost use Rattle.std.specs.Prelude.{◌≡◌, ◌∷◌, [], None, true, false};
ghost use Rattle.input_model.specs.Unread.{asks_to_take};
ghost use Rattle.read_lines.specs.Clauses.{ComposerOf, due};
ghost use Rattle.read_shortcuts.specs.ControlFronts.{BeginsControl, StandsReady, control_byte};
ghost use Rattle.read_shortcuts.specs.ControlFronts.{ends_short, is_read, reads_short};
ghost use Rattle.read_shortcuts.specs.ControlReads.{ReadsControl};
ghost use Rattle.read_shortcuts.specs.Runs.{ready_allowed};
ghost use Rattle.read_shortcuts.specs.ShortNames.{HoldsBlank, StandsShort};

use crate::control::{
    ControlFront, ControlRead, belongs_to_name, control_front, dropped_to, held_for_call, held_to,
};
use crate::dropped::drop_line;
use read_lines::{CALL_ARGUMENTS, Reader};
use read_names::{behind_called, called_by};
use roff_num::ShortName;
use roff_scan::{ByteSource, Unread};
use run_model::{LineState, PageEvent, Purpose};

/// Reads at once the front of a control line whose name has one byte, if it stands in front: up to
/// the newline behind the name, which is taken too; or with a blank behind it, where a request's
/// arguments or a body's are read then, or the line is dropped, and what stands behind the blank.
/// Else nothing happens. Returns what was read.
#[inline(always)]
pub fn read_short_front<S: ByteSource>(
    reader: &mut Reader,
    unread: &mut Unread<PageEvent>,
    source: &mut S,
) -> ControlRead
    requires begins { BeginsControl reader.old.reading }
    requires none_due { due reader.old.reading ≡ None }
    requires none_half { unread.old.input.escapes ≡ [] }
    ensures read { (es : ComposerOf) → ReadsControl S.ByteSource source.old source.new es
        reader.old reader.new unread.old unread.new result }
    ensures whole { asks_to_take unread.old ≡ true
        → reads_short (ready_allowed unread.old (S.ready source.old)) ≡ true
        → is_read result ≡ true }
{
    match control_front(unread.front(source)) {
        Some(front) => read_short(reader, front, unread, source),
        None => ControlRead::Nothing,
    }
}

/// Reads at once this front of a control line, if its name has one byte. Else nothing happens.
/// Returns what was read.
#[inline(always)]
fn read_short<S: ByteSource>(
    reader: &mut Reader,
    front: ControlFront,
    unread: &mut Unread<PageEvent>,
    source: &mut S,
) -> ControlRead
    requires begins { BeginsControl reader.old.reading }
    requires none_due { due reader.old.reading ≡ None }
    requires none_half { unread.old.input.escapes ≡ [] }
    requires ready { StandsReady (control_byte front.breaks ∷ front.first ∷ front.second ∷ [])
        (S.ready source.old) unread.old }
    ensures read { (es : ComposerOf) → ReadsControl S.ByteSource source.old source.new es
        reader.old reader.new unread.old unread.new result }
    ensures whole { ends_short front.first front.second ≡ true → is_read result ≡ true }
{
    if !belongs_to_name(front.first) {
        return ControlRead::Nothing;
    }
    if front.second == b'\n' {
        unread.stays_within();
        unread.pass_line(source, 2);
        reader.go_on(LineState::Name {
            breaks: front.breaks,
            first: front.first,
        });
        return ControlRead::HeldToEnd;
    }
    if front.second != b' ' {
        return ControlRead::Nothing;
    }
    let name = ShortName {
        first: front.first,
        second: None,
    };
    match behind_called(front.breaks, called_by(name, unread)) {
        None => ControlRead::Nothing,
        Some(reading) => read_behind_blank(reader, reading, unread, source),
    }
}

/// Takes a name with its dot or apostrophe and the blank behind it, where this is read behind the
/// name; then bytes that are held in the line's arguments, and the newline behind them.
#[inline(always)]
fn read_behind_blank<S: ByteSource>(
    reader: &mut Reader,
    reading: LineState,
    unread: &mut Unread<PageEvent>,
    source: &mut S,
) -> ControlRead
    requires { StandsShort reading reader.old.reading (S.ready source.old) unread.old }
    ensures { (es : ComposerOf) → ReadsControl S.ByteSource source.old source.new es
        reader.old reader.new unread.old unread.new result }
{
    match reading {
        LineState::Collecting(Purpose::Arguments { .. }) => {
            if !hold_blank(None, unread) {
                return ControlRead::Nothing;
            }
            let behind = unread.hold_line(source, 3);
            unread.stays_within();
            reader.go_on(reading);
            held_to(behind)
        }
        LineState::Collecting(Purpose::Calling { .. }) => {
            if !hold_blank(Some(CALL_ARGUMENTS - 1), unread) {
                return ControlRead::Nothing;
            }
            let behind = unread.hold_call(source, 3, CALL_ARGUMENTS - 1);
            unread.stays_within();
            reader.go_on(reading);
            held_for_call(behind)
        }
        LineState::Dropped => dropped_to(drop_line(reader, unread, source, 3)),
        _ => ControlRead::Nothing,
    }
}

/// Holds a blank in the arguments of the line, where there is a bound as long as fewer than so many
/// are whole. Returns whether it did; else nothing happens.
#[inline(always)]
fn hold_blank(most: Option<usize>, unread: &mut Unread<PageEvent>) -> bool
    ensures held { result ≡ true → HoldsBlank most unread.old unread.new }
    ensures unchanged { result ≡ false → unread.new ≡ unread.old }
{
    if unread.pushed() >= unread.limits().stack as usize {
        return false;
    }
    unread.hold_bytes(&[b' '], most) == 1
}
