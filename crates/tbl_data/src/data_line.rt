//! A line of a table's data while it is taken, and what is told of it.

ghost use Rattle.std.specs.Prelude.{◌≡◌, false, ◌+◌, ◌-◌, ◌<◌, ◌≤◌, [], ◌∷◌, length, not};
ghost use Rattle.std.specs.Prelude.{slice_range};
ghost use Rattle.tbl_data.specs.LineTaken.{more_notes, notes_kept, surplus_kept};
ghost use Rattle.tbl_kept.specs.Joined.{ends_joined, line_at};
ghost use Rattle.tbl_kept.specs.TableText.{block_of};
ghost use Rattle.tbl_text.specs.Items.{items};
ghost use Rattle.tbl_text.specs.Measuring.{notes_from};

use input_escapes::OpenEscapes;
use memchr::memchr2;
use tbl_kept::table_notes::TableNotes;
use tbl_kept::table_text::TableText;
use tbl_options::notes::{Cause, KeptNote};
use tbl_text::measure::next_note;

/// A whole line of the data, as it lies in the table's bytes.
#[derive(Clone, Copy)]
pub(crate) struct DataLine {
    /// The byte between its fields.
    pub(crate) separator: u8,
    /// Where it begins.
    pub(crate) from: usize,
    /// Where it ends.
    pub(crate) to: usize,
    /// The number of the last line of the input that is joined in it.
    pub(crate) number: u32,
}

/// Reports what begins at a place of a whole line, by the number of its last line.
pub(crate) fn tell(
    notes: &mut TableNotes,
    text: &mut TableText,
    place: usize,
    number: u32,
    cause: Cause,
)
    requires { length notes.old.notes < notes.old.note_room }
    ensures text { text.new ≡ text.old }
    ensures notes { notes.new ≡ more_notes (record {
      line = line_at (ends_joined text.old.pending) place number;
      cause = cause;
    } ∷ []) notes.old }
{
    let line = text.line_at(place, number);
    notes.push(KeptNote { line, cause });
}

/// Reports surplus fields from a place of the table's bytes on, unless that was done: they name the
/// line of the separator in front of them.
pub(crate) fn tell_surplus(
    notes: &mut TableNotes,
    text: &mut TableText,
    line: DataLine,
    at: usize,
    had_surplus: bool,
)
    requires line { line.from ≤ at }
    requires room { length notes.old.notes < notes.old.note_room }
    ensures text { text.new ≡ text.old }
    ensures notes { notes.new ≡ more_notes (surplus_kept (not had_surplus)
        (line_at (ends_joined text.old.pending) (at - line.from - 1) line.number)) notes.old }
{
    if !had_surplus {
        let place = (at - line.from).saturating_sub(1);
        tell(notes, text, place, line.number, Cause::TooManyFields);
    }
}

/// Reports the items that aren't measured of a text of a whole line, which lies there.
pub(crate) fn tell_items(
    notes: &mut TableNotes,
    escapes: &mut OpenEscapes,
    text: &mut TableText,
    line: DataLine,
    from: usize,
    to: usize,
)
    requires line { line.from ≤ from }
    requires order { from ≤ to }
    requires within { to ≤ length (block_of text.old) }
    requires room { length notes.old.notes + (to - from) ≤ notes.old.note_room }
    ensures text { text.new ≡ text.old }
    ensures notes { notes.new
        ≡ more_notes (notes_kept (ends_joined text.old.pending) line.number (from - line.from)
        (notes_from 0 (items (slice_range (block_of text.old) from to)))) notes.old }
    ensures few { length notes.new.notes ≤ length notes.old.notes + (to - from) }
    ensures room { escapes.new.room ≡ escapes.old.room }
{
    if !may_tell(&text.block()[from..to]) {
        return;
    }
    let mut at = 0;
    while let Some(note) = next_note(escapes, &text.block()[from..to], &mut at) {
        let place = from - line.from + note.place;
        tell(
            notes,
            text,
            place,
            line.number,
            Cause::NotMeasured(note.byte),
        );
    }
}

/// Whether a text may have an item that isn't measured: it has a backslash or a tab.
fn may_tell(text: &[u8]) -> bool
    ensures { result ≡ false → notes_from 0 (items text.now) ≡ [] }
{
    memchr2(b'\\', b'\t', text).is_some()
}
