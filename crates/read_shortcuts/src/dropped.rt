//! Lines that are dropped, read at once with their newlines.

ghost use Rattle.std.specs.Prelude.{◌≡◌, ◌<◌, ◌≤◌, IfSome, true};
ghost use Rattle.read_shortcuts.specs.DroppedLines.{EndsDropped, LeadsToDropped, LineBegun};
ghost use Rattle.read_shortcuts.specs.Stages.{ReadsPast};

use crate::control::take_front;
use memchr::memchr;
use read_lines::Reader;
use roff_scan::{ByteSource, Unread};
use run_model::{LineState, PageEvent};

/// Takes so many bytes that stand in front, behind which the rest of the line is dropped; and that
/// too, with its newline, if all of it stands there. Returns whether it did: a line begins then.
#[inline(never)]
pub(super) fn drop_line<S: ByteSource>(
    reader: &mut Reader,
    unread: &mut Unread<PageEvent>,
    source: &mut S,
    skipped: usize,
) -> bool
    requires { LeadsToDropped skipped reader.old.reading (S.ready source.old) unread.old }
    ensures past { ReadsPast (S.gives source.old) (S.gives source.new)
        reader.old reader.new unread.old unread.new }
    ensures begun { result ≡ true → LineBegun reader.new unread.old unread.new }
    ensures taken { unread.old.input.charge < unread.new.input.charge }
    ensures notes { S.notes source.new ≤ S.notes source.old }
    ensures failures { S.failures source.new ≡ S.failures source.old }
{
    match dropped_len(unread.front(source), skipped) {
        Some(count) => {
            unread.pass_line(source, count);
            unread.stays_within();
            reader.begin_next_line();
            true
        }
        None => {
            take_front(unread, source, skipped);
            unread.stays_within();
            reader.go_on(LineState::Dropped);
            false
        }
    }
}

/// How many of these bytes stand in front of the first newline behind the first so many, if there
/// is one.
#[inline(always)]
fn dropped_len(bytes: &[u8], skipped: usize) -> Option<usize>
    ensures { IfSome result (λ count. EndsDropped skipped bytes.now count) }
{
    if skipped > bytes.len() {
        return None;
    }
    match memchr(b'\n', bytes.split_at(skipped).1) {
        Some(count) => Some(skipped + count),
        None => None,
    }
}
