//! Comments behind the arguments of control lines, taken with the newlines behind them.

ghost use Rattle.std.specs.Prelude.{◌≡◌, ◌≤◌, MatchOption, [], false, true};
ghost use Rattle.input_model.specs.Unread.{asks_to_take};
ghost use Rattle.read_arguments.specs.Comments.{EndsComment, ReadsComment, begins_comment};
ghost use Rattle.read_arguments.specs.Comments.{opens_comment, reads_arguments};
ghost use Rattle.read_shortcuts.specs.Runs.{ready_allowed};
ghost use Rattle.run_model.specs.declared.line_state.LineState.TheVariants.{Collecting};

use memchr::memchr;
use read_lines::Reader;
use roff_scan::{ByteSource, Unread};
use run_model::{LineState, PageEvent, Purpose};

/// Takes a comment that stands in front behind the arguments of a control line, and the newline
/// that ends both, which isn't read yet: where all of it stands ready. Returns whether it did; else
/// nothing happens.
#[inline(never)]
pub fn take_comment<S: ByteSource>(
    reader: &Reader,
    unread: &mut Unread<PageEvent>,
    source: &mut S,
) -> bool
    ensures comment { result ≡ true → ReadsComment (S.gives source.old) (S.gives source.new)
        reader.now unread.old unread.new }
    ensures unchanged { result ≡ false → (unread.new ≡ unread.old) × (source.new ≡ source.old) }
    ensures whole { reads_arguments reader.now.reading ≡ true → unread.old.input.escapes ≡ []
        → asks_to_take unread.old ≡ true
        → result ≡ begins_comment (ready_allowed unread.old (S.ready source.old)) }
    ensures notes { S.notes source.new ≤ S.notes source.old }
    ensures failures { S.failures source.new ≡ S.failures source.old }
{
    if !reads_arguments(reader.reading()) {
        return false;
    }
    if unread.has_open_escape() {
        return false;
    }
    match comment_len(unread.front(source)) {
        Some(count) => {
            reader.interrupt(unread);
            unread.stays_within();
            unread.pass_line(source, count);
            true
        }
        None => false,
    }
}

/// Whether the arguments of a line are read, behind the name of a request or a body.
#[inline(always)]
fn reads_arguments(reading: LineState) -> bool
    ensures { result ≡ reads_arguments reading }
{
    match reading {
        LineState::Collecting(purpose) => purpose_reads(purpose),
        _ => false,
    }
}

/// Whether arguments are collected for this.
#[inline(always)]
fn purpose_reads(purpose: Purpose) -> bool
    ensures { result ≡ reads_arguments (Collecting purpose) }
{
    match purpose {
        Purpose::Arguments { .. } => true,
        Purpose::Calling { .. } => true,
        _ => false,
    }
}

/// How many bytes the comment has with which these begin, if they do, and the newline that ends it
/// is among them.
#[inline(always)]
fn comment_len(bytes: &[u8]) -> Option<usize>
    ensures { MatchOption result (begins_comment bytes.now ≡ false)
        (λ count. EndsComment bytes.now count) }
{
    if !opens_comment(bytes) {
        return None;
    }
    memchr(b'\n', bytes)
}

/// Whether these bytes begin with a backslash and a quote.
#[inline(always)]
fn opens_comment(bytes: &[u8]) -> bool
    ensures { result ≡ opens_comment bytes.now }
{
    matches!(bytes, [b'\\', b'"', ..])
}
