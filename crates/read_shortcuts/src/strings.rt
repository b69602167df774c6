//! The name of a string, and the beginning of its text, read at once where they stand ready.

ghost use Rattle.std.specs.Prelude.{◌≡◌, ◌≤◌, [], Some, false, true};
ghost use Rattle.run_model.specs.declared.line_state.LineState.TheVariants.{Collecting};
ghost use Rattle.run_model.specs.declared.purpose.Purpose.TheVariants.{StringName as InName};
ghost use Rattle.run_model.specs.declared.purpose.Purpose.TheVariants.{StringText as InText};
ghost use Rattle.read_shortcuts.specs.Runs.{TakesReady, ready_allowed, reads_apart};
ghost use Rattle.read_shortcuts.specs.Stages.{ReadsPast};
ghost use Rattle.read_shortcuts.specs.StringFronts.{BeginsKept, bytes_of_front};
ghost use Rattle.read_shortcuts.specs.StringFronts.{string_front, text_front};
ghost use Rattle.read_shortcuts.specs.declared.strings.TextFront.TheVariants.{Kept as KeptFront};

use super::control::take_front;
use read_lines::Reader;
use roff_num::ShortName;
use roff_scan::{ByteSource, RunKind, Unread};
use run_model::{LineState, PageEvent, Purpose};

/// Whether bytes in front may be taken together that are no run: of a string's name, of the
/// beginning of its text, of the lines of a definition, or of a title.
#[inline(always)]
pub fn begins_apart(reader: &Reader) -> bool
    ensures { result ≡ reads_apart reader.now.reading }
{
    match reader.reading() {
        LineState::Collecting(Purpose::StringName { .. }) => true,
        LineState::Collecting(Purpose::StringText { .. }) => true,
        LineState::Collecting(Purpose::Defining { .. }) => true,
        LineState::Title { .. } => true,
        _ => false,
    }
}

/// Takes bytes of a string's name together that stand in front, up to one that may end it.
#[inline(always)]
pub fn take_string_name<S: ByteSource>(
    reader: &Reader,
    unread: &mut Unread<PageEvent>,
    source: &mut S,
)
    ensures past { ReadsPast (S.gives source.old) (S.gives source.new)
        reader.now reader.now unread.old unread.new }
    ensures notes { S.notes source.new ≤ S.notes source.old }
    ensures failures { S.failures source.new ≡ S.failures source.old }
{
    match reader.reading() {
        LineState::Collecting(Purpose::StringName { appends }) => {
            take_name(reader, appends, unread, source)
        }
        _ => unread.stays_within(),
    }
}

/// Takes bytes of a string's name together that stand in front, where it is read, up to one that
/// may end it: whether the string is appended to or not.
#[inline(always)]
fn take_name<S: ByteSource>(
    reader: &Reader,
    appends: bool,
    unread: &mut Unread<PageEvent>,
    source: &mut S,
)
    requires { reader.now.reading ≡ Collecting (InName appends) }
    ensures past { ReadsPast (S.gives source.old) (S.gives source.new)
        reader.now reader.now unread.old unread.new }
    ensures notes { S.notes source.new ≤ S.notes source.old }
    ensures failures { S.failures source.new ≡ S.failures source.old }
{
    if unread.has_open_escape() {
        return unread.stays_within();
    }
    if unread.is_behind_quote() {
        return unread.stays_within();
    }
    let _ = unread.take_first_argument(source);
    unread.stays_within();
}

/// Takes bytes of a string's text together that stand in front, where it begins: a quote alone, or
/// bytes of which the first is kept.
#[inline(always)]
pub fn take_string_front<S: ByteSource>(
    reader: &mut Reader,
    unread: &mut Unread<PageEvent>,
    source: &mut S,
)
    ensures past { ReadsPast (S.gives source.old) (S.gives source.new)
        reader.old reader.new unread.old unread.new }
    ensures whole { unread.old.input.escapes ≡ [] → TakesReady (string_front reader.old.reading
        unread.old (S.ready source.old)) unread.old unread.new }
    ensures notes { S.notes source.new ≤ S.notes source.old }
    ensures failures { S.failures source.new ≡ S.failures source.old }
{
    match reader.reading() {
        LineState::Collecting(
            Purpose::StringText {
                name: Some(name),
                appends,
                is_front: true,
            },
        ) => take_text_front(reader, name, appends, unread, source),
        _ => unread.stays_within(),
    }
}

/// Takes bytes together that stand in front where the text of this string begins: a quote alone, or
/// bytes of which the first is kept.
#[inline(always)]
fn take_text_front<S: ByteSource>(
    reader: &mut Reader,
    name: ShortName,
    appends: bool,
    unread: &mut Unread<PageEvent>,
    source: &mut S,
)
    requires { reader.old.reading ≡ Collecting (InText (Some name) appends true) }
    ensures past { ReadsPast (S.gives source.old) (S.gives source.new)
        reader.old reader.new unread.old unread.new }
    ensures whole { unread.old.input.escapes ≡ [] → TakesReady (bytes_of_front (text_front
        (ready_allowed unread.old (S.ready source.old))) unread.old (S.ready source.old))
        unread.old unread.new }
    ensures notes { S.notes source.new ≤ S.notes source.old }
    ensures failures { S.failures source.new ≡ S.failures source.old }
{
    if unread.has_open_escape() {
        return unread.stays_within();
    }
    match text_front(unread.front(source)) {
        TextFront::Other => unread.stays_within(),
        TextFront::Quote => {
            take_front(unread, source, 1);
            unread.stays_within();
            reader.go_on(behind_front(name, appends));
        }
        TextFront::Kept => take_kept(reader, name, appends, unread, source),
    }
}

/// Takes bytes together that stand in front where the text of this string begins, of which the
/// first is kept.
#[inline(always)]
fn take_kept<S: ByteSource>(
    reader: &mut Reader,
    name: ShortName,
    appends: bool,
    unread: &mut Unread<PageEvent>,
    source: &mut S,
)
    requires reading { reader.old.reading ≡ Collecting (InText (Some name) appends true) }
    requires none_half { unread.old.input.escapes ≡ [] }
    requires kept { BeginsKept (S.ready source.old) unread.old }
    ensures past { ReadsPast (S.gives source.old) (S.gives source.new)
        reader.old reader.new unread.old unread.new }
    ensures whole { TakesReady (bytes_of_front KeptFront unread.old (S.ready source.old))
        unread.old unread.new }
    ensures notes { S.notes source.new ≤ S.notes source.old }
    ensures failures { S.failures source.new ≡ S.failures source.old }
{
    let count = unread.take_run(RunKind::Definition, source);
    unread.stays_within();
    if count > 0 {
        reader.go_on(behind_front(name, appends));
    }
}

/// A string's text is read, behind its beginning.
#[inline(always)]
fn behind_front(name: ShortName, appends: bool) -> LineState
    ensures { result ≡ Collecting (InText (Some name) appends false) }
{
    LineState::Collecting(Purpose::StringText {
        name: Some(name),
        appends,
        is_front: false,
    })
}

/// What a string's text begins with.
#[derive(Clone, Copy)]
enum TextFront {
    /// A quote, which is dropped.
    Quote,
    /// A byte that is kept.
    Kept,
    /// Anything else.
    Other,
}

/// What these bytes begin with, where a string's text begins.
#[inline(always)]
fn text_front(bytes: &[u8]) -> TextFront
    ensures { result ≡ text_front bytes.now }
{
    match bytes {
        [b'"', ..] => TextFront::Quote,
        [b' ', ..] => TextFront::Other,
        [_, ..] => TextFront::Kept,
        [] => TextFront::Other,
    }
}
