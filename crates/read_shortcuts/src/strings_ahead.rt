//! Strings, put in front at once where their escapes stand whole there.

ghost use Rattle.std.specs.Prelude.{◌≡◌, ◌≤◌, ◌<◌, ◌+◌, [], true, false, IfSome, length};
ghost use Rattle.run_state.specs.declared.composer.Composer.{Composer as ComposerOf};
ghost use Rattle.read_shortcuts.specs.Registers.{BeginsEscape, IsStringAhead, OfString, PutsText};
ghost use Rattle.input_model.specs.Input.{depth, pushed};
ghost use Rattle.input_model.specs.Input.Names.{body_named};
ghost use Rattle.roff_num.specs.ShortNames.{name_bytes};

use crate::registers::{escape_len, long_name, reads_names, short_name};
use read_lines::Reader;
use roff_num::ShortName;
use roff_scan::{ByteSource, Unread};
use run_model::PageEvent;

/// Takes the escape of a string at once that stands whole in front, where a line begins, or a text
/// line or arguments are read, and puts the string in front, if the limits have room for it.
/// Returns whether it did.
#[inline(never)]
pub fn put_string<S: ByteSource>(
    reader: &Reader,
    unread: &mut Unread<PageEvent>,
    source: &mut S,
) -> bool
    ensures puts { (es : ComposerOf) → result ≡ true → PutsText OfString (S.gives source.old)
        (S.gives source.new) reader.now es unread.old unread.new }
    ensures unchanged { result ≡ false → (unread.new ≡ unread.old) × (source.new ≡ source.old) }
    ensures notes { S.notes source.new ≤ S.notes source.old }
    ensures failures { S.failures source.new ≡ S.failures source.old }
{
    match string_ahead(reader, unread, source) {
        Some(name) => {
            put_named(reader, name, unread, source);
            true
        }
        None => false,
    }
}

/// Takes the escape of this string at once, which stands in front, and puts the string in front.
#[inline(always)]
fn put_named<S: ByteSource>(
    reader: &Reader,
    name: ShortName,
    unread: &mut Unread<PageEvent>,
    source: &mut S,
)
    requires { IsStringAhead name reader.now.reading (S.ready source.old) unread.old }
    ensures puts { (es : ComposerOf) → PutsText OfString (S.gives source.old) (S.gives source.new)
        reader.now es unread.old unread.new }
    ensures notes { S.notes source.new ≤ S.notes source.old }
    ensures failures { S.failures source.new ≡ S.failures source.old }
{
    unread.pass(source, escape_len(name));
    reader.interrupt(unread);
    unread.stays_within();
    // the limits have room for it
    let _ = unread.push_body(&name.name());
}

/// The name of the string whose escape stands whole in front, where a line begins, or a text line
/// or arguments are read, and nothing is half read, if the limits have room for its text.
#[inline(always)]
fn string_ahead<S: ByteSource>(
    reader: &Reader,
    unread: &Unread<PageEvent>,
    source: &S,
) -> Option<ShortName>
    ensures { IfSome result (λ name.
        IsStringAhead name reader.now.reading (S.ready source.now) unread.now) }
{
    if unread.has_open_escape() {
        return None;
    }
    if !reads_names(reader) {
        return None;
    }
    match string_in_front(unread.front(source)) {
        Some(name) => {
            if has_room_for(name, unread) {
                Some(name)
            } else {
                None
            }
        }
        None => None,
    }
}

/// Whether the limits have room for the text of the string of a name, and its end.
#[inline(always)]
fn has_room_for(name: ShortName, unread: &Unread<PageEvent>) -> bool
    ensures room { result ≡ true → pushed unread.now.input
        + length (body_named (name_bytes name) unread.now.input) ≤ unread.now.limits.stack }
    ensures shallow { result ≡ true → depth unread.now.input < unread.now.limits.depth }
{
    unread.stays_within();
    let limits = unread.limits();
    let room = (limits.stack as usize).saturating_sub(unread.pushed());
    if !unread.body_fits(name, room) {
        return false;
    }
    unread.depth() < limits.depth as usize
}

/// The name of the string whose escape these bytes begin with, if they do.
#[inline(always)]
fn string_in_front(bytes: &[u8]) -> Option<ShortName>
    ensures { IfSome result (λ name. BeginsEscape OfString bytes.now name) }
{
    match bytes {
        [b'\\', b'*', b'(', first, second, ..] => long_name(*first, *second),
        [b'\\', b'*', first, ..] => short_name(*first),
        _ => None,
    }
}
