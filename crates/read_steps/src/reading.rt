//! A byte that was taken, and what it does by whether anything is half read.

ghost use Rattle.std.specs.Prelude.{◌≡◌, ◌==◌, [], false};
ghost use Rattle.std.specs.Prelude.{true};
ghost use Rattle.input_source.specs.Bytes.{backslash, is_dropped};
ghost use Rattle.run_model.specs.declared.step.Step.TheVariants.{Nothing};
ghost use Rattle.read_steps.specs.Clauses.{TakesAs};
ghost use Rattle.read_steps.specs.Clauses.{byte_taking};

use crate::bytes::{read_alone, read_undropped};
use read_lines::Reader;
use roff_num::Limit;
use roff_scan::{Unread, is_dropped};
use run_model::{PageEvent, Step};
use run_state::Composer;

/// What a byte does that was taken: the input behind it, what is read, and what it means.
///
/// # Errors
///
/// A limit that it would pass; what was changed then is of no more use.
#[inline(always)]
pub fn read(
    reader: &mut Reader,
    byte: u8,
    composer: &Composer,
    unread: &mut Unread<PageEvent>,
) -> Result<Step, Limit>
    ensures { TakesAs (λ k. byte_taking k reader.old.reading unread.old.input byte)
        composer.now reader.old reader.new unread.old unread.new result }
{
    if is_read_alone(byte, unread) {
        return read_alone(reader, byte, composer, unread);
    }
    read_any(reader, byte, composer, unread)
}

/// What any byte does that was taken: the input behind it, what is read, and what it means.
#[inline(never)]
pub(crate) fn read_any(
    reader: &mut Reader,
    byte: u8,
    composer: &Composer,
    unread: &mut Unread<PageEvent>,
) -> Result<Step, Limit>
    ensures { TakesAs (λ k. byte_taking k reader.old.reading unread.old.input byte)
        composer.now reader.old reader.new unread.old unread.new result }
{
    read_half(reader, byte, composer, unread)
}

/// What a byte does that was taken where something is half read: the input behind it, what is read,
/// and what it means. Most of these bytes are none of a text line.
///
/// # Errors
///
/// A limit that it would pass; what was changed then is of no more use.
#[inline(always)]
pub fn read_half(
    reader: &mut Reader,
    byte: u8,
    composer: &Composer,
    unread: &mut Unread<PageEvent>,
) -> Result<Step, Limit>
    ensures { TakesAs (λ k. byte_taking k reader.old.reading unread.old.input byte)
        composer.now reader.old reader.new unread.old unread.new result }
{
    if is_dropped(byte) {
        reader.interrupt(unread);
        return Ok(Step::Nothing);
    }
    read_undropped(reader, byte, composer, unread)
}

/// Whether a byte is read by itself: it is neither dropped nor a backslash, and nothing is half
/// read.
#[inline(always)]
#[tactic(auto, using(read_lines::proofs::TextTaken::none_half))]
fn is_read_alone(byte: u8, unread: &Unread<PageEvent>) -> bool
    ensures kept { result ≡ true → is_dropped byte ≡ false }
    ensures no_escape { result ≡ true → (byte == backslash) ≡ false }
    ensures none_half { result ≡ true → unread.now.input.escapes ≡ [] }
{
    if byte != b'\n' && is_dropped(byte) {
        return false;
    }
    if byte == b'\\' {
        return false;
    }
    !unread.has_open_escape()
}
