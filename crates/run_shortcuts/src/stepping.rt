//! Registers on text lines that are stepped.

ghost use Rattle.std.specs.Prelude.{◌≡◌, ◌≤◌};
ghost use Rattle.read_shortcuts.specs.Runs.{IsRun};
ghost use Rattle.roff_scan.specs.declared.run_kind.RunKind.TheVariants.{Text as TextRun};
ghost use Rattle.run_turns.specs.Running.Turning.{GoesPastOver};

use crate::fronts::tell_string;
use read_shortcuts::step_register;
use roff_scan::ByteSource;
use run_turns::Running;

/// Takes the escape of a string that stands whole in front on a text line, as [`tell_string`] does;
/// or that of a register that is stepped, whose text is told. Returns whether it did.
#[inline(always)]
pub(crate) fn tell_other<S: ByteSource>(run: &mut Running, source: &mut S) -> bool
    requires { IsRun TextRun run.old.interpreter.reader.reading run.old.unread.input.escapes }
    ensures further { GoesPastOver S.ByteSource result source.old source.new
        run.old run.new }
    ensures half { run.new.unread.input.escapes ≡ run.old.unread.input.escapes }
    ensures reads { run.new.interpreter.reader.reading
        ≡ run.old.interpreter.reader.reading }
    ensures more { run.old.unread.input.charge ≤ run.new.unread.input.charge }
{
    if tell_string(run, source) {
        return true;
    }
    tell_stepped(run, source)
}

/// Takes the escape of a register that stands whole in front on a text line and steps it, and tells
/// its text. Returns whether it did.
#[inline(always)]
fn tell_stepped<S: ByteSource>(run: &mut Running, source: &mut S) -> bool
    requires { IsRun TextRun run.old.interpreter.reader.reading run.old.unread.input.escapes }
    ensures further { GoesPastOver S.ByteSource result source.old source.new
        run.old run.new }
    ensures half { run.new.unread.input.escapes ≡ run.old.unread.input.escapes }
    ensures reads { run.new.interpreter.reader.reading
        ≡ run.old.interpreter.reader.reading }
    ensures more { run.old.unread.input.charge ≤ run.new.unread.input.charge }
{
    match step_register(
        &mut run.interpreter.reader,
        &run.interpreter.formatter.composer,
        &mut run.unread,
        source,
    ) {
        Some(text) => {
            let bytes = text.as_slice();
            let count = run.interpreter.formatter.text_front(bytes);
            let _ = run.unread.push_read(bytes, count);
            run.unread.stays_within();
            true
        }
        None => false,
    }
}
