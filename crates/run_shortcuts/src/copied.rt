//! Lines of a definition, and ignored ones, that are copied together.

ghost use Rattle.std.specs.Prelude.{◌≡◌, false};
ghost use Rattle.read_shortcuts.specs.Runs.{IsRun};
ghost use Rattle.run_turns.specs.Running.Turning.{GoesPastOver};

use crate::fronts::take_run;
use read_shortcuts::RunKind;
use roff_scan::ByteSource;
use run_turns::Running;

/// Takes lines of a definition together that stand in front, or else bytes that do this. Returns
/// whether it took lines.
#[inline(always)]
pub(crate) fn copy_run<S: ByteSource>(run: &mut Running, kind: RunKind, source: &mut S) -> bool
    requires { IsRun kind run.old.interpreter.reader.reading run.old.unread.input.escapes }
    ensures { GoesPastOver S.ByteSource result source.old source.new run.old run.new }
{
    if take_lines(run, source) {
        return true;
    }
    take_run(run, kind, source);
    false
}

/// Takes bytes together that stand ready where the lines of a definition are read, and are copied
/// as they stand. Returns whether it did.
#[inline(always)]
pub(crate) fn take_lines<S: ByteSource>(run: &mut Running, source: &mut S) -> bool
    ensures past { GoesPastOver S.ByteSource result source.old source.new run.old run.new }
    ensures unchanged { result ≡ false → run.new ≡ run.old }
{
    read_definitions::take_lines(&mut run.interpreter.reader, &mut run.unread, source)
}
