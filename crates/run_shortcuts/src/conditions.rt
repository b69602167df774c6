//! Conditions: bytes of one that stand in front, its expression's end, and what it decides.

ghost use Rattle.std.specs.Prelude.{◌≡◌, true, false};
ghost use Rattle.input_escapes.specs.Waiting.{waiting_of};
ghost use Rattle.input_escapes.specs.declared.open_escape.Waiting.TheVariants.{Decides, Waits};
ghost use Rattle.read_shortcuts.specs.Runs.{IsRun};
ghost use Rattle.run_model.specs.declared.line_state.LineState.TheVariants.{Deciding};
ghost use Rattle.roff_scan.specs.declared.run_kind.RunKind.TheVariants.{Condition as ConditionRun};
ghost use Rattle.run_shortcuts.specs.Clauses.{waiting_in};
ghost use Rattle.run_shortcuts.specs.EndsAtOnce.{EndsAtOnce};
ghost use Rattle.run_turns.specs.Running.Turning.{GoesPastOver};

use read_shortcuts::RunKind;
use roff_scan::{ByteSource, Surroundings, Waiting};
use run_model::LineState;
use run_turns::Running;

/// Takes bytes of a condition that stand in front, with the end of a text among them; then ends its
/// expression, if what is seen behind them does, and decides it, if it asks nothing more. Returns
/// whether it decided.
#[inline(never)]
pub(crate) fn pass_condition<S: ByteSource>(run: &mut Running, source: &mut S) -> bool
    requires { IsRun ConditionRun run.old.interpreter.reader.reading
        run.old.unread.input.escapes }
    ensures { GoesPastOver S.ByteSource result source.old source.new run.old run.new }
{
    take_condition(run, source);
    if !pass_expression(run, source) {
        return decide(run);
    }
    take_condition(run, source);
    let _ = pass_expression(run, source);
    decide(run)
}

/// Takes bytes of a condition that stand in front.
#[inline(always)]
fn take_condition<S: ByteSource>(run: &mut Running, source: &mut S)
    requires { IsRun ConditionRun run.old.interpreter.reader.reading
        run.old.unread.input.escapes }
    ensures run { IsRun ConditionRun run.new.interpreter.reader.reading
        run.new.unread.input.escapes }
    ensures past { GoesPastOver S.ByteSource false source.old source.new run.old run.new }
{
    let kind = RunKind::Condition;
    read_shortcuts::take_run(&mut run.interpreter.reader, kind, &mut run.unread, source);
}

/// Ends the expression that is read of a condition, if the byte that is seen ahead ends it; else
/// takes the end of a text, if that stands in front of the byte. Returns whether it took that.
#[inline(always)]
fn pass_expression<S: ByteSource>(run: &mut Running, source: &S) -> bool
    requires { IsRun ConditionRun run.old.interpreter.reader.reading
        run.old.unread.input.escapes }
    ensures run { IsRun ConditionRun run.new.interpreter.reader.reading
        run.new.unread.input.escapes }
    ensures past { GoesPastOver S.ByteSource false source.now source.now run.old run.new }
{
    // A blank ends an expression, and nothing that is read above one.
    if !run.unread.is_ended_by(Some(b' ')) {
        return false;
    }
    match run.interpreter.reader.reading() {
        LineState::Deciding { keeps } => pass_deciding(run, keeps, source),
        _ => false,
    }
}

/// Ends the expression of a condition, if the byte that is seen ahead ends it; else takes the end
/// of a text in front of that byte. Returns whether it took that.
#[inline(always)]
fn pass_deciding<S: ByteSource>(run: &mut Running, keeps: bool, source: &S) -> bool
    requires run { IsRun ConditionRun run.old.interpreter.reader.reading
        run.old.unread.input.escapes }
    requires deciding { run.old.interpreter.reader.reading ≡ Deciding keeps }
    ensures run { IsRun ConditionRun run.new.interpreter.reader.reading
        run.new.unread.input.escapes }
    ensures past { GoesPastOver S.ByteSource false source.now source.now run.old run.new }
{
    match run.unread.waiting(Surroundings::Copy) {
        Waiting::Waits => pass_waiting(run, keeps, source),
        _ => false,
    }
}

/// Ends the expression that waits for a byte, if the byte that is seen ahead ends it; else takes
/// the end of a text in front of that byte. Returns whether it took that.
#[inline(never)]
fn pass_waiting<S: ByteSource>(run: &mut Running, keeps: bool, source: &S) -> bool
    requires run { IsRun ConditionRun run.old.interpreter.reader.reading
        run.old.unread.input.escapes }
    requires deciding { run.old.interpreter.reader.reading ≡ Deciding keeps }
    requires waits { waiting_of Surroundings.Copy run.old.unread.input.escapes ≡ Waits }
    ensures run { IsRun ConditionRun run.new.interpreter.reader.reading
        run.new.unread.input.escapes }
    ensures past { GoesPastOver S.ByteSource false source.now source.now run.old run.new }
{
    match run.unread.look_ahead(source) {
        Some(byte) => {
            if run.unread.is_ended_by(Some(byte)) {
                let _ = run.unread.decide_expression();
                run.unread.stays_within();
                false
            } else {
                let is_passed = run.unread.pass_end();
                run.unread.stays_within();
                is_passed
            }
        }
        None => false,
    }
}

/// Decides a condition that is read, if it asks nothing more and its result isn't kept. Returns
/// whether it did.
#[inline(always)]
fn decide(run: &mut Running) -> bool
    ensures waits { result ≡ true → waiting_in run.old.interpreter.reader.reading
        run.old.unread.input ≡ Decides }
    ensures ends { result ≡ true → EndsAtOnce run.old run.new }
    ensures unchanged { result ≡ false → run.new ≡ run.old }
{
    if !run.unread.decides_now() {
        return false;
    }
    match run.interpreter.reader.reading() {
        LineState::Deciding { keeps: false } => match run.unread.end_decided() {
            Some(so) => {
                run.unread.stays_within();
                run.interpreter.reader.go_on(LineState::branch(so));
                true
            }
            None => false,
        },
        _ => false,
    }
}
