//! Runs: bytes in front that do alike where something is read, and are taken together.

ghost use Rattle.std.specs.Prelude.{◌≡◌, ◌≤◌, IfSome, List, []};
ghost use Rattle.input_escapes.specs.OpenEscape.{OpenEscape};
ghost use Rattle.run_model.specs.declared.line_state.LineState.TheVariants.{Collecting};
ghost use Rattle.run_model.specs.declared.line_state.LineState.TheVariants.{Text as InText};
ghost use Rattle.read_shortcuts.specs.Runs.{IsRun, KeepsReader, TakesReady, blanks_counted};
ghost use Rattle.read_shortcuts.specs.Runs.{branch_blanks, counts_blanks, ready_allowed, run_holding};
ghost use Rattle.read_shortcuts.specs.Stages.{ReadsPast};
ghost use Rattle.roff_scan.specs.declared.run_kind.RunKind.TheVariants.{Blanks, Condition};

use read_lines::{CALL_ARGUMENTS, Reader};
use roff_scan::{BehindHeld, ByteSource, RunKind, Unread};
use run_model::{LineState, PageEvent, Purpose, TextLine};

/// A count of leading blanks above this reads as this.
const MOST_LEADING: usize = 2_147_483_647;

/// What the bytes in front do, as far as some can be taken together: by what is being read, and
/// whether something is half read.
#[inline(always)]
pub fn run_kind(reader: &Reader, unread: &Unread<PageEvent>) -> Option<RunKind>
    ensures { IfSome result (λ kind. IsRun kind reader.now.reading unread.now.input.escapes) }
{
    if unread.has_open_escape() {
        run_half_read(reader, unread)
    } else {
        run_alone(reader, unread)
    }
}

/// What the bytes in front do where something is half read, as far as some can be taken together:
/// by what is being read.
#[inline(always)]
pub fn run_half_read(reader: &Reader, unread: &Unread<PageEvent>) -> Option<RunKind>
    ensures { IfSome result (λ kind. IsRun kind reader.now.reading unread.now.input.escapes) }
{
    match reader.reading() {
        LineState::LineStart => Some(RunKind::Name),
        LineState::Branch => Some(RunKind::Name),
        LineState::Text(_) => Some(RunKind::Name),
        LineState::Deciding { .. } => Some(RunKind::Condition),
        _ => None,
    }
}

/// What the bytes in front do where nothing is half read, as far as some can be taken together: by
/// what is being read.
#[inline(always)]
fn run_alone(reader: &Reader, unread: &Unread<PageEvent>) -> Option<RunKind>
    requires none_half { unread.now.input.escapes ≡ [] }
    ensures { IfSome result (λ kind. IsRun kind reader.now.reading unread.now.input.escapes) }
{
    match reader.reading() {
        LineState::Text(line) => run_of_text(line),
        LineState::Collecting(purpose) => run_collected(purpose),
        LineState::Dropped => Some(RunKind::Dropped {
            within_block: false,
        }),
        LineState::Skipping {
            opened,
            closed,
            behind: false,
        } => Some(RunKind::Dropped {
            within_block: opened > closed,
        }),
        _ => None,
    }
}

/// What the bytes in front do that are collected for this where nothing is half read, as far as
/// some can be taken together.
#[inline(always)]
fn run_collected(purpose: Purpose) -> Option<RunKind>
    ensures { IfSome result (λ kind. IsRun kind (Collecting purpose) []) }
{
    match purpose {
        Purpose::Arguments { .. } => Some(RunKind::Arguments),
        Purpose::Calling { .. } => Some(RunKind::CallArguments(CALL_ARGUMENTS - 1)),
        Purpose::Defining {
            name: Some(_),
            matched: None,
            ..
        } => Some(RunKind::Definition),
        Purpose::Defining {
            name: None,
            matched: None,
            ..
        } => Some(RunKind::Ignored),
        Purpose::StringText {
            name: Some(_),
            is_front: false,
            ..
        } => Some(RunKind::Definition),
        Purpose::StringText {
            name: None,
            is_front: false,
            ..
        } => Some(RunKind::Ignored),
        _ => None,
    }
}

/// Takes bytes together that stand in front and do this, as many as the limits have room for.
#[inline(always)]
pub fn take_run<S: ByteSource>(
    reader: &mut Reader,
    kind: RunKind,
    unread: &mut Unread<PageEvent>,
    source: &mut S,
)
    requires { IsRun kind reader.old.reading unread.old.input.escapes }
    ensures past { ReadsPast (S.gives source.old) (S.gives source.new)
        reader.old reader.new unread.old unread.new }
    ensures kept { KeepsReader kind reader.old reader.new }
    ensures notes { S.notes source.new ≤ S.notes source.old }
    ensures failures { S.failures source.new ≡ S.failures source.old }
{
    match kind {
        RunKind::Text => unread.stays_within(),
        RunKind::Blanks => take_blanks(reader, unread, source),
        RunKind::Arguments => take_staying(reader, kind, unread, source),
        RunKind::CallArguments(_) => take_staying(reader, kind, unread, source),
        RunKind::Name => take_staying(reader, kind, unread, source),
        RunKind::Condition => take_condition(reader, unread, source),
        RunKind::Definition => take_staying(reader, kind, unread, source),
        RunKind::Ignored => take_staying(reader, kind, unread, source),
        RunKind::Dropped { .. } => take_staying(reader, kind, unread, source),
    }
}

/// Takes bytes in front that leave the reader as it was: all but blanks.
#[inline(always)]
fn take_staying<S: ByteSource>(
    reader: &Reader,
    kind: RunKind,
    unread: &mut Unread<PageEvent>,
    source: &mut S,
)
    requires run { IsRun kind reader.now.reading unread.old.input.escapes }
    requires stays { kind ≡ Blanks → ⊥ }
    ensures past { ReadsPast (S.gives source.old) (S.gives source.new)
        reader.now reader.now unread.old unread.new }
    ensures notes { S.notes source.new ≤ S.notes source.old }
    ensures failures { S.failures source.new ≡ S.failures source.old }
{
    let _ = unread.take_run(kind, source);
    unread.stays_within();
}

/// Takes bytes in front that are held in arguments, as long as fewer than so many are whole, where
/// there is a bound. Returns what stands behind them.
#[inline(always)]
pub fn take_arguments<S: ByteSource>(
    reader: &Reader,
    most: Option<usize>,
    unread: &mut Unread<PageEvent>,
    source: &mut S,
) -> BehindHeld
    requires { IsRun (run_holding most) reader.now.reading unread.old.input.escapes }
    ensures past { ReadsPast (S.gives source.old) (S.gives source.new)
        reader.now reader.now unread.old unread.new }
    ensures half { unread.new.input.escapes ≡ unread.old.input.escapes }
    ensures notes { S.notes source.new ≤ S.notes source.old }
    ensures failures { S.failures source.new ≡ S.failures source.old }
{
    match most {
        None => {
            let (_, behind) = unread.take_arguments(source);
            unread.stays_within();
            behind
        }
        Some(most) => {
            let (_, behind) = unread.take_call_arguments(most, source);
            unread.stays_within();
            behind
        }
    }
}

/// Counts leading blanks that stand in front.
#[inline(never)]
fn take_blanks<S: ByteSource>(reader: &mut Reader, unread: &mut Unread<PageEvent>, source: &mut S)
    requires { IsRun Blanks reader.old.reading unread.old.input.escapes }
    ensures past { ReadsPast (S.gives source.old) (S.gives source.new)
        reader.old reader.new unread.old unread.new }
    ensures notes { S.notes source.new ≤ S.notes source.old }
    ensures failures { S.failures source.new ≡ S.failures source.old }
{
    match reader.reading() {
        LineState::Text(line) => {
            let count = unread.take_run(RunKind::Blanks, source);
            unread.stays_within();
            reader.go_on(LineState::Text(behind_blanks(line, count)));
        }
        _ => unread.stays_within(),
    }
}

/// A text line behind so many leading blanks more. Beyond 2147483647 they don't count.
#[inline(always)]
fn behind_blanks(line: TextLine, count: usize) -> TextLine
    ensures { result ≡ record line { leading = blanks_counted count line.leading } }
{
    if count == 0 {
        return line;
    }
    let counted = (line.leading as usize).saturating_add(count);
    let mut behind = line;
    behind.leading = counted.min(MOST_LEADING) as u32;
    behind
}

/// Takes blanks together that stand in front where a branch begins, and nothing is half read.
#[inline(always)]
pub fn take_branch_blanks<S: ByteSource>(
    reader: &Reader,
    unread: &mut Unread<PageEvent>,
    source: &mut S,
)
    requires none_half { unread.old.input.escapes ≡ [] }
    ensures none_half { unread.new.input.escapes ≡ [] }
    ensures past { ReadsPast (S.gives source.old) (S.gives source.new)
        reader.now reader.now unread.old unread.new }
    ensures whole { TakesReady (branch_blanks reader.now.reading (ready_allowed unread.old
        (S.ready source.old))) unread.old unread.new }
    ensures notes { S.notes source.new ≤ S.notes source.old }
    ensures failures { S.failures source.new ≡ S.failures source.old }
{
    match reader.reading() {
        LineState::Branch => {
            let _ = unread.take_run(RunKind::Blanks, source);
            unread.stays_within();
        }
        _ => unread.stays_within(),
    }
}

/// Takes bytes of a condition that stand in front, unless it decides before any is taken.
#[inline(always)]
fn take_condition<S: ByteSource>(reader: &Reader, unread: &mut Unread<PageEvent>, source: &mut S)
    requires { IsRun Condition reader.now.reading unread.old.input.escapes }
    ensures past { ReadsPast (S.gives source.old) (S.gives source.new)
        reader.now reader.now unread.old unread.new }
    ensures notes { S.notes source.new ≤ S.notes source.old }
    ensures failures { S.failures source.new ≡ S.failures source.old }
{
    if unread.decides_now() {
        return unread.stays_within();
    }
    take_staying(reader, RunKind::Condition, unread, source);
}

/// What the bytes of a text line do where nothing is half read.
#[inline(always)]
fn run_of_text(line: TextLine) -> Option<RunKind>
    ensures { (half : List OpenEscape) → half ≡ []
        → IfSome result (λ kind. IsRun kind (InText line) half) }
{
    if line.prints() {
        return Some(RunKind::Text);
    }
    if only_counts_blanks(line) {
        return Some(RunKind::Blanks);
    }
    None
}

/// Whether blanks only count: in front of the first glyph, behind another blank.
#[inline(always)]
fn only_counts_blanks(line: TextLine) -> bool
    ensures { result ≡ counts_blanks (InText line) }
{
    !line.has_glyph && line.leading > 0
}
