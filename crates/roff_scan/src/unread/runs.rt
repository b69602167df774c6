//! Runs: bytes in front that do alike, and are taken together.

ghost use Rattle.std.specs.Prelude.{false, ◌≡◌, ◌≤◌, ◌+◌, length, true};
ghost use Rattle.std.specs.Prelude.{ℕ, Some, take, take_while, ◌==◌};
ghost use Rattle.std.specs.List.{AllByRecursion};
ghost use Rattle.input_model.specs.Arguments.{held};
ghost use Rattle.input_arguments.specs.ArgumentTexts.Kept.{StopsAt};
ghost use Rattle.input_escapes.specs.OpenEscape.{texts_held};
ghost use Rattle.input_source.specs.Bytes.{blank, is_text_byte};
ghost use Rattle.input_model.specs.Input.{is_none_ahead, pushed};
ghost use Rattle.roff_scan.specs.RunKinds.{is_held};
ghost use Rattle.roff_scan.specs.Unread.Runs.{TakesPart};
ghost use Rattle.roff_scan.specs.declared.run_kind.RunKind.TheVariants.{Arguments, Blanks};
ghost use Rattle.roff_scan.specs.declared.run_kind.RunKind.TheVariants.{CallArguments, Condition};
ghost use Rattle.roff_scan.specs.declared.run_kind.RunKind.TheVariants.{Definition, Name};

use super::Unread;
use super::fronts::front_of;
use super::lines::{BehindHeld, standing_at};
use crate::run_kind::RunKind;
use input_arguments::ArgumentTexts;
use input_escapes::OpenEscapes;
use input_source::{ByteSource, at_most, passed_len, text_in_front};

/// How many bytes of a body are put behind a text at once.
const COPIED: usize = 64;

impl<E: Copy> Unread<E> {
    ghost use Rattle.roff_scan.specs.Unread.Runs.{TakesRun};
    ghost use Rattle.roff_scan.specs.Unread.Calls.{TakesPushed};
    ghost use Rattle.roff_scan.specs.Unread.Lines.{TellsBehind};
    ghost use Rattle.roff_scan.specs.Unread.FirstArguments.{first_room};

    /// Takes bytes together that stand in front, as they lie together, and do this: up to the first
    /// that does otherwise, and no more than the limits have room for. Whether anything is half
    /// read isn't looked at. Returns how many.
    #[inline(always)]
    pub fn take_run<S: ByteSource>(&mut self, kind: RunKind, source: &mut S) -> usize
        ensures takes { TakesRun kind (S.gives source.old) (S.gives source.new)
            (S.ready source.old) result self.old self.new }
        ensures notes { S.notes source.new ≤ S.notes source.old }
        ensures failures { S.failures source.new ≡ S.failures source.old }
    {
        match kind {
            RunKind::Arguments => self.take_arguments(source).0,
            RunKind::CallArguments(most) => self.take_call_arguments(most, source).0,
            RunKind::Name => self.take_name(source),
            RunKind::Condition => self.take_condition(source),
            RunKind::Definition => self.add_run(source),
            RunKind::Text => self.take_others(kind, source),
            RunKind::Blanks => self.take_blanks(source),
            RunKind::Ignored => self.take_others(kind, source),
            RunKind::Dropped { .. } => self.take_others(kind, source),
        }
    }

    // Each kind that comes often has a copy of its own, for which the compiler knows the kind.

    /// Takes bytes together that stand in front and are held in the arguments of a request: no more
    /// than the limits have room for. Returns how many, and what stands behind them.
    #[inline(never)]
    pub fn take_arguments<S: ByteSource>(&mut self, source: &mut S) -> (usize, BehindHeld)
        ensures takes { TakesRun Arguments (S.gives source.old) (S.gives source.new)
            (S.ready source.old) result.0 self.old self.new }
        ensures stands { TellsBehind result.0 (S.ready source.old) result.1 self.old }
        ensures notes { S.notes source.new ≤ S.notes source.old }
        ensures failures { S.failures source.new ≡ S.failures source.old }
    {
        self.take_held(RunKind::Arguments, source)
    }

    /// Takes bytes together that stand in front and are held in the arguments of a call, as long as
    /// fewer than so many are whole: no more than the limits have room for. Returns how many, and
    /// what stands behind them.
    #[inline(never)]
    pub fn take_call_arguments<S: ByteSource>(
        &mut self,
        most: usize,
        source: &mut S,
    ) -> (usize, BehindHeld)
        ensures takes { TakesRun (CallArguments most) (S.gives source.old) (S.gives source.new)
            (S.ready source.old) result.0 self.old self.new }
        ensures stands { TellsBehind result.0 (S.ready source.old) result.1 self.old }
        ensures notes { S.notes source.new ≤ S.notes source.old }
        ensures failures { S.failures source.new ≡ S.failures source.old }
    {
        self.take_held(RunKind::CallArguments(most), source)
    }

    /// Takes leading blanks of a text line together that stand in front. Returns how many.
    #[inline(never)]
    fn take_blanks<S: ByteSource>(&mut self, source: &mut S) -> usize
        ensures takes { TakesRun Blanks (S.gives source.old) (S.gives source.new)
            (S.ready source.old) result self.old self.new }
        ensures notes { S.notes source.new ≤ S.notes source.old }
        ensures failures { S.failures source.new ≡ S.failures source.old }
    {
        self.take_lying(RunKind::Blanks, source)
    }

    /// Takes bytes together that stand in the front of an escape that reads a name. Returns how
    /// many.
    #[inline(never)]
    fn take_name<S: ByteSource>(&mut self, source: &mut S) -> usize
        ensures takes { TakesRun Name (S.gives source.old) (S.gives source.new)
            (S.ready source.old) result self.old self.new }
        ensures notes { S.notes source.new ≤ S.notes source.old }
        ensures failures { S.failures source.new ≡ S.failures source.old }
    {
        self.take_lying(RunKind::Name, source)
    }

    /// Takes bytes of a condition together that stand in front, of a pushed text, or as they lie
    /// together. Returns how many.
    #[inline(never)]
    fn take_condition<S: ByteSource>(&mut self, source: &mut S) -> usize
        ensures takes { TakesRun Condition (S.gives source.old) (S.gives source.new)
            (S.ready source.old) result self.old self.new }
        ensures notes { S.notes source.new ≤ S.notes source.old }
        ensures failures { S.failures source.new ≡ S.failures source.old }
    {
        let pushed = self.take_pushed();
        if pushed > 0 {
            return pushed;
        }
        self.take_lying(RunKind::Condition, source)
    }

    /// Takes bytes together that do this, which is none of the kinds with a copy of its own.
    /// Returns how many.
    #[inline(never)]
    fn take_others<S: ByteSource>(&mut self, kind: RunKind, source: &mut S) -> usize
        requires { kind ≡ Definition → ⊥ }
        ensures takes { TakesRun kind (S.gives source.old) (S.gives source.new)
            (S.ready source.old) result self.old self.new }
        ensures notes { S.notes source.new ≤ S.notes source.old }
        ensures failures { S.failures source.new ≡ S.failures source.old }
    {
        self.take_lying(kind, source)
    }

    /// Takes bytes of the source or of a body together that do this, as they lie together, but for
    /// those of a definition. Returns how many, and what stands behind them.
    #[inline(always)]
    fn take_held<S: ByteSource>(&mut self, kind: RunKind, source: &mut S) -> (usize, BehindHeld)
        requires { kind ≡ Definition → ⊥ }
        ensures takes { TakesRun kind (S.gives source.old) (S.gives source.new)
            (S.ready source.old) result.0 self.old self.new }
        ensures stands { is_held kind ≡ true
            → TellsBehind result.0 (S.ready source.old) result.1 self.old }
        ensures notes { S.notes source.new ≤ S.notes source.old }
        ensures failures { S.failures source.new ≡ S.failures source.old }
    {
        let most = self.room_for(kind);
        let front = front_of(&self.input_ahead, self.looked, source, most);
        if front.is_empty() {
            return (0, BehindHeld::End);
        }
        let count = take_part(kind, front, &mut self.arguments, &mut self.escapes);
        let behind = standing_at(front, count);
        self.pass_front(source, count, kind.has_newlines());
        (count, behind)
    }

    /// Takes bytes of the source or of a body together that do this, as they lie together, but for
    /// those of a definition. Returns how many.
    #[inline(always)]
    fn take_lying<S: ByteSource>(&mut self, kind: RunKind, source: &mut S) -> usize
        requires { kind ≡ Definition → ⊥ }
        ensures takes { TakesRun kind (S.gives source.old) (S.gives source.new)
            (S.ready source.old) result self.old self.new }
        ensures notes { S.notes source.new ≤ S.notes source.old }
        ensures failures { S.failures source.new ≡ S.failures source.old }
    {
        self.take_held(kind, source).0
    }

    /// How many bytes of a run the limits have room for: each counts once, and each that is held.
    #[inline(always)]
    pub(super) fn room_for(&self, kind: RunKind) -> usize
        ensures bytes { self.now.input.charge + result ≤ self.now.limits.bytes }
        ensures stack { is_held kind ≡ true
            → pushed self.now.input + result ≤ self.now.limits.stack }
        ensures all { is_held kind ≡ false
            → self.now.input.charge + result ≡ self.now.limits.bytes }
        ensures held { is_held kind ≡ true → result ≡ first_room self.now }
    {
        let allowed = (self.limits.bytes - self.charge) as usize;
        if kind.is_held() {
            return allowed.min(self.limits.stack as usize - self.pushed());
        }
        allowed
    }

    /// Takes bytes of plain text together that stand in front, and puts them behind the newest text
    /// in the making, if there is one: no more than the limits on bytes and on the store have room
    /// for. Returns how many; none where a byte was looked at.
    #[inline(never)]
    fn add_run<S: ByteSource>(&mut self, source: &mut S) -> usize
        ensures takes { TakesRun Definition (S.gives source.old) (S.gives source.new)
            (S.ready source.old) result self.old self.new }
        ensures notes { S.notes source.new ≤ S.notes source.old }
        ensures failures { S.failures source.new ≡ S.failures source.old }
    {
        if !self.input_ahead.is_empty() {
            return self.add_run_ahead(source);
        }
        if !self.looked.is_nothing() {
            return 0;
        }
        let room = self.limits.store as usize - self.input_ahead.stored();
        let allowed = self.limits.bytes - self.charge;
        let text = text_ready(source, room.min(allowed as usize));
        let count = text.len();
        if count == 0 {
            return 0;
        }
        match self.add(text) {
            Ok(()) => {
                self.pass_source(source, count);
                count
            }
            Err(_) => 0,
        }
    }

    /// Takes bytes of plain text ahead together, and puts them behind the newest text in the
    /// making, as many as are copied at once: a body lies among the texts that grow. Returns how
    /// many.
    fn add_run_ahead<S: ByteSource>(&mut self, source: &mut S) -> usize
        requires { is_none_ahead self.old.input.ahead ≡ false }
        ensures takes { TakesRun Definition (S.gives source.old) (S.gives source.new)
            (S.ready source.old) result self.old self.new }
        ensures notes { S.notes source.new ≤ S.notes source.old }
        ensures failures { S.failures source.new ≡ S.failures source.old }
    {
        let room = self.limits.store as usize - self.input_ahead.stored();
        let allowed = (self.limits.bytes - self.charge) as usize;
        let most = room.min(allowed).min(COPIED);
        let front = front_of(&self.input_ahead, self.looked, source, most);
        let count = text_in_front(front);
        if count == 0 {
            return 0;
        }
        let copy = copied(at_most(front, count));
        match self.add(at_most(&copy, count)) {
            Ok(()) => {
                self.pass_front(source, count, false);
                count
            }
            Err(_) => 0,
        }
    }
}

/// A copy of so few bytes, at the beginning of an array.
#[inline(always)]
fn copied(bytes: &[u8]) -> [u8; COPIED]
    requires { length bytes.now ≤ 64 }
    ensures { take (length bytes.now) result ≡ bytes.now }
{
    let mut copy = [0; COPIED];
    copy[..bytes.len()].copy_from_slice(bytes);
    copy
}

/// How many of these bytes are taken of such a run: they are held in arguments, change what is half
/// read, or change nothing here.
#[inline(always)]
pub(super) fn take_part(
    kind: RunKind,
    front: &[u8],
    arguments: &mut ArgumentTexts,
    escapes: &mut OpenEscapes,
) -> usize
    requires arguments { is_held kind ≡ true
        → held arguments.old.arguments + length front.now ≤ arguments.old.room }
    requires escapes { is_held kind ≡ true
        → texts_held escapes.old.escapes + length front.now ≤ escapes.old.room }
    ensures takes { TakesPart kind front.now result
        arguments.old arguments.new escapes.old escapes.new }
    ensures stops { (most : ℕ) → kind ≡ CallArguments most
        → StopsAt (Some most) front.now result arguments.new.arguments }
{
    match kind {
        RunKind::Text => 0,
        RunKind::Blanks => blanks_in_front(front),
        RunKind::Arguments => arguments.take_front(front, None),
        RunKind::CallArguments(most) => arguments.take_front(front, Some(most)),
        RunKind::Name => escapes.read_front(front),
        RunKind::Condition => escapes.take_front(front),
        RunKind::Definition => text_in_front(front),
        RunKind::Ignored => text_in_front(front),
        RunKind::Dropped { within_block } => passed_len(front, within_block),
    }
}

/// How many blanks these bytes begin with.
#[inline(always)]
pub(super) fn blanks_in_front(bytes: &[u8]) -> usize
    ensures { result ≡ length (take_while (λ b. b == blank) bytes.now) }
{
    bytes.iter().take_while(|byte| **byte == b' ').count()
}

/// Bytes of plain text of the source that stand ready, so many at the most.
#[inline(always)]
fn text_ready<S: ByteSource>(source: &S, most: usize) -> &[u8]
    ensures bytes { result.now ≡ take (length result.now) (S.ready source.now) }
    ensures among { length result.now ≤ length (S.ready source.now) }
    ensures few { length result.now ≤ most }
    ensures plain { AllByRecursion (λ b. is_text_byte b ≡ true) result.now }
    ensures whole { result.now ≡ take_while is_text_byte (take most (S.ready source.now)) }
{
    let front = at_most(source.buffered(), most);
    at_most(front, text_in_front(front))
}
