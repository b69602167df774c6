//! Bytes that stand in front, as they lie together.

ghost use Rattle.std.specs.Prelude.{true, false, ◌≡◌, ◌≤◌, ◌-◌, length, take};
ghost use Rattle.input_model.specs.declared.looked.Looked.TheVariants.{Nothing};
ghost use Rattle.roff_scan.specs.Unread.Calls.{next_bytes};
ghost use Rattle.input_model.specs.Input.{is_none_ahead};

use super::Unread;
use input_ahead::InputAhead;
use input_model::Looked;
use input_source::{ByteSource, at_most, newlines_among};

impl<E: Copy> Unread<E> {
    ghost use Rattle.roff_scan.specs.Unread.Calls.{front_bytes, IsFront, NoNewline, PassesFront};
    ghost use Rattle.roff_scan.specs.Unread.Calls.{PassesSource};
    ghost use Rattle.input_model.specs.Unread.{asks_to_take};

    /// Bytes that stand in front, as they lie together: of a body ahead, one of a text ahead, or
    /// where nothing is ahead and no byte was looked at, those of the source that stand ready; no
    /// more than the limit on bytes allows. Whether anything is half read isn't looked at.
    #[inline]
    pub fn front<'a, S: ByteSource>(&'a self, source: &'a S) -> &'a [u8]
        ensures bytes { result.now
            ≡ front_bytes (length result.now) (S.ready source.now) self.now }
        ensures front { IsFront (length result.now) (S.ready source.now) self.now }
        ensures whole { asks_to_take self.now ≡ true → result.now
            ≡ take (self.now.limits.bytes - self.now.input.charge) (S.ready source.now) }
    {
        let most = (self.limits.bytes - self.charge) as usize;
        front_of(&self.input_ahead, self.looked, source, most)
    }

    /// Takes at once so many of the bytes that stand in front, each at its cost.
    #[inline(always)]
    pub fn pass<S: ByteSource>(&mut self, source: &mut S, count: usize)
        requires front { IsFront count (S.ready source.old) self.old }
        requires plain { NoNewline (front_bytes count (S.ready source.old) self.old) }
        ensures passes { PassesFront (S.gives source.old) (S.gives source.new)
            (front_bytes count (S.ready source.old) self.old) self.old self.new }
        ensures notes { S.notes source.new ≤ S.notes source.old }
        ensures failures { S.failures source.new ≡ S.failures source.old }
    {
        self.pass_front(source, count, false);
    }

    /// Takes at once so many of the bytes that stand in front, each at its cost; newlines may be
    /// among them, if this holds.
    #[inline(always)]
    pub(super) fn pass_front<S: ByteSource>(&mut self, source: &mut S, count: usize, newlines: bool)
        requires front { IsFront count (S.ready source.old) self.old }
        requires plain { newlines ≡ false
            → NoNewline (front_bytes count (S.ready source.old) self.old) }
        ensures passes { PassesFront (S.gives source.old) (S.gives source.new)
            (front_bytes count (S.ready source.old) self.old) self.old self.new }
        ensures notes { S.notes source.new ≤ S.notes source.old }
        ensures failures { S.failures source.new ≡ S.failures source.old }
    {
        // the invariant is known where a field is named
        let _ = &self.limits;
        if count == 0 {
            return;
        }
        if !self.input_ahead.is_empty() {
            self.input_ahead.pass(count);
            self.charge += count as u32;
            return;
        }
        if newlines {
            self.pass_lines(source, count);
        } else {
            self.pass_source(source, count);
        }
    }

    /// Takes at once so many bytes that the source has ready, one at least, where nothing is ahead.
    /// Newlines may be among them, and count as lines.
    #[inline]
    fn pass_lines<S: ByteSource>(&mut self, source: &mut S, count: usize)
        requires some { 1 ≤ count }
        requires none_ahead { is_none_ahead self.old.input.ahead ≡ true }
        requires front { IsFront count (S.ready source.old) self.old }
        ensures passes { PassesSource (S.gives source.old) (S.gives source.new)
            (front_bytes count (S.ready source.old) self.old) self.old self.new }
        ensures notes { S.notes source.new ≤ S.notes source.old }
        ensures failures { S.failures source.new ≡ S.failures source.old }
    {
        // the invariant is known where a field is named
        let _ = &self.limits;
        if let Some((last, front)) = source.buffered().split_at(count).0.split_last() {
            self.charge += front.len() as u32;
            self.newlines += newlines_among(front);
            self.count(*last);
            source.pass(count);
        }
    }

    /// Takes at once so many bytes that the source has ready, one at least, where nothing is ahead
    /// and none of them is a newline.
    #[inline]
    pub(super) fn pass_source<S: ByteSource>(&mut self, source: &mut S, count: usize)
        requires some { 1 ≤ count }
        requires none_ahead { is_none_ahead self.old.input.ahead ≡ true }
        requires front { IsFront count (S.ready source.old) self.old }
        requires plain { NoNewline (front_bytes count (S.ready source.old) self.old) }
        ensures passes { PassesSource (S.gives source.old) (S.gives source.new)
            (front_bytes count (S.ready source.old) self.old) self.old self.new }
        ensures notes { S.notes source.new ≤ S.notes source.old }
        ensures failures { S.failures source.new ≡ S.failures source.old }
    {
        let line = self.newlines + 1;
        self.line = line;
        self.charge += count as u32;
        source.pass(count);
    }
}

/// Bytes that stand in front, as they lie together, so many at the most: of a body ahead, one of a
/// text ahead, or where nothing is ahead and no byte was looked at, those of the source that stand
/// ready.
#[inline]
pub(super) fn front_of<'a, E: Copy, S: ByteSource>(
    input_ahead: &'a InputAhead<E>,
    looked: Looked,
    source: &'a S,
    most: usize,
) -> &'a [u8]
    ensures bytes { result.now
        ≡ take (length result.now) (next_bytes input_ahead.now.ahead looked (S.ready source.now)) }
    ensures among { length result.now
        ≤ length (next_bytes input_ahead.now.ahead looked (S.ready source.now)) }
    ensures few { length result.now ≤ most }
    ensures whole { is_none_ahead input_ahead.now.ahead ≡ true → looked ≡ Nothing
        → result.now ≡ take most (S.ready source.now) }
{
    if !input_ahead.is_empty() {
        return at_most(input_ahead.front(), most);
    }
    if !looked.is_nothing() {
        return &[];
    }
    at_most(source.buffered(), most)
}
