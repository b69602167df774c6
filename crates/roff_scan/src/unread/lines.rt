//! Control lines: bytes that are held in the arguments of one behind its name, and the newline
//! that ends it.

ghost use Rattle.std.specs.Prelude.{◌≡◌, ◌≤◌, ◌+◌, ◌-◌, ◌++◌, ◌∷◌, [], drop, None, Some, true};
ghost use Rattle.input_model.specs.Input.{is_none_ahead, pushed};
ghost use Rattle.roff_scan.specs.Unread.Lines.{is_ended, standing};
ghost use Rattle.input_source.specs.Bytes.{newline};

use super::Unread;
use super::fronts::front_of;
use input_source::ByteSource;

/// What stands behind bytes that were held in arguments.
#[derive(Clone, Copy)]
pub enum BehindHeld {
    /// None of the bytes that lie together with them: the end of a text may stand there.
    End,
    /// A newline.
    Newline,
    /// A backslash and the letter of a register, a string or an argument: its escape may stand
    /// there.
    Named,
    /// A backslash and a quote: a comment begins there.
    Comment,
    /// Any other byte.
    Other,
}

impl<E: Copy> Unread<E> {
    ghost use Rattle.roff_scan.specs.Unread.Calls.{IsFront, NoNewline, PassesFront, PassesSource};
    ghost use Rattle.roff_scan.specs.Unread.Calls.{front_bytes};
    ghost use Rattle.roff_scan.specs.Unread.Lines.{HoldsLine, StandsNewline, ended_by, line_room};

    /// Takes so many bytes that stand in front, then bytes behind them that are held in the
    /// arguments of the line, as they lie together, and a newline behind these, if one stands
    /// there, which isn't read yet: no more than the limits have room for. Whether anything is half
    /// read isn't looked at.
    #[inline(never)]
    pub fn hold_line<S: ByteSource>(&mut self, source: &mut S, skipped: usize) -> BehindHeld
        requires front { IsFront skipped (S.ready source.old) self.old }
        requires plain { NoNewline (front_bytes skipped (S.ready source.old) self.old) }
        ensures holds { HoldsLine None skipped (S.gives source.old) (S.gives source.new)
            (S.ready source.old) result self.old self.new }
        ensures notes { S.notes source.new ≤ S.notes source.old }
        ensures failures { S.failures source.new ≡ S.failures source.old }
    {
        self.hold_behind(None, source, skipped)
    }

    /// Takes so many bytes that stand in front, then bytes behind them that are held in the
    /// arguments of the line, as long as fewer than so many are whole, and a newline behind these,
    /// if one stands there: no more than the limits have room for. Returns what stands behind those
    /// that are held.
    #[inline(never)]
    pub fn hold_call<S: ByteSource>(
        &mut self,
        source: &mut S,
        skipped: usize,
        most: usize,
    ) -> BehindHeld
        requires front { IsFront skipped (S.ready source.old) self.old }
        requires plain { NoNewline (front_bytes skipped (S.ready source.old) self.old) }
        ensures holds { HoldsLine (Some most) skipped (S.gives source.old) (S.gives source.new)
            (S.ready source.old) result self.old self.new }
        ensures notes { S.notes source.new ≤ S.notes source.old }
        ensures failures { S.failures source.new ≡ S.failures source.old }
    {
        self.hold_behind(Some(most), source, skipped)
    }

    /// Takes so many bytes that stand in front, then bytes behind them that are held in the
    /// arguments of the line, where there is a bound as long as fewer than that are whole, and a
    /// newline behind these: no more than the limits have room for. Returns what stands behind
    /// those that are held.
    #[inline(always)]
    fn hold_behind<S: ByteSource>(
        &mut self,
        most: Option<usize>,
        source: &mut S,
        skipped: usize,
    ) -> BehindHeld
        requires front { IsFront skipped (S.ready source.old) self.old }
        requires plain { NoNewline (front_bytes skipped (S.ready source.old) self.old) }
        ensures holds { HoldsLine most skipped (S.gives source.old) (S.gives source.new)
            (S.ready source.old) result self.old self.new }
        ensures notes { S.notes source.new ≤ S.notes source.old }
        ensures failures { S.failures source.new ≡ S.failures source.old }
    {
        let room = self.line_room(skipped);
        let front = front_of(&self.input_ahead, self.looked, source, room);
        let rest = bytes_behind(front, skipped);
        let count = self.arguments.take_front(rest, most);
        let behind = standing_at(rest, count);
        self.pass_to(source, skipped + count, behind);
        behind
    }

    /// Takes at once so many bytes that stand in front, of which none is a newline, and then the
    /// newline behind them, if this stands there.
    #[inline(always)]
    fn pass_to<S: ByteSource>(&mut self, source: &mut S, count: usize, behind: BehindHeld)
        requires front { IsFront count (S.ready source.old) self.old }
        requires plain { NoNewline (front_bytes count (S.ready source.old) self.old) }
        requires ended { is_ended behind ≡ true
            → StandsNewline count (S.ready source.old) self.old }
        ensures passes { PassesFront (S.gives source.old) (S.gives source.new)
            (ended_by behind (front_bytes count (S.ready source.old) self.old)) self.old self.new }
        ensures notes { S.notes source.new ≤ S.notes source.old }
        ensures failures { S.failures source.new ≡ S.failures source.old }
    {
        match behind {
            BehindHeld::Newline => self.end_line(source, count),
            _ => self.pass_front(source, count, false),
        }
    }

    /// How many bytes of a line the limits have room for, of which all but the first so many are
    /// held.
    #[inline(always)]
    fn line_room(&self, skipped: usize) -> usize
        requires { self.now.input.charge + skipped ≤ self.now.limits.bytes }
        ensures room { result ≡ line_room skipped self.now }
        ensures bytes { self.now.input.charge + result ≤ self.now.limits.bytes }
        ensures skipped { skipped ≤ result }
        ensures stack { pushed self.now.input + (result - skipped) ≤ self.now.limits.stack }
    {
        let allowed = (self.limits.bytes - self.charge) as usize;
        allowed.min(skipped + (self.limits.stack as usize - self.pushed()))
    }

    /// Takes at once so many bytes that stand in front, of which none is a newline, and then the
    /// newline behind them, which isn't read yet.
    #[inline(never)]
    pub fn pass_line<S: ByteSource>(&mut self, source: &mut S, count: usize)
        requires plain { NoNewline (front_bytes count (S.ready source.old) self.old) }
        requires ended { StandsNewline count (S.ready source.old) self.old }
        ensures passes { PassesFront (S.gives source.old) (S.gives source.new)
            (front_bytes count (S.ready source.old) self.old ++ newline ∷ []) self.old self.new }
        ensures notes { S.notes source.new ≤ S.notes source.old }
        ensures failures { S.failures source.new ≡ S.failures source.old }
    {
        self.end_line(source, count);
    }

    /// Takes at once so many bytes that stand in front and the newline behind them, of the source
    /// or of what is ahead.
    #[inline(always)]
    fn end_line<S: ByteSource>(&mut self, source: &mut S, count: usize)
        requires plain { NoNewline (front_bytes count (S.ready source.old) self.old) }
        requires ended { StandsNewline count (S.ready source.old) self.old }
        ensures passes { PassesFront (S.gives source.old) (S.gives source.new)
            (front_bytes count (S.ready source.old) self.old ++ newline ∷ []) self.old self.new }
        ensures notes { S.notes source.new ≤ S.notes source.old }
        ensures failures { S.failures source.new ≡ S.failures source.old }
    {
        if self.input_ahead.is_empty() {
            self.end_line_ready(source, count);
        } else {
            self.pass_front(source, count + 1, true);
        }
    }

    /// Takes at once so many bytes that the source has ready and the newline behind them, where
    /// nothing is ahead.
    #[inline(always)]
    fn end_line_ready<S: ByteSource>(&mut self, source: &mut S, count: usize)
        requires none_ahead { is_none_ahead self.old.input.ahead ≡ true }
        requires plain { NoNewline (front_bytes count (S.ready source.old) self.old) }
        requires ended { StandsNewline count (S.ready source.old) self.old }
        ensures passes { PassesSource (S.gives source.old) (S.gives source.new)
            (front_bytes count (S.ready source.old) self.old ++ newline ∷ []) self.old self.new }
        ensures notes { S.notes source.new ≤ S.notes source.old }
        ensures failures { S.failures source.new ≡ S.failures source.old }
    {
        // the invariant is known where a field is named
        let _ = &self.limits;
        self.charge += count as u32;
        self.count(b'\n');
        source.pass(count + 1);
    }
}

/// These bytes behind the first ones, of which there are so many; none where there are fewer.
#[inline(always)]
fn bytes_behind(bytes: &[u8], count: usize) -> &[u8]
    ensures { result.now ≡ drop count bytes.now }
{
    if count > bytes.len() {
        return &[];
    }
    bytes.split_at(count).1
}

/// What stands at this place of some bytes.
#[inline(always)]
pub fn standing_at(bytes: &[u8], place: usize) -> BehindHeld
    ensures { result ≡ standing (drop place bytes.now) }
{
    match bytes_behind(bytes, place) {
        [] => BehindHeld::End,
        [b'\n', ..] => BehindHeld::Newline,
        [b'\\', b'"', ..] => BehindHeld::Comment,
        [b'\\', b'n' | b'*' | b'$', ..] => BehindHeld::Named,
        _ => BehindHeld::Other,
    }
}
