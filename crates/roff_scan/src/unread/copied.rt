//! Bytes that are copied: they are taken together, newlines among them, and put behind a text in
//! the making.

ghost use Rattle.std.specs.Prelude.{true, ◌+◌, ◌≡◌, ◌≤◌};
ghost use Rattle.input_model.specs.Input.{is_none_ahead};
ghost use Rattle.input_model.specs.Input.Names.{stored};

use super::Unread;
use input_source::{ByteSource, at_most};

impl<E: Copy> Unread<E> {
    ghost use Rattle.roff_scan.specs.Unread.Calls.{IsFront, front_bytes};
    ghost use Rattle.roff_scan.specs.Unread.Copied.{CopiesFront};

    /// Takes at once so many bytes that the source has ready, one at least, where nothing is ahead,
    /// and puts the first so many of them behind the newest text in the making, if there is one.
    /// Newlines may be among them, and count as lines.
    #[inline(never)]
    pub fn copy_front<S: ByteSource>(&mut self, source: &mut S, kept: usize, count: usize)
        requires some { 1 ≤ count }
        requires none_ahead { is_none_ahead self.old.input.ahead ≡ true }
        requires front { IsFront count (S.ready source.old) self.old }
        requires room { stored self.old.input + kept ≤ self.old.limits.store }
        ensures copies { CopiesFront (S.gives source.old) (S.gives source.new)
            (front_bytes count (S.ready source.old) self.old)
            (front_bytes kept (S.ready source.old) self.old) self.old self.new }
        ensures notes { S.notes source.new ≤ S.notes source.old }
        ensures failures { S.failures source.new ≡ S.failures source.old }
    {
        // the invariant is known where a field is named
        let _ = &self.limits;
        match self.add(at_most(source.buffered(), kept)) {
            Ok(()) => self.pass_front(source, count, true),
            Err(_) => {}
        }
    }
}
