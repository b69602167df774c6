//! What is taken at once and read no further: newlines, and ends.

ghost use Rattle.std.specs.Prelude.{true, false, ◌≡◌, ◌≤◌, ◌<◌, [], ◌∷◌};
ghost use Rattle.input_source.specs.Bytes.{newline};
ghost use Rattle.input_model.specs.Input.{is_none_ahead};

use super::Unread;
use super::calls::end_call;
use input_source::ByteSource;

impl<E: Copy> Unread<E> {
    ghost use Rattle.roff_scan.specs.Unread.Calls.{PassesEnd, PassesFront, PassesNewline};
    ghost use Rattle.roff_scan.specs.Unread.Calls.{PassesReturn};

    /// Takes a newline at once that stands in front, of the source or of a body, if the limit on
    /// bytes allows it. Whether anything is half read isn't looked at. Returns whether it did.
    #[inline(always)]
    pub fn pass_newline<S: ByteSource>(&mut self, source: &mut S) -> bool
        ensures passes { result ≡ true → PassesFront (S.gives source.old) (S.gives source.new)
            (newline ∷ []) self.old self.new }
        ensures unchanged { result ≡ false → (self.new ≡ self.old) × (source.new ≡ source.old) }
        ensures notes { S.notes source.new ≤ S.notes source.old }
        ensures failures { S.failures source.new ≡ S.failures source.old }
    {
        if self.limits.bytes == self.charge {
            return false;
        }
        if !self.input_ahead.is_empty() {
            return self.pass_newline_ahead();
        }
        self.pass_newline_ready(source)
    }

    /// Takes a newline of a body at once that stands in front. Returns whether it did; else nothing
    /// happens.
    #[inline(always)]
    fn pass_newline_ahead(&mut self) -> bool
        requires room { self.old.input.charge < self.old.limits.bytes }
        ensures passes { result ≡ true → PassesNewline self.old self.new }
        ensures unchanged { result ≡ false → self.new ≡ self.old }
    {
        if !self.input_ahead.pass_newline() {
            return false;
        }
        self.charge += 1;
        true
    }

    /// Takes a newline of the source at once, where nothing is ahead, if it stands ready and no
    /// byte was looked at. Returns whether it did; else nothing happens.
    #[inline(always)]
    fn pass_newline_ready<S: ByteSource>(&mut self, source: &mut S) -> bool
        requires room { self.old.input.charge < self.old.limits.bytes }
        requires none_ahead { is_none_ahead self.old.input.ahead ≡ true }
        ensures passes { result ≡ true → PassesFront (S.gives source.old) (S.gives source.new)
            (newline ∷ []) self.old self.new }
        ensures unchanged { result ≡ false → (self.new ≡ self.old) × (source.new ≡ source.old) }
        ensures notes { S.notes source.new ≤ S.notes source.old }
        ensures failures { S.failures source.new ≡ S.failures source.old }
    {
        if !self.looked.is_nothing() {
            return false;
        }
        match source.buffered() {
            [b'\n', ..] => {
                self.count(b'\n');
                source.pass(1);
                true
            }
            _ => false,
        }
    }

    /// Takes the end of a text at once that stands in front, if the limit on bytes allows it. What
    /// is half read isn't looked at. Returns whether it did.
    #[inline(always)]
    pub fn pass_end(&mut self) -> bool
        ensures passes { result ≡ true → PassesEnd self.old self.new }
        ensures unchanged { result ≡ false → self.new ≡ self.old }
    {
        if self.limits.bytes == self.charge {
            return false;
        }
        if !self.input_ahead.pass_end() {
            return false;
        }
        self.charge += 1;
        true
    }

    /// Takes the end of a call at once that stands in front and leads back to a line's beginning,
    /// if the limit on bytes allows it. What is half read isn't looked at. Returns whether it did.
    #[inline(always)]
    pub fn pass_return(&mut self) -> bool
        ensures passes { result ≡ true → PassesReturn self.old self.new }
        ensures unchanged { result ≡ false → self.new ≡ self.old }
    {
        if self.limits.bytes == self.charge {
            return false;
        }
        if !self.input_ahead.pass_return() {
            return false;
        }
        self.charge += 1;
        end_call(&mut self.calls, &mut self.results);
        true
    }
}
