//! What is taken at once and read no further: bytes that are passed over, newlines, and ends.

ghost use Rattle.std.specs.Prelude.{false, true, ◌≡◌, ◌≤◌, ◌∷◌, length, take, take_while};
ghost use Rattle.input_model.specs.Input.{ByteAhead, EndAhead, ReturnAhead};
ghost use Rattle.input_source.specs.Bytes.{is_passed, newline};

use super::{EventOrBody, InputAhead};
use crate::pushed_texts::PushedItem;
use input_source::passed_len;

impl<E: Copy> InputAhead<E> {
    ghost use Rattle.input_ahead.specs.InputAhead.Calls.{PassesFront};

    /// Passes over bytes of a body in front that lie together, so many at most, up to the first
    /// that isn't passed. The last byte of a body stays. Returns how many.
    pub fn pass_over(&mut self, within_block: bool, most: usize) -> usize
        ensures { PassesFront self.old self.new within_block most result }
    {
        match self.pushed_texts.front() {
            Some(PushedItem::Do(EventOrBody::Body(lease))) => {
                let most = most.min(self.texts.lease_rest(lease) - 1);
                let passed = passed_of(self.texts.lease_front(lease), within_block, most);
                self.texts.lease_pass(lease, passed);
                passed
            }
            Some(PushedItem::Do(EventOrBody::Event(_))) => 0,
            Some(PushedItem::Byte(_)) => 0,
            Some(PushedItem::Free(_)) => 0,
            Some(PushedItem::End) => 0,
            Some(PushedItem::Return(_)) => 0,
            None => 0,
        }
    }

    /// Takes a newline in front, if it is one of a body. Returns whether it did.
    #[inline(always)]
    pub fn pass_newline(&mut self) -> bool
        ensures taken { result ≡ true
            → self.old ≡ record self.new { ahead = ByteAhead newline ∷ self.new.ahead } }
        ensures unchanged { result ≡ false → self.new ≡ self.old }
    {
        match self.pushed_texts.front() {
            Some(PushedItem::Do(EventOrBody::Body(lease))) => {
                if self.texts.lease_rest(lease) < 2 {
                    return self.pass_last_newline();
                }
                if self.texts.lease_front(lease)[0] != b'\n' {
                    return false;
                }
                self.texts.lease_pass(lease, 1);
                true
            }
            Some(PushedItem::Do(EventOrBody::Event(_))) => false,
            Some(PushedItem::Byte(_)) => false,
            Some(PushedItem::Free(_)) => false,
            Some(PushedItem::End) => false,
            Some(PushedItem::Return(_)) => false,
            None => false,
        }
    }

    /// Takes a newline in front, if it is the last byte of a body; the body's lease ends then.
    /// Returns whether it did.
    #[inline(never)]
    fn pass_last_newline(&mut self) -> bool
        ensures taken { result ≡ true
            → self.old ≡ record self.new { ahead = ByteAhead newline ∷ self.new.ahead } }
        ensures unchanged { result ≡ false → self.new ≡ self.old }
    {
        match self.pushed_texts.front() {
            Some(PushedItem::Do(EventOrBody::Body(lease))) => {
                if self.texts.lease_rest(lease) != 1 {
                    return false;
                }
                if self.texts.lease_front(lease)[0] != b'\n' {
                    return false;
                }
                self.texts.release(lease);
                self.pushed_texts.take();
                true
            }
            Some(PushedItem::Do(EventOrBody::Event(_))) => false,
            Some(PushedItem::Byte(_)) => false,
            Some(PushedItem::Free(_)) => false,
            Some(PushedItem::End) => false,
            Some(PushedItem::Return(_)) => false,
            None => false,
        }
    }

    /// Takes the end of a text in front, if one is. Returns whether it did.
    #[inline(always)]
    pub fn pass_end(&mut self) -> bool
        ensures taken { result ≡ true
            → self.old ≡ record self.new { ahead = EndAhead ∷ self.new.ahead } }
        ensures unchanged { result ≡ false → self.new ≡ self.old }
    {
        match self.pushed_texts.front() {
            Some(PushedItem::End) => {
                let _end = self.pushed_texts.take_known();
                true
            }
            Some(PushedItem::Do(_)) => false,
            Some(PushedItem::Byte(_)) => false,
            Some(PushedItem::Free(_)) => false,
            Some(PushedItem::Return(_)) => false,
            None => false,
        }
    }

    /// Takes the end of a call in front that leads back to a line's beginning, if one is. Returns
    /// whether it did.
    #[inline(always)]
    pub fn pass_return(&mut self) -> bool
        ensures taken { result ≡ true
            → self.old ≡ record self.new { ahead = ReturnAhead 0 ∷ self.new.ahead } }
        ensures unchanged { result ≡ false → self.new ≡ self.old }
    {
        match self.pushed_texts.front() {
            Some(PushedItem::Return(back)) => {
                if back > 0 {
                    return false;
                }
                let _return = self.pushed_texts.take_known();
                true
            }
            Some(PushedItem::Do(_)) => false,
            Some(PushedItem::Byte(_)) => false,
            Some(PushedItem::Free(_)) => false,
            Some(PushedItem::End) => false,
            None => false,
        }
    }
}

/// How many of these bytes are passed over, and no more than so many.
fn passed_of(bytes: &[u8], within_block: bool, most: usize) -> usize
    ensures within { result ≤ most }
    ensures passed { take result bytes.now
        ≡ take_while (is_passed within_block) (take most bytes.now) }
    ensures among { result ≤ length bytes.now }
{
    passed_len(bytes.split_at(most.min(bytes.len())).0, within_block)
}
