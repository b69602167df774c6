//! Bytes that stand in front, of a pushed text, or of a body as they lie together.

ghost use Rattle.std.specs.Prelude.{◌≡◌, ◌+◌, ◌≤◌, drop, length, IfSome, take, Some};
ghost use Rattle.input_model.specs.Input.{first, DoAhead, bytes_ahead, leading};
ghost use Rattle.input_ahead.specs.declared.input_ahead.EventOrBody.TheVariants.{Body};

use super::{EventOrBody, InputAhead};
use crate::pushed_texts::{PushedItem, PushedTexts};
use input_escapes::OpenEscapes;
use roff_store::LeaseId;

impl<E: Copy> InputAhead<E> {
    ghost use Rattle.input_ahead.specs.InputAhead.Calls.{GivesByte, GivesFront};
    ghost use Rattle.input_escapes.specs.OpenEscape.{texts_held};

    /// Gives bytes of a pushed text in front to what is half read, one after another, as long as
    /// it takes them where a condition is read, and so many at the most. Returns how many.
    #[inline(always)]
    pub fn give_front(&mut self, escapes: &mut OpenEscapes, most: usize) -> usize
        requires { bytes_ahead self.old.ahead + texts_held escapes.old.escapes ≤ escapes.old.room }
        ensures gives { GivesFront self.old self.new escapes.old escapes.new result }
        ensures few { result ≤ most }
    {
        let mut count = 0;
        while count < most {
            if !self.give_byte(escapes) {
                return count;
            }
            count += 1;
        }
        count
    }

    /// Gives the byte in front to what is half read, if it is one of a pushed text, and is taken
    /// where a condition is read. Returns whether it was given; else nothing happens.
    #[inline(always)]
    fn give_byte(&mut self, escapes: &mut OpenEscapes) -> bool
        requires { bytes_ahead self.old.ahead + texts_held escapes.old.escapes ≤ escapes.old.room }
        ensures { GivesByte self.old self.new escapes.old escapes.new result }
    {
        match self.pushed_texts.front() {
            Some(PushedItem::Byte(byte)) => {
                if !escapes.take_on(byte) {
                    return false;
                }
                let _ = self.pushed_texts.take_known();
                true
            }
            Some(PushedItem::Do(_)) => false,
            Some(PushedItem::Free(_)) => false,
            Some(PushedItem::End) => false,
            Some(PushedItem::Return(_)) => false,
            None => false,
        }
    }

    /// Bytes of a body in front, as they lie together, or a byte of a text; none where anything
    /// else is in front.
    #[inline(always)]
    pub fn front(&self) -> &[u8]
        ensures { result.now ≡ take (length result.now) (leading self.now.ahead) }
    {
        match self.pushed_texts.front() {
            Some(PushedItem::Do(EventOrBody::Body(lease))) => self.texts.lease_front(lease),
            Some(PushedItem::Do(EventOrBody::Event(_))) => &[],
            Some(PushedItem::Byte(_)) => self.pushed_texts.front_byte(),
            Some(PushedItem::Free(_)) => &[],
            Some(PushedItem::End) => &[],
            Some(PushedItem::Return(_)) => &[],
            None => &[],
        }
    }

    /// Takes so many bytes in front at once.
    #[inline(always)]
    pub fn pass(&mut self, count: usize)
        requires { count ≤ length (leading self.old.ahead) }
        ensures { self.new ≡ record self.old { ahead = drop count self.old.ahead } }
    {
        if count == 0 {
            return;
        }
        if let Some(lease) = body_in_front(&self.pushed_texts)
            && count < self.texts.lease_rest(lease)
        {
            self.texts.lease_pass(lease, count);
            return;
        }
        self.pass_all(count);
    }

    /// Takes so many bytes in front at once, which may be the last ones of a body, or of several
    /// texts.
    #[inline(never)]
    fn pass_all(&mut self, count: usize)
        requires { count ≤ length (leading self.old.ahead) }
        ensures { self.new ≡ record self.old { ahead = drop count self.old.ahead } }
    {
        let mut left = count;
        while left > 0 {
            left -= self.pass_some(left);
        }
    }

    /// Takes some of so many bytes in front: those of a body, or else one. Returns how many.
    #[inline(always)]
    fn pass_some(&mut self, most: usize) -> usize
        requires some { 1 ≤ most }
        requires among { most ≤ length (leading self.old.ahead) }
        ensures some { 1 ≤ result }
        ensures few { result ≤ most }
        ensures taken { self.new ≡ record self.old { ahead = drop result self.old.ahead } }
    {
        if let Some(lease) = body_in_front(&self.pushed_texts) {
            let rest = self.texts.lease_rest(lease);
            if most < rest {
                self.texts.lease_pass(lease, most);
                return most;
            }
            self.texts.release(lease);
            let _ = self.pushed_texts.take_known();
            return rest;
        }
        let _ = self.take();
        1
    }
}

/// The lease on the body in front, if one is.
#[inline(always)]
fn body_in_front<E: Copy>(pushed_texts: &PushedTexts<EventOrBody<E>>) -> Option<LeaseId>
    ensures { IfSome result (λ id. Some (DoAhead (Body id)) ≡ first pushed_texts.now.ahead) }
{
    match pushed_texts.front() {
        Some(PushedItem::Do(EventOrBody::Body(lease))) => Some(lease),
        Some(PushedItem::Do(EventOrBody::Event(_))) => None,
        Some(PushedItem::Byte(_)) => None,
        Some(PushedItem::Free(_)) => None,
        Some(PushedItem::End) => None,
        Some(PushedItem::Return(_)) => None,
        None => None,
    }
}
