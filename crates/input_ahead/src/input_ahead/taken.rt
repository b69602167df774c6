//! Items that are taken from the front one at a time, and what is seen there.

ghost use Rattle.std.specs.Prelude.{false, ◌≡◌, [], ◌∷◌, option_map, IfSome, None, Some};
ghost use Rattle.input_model.specs.Input.{is_none_ahead, front_cost, outermost_back, ByteAhead};
ghost use Rattle.input_escapes.specs.Waiting.{is_ended_by};

use super::{EventOrBody, InputAhead};
use crate::pushed_texts::PushedItem;
use input_escapes::OpenEscapes;
use input_model::{Item, Sight};

impl<E: Copy> InputAhead<E> {
    ghost use Rattle.input_model.specs.Shown.{shown, sighted, seen_ahead};
    ghost use Rattle.input_ahead.specs.InputAhead.Calls.{TakesFront};

    /// What the front item costs, if there is one.
    pub fn cost(&self) -> u32
        ensures { result ≡ front_cost self.now.ahead }
    {
        match self.pushed_texts.front() {
            None | Some(PushedItem::Free(_)) => 0,
            Some(PushedItem::Byte(_)) => 1,
            Some(PushedItem::End) => 1,
            Some(PushedItem::Return(_)) => 1,
            Some(PushedItem::Do(_)) => 1,
        }
    }

    /// Takes the front item.
    pub fn take(&mut self) -> Item<E>
        requires { is_none_ahead self.old.ahead ≡ false }
        ensures { TakesFront self.old self.new (shown result) }
    {
        match self.pushed_texts.front() {
            Some(PushedItem::Byte(byte)) => {
                self.pushed_texts.take();
                Item::Byte(byte)
            }
            Some(PushedItem::Free(byte)) => {
                self.pushed_texts.take();
                Item::Byte(byte)
            }
            Some(PushedItem::End) => {
                self.pushed_texts.take();
                Item::End
            }
            Some(PushedItem::Return(back)) => {
                self.pushed_texts.take();
                Item::Return(back)
            }
            Some(PushedItem::Do(EventOrBody::Event(event))) => {
                self.pushed_texts.take();
                Item::Do(event)
            }
            Some(PushedItem::Do(EventOrBody::Body(lease))) => {
                let byte = self.texts.lease_front(lease)[0];
                if self.texts.lease_rest(lease) == 1 {
                    self.texts.release(lease);
                    self.pushed_texts.take();
                    return Item::Byte(byte);
                }
                self.texts.lease_pass(lease, 1);
                Item::Byte(byte)
            }
            None => unreachable!(),
        }
    }

    /// Takes the byte in front, if it is one of a text or of a body.
    #[inline(always)]
    pub fn take_ready(&mut self) -> Option<u8>
        ensures taken { IfSome result (λ b.
            self.old ≡ record self.new { ahead = ByteAhead b ∷ self.new.ahead }) }
        ensures unchanged { result ≡ None → self.new ≡ self.old }
    {
        match self.pushed_texts.front() {
            Some(PushedItem::Byte(byte)) => {
                self.pushed_texts.take();
                Some(byte)
            }
            Some(PushedItem::Do(EventOrBody::Body(lease))) => {
                if self.texts.lease_rest(lease) < 2 {
                    return self.take_last();
                }
                let byte = self.texts.lease_front(lease)[0];
                self.texts.lease_pass(lease, 1);
                Some(byte)
            }
            Some(PushedItem::Do(EventOrBody::Event(_))) => None,
            Some(PushedItem::Free(_)) => None,
            Some(PushedItem::End) => None,
            Some(PushedItem::Return(_)) => None,
            None => None,
        }
    }

    /// Takes the byte in front, if it is the last one of a body.
    #[inline(never)]
    fn take_last(&mut self) -> Option<u8>
        ensures taken { IfSome result (λ b.
            self.old ≡ record self.new { ahead = ByteAhead b ∷ self.new.ahead }) }
        ensures unchanged { result ≡ None → self.new ≡ self.old }
    {
        match self.pushed_texts.front() {
            Some(PushedItem::Do(EventOrBody::Body(lease))) => {
                if self.texts.lease_rest(lease) != 1 {
                    return None;
                }
                let byte = self.texts.lease_front(lease)[0];
                self.texts.release(lease);
                self.pushed_texts.take();
                Some(byte)
            }
            Some(PushedItem::Do(EventOrBody::Event(_))) => None,
            Some(PushedItem::Byte(_)) => None,
            Some(PushedItem::Free(_)) => None,
            Some(PushedItem::End) => None,
            Some(PushedItem::Return(_)) => None,
            None => None,
        }
    }

    /// Takes the byte in front, if what is half read waits for it, and it is one of a pushed text,
    /// or of a body and not its last. Otherwise nothing happens.
    #[inline(always)]
    pub fn take_waiting(&mut self, escapes: &OpenEscapes) -> Option<u8>
        ensures taken { IfSome result (λ b.
            self.old ≡ record self.new { ahead = ByteAhead b ∷ self.new.ahead }) }
        ensures waits { IfSome result (λ b. is_ended_by escapes.now.escapes (Some b) ≡ false) }
        ensures unchanged { result ≡ None → self.new ≡ self.old }
    {
        match self.pushed_texts.front() {
            Some(PushedItem::Byte(byte)) => {
                if !escapes.waits_for(byte) {
                    return None;
                }
                self.pushed_texts.take();
                Some(byte)
            }
            Some(PushedItem::Do(EventOrBody::Body(lease))) => {
                if self.texts.lease_rest(lease) < 2 {
                    return None;
                }
                let byte = self.texts.lease_front(lease)[0];
                if !escapes.waits_for(byte) {
                    return None;
                }
                self.texts.lease_pass(lease, 1);
                Some(byte)
            }
            Some(PushedItem::Do(EventOrBody::Event(_))) => None,
            Some(PushedItem::Free(_)) => None,
            Some(PushedItem::End) => None,
            Some(PushedItem::Return(_)) => None,
            None => None,
        }
    }

    /// What is seen in front, behind any ends of texts; nothing where only those are there.
    pub fn seen(&self) -> Option<Sight>
        ensures { option_map sighted result ≡ seen_ahead self.now.ahead }
    {
        match self.pushed_texts.seen() {
            None => None,
            Some(PushedItem::Do(EventOrBody::Body(lease))) => {
                Some(Sight::Byte(self.texts.lease_front(lease)[0]))
            }
            Some(PushedItem::Byte(byte)) => Some(Sight::Byte(byte)),
            Some(PushedItem::Free(byte)) => Some(Sight::Byte(byte)),
            Some(PushedItem::End) => Some(Sight::Nothing),
            Some(PushedItem::Return(_)) => Some(Sight::Nothing),
            Some(PushedItem::Do(EventOrBody::Event(_))) => Some(Sight::Nothing),
        }
    }

    /// Drops all that stands ahead. Returns what is gone back to behind the outermost end of a
    /// body, by its code; 0 is a line's beginning.
    pub fn clear(&mut self) -> u8
        ensures back { result ≡ outermost_back 0 self.old.ahead }
        ensures change { self.new ≡ record self.old { ahead = [] } }
    {
        let mut outermost = 0;
        while !self.is_empty() {
            if let Item::Return(back) = self.take() {
                outermost = back;
            }
        }
        outermost
    }
}
