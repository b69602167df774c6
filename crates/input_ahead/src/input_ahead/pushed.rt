//! Texts, bodies and events that are put in front.

ghost use Rattle.std.specs.Prelude.{true, false, ◌≡◌, ◌+◌, ◌<◌, ◌≤◌, ◌∷◌, ◌++◌, map, length, None};
ghost use Rattle.std.specs.Prelude.{ℕ};
ghost use Rattle.std.specs.Prelude.{List};
ghost use Rattle.std.specs.List.{last_or};
ghost use Rattle.input_model.specs.Input.{ByteAhead, FreeAhead, EndAhead, ReturnAhead, DoAhead};
ghost use Rattle.input_model.specs.Input.{bytes_ahead, ends_ahead, events_ahead, frees_ahead};
ghost use Rattle.input_model.specs.Input.{most_events, most_frees};
ghost use Rattle.input_model.specs.Input.Calls.{called_text, lacks_newline};
ghost use Rattle.input_ahead.specs.InputAhead.Bodies.{with_bodies};
ghost use Rattle.input_ahead.specs.InputAhead.Calls.{PutsBytes};
ghost use Rattle.input_ahead.specs.InputAhead.Kept.{is_end_next, IsSound};
ghost use Rattle.roff_store.specs.Texts.{body_of};

use super::{Called, EventOrBody, InputAhead};
use crate::pushed_texts::PushedTexts;
use roff_num::Name;
use roff_store::{Kind, Leased, TextStore};

impl<E: Copy> InputAhead<E> {
    ghost use Rattle.input_ahead.specs.InputAhead.Calls.{PutsWithin};

    /// Puts a text and its end in front.
    pub fn push(&mut self, text: &[u8])
        requires bytes { length text.now + bytes_ahead self.old.ahead ≤ self.old.most_bytes }
        requires ends { ends_ahead self.old.ahead < self.old.most_texts }
        ensures { self.new
            ≡ record self.old { ahead = map ByteAhead text.now ++ EndAhead ∷ self.old.ahead } }
    {
        self.pushed_texts.push(text);
    }

    /// How many bytes the body of a name has.
    pub fn body_len(&self, name: &Name) -> usize
        ensures { result ≡ length (body_of name.now self.now.texts) }
    {
        body_len(&self.texts, name)
    }

    /// Puts the body of a name, if it has so many bytes at the most, and its end in front; it is
    /// read where it lies. Returns whether it did.
    pub fn push_body(&mut self, name: &Name, most: usize) -> bool
        requires bytes { most + bytes_ahead self.old.ahead ≤ self.old.most_bytes }
        requires ends { ends_ahead self.old.ahead < self.old.most_texts }
        ensures { PutsWithin self.old self.new (body_of name.now self.old.texts) EndAhead most
            result }
    {
        match self.texts.lease_within(name, 1, most) {
            Leased::Body(lease, _) => {
                self.pushed_texts.push_end();
                self.pushed_texts.put_back(EventOrBody::Body(lease));
                true
            }
            Leased::Nothing => {
                self.pushed_texts.push_end();
                true
            }
            Leased::Long => false,
        }
    }

    /// Puts the body of a name as a line calls it in front, if it then has so many bytes at the
    /// most, and an end of a call that leads back to what this code stands for; it is read where it
    /// lies. Returns whether it did.
    #[inline(always)]
    pub fn call(&mut self, name: &Name, back: u8, most: usize) -> bool
        requires bytes { most + bytes_ahead self.old.ahead ≤ self.old.most_bytes }
        requires ends { ends_ahead self.old.ahead < self.old.most_texts }
        ensures { PutsWithin self.old self.new (called_text (body_of name.now self.old.texts))
            (ReturnAhead back) most result }
    {
        // There is room for a newline behind it, whether it lacks one or not.
        match self.texts.lease_within(name, 1, most.saturating_sub(1)) {
            Leased::Body(lease, last) => {
                self.pushed_texts.push_return(back);
                if lacks_newline(last) {
                    self.pushed_texts.push_byte(b'\n');
                    self.pushed_texts.put_back(EventOrBody::Body(lease));
                    return true;
                }
                self.pushed_texts.put_back(EventOrBody::Body(lease));
                true
            }
            Leased::Nothing => {
                self.pushed_texts.push_return(back);
                true
            }
            Leased::Long => self.call_long(name, back, most),
        }
    }

    /// Puts the body of a name as a line calls it in front, with an end of a call and this code, if
    /// it has so many bytes at the most. These are counted with the newline that it may lack.
    /// Returns whether it did.
    #[inline(never)]
    fn call_long(&mut self, name: &Name, back: u8, most: usize) -> bool
        requires bytes { most + bytes_ahead self.old.ahead ≤ self.old.most_bytes }
        requires ends { ends_ahead self.old.ahead < self.old.most_texts }
        ensures { PutsWithin self.old self.new (called_text (body_of name.now self.old.texts))
            (ReturnAhead back) most result }
    {
        let called = self.called(name);
        if called.len > most {
            return false;
        }
        self.push_call(name, back, called);
        true
    }

    /// How a line calls the body of a name.
    pub fn called(&self, name: &Name) -> Called
        ensures len { result.len ≡ length (called_text (body_of name.now self.now.texts)) }
        ensures lacks { result.lacks_newline ≡ lacks_newline (body_of name.now self.now.texts) }
    {
        // No body is longer than all of them.
        let _ = self.texts.used();
        let body = self.texts.body_end(name);
        if lacks_newline(body.last) {
            Called {
                len: body.len + 1,
                lacks_newline: true,
            }
        } else {
            Called {
                len: body.len,
                lacks_newline: false,
            }
        }
    }

    /// Puts the body of a name that a line calls so in front, and the end of the call; it is read
    /// where it lies.
    fn push_call(&mut self, name: &Name, back: u8, called: Called)
        requires len { called.len ≡ length (called_text (body_of name.now self.old.texts)) }
        requires lacks { called.lacks_newline ≡ lacks_newline (body_of name.now self.old.texts) }
        requires bytes { length (called_text (body_of name.now self.old.texts))
            + bytes_ahead self.old.ahead ≤ self.old.most_bytes }
        requires ends { ends_ahead self.old.ahead < self.old.most_texts }
        ensures { self.new ≡ record self.old {
          ahead = map ByteAhead (called_text (body_of name.now self.old.texts))
              ++ ReturnAhead back ∷ self.old.ahead;
        } }
    {
        self.pushed_texts.push_return(back);
        if called.lacks_newline {
            self.pushed_texts.push_byte(b'\n');
            put_body(
                &mut self.pushed_texts,
                &mut self.texts,
                name,
                called.len - 1,
            );
        } else {
            put_body(&mut self.pushed_texts, &mut self.texts, name, called.len);
        }
    }

    /// Puts an event in front, if there is room for it. Returns whether there is.
    #[cold]
    pub fn put_back(&mut self, event: E) -> bool
        ensures room { events_ahead self.old.ahead < most_events self.old.most_texts
            → result ≡ true }
        ensures put { result ≡ true
            → self.new ≡ record self.old { ahead = DoAhead event ∷ self.old.ahead } }
        ensures unchanged { result ≡ false → self.new ≡ self.old }
    {
        if !self.pushed_texts.has_room() {
            return false;
        }
        self.pushed_texts.put_back(EventOrBody::Event(event));
        true
    }

    /// Puts bytes in front again.
    pub fn free(&mut self, bytes: &[u8])
        requires { frees_ahead self.old.ahead + length bytes.now ≤ most_frees }
        ensures { self.new ≡ record self.old { ahead = map FreeAhead bytes.now ++ self.old.ahead } }
    {
        self.pushed_texts.free(bytes);
    }
}

/// How many bytes the body of a name has.
fn body_len(texts: &TextStore, name: &Name) -> usize
    ensures { result ≡ length (body_of name.now texts.now) }
{
    match texts.get(name) {
        Some(Kind::Body(len)) => len,
        _ => 0,
    }
}

/// Whether a body has bytes, and no newline at its end, by its last byte.
pub(super) fn lacks_newline(last: Option<u8>) -> bool
    ensures { (body : List ℕ) → last ≡ last_or None body → result ≡ lacks_newline body }
{
    match last {
        Some(byte) => byte != b'\n',
        None => false,
    }
}

/// Puts the body of a name, which has so many bytes, in front of an end, or of bytes before one.
fn put_body<E: Copy>(
    pushed_texts: &mut PushedTexts<EventOrBody<E>>,
    texts: &mut TextStore,
    name: &Name,
    len: usize,
)
    requires len { len ≡ length (body_of name.now texts.old) }
    requires sound { IsSound {E = E}
        (record { pushed_texts = pushed_texts.old; texts = texts.old }) }
    requires end { is_end_next pushed_texts.old.ahead ≡ true }
    requires bytes { length (body_of name.now texts.old)
        + bytes_ahead (with_bodies texts.old pushed_texts.old.ahead) ≤ pushed_texts.old.most_bytes }
    ensures { PutsBytes (record { pushed_texts = pushed_texts.old; texts = texts.old })
        (record { pushed_texts = pushed_texts.new; texts = texts.new })
        (body_of name.now texts.old) }
{
    if len == 0 {
        return;
    }
    if let Some(lease) = texts.lease(name) {
        pushed_texts.put_back(EventOrBody::Body(lease));
    }
}
