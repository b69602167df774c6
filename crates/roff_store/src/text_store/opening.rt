//! Texts in the making.

ghost use Rattle.std.specs.Prelude.{◌≡◌, ◌<◌, true, [], ◌∷◌, length, option_map, IsTrue, ◌↔◌};
ghost use Rattle.std.specs.Prelude.{IfSome, IfNone};
ghost use Rattle.roff_store.specs.TextStore.Strands.{strands_of};

use super::{Meaning, TextStore, body_len, release_body};
use crate::strand::Strand;
use crate::text::OpenId;
use roff_num::{Limit, Name};

impl TextStore {
    ghost use Rattle.roff_store.specs.Texts.{newest};
    ghost use Rattle.roff_store.specs.TextCalls.{DropOpen, Enter, Open, PushOpen, after, answered};

    /// Whether a text may be begun.
    pub fn can_open(&self) -> bool
        ensures { IsTrue result ↔ (length self.now.open_texts < self.now.cap_open) }
    {
        self.open.len() < self.cap_open as usize
    }

    /// The number of the newest text in the making, if there is one.
    pub fn newest(&self) -> Option<OpenId>
        ensures { option_map (λ id. id.0) result ≡ newest self.now.open_texts }
    {
        match self.open.len() {
            0 => None,
            count => Some(OpenId(count - 1)),
        }
    }

    /// Whether a number is that of a text in the making.
    pub fn is_open(&self, id: OpenId) -> bool
        ensures { IsTrue result ↔ (id.0 < length self.now.open_texts) }
    {
        id.0 < self.open.len()
    }

    /// Begins a text.
    pub fn open(&mut self) -> OpenId
        requires { length self.old.open_texts < self.old.cap_open }
        ensures number { result.0 ≡ length self.old.open_texts }
        ensures texts { self.new ≡ after Open self.old }
    {
        let id = self.open.len();
        self.open.push_reserved(Strand::empty());
        OpenId(id)
    }

    /// Puts bytes behind a text in the making.
    ///
    /// # Errors
    ///
    /// [`Limit::Store`] if there would be too many bytes; the store is then as it was.
    pub fn push_open(&mut self, id: OpenId, text: &[u8]) -> Result<(), Limit>
        requires { id.0 < length self.old.open_texts }
        ensures answer { result ≡ answered (PushOpen id.0 text.now) self.old }
        ensures texts { self.new ≡ after (PushOpen id.0 text.now) self.old }
    {
        if self.cap_bytes as usize - self.used < text.len() {
            return Err(Limit::Store);
        }
        let longer = self.chunks.extend(self.open[id.0], text);
        self.open[id.0] = longer;
        self.used += text.len();
        Ok(())
    }

    /// Ends a text in the making: it is put behind the body of a name, or is its body from now on.
    /// The number of each newer one goes down by one.
    ///
    /// # Errors
    ///
    /// [`Limit::Names`] if the name is new and the table is full; the store is then as it was.
    pub fn enter(&mut self, id: OpenId, name: &Name, append: bool) -> Result<(), Limit>
        requires { id.0 < length self.old.open_texts }
        ensures answer { result ≡ answered (Enter id.0 name.now append) self.old }
        ensures texts { self.new ≡ after (Enter id.0 name.now append) self.old }
    {
        if !self.names.has_room(name) {
            return Err(Limit::Names);
        }
        let old = self.names.get(name);
        let text = self.open.remove(id.0);
        match text_before(old, append) {
            Some(before) => {
                let body = self.chunks.append(before, text);
                self.names.put(name, Meaning::Body(body))
            }
            None => {
                self.used -= body_len(old);
                release_body(&mut self.chunks, old);
                self.names.put(name, Meaning::Body(text))
            }
        }
    }

    /// Drops a text in the making. The number of each newer one goes down by one.
    pub fn drop_open(&mut self, id: OpenId)
        requires { id.0 < length self.old.open_texts }
        ensures { self.new ≡ after (DropOpen id.0) self.old }
    {
        let text = self.open.remove(id.0);
        self.used -= text.rest;
        self.chunks.release(text);
    }
}

/// What a text is put behind, if it is put behind a body.
fn text_before(meaning: Option<Meaning>, append: bool) -> Option<Strand>
    ensures some { IfSome result (λ strand. (append ≡ true) × (strands_of meaning ≡ strand ∷ [])) }
    ensures none { IfNone result (append ≡ true → strands_of meaning ≡ []) }
{
    match meaning {
        Some(Meaning::Body(strand)) if append => Some(strand),
        _ => None,
    }
}
