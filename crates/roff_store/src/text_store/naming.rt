//! What names stand for: bodies and requests that are set, appended to, removed and renamed.

ghost use Rattle.std.specs.Prelude.{◌≡◌};

use super::{Meaning, TextStore, body_len, release_body};
use crate::strand::Strand;
use crate::text::Entry;
use roff_num::{Limit, Name};

impl TextStore {
    ghost use Rattle.roff_store.specs.Texts.{Body, Request, entry_given};
    ghost use Rattle.roff_store.specs.TextCalls.{Append, Remove, Rename, Set, after, answered};

    /// Lets a name stand for an entry from now on.
    ///
    /// # Errors
    ///
    /// [`Limit::Store`] if there would be too many bytes, else [`Limit::Names`] if the name is new
    /// and the table is full; the store is then as it was.
    pub fn set(&mut self, name: &Name, entry: Entry<'_>) -> Result<(), Limit>
        ensures answer { result ≡ answered (Set name.now (entry_given entry.entry)) self.old }
        ensures texts { self.new ≡ after (Set name.now (entry_given entry.entry)) self.old }
    {
        match entry {
            Entry::Body(text) => self.set_body(name, text),
            Entry::Request(number) => self.set_request(name, number),
        }
    }

    /// Lets a name stand for a body of these bytes from now on.
    fn set_body(&mut self, name: &Name, text: &[u8]) -> Result<(), Limit>
        ensures answer { result ≡ answered (Set name.now (Body text.now)) self.old }
        ensures texts { self.new ≡ after (Set name.now (Body text.now)) self.old }
    {
        let old = self.names.get(name);
        let others = self.used - body_len(old);
        if self.cap_bytes as usize - others < text.len() {
            return Err(Limit::Store);
        }
        if !self.names.has_room_for(old.is_some()) {
            return Err(Limit::Names);
        }
        release_body(&mut self.chunks, old);
        let body = self.chunks.extend(Strand::empty(), text);
        self.used = others + text.len();
        self.names.put(name, Meaning::Body(body))
    }

    /// Lets a name stand for a request from now on.
    fn set_request(&mut self, name: &Name, number: u16) -> Result<(), Limit>
        ensures answer { result ≡ answered (Set name.now (Request number)) self.old }
        ensures texts { self.new ≡ after (Set name.now (Request number)) self.old }
    {
        let old = self.names.get(name);
        if !self.names.has_room_for(old.is_some()) {
            return Err(Limit::Names);
        }
        release_body(&mut self.chunks, old);
        self.used -= body_len(old);
        self.names.put(name, Meaning::Request(number))
    }

    /// Puts bytes behind the body of a name (`.as`, `.am`). A request is replaced, and a name that
    /// stands for nothing gets the bytes as its body.
    ///
    /// # Errors
    ///
    /// As for [`TextStore::set`].
    pub fn append(&mut self, name: &Name, text: &[u8]) -> Result<(), Limit>
        ensures answer { result ≡ answered (Append name.now text.now) self.old }
        ensures texts { self.new ≡ after (Append name.now text.now) self.old }
    {
        let Some(Meaning::Body(body)) = self.names.get(name) else {
            return self.set_body(name, text);
        };
        if self.cap_bytes as usize - self.used < text.len() {
            return Err(Limit::Store);
        }
        let longer = self.chunks.extend(body, text);
        self.used += text.len();
        self.names.put(name, Meaning::Body(longer))
    }

    /// Removes a name (`.rm`).
    pub fn remove(&mut self, name: &Name)
        ensures { self.new ≡ after (Remove name.now) self.old }
    {
        let old = self.names.get(name);
        self.used -= body_len(old);
        release_body(&mut self.chunks, old);
        self.names.remove(name);
    }

    /// Lets one name stand for what another one stood for, which then stands for nothing (`.rn`).
    /// Nothing changes where that one stands for nothing, or is the same name.
    pub fn rename(&mut self, from: &Name, to: &Name)
        ensures { self.new ≡ after (Rename from.now to.now) self.old }
    {
        if from.is_same(to) {
            return;
        }
        if let Some(meaning) = self.names.get(from) {
            let old = self.names.get(to);
            self.used -= body_len(old);
            release_body(&mut self.chunks, old);
            self.names.remove(from);
            self.names.put(to, meaning).unwrap();
        }
    }
}
