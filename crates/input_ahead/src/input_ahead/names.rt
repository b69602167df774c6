//! Names that are set, removed or renamed, and texts in the making.

ghost use Rattle.std.specs.Prelude.{IsTrue, ◌≡◌, ◌↔◌, ◌<◌, [], length, option_map, Some, None};
ghost use Rattle.std.specs.Prelude.{IfSome, if◌then◌else◌, nat_lt};
ghost use Rattle.roff_store.specs.Named.{entry_of};
ghost use Rattle.roff_store.specs.Texts.{entry_given, kind_given, kind_of, newest, used};

use super::InputAhead;
use roff_num::{Limit, Name};
use roff_store::{Entry, Kind, OpenId, TextStore};

impl<E: Copy> InputAhead<E> {
    ghost use Rattle.roff_store.specs.TextCalls.{DropOpen, Enter, Open, PushOpen, Remove, Rename};
    ghost use Rattle.roff_store.specs.TextCalls.{Set, after, answered};

    /// What a name stands for: a request, or a body with so many bytes.
    #[inline(always)]
    pub fn get(&self, name: &Name) -> Option<Kind>
        ensures { option_map kind_given result
            ≡ option_map kind_of (entry_of name.now self.now.texts.names.entries) }
    {
        self.texts.get(name)
    }

    /// Lets a name stand for an entry from now on.
    ///
    /// # Errors
    ///
    /// [`Limit::Store`] if there would be too many bytes, else [`Limit::Names`] if the name is new
    /// and the table is full; nothing changes then.
    pub fn set(&mut self, name: &Name, entry: Entry<'_>) -> Result<(), Limit>
        ensures answer { result ≡ answered (Set name.now (entry_given entry.entry)) self.old.texts }
        ensures texts { self.new ≡ record self.old {
          texts = after (Set name.now (entry_given entry.entry)) self.old.texts;
        } }
    {
        self.texts.set(name, entry)
    }

    /// Removes a name.
    pub fn remove(&mut self, name: &Name)
        ensures { self.new ≡ record self.old { texts = after (Remove name.now) self.old.texts } }
    {
        self.texts.remove(name);
    }

    /// Lets one name stand for what another one stood for, which then stands for nothing. Nothing
    /// changes where that one stands for nothing, or is the same name.
    pub fn rename(&mut self, from: &Name, to: &Name)
        ensures { self.new
            ≡ record self.old { texts = after (Rename from.now to.now) self.old.texts } }
    {
        self.texts.rename(from, to);
    }

    /// The number of the newest text in the making, if there is one.
    pub fn newest(&self) -> Option<OpenId>
        ensures { option_map (λ id. id.0) result ≡ newest self.now.texts.open_texts }
    {
        self.texts.newest()
    }

    /// The text in the making of this number, the oldest being 0, if there is one.
    pub fn open_numbered(&self, index: usize) -> Option<OpenId>
        ensures number { option_map (λ id. id.0) result
            ≡ (if nat_lt index (length self.now.texts.open_texts) then Some index else None) }
        ensures open { IfSome result (λ id. id.0 < length self.now.texts.open_texts) }
    {
        let id = OpenId(index);
        if self.texts.is_open(id) {
            Some(id)
        } else {
            None
        }
    }

    /// Whether a text may be begun.
    pub fn can_open(&self) -> bool
        ensures { IsTrue result ↔ (length self.now.texts.open_texts < self.now.texts.cap_open) }
    {
        self.texts.can_open()
    }

    /// Begins a text.
    pub fn open(&mut self) -> OpenId
        requires { length self.old.texts.open_texts < self.old.texts.cap_open }
        ensures number { result.0 ≡ length self.old.texts.open_texts }
        ensures texts { self.new ≡ record self.old { texts = after Open self.old.texts } }
    {
        self.texts.open()
    }

    /// How many bytes bodies and texts in the making have.
    #[inline(always)]
    pub fn stored(&self) -> usize
        ensures { result ≡ used self.now.texts }
    {
        self.texts.used()
    }

    /// Puts bytes behind a text in the making.
    ///
    /// # Errors
    ///
    /// [`Limit::Store`] if there would be too many bytes; nothing changes then.
    pub fn push_open(&mut self, id: OpenId, text: &[u8]) -> Result<(), Limit>
        requires { id.0 < length self.old.texts.open_texts }
        ensures answer { result ≡ answered (PushOpen id.0 text.now) self.old.texts }
        ensures texts { self.new
            ≡ record self.old { texts = after (PushOpen id.0 text.now) self.old.texts } }
    {
        self.texts.push_open(id, text)
    }

    /// Ends a text in the making: it is put behind the body of a name, or is its body from now on.
    /// The number of each newer one goes down by one.
    ///
    /// # Errors
    ///
    /// [`Limit::Names`] if the name is new and the table is full; nothing changes then.
    pub fn enter(&mut self, id: OpenId, name: &Name, append: bool) -> Result<(), Limit>
        requires { id.0 < length self.old.texts.open_texts }
        ensures answer { result ≡ answered (Enter id.0 name.now append) self.old.texts }
        ensures texts { self.new
            ≡ record self.old { texts = after (Enter id.0 name.now append) self.old.texts } }
    {
        self.texts.enter(id, name, append)
    }

    /// Drops a text in the making. The number of each newer one goes down by one.
    pub fn drop_open(&mut self, id: OpenId)
        requires { id.0 < length self.old.texts.open_texts }
        ensures { self.new ≡ record self.old { texts = after (DropOpen id.0) self.old.texts } }
    {
        self.texts.drop_open(id);
    }

    /// Drops all texts in the making.
    pub fn drop_all(&mut self)
        ensures { self.new
            ≡ record self.old { texts = record self.old.texts { open_texts = [] } } }
    {
        drop_texts(&mut self.texts);
    }
}

/// Drops all texts in the making, the newest first.
fn drop_texts(texts: &mut TextStore)
    ensures { texts.new ≡ record texts.old { open_texts = [] } }
{
    while let Some(id) = texts.newest() {
        texts.drop_open(id);
    }
}
