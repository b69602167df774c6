//! Names that are set, removed or renamed, and texts in the making.

ghost use Rattle.roff_store.specs.Named.{entry_of};
ghost use Rattle.roff_store.specs.Texts.{entry_given, kind_given, kind_of};
ghost use Rattle.std.specs.Prelude.{true, false, ◌+◌, ◌<◌, ◌≡◌, ◌≤◌, length, nat_lt, option_map};
ghost use Rattle.input_model.specs.Input.Names.{adding, calling, dropping, entering, stored};
ghost use Rattle.input_model.specs.Input.Names.{adding_to, dropping_all, entering_open};

use super::Unread;
use roff_num::{Limit, Name};
use roff_store::{Entry, Kind};

impl<E: Copy> Unread<E> {
    ghost use Rattle.input_model.specs.declared.looked.Looked.TheVariants.{Nothing};
    ghost use Rattle.input_model.specs.Unread.{changing};
    ghost use Rattle.roff_store.specs.TextCalls.{Open, Remove, Rename, Set};

    /// What a name stands for: a request, or a body with so many bytes.
    #[inline(always)]
    pub fn get(&self, name: &Name) -> Option<Kind>
        ensures { option_map kind_given result
            ≡ option_map kind_of (entry_of name.now self.now.input.names) }
    {
        self.input_ahead.get(name)
    }

    /// Lets a name stand for an entry from now on.
    ///
    /// # Errors
    ///
    /// [`Limit::Store`] if there would be too many bytes, else [`Limit::Names`] if the name is new
    /// and there are as many as may be.
    pub fn set(&mut self, name: &Name, entry: Entry<'_>) -> Result<(), Limit>
        ensures change { (result, self.new)
            ≡ changing (calling (Set name.now (entry_given entry.entry)) self.old.input) self.old }
    {
        self.input_ahead.set(name, entry)
    }

    /// Removes a name.
    pub fn remove(&mut self, name: &Name)
        ensures change { self.new
            ≡ record self.old { input = calling (Remove name.now) self.old.input } }
    {
        self.input_ahead.remove(name);
    }

    /// Lets one name stand for what another one stood for, which then stands for nothing. Nothing
    /// changes where that one stands for nothing, or is the same name.
    pub fn rename(&mut self, from: &Name, to: &Name)
        ensures change { self.new
            ≡ record self.old { input = calling (Rename from.now to.now) self.old.input } }
    {
        self.input_ahead.rename(from, to);
    }

    /// Begins a text.
    ///
    /// # Errors
    ///
    /// [`Limit::Diversions`] if as many are in the making as may be.
    pub fn begin_text(&mut self) -> Result<(), Limit>
        ensures change { (result, self.new) ≡ changing (calling Open self.old.input) self.old }
    {
        if !self.input_ahead.can_open() {
            return Err(Limit::Diversions);
        }
        self.input_ahead.open();
        Ok(())
    }

    /// Whether the limit on the store has no room for so many bytes more.
    pub fn is_store_full(&self, more: usize) -> bool
        ensures full { result ≡ true
            → self.now.limits.store < stored self.now.input + more }
        ensures room { result ≡ false
            → stored self.now.input + more ≤ self.now.limits.store }
    {
        more > self.limits.store as usize - self.input_ahead.stored()
    }

    /// Puts bytes behind the newest text in the making, if there is one.
    ///
    /// # Errors
    ///
    /// [`Limit::Store`] if there would be too many bytes.
    pub fn add(&mut self, text: &[u8]) -> Result<(), Limit>
        ensures change { (result, self.new) ≡ changing (adding text.now self.old.input) self.old }
    {
        match self.input_ahead.newest() {
            Some(id) => self.input_ahead.push_open(id, text),
            None => Ok(()),
        }
    }

    /// Ends the newest text in the making, if there is one: it is put behind the body of a name, or
    /// is its body from now on.
    ///
    /// # Errors
    ///
    /// [`Limit::Names`] if the name is new and there are as many as may be.
    pub fn enter(&mut self, name: &Name, append: bool) -> Result<(), Limit>
        ensures change { (result, self.new)
            ≡ changing (entering name.now append self.old.input) self.old }
    {
        match self.input_ahead.newest() {
            Some(id) => self.input_ahead.enter(id, name, append),
            None => Ok(()),
        }
    }

    /// Drops the newest text in the making, if there is one.
    pub fn drop_text(&mut self)
        ensures change { self.new ≡ record self.old { input = dropping self.old.input } }
    {
        if let Some(id) = self.input_ahead.newest() {
            self.input_ahead.drop_open(id);
        }
    }

    /// Whether there is a text in the making of a number, the oldest being 0.
    pub fn has_text(&self, index: usize) -> bool
        ensures { result ≡ nat_lt index (length self.now.input.open_texts) }
    {
        self.input_ahead.open_numbered(index).is_some()
    }

    /// Puts bytes behind the text in the making of a number, the oldest being 0, if there is one.
    ///
    /// # Errors
    ///
    /// [`Limit::Store`] if there would be too many bytes.
    pub fn add_to(&mut self, index: usize, text: &[u8]) -> Result<(), Limit>
        ensures change { (result, self.new)
            ≡ changing (adding_to index text.now self.old.input) self.old }
    {
        match self.input_ahead.open_numbered(index) {
            Some(numbered) => self.input_ahead.push_open(numbered, text),
            None => Ok(()),
        }
    }

    /// Ends the text in the making of a number, if there is one: it is put behind the body of a
    /// name, or is its body from now on. The number of each newer one goes down by one.
    ///
    /// # Errors
    ///
    /// [`Limit::Names`] if the name is new and there are as many as may be.
    pub fn enter_open(&mut self, index: usize, name: &Name, append: bool) -> Result<(), Limit>
        ensures change { (result, self.new)
            ≡ changing (entering_open index name.now append self.old.input) self.old }
    {
        match self.input_ahead.open_numbered(index) {
            Some(numbered) => self.input_ahead.enter(numbered, name, append),
            None => Ok(()),
        }
    }

    /// Drops all texts in the making.
    pub fn drop_all(&mut self)
        ensures change { self.new ≡ record self.old { input = dropping_all self.old.input } }
    {
        self.input_ahead.drop_all();
    }
}
