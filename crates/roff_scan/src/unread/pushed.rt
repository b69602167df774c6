//! Texts, bodies and events that are put in front.

ghost use Rattle.std.specs.Prelude.{true, false, ◌≡◌, ◌+◌, ◌<◌, ◌≤◌, [], drop, length};
ghost use Rattle.input_model.specs.Arguments.{is_behind_quote};
ghost use Rattle.input_model.specs.Input.{leaving, outermost_back, events_ahead, frees_ahead};
ghost use Rattle.input_model.specs.Input.{most_events, most_frees, depth, pushed, pushing};
ghost use Rattle.input_model.specs.Input.{putting_back};
ghost use Rattle.input_model.specs.Input.{freeing};
ghost use Rattle.input_model.specs.Input.Names.{body_named};
ghost use Rattle.roff_num.specs.ShortNames.{name_bytes};

use super::Unread;
use super::results::drop_results;
use input_arguments::ArgumentTexts;
use roff_num::{Limit, Name, ShortName};

impl<E: Copy> Unread<E> {
    ghost use Rattle.input_model.specs.Looking.{closing};
    ghost use Rattle.input_model.specs.Unread.{changing};
    ghost use Rattle.roff_scan.specs.Unread.Texts.{CountsText, HasRoomFor};

    /// Whether as many pushed texts haven't ended as may be.
    pub(super) fn is_deep(&self) -> bool
        ensures deep { result ≡ true → self.now.limits.depth ≤ depth self.now.input }
        ensures shallow { result ≡ false → depth self.now.input < self.now.limits.depth }
    {
        self.depth() >= self.limits.depth as usize
    }

    /// Puts a text and its end in front.
    ///
    /// # Errors
    ///
    /// [`Limit::Stack`] if its bytes don't fit, and then [`Limit::Depth`] if its end doesn't.
    #[inline(always)]
    pub fn push(&mut self, text: &[u8]) -> Result<(), Limit>
        ensures change { (result, self.new) ≡ changing (pushing text.now self.old.input) self.old }
    {
        if text.len() > self.limits.stack as usize - self.pushed() {
            return Err(Limit::Stack);
        }
        if self.is_deep() {
            return Err(Limit::Depth);
        }
        self.input_ahead.push(text);
        Ok(())
    }

    /// Puts a text in front of which so many bytes were read already, each at its cost. Where that
    /// is all of it, and no quote is waited for, its end is taken too. Returns whether it was.
    #[inline(always)]
    pub fn push_read(&mut self, text: &[u8], count: usize) -> bool
        requires among { count ≤ length text.now }
        requires bytes { self.old.input.charge + length text.now < self.old.limits.bytes }
        requires stack { pushed self.old.input + length (drop count text.now)
            ≤ self.old.limits.stack }
        requires shallow { depth self.old.input < self.old.limits.depth }
        ensures whole { result ≡ true → drop count text.now ≡ [] }
        ensures quote { result ≡ true
            → is_behind_quote self.old.input.arguments.place ≡ false }
        ensures ended { result ≡ true → self.new ≡ record self.old {
          input = record self.old.input { charge = self.old.input.charge + count + 1 };
        } }
        ensures rest { result ≡ false → self.new ≡ record self.old {
          input = pushing (drop count text.now)
              (record self.old.input { charge = self.old.input.charge + count });
        } }
    {
        // the invariant is known where a field is named
        let _ = &self.limits;
        let (_, rest) = text.split_at(count);
        self.charge += count as u32;
        if is_whole(rest, &self.arguments) {
            self.charge += 1;
            return true;
        }
        let _ = self.push(rest);
        false
    }

    /// Counts a text of so many bytes and its end as taken, as if it had been put in front and
    /// read, where the limits have room for that, and for so many bytes more behind it. Returns
    /// whether they have; else nothing happens.
    #[inline(always)]
    pub fn count_text(&mut self, len: usize, more: usize) -> bool
        ensures counts { result ≡ true → CountsText len more self.old self.new }
        ensures unchanged { result ≡ false → self.new ≡ self.old }
        ensures lacks { result ≡ false → HasRoomFor len more self.old → ⊥ }
    {
        if !self.has_room_for(len, more) {
            return false;
        }
        self.charge += len as u32 + 1;
        true
    }

    /// Whether the limits have room for a text of so many bytes in front and its end, and for so
    /// many bytes more behind it.
    #[inline(always)]
    fn has_room_for(&self, len: usize, more: usize) -> bool
        ensures room { result ≡ true → HasRoomFor len more self.now }
        ensures lacks { result ≡ false → HasRoomFor len more self.now → ⊥ }
    {
        let bytes = (self.limits.bytes - self.charge) as usize;
        if bytes <= len {
            return false;
        }
        if bytes - len <= more {
            return false;
        }
        if self.limits.stack as usize - self.pushed() < len {
            return false;
        }
        if self.is_deep() {
            return false;
        }
        true
    }

    /// Puts the body of a name and its end in front, as it is now: it is read where it lies,
    /// whatever becomes of the name. A name without a body has an empty one.
    ///
    /// # Errors
    ///
    /// As for [`push`](Unread::push).
    pub fn push_body(&mut self, name: &Name) -> Result<(), Limit>
        ensures change { (result, self.new)
            ≡ changing (pushing (body_named name.now self.old.input) self.old.input) self.old }
    {
        let room = self.limits.stack as usize - self.pushed();
        if self.is_deep() {
            if self.input_ahead.body_len(name) > room {
                return Err(Limit::Stack);
            }
            return Err(Limit::Depth);
        }
        if !self.input_ahead.push_body(name, room) {
            return Err(Limit::Stack);
        }
        Ok(())
    }

    /// Whether the body of a name has so many bytes at the most. Where all texts have no more the
    /// name isn't looked up.
    #[inline(always)]
    pub fn body_fits(&self, name: ShortName, most: usize) -> bool
        ensures fits { result ≡ true
            → length (body_named (name_bytes name) self.now.input) ≤ most }
        ensures exceeds { result ≡ false
            → most < length (body_named (name_bytes name) self.now.input) }
    {
        if self.input_ahead.stored() <= most {
            return true;
        }
        self.input_ahead.body_len(&name.name()) <= most
    }

    /// Puts an event back in front. There is room for it where events are as few as those are that
    /// a run puts back.
    #[cold]
    pub fn put_back(&mut self, event: E)
        ensures change { events_ahead self.old.input.ahead < most_events self.old.limits.depth
            → self.new ≡ record self.old { input = putting_back event self.old.input } }
    {
        let _room = self.input_ahead.put_back(event);
    }

    /// Puts bytes that were taken in front again. They cost nothing.
    pub fn free(&mut self, bytes: &[u8])
        requires { frees_ahead self.old.input.ahead + length bytes.now ≤ most_frees }
        ensures change { self.new ≡ record self.old { input = freeing bytes.now self.old.input } }
    {
        self.input_ahead.free(bytes);
    }

    /// Drops all that stands ahead of the source, of which nothing more is taken. That costs
    /// nothing. Returns what is gone back to behind the outermost end of a body, by its code; 0 is
    /// a line's beginning.
    pub fn leave(&mut self) -> u8
        ensures back { result ≡ outermost_back 0 self.old.input.ahead }
        ensures change { self.new ≡ record self.old {
          input = leaving self.old.input;
          looked = closing self.old.looked;
        } }
    {
        self.looked = self.looked.closing();
        let back = self.input_ahead.clear();
        self.calls.clear();
        drop_results(&mut self.results, 1);
        back
    }
}

/// Whether nothing is left of a text, and no quote is waited for behind it.
#[inline(always)]
fn is_whole(rest: &[u8], arguments: &ArgumentTexts) -> bool
    ensures none { result ≡ true → rest.now ≡ [] }
    ensures quote { result ≡ true → is_behind_quote arguments.now.arguments.place ≡ false }
{
    rest.is_empty() && !arguments.is_behind_quote()
}
