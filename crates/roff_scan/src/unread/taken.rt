//! Items that are taken from the front one at a time, and bytes that are looked at.

ghost use Rattle.std.specs.Prelude.{true, false, ◌≡◌, ◌<◌, ◌≤◌, None, Some, IfSome};
ghost use Rattle.input_escapes.specs.Waiting.{is_ended_by};
ghost use Rattle.input_source.specs.Tape.{Answer, OneByte, Gives, Failed};
ghost use Rattle.roff_num.specs.Faults.{Rises};
ghost use Rattle.input_model.specs.Input.{is_none_ahead, counting};

use super::Unread;
use super::calls::end_call;
use input_model::{Item, Looked, Sight};
use input_source::{ByteSource, Taken};
use roff_num::Limit;

impl<E: Copy> Unread<E> {
    ghost use Rattle.input_model.specs.Shown.{shown, ShowsByte, ShowsNote, ShowsEnding};
    ghost use Rattle.input_model.specs.Looking.{is_closed};
    ghost use Rattle.input_model.specs.declared.looked.Looked.TheVariants.{Nothing};
    ghost use Rattle.input_model.specs.Unread.{taking, taking_answer};
    ghost use Rattle.input_model.specs.Shown.{sighted, SeesByte, SeesNote, SeesEnding};
    ghost use Rattle.input_model.specs.Shown.{byte_seen, seen_ahead};
    ghost use Rattle.roff_scan.specs.Unread.Calls.{Takes, Looks};

    /// Takes the item in front. The source is asked where nothing is ahead and no byte was looked
    /// at; a closed one is never asked, and has ended.
    #[inline(always)]
    pub fn take<S: ByteSource>(&mut self, source: &mut S) -> Item<E>
        ensures takes { Takes (S.gives source.old) (S.gives source.new) self.old self.new
            (shown result) }
        ensures closed { is_closed self.old.looked ≡ true → source.new ≡ source.old }
        ensures notes { S.notes source.new ≤ S.notes source.old }
        ensures note { (m : _) → shown result ≡ ShowsNote m
            → S.notes source.new < S.notes source.old }
        ensures failures { S.failures source.old ≤ S.failures source.new }
        ensures fault { shown result ≡ ShowsEnding Failed
            → Rises (S.failures source.old) (S.failures source.new) }
    {
        if !self.input_ahead.is_empty() {
            return self.take_ahead();
        }
        match self.looked {
            Looked::Nothing => match source.next_byte() {
                Taken::Byte(byte) => self.take_byte(byte),
                Taken::Note(note) => Item::Note(note),
                Taken::End => Item::SourceEnd,
                Taken::Fault => Item::Fault,
                Taken::Stop(limit) => Item::Stop(limit),
            },
            Looked::Byte(byte) => self.take_byte(byte),
            Looked::Closed(_) => Item::SourceEnd,
        }
    }

    /// Takes a byte that stands ready, ahead, looked at or in the source, if the limit on bytes
    /// allows it. Otherwise nothing happens, and [`take`](Unread::take) tells what is in front.
    /// Most bytes are taken so.
    #[inline(always)]
    pub fn take_ready<S: ByteSource>(&mut self, source: &mut S) -> Option<u8>
        ensures takes { IfSome result (λ b.
            Takes (S.gives source.old) (S.gives source.new) self.old self.new (ShowsByte b)) }
        ensures unchanged { result ≡ None → (self.new ≡ self.old) × (source.new ≡ source.old) }
        ensures notes { S.notes source.new ≤ S.notes source.old }
        ensures failures { S.failures source.old ≤ S.failures source.new }
    {
        if !self.input_ahead.is_empty() {
            return self.take_ready_ahead();
        }
        if self.limits.bytes == self.charge {
            return None;
        }
        match self.looked {
            Looked::Nothing => match source.ready_byte() {
                None => None,
                Some(byte) => {
                    self.count(byte);
                    Some(byte)
                }
            },
            Looked::Byte(byte) => {
                self.count(byte);
                Some(byte)
            }
            Looked::Closed(_) => None,
        }
    }

    /// Takes a byte ahead, if one is in front and the limit on bytes allows it. Otherwise nothing
    /// happens.
    #[inline(always)]
    fn take_ready_ahead(&mut self) -> Option<u8>
        requires { is_none_ahead self.old.input.ahead ≡ false }
        ensures takes { IfSome result (λ b.
            (a : Answer) → (ShowsByte b, self.new) ≡ taking a self.old) }
        ensures unchanged { result ≡ None → self.new ≡ self.old }
    {
        if self.limits.bytes - self.charge == 0 {
            return None;
        }
        match self.input_ahead.take_ready() {
            None => None,
            Some(byte) => {
                self.charge += 1;
                Some(byte)
            }
        }
    }

    /// Takes a byte that stands ready, ahead or in the source, if what is half read waits for it
    /// and the limit on bytes allows it. Otherwise nothing happens, and [`look`](Unread::look)
    /// tells what is in front. Most bytes that end a name are taken so.
    #[inline(always)]
    pub fn take_waiting<S: ByteSource>(&mut self, source: &mut S) -> Option<u8>
        ensures takes { IfSome result (λ b.
            Takes (S.gives source.old) (S.gives source.new) self.old self.new (ShowsByte b)) }
        ensures waits { IfSome result (λ b. is_ended_by self.old.input.escapes (Some b) ≡ false) }
        ensures unchanged { result ≡ None → (self.new ≡ self.old) × (source.new ≡ source.old) }
        ensures notes { S.notes source.new ≤ S.notes source.old }
        ensures failures { S.failures source.old ≤ S.failures source.new }
    {
        if self.limits.bytes == self.charge {
            return None;
        }
        if !self.input_ahead.is_empty() {
            return self.take_waiting_ahead();
        }
        self.take_waiting_ready(source)
    }

    /// Takes a byte ahead, if one is in front and what is half read waits for it. Otherwise nothing
    /// happens.
    #[inline(always)]
    fn take_waiting_ahead(&mut self) -> Option<u8>
        requires room { self.old.input.charge < self.old.limits.bytes }
        requires some { is_none_ahead self.old.input.ahead ≡ false }
        ensures takes { IfSome result (λ b.
            (a : Answer) → (ShowsByte b, self.new) ≡ taking a self.old) }
        ensures waits { IfSome result (λ b. is_ended_by self.old.input.escapes (Some b) ≡ false) }
        ensures unchanged { result ≡ None → self.new ≡ self.old }
    {
        match self.input_ahead.take_waiting(&self.escapes) {
            None => None,
            Some(byte) => {
                self.charge += 1;
                Some(byte)
            }
        }
    }

    /// Takes a byte of the source, where nothing is ahead, if it stands ready, no byte was looked
    /// at and what is half read waits for it. Otherwise nothing happens.
    #[inline(always)]
    fn take_waiting_ready<S: ByteSource>(&mut self, source: &mut S) -> Option<u8>
        requires room { self.old.input.charge < self.old.limits.bytes }
        requires none_ahead { is_none_ahead self.old.input.ahead ≡ true }
        ensures takes { IfSome result (λ b.
            Takes (S.gives source.old) (S.gives source.new) self.old self.new (ShowsByte b)) }
        ensures waits { IfSome result (λ b. is_ended_by self.old.input.escapes (Some b) ≡ false) }
        ensures unchanged { result ≡ None → (self.new ≡ self.old) × (source.new ≡ source.old) }
        ensures notes { S.notes source.new ≤ S.notes source.old }
        ensures failures { S.failures source.new ≡ S.failures source.old }
    {
        if !self.looked.is_nothing() {
            return None;
        }
        match source.buffered() {
            [first, ..] => {
                let byte = *first;
                if !self.escapes.waits_for(byte) {
                    return None;
                }
                self.count(byte);
                source.pass(1);
                Some(byte)
            }
            [] => None,
        }
    }

    /// Takes a byte of the source. It stays looked at if the limit on bytes refuses it.
    #[inline(always)]
    fn take_byte(&mut self, byte: u8) -> Item<E>
        ensures takes { (shown result, self.new) ≡ taking_answer (Gives (OneByte byte)) self.old }
    {
        if self.charge >= self.limits.bytes {
            self.looked = Looked::Byte(byte);
            return Item::Refused(Limit::Bytes);
        }
        self.count(byte);
        Item::Byte(byte)
    }

    /// Counts a byte of the source, which isn't looked at any more.
    #[inline(always)]
    pub(super) fn count(&mut self, byte: u8)
        requires { self.old.input.charge < self.old.limits.bytes }
        ensures counts { self.new
            ≡ record self.old { input = counting byte self.old.input; looked = Nothing } }
    {
        self.looked = Looked::Nothing;
        self.line = self.newlines + 1;
        self.charge += 1;
        if byte == b'\n' {
            self.newlines += 1;
        }
    }

    /// Takes the front item ahead.
    #[inline(never)]
    fn take_ahead(&mut self) -> Item<E>
        requires { is_none_ahead self.old.input.ahead ≡ false }
        ensures takes { (a : Answer) → (shown result, self.new) ≡ taking a self.old }
        ensures note { (m : _) → shown result ≡ ShowsNote m → ⊥ }
        ensures ending { (e : _) → shown result ≡ ShowsEnding e → ⊥ }
    {
        let cost = self.input_ahead.cost();
        if cost > self.limits.bytes - self.charge {
            return Item::Refused(Limit::Bytes);
        }
        self.charge += cost;
        match self.input_ahead.take() {
            Item::Return(back) => {
                end_call(&mut self.calls, &mut self.results);
                Item::Return(back)
            }
            item => item,
        }
    }

    /// The byte that is seen ahead of the source, which isn't asked, behind any ends of texts.
    /// Nothing where none stands ahead, or something else is seen in front of it.
    #[inline(always)]
    pub fn look_ahead<S: ByteSource>(&self, source: &S) -> Option<u8>
        ensures looks { IfSome result (λ b.
            Looks (S.gives source.now) (S.gives source.now) self.now self.now (SeesByte b)) }
        ensures sees { result ≡ byte_seen (seen_ahead self.now.input.ahead) }
    {
        match self.input_ahead.seen() {
            Some(Sight::Byte(byte)) => Some(byte),
            _ => None,
        }
    }

    /// Looks at the first byte behind any ends of texts. The source is asked where none stands
    /// ahead and no byte was looked at; a closed one is never asked.
    #[inline(never)]
    pub fn look<S: ByteSource>(&mut self, source: &mut S) -> Sight
        ensures looks { Looks (S.gives source.old) (S.gives source.new) self.old self.new
            (sighted result) }
        ensures closed { is_closed self.old.looked ≡ true → source.new ≡ source.old }
        ensures notes { S.notes source.new ≤ S.notes source.old }
        ensures note { (m : _) → sighted result ≡ SeesNote m
            → S.notes source.new < S.notes source.old }
        ensures failures { S.failures source.old ≤ S.failures source.new }
        ensures fault { sighted result ≡ SeesEnding Failed
            → Rises (S.failures source.old) (S.failures source.new) }
    {
        if let Some(sight) = self.input_ahead.seen() {
            return sight;
        }
        match self.looked {
            Looked::Nothing => match source.next_byte() {
                Taken::Byte(byte) => {
                    self.looked = Looked::Byte(byte);
                    Sight::Byte(byte)
                }
                Taken::Note(note) => Sight::Note(note),
                Taken::End => Sight::SourceEnd,
                Taken::Fault => Sight::Fault,
                Taken::Stop(limit) => Sight::Stop(limit),
            },
            Looked::Byte(byte) => Sight::Byte(byte),
            Looked::Closed(_) => Sight::SourceEnd,
        }
    }
}
