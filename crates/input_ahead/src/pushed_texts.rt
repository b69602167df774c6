//! What stands ahead of the source: pushed texts, events put back, and bytes in front again.

ghost use Rattle.std.specs.Prelude.{false, true, ◌≡◌, ◌+◌, ◌<◌, ◌≤◌, ◌^◌, [], ◌∷◌, ◌++◌, map};
ghost use Rattle.std.specs.Prelude.{reverse};
ghost use Rattle.std.specs.Prelude.{length, IfOk, Some, option_map, vec_len, vec_capacity, ℕ};
ghost use Rattle.input_ahead.specs.PushedTexts.Held.{most_marks, most_used};
ghost use Rattle.input_ahead.specs.PushedTexts.Standing.{standing, items_of, item_of, is_byte_next};
ghost use Rattle.input_ahead.specs.PushedTexts.Standing.{IsStacked};
ghost use Rattle.input_model.specs.Input.{is_none_ahead, first, first_but_ends, ByteAhead};
ghost use Rattle.input_model.specs.Input.{FreeAhead};
ghost use Rattle.input_model.specs.Input.{EndAhead, ReturnAhead, DoAhead, bytes_ahead, ends_ahead};
ghost use Rattle.input_model.specs.Input.{events_ahead, frees_ahead, most_frees};

mod copies;

use std::alloc::{AllocError, Global};
use std::marker::Model;

/// How many marks there are for each end, and for none: those of events and of bodies.
const MARKS: usize = 8;

/// How many of them are used, with the end's own, before no more events are put back.
const USED: usize = 7;

/// How many bytes may stand in front again.
const FREES: usize = 21;

/// A text of fewer bytes, such as a number, is put in front byte by byte.
const SHORT: usize = 8;

/// An item taken from the front.
#[derive(Copy)]
pub(crate) enum PushedItem<E> {
    /// A byte of a pushed text.
    Byte(u8),
    /// A byte that stood in front again.
    Free(u8),
    /// The end of a pushed text.
    End,
    /// The end of a body that a line called, or that sprang, and what is gone back to behind it.
    Return(u8),
    /// An event that was put back.
    Do(E),
}

/// What stands behind the bytes of a text.
#[derive(Copy)]
enum Mark<E> {
    /// The end of a text, and so many more ends.
    Ends(usize),
    /// The end of a body that a line called, or that sprang, and what is gone back to behind it.
    Return(u8),
    /// A byte that stands in front again.
    Free(u8),
    /// An event that was put back.
    Do(E),
}

/// A mark, and how many unread bytes lie below it.
#[derive(Copy)]
struct MarkAt<E> {
    height: usize,
    mark: Mark<E>,
}

/// What stands ahead of the source. All its memory is reserved as it is made.
#[derive(Drop)]
pub(crate) struct PushedTexts<E> {
    most_bytes: usize,
    most_texts: usize,
    /// The slot in front is the last one.
    pushed_texts: Vec<MarkAt<E>>,
    /// The unread bytes of all texts. The next one is the last.
    bytes: Vec<u8>,
    /// How many texts and called bodies haven't ended.
    ends: usize,
}

impl<E> Model for PushedTexts<E> {
    ghost use Rattle.input_ahead.specs.PushedTexts.Held.{Held};

    ghost Value = { Held E };

    ghost use Rattle.input_ahead.specs.PushedTexts.Held.{held_by, IsSound};

    ghost view = { held_by };

    ghost invariant = { IsSound };
}

impl<E: Copy> PushedTexts<E> {
    /// Nothing stands ahead; there is room for so many unread bytes and texts.
    pub fn new(alloc: Global, stack: u32, depth: u32) -> Result<Self, AllocError>
        ensures { IfOk result
            (λ s. s ≡ record { ahead = []; most_bytes = stack; most_texts = depth }) }
    {
        let most_bytes = stack as usize;
        let most_texts = depth as usize;
        Ok(PushedTexts {
            most_bytes,
            most_texts,
            pushed_texts: Vec::with_capacity(
                alloc,
                most_texts + MARKS * (most_texts + 1) + FREES + FREES,
            )?,
            bytes: Vec::with_capacity(alloc, most_bytes)?,
            ends: 0,
        })
    }

    /// Whether nothing stands ahead.
    #[inline(always)]
    pub fn is_empty(&self) -> bool
        ensures { result ≡ is_none_ahead self.now.ahead }
    {
        self.pushed_texts.is_empty()
    }

    /// How many unread bytes of pushed texts there are.
    pub fn byte_count(&self) -> usize
        ensures count { result ≡ bytes_ahead self.now.ahead }
        ensures within { result ≤ self.now.most_bytes }
    {
        self.bytes.len()
    }

    /// How many pushed texts and called bodies haven't ended.
    pub fn depth(&self) -> usize
        ensures count { result ≡ ends_ahead self.now.ahead }
        ensures within { result ≤ self.now.most_texts }
    {
        self.ends
    }

    /// Puts a text and its end in front.
    pub fn push(&mut self, text: &[u8])
        requires bytes { length text.now + bytes_ahead self.old.ahead ≤ self.old.most_bytes }
        requires ends { ends_ahead self.old.ahead < self.old.most_texts }
        ensures { self.new
            ≡ record self.old { ahead = map ByteAhead text.now ++ EndAhead ∷ self.old.ahead } }
    {
        put_end(&mut self.pushed_texts, self.bytes.as_slice());
        self.ends += 1;
        put_reversed(&mut self.bytes, text);
    }

    /// Puts the end of a text in front.
    #[inline]
    pub(crate) fn push_end(&mut self)
        requires { ends_ahead self.old.ahead < self.old.most_texts }
        ensures { self.new ≡ record self.old { ahead = EndAhead ∷ self.old.ahead } }
    {
        put_end(&mut self.pushed_texts, self.bytes.as_slice());
        self.ends += 1;
    }

    /// Puts the end of a called body in front, which leads back to what this code stands for.
    pub(crate) fn push_return(&mut self, back: u8)
        requires { ends_ahead self.old.ahead < self.old.most_texts }
        ensures { self.new ≡ record self.old { ahead = ReturnAhead back ∷ self.old.ahead } }
    {
        put_mark(
            &mut self.pushed_texts,
            self.bytes.as_slice(),
            Mark::Return(back),
        );
        self.ends += 1;
    }

    /// Puts a byte in front of something.
    pub(crate) fn push_byte(&mut self, byte: u8)
        requires some { is_none_ahead self.old.ahead ≡ false }
        requires room { bytes_ahead self.old.ahead < self.old.most_bytes }
        ensures { self.new ≡ record self.old { ahead = ByteAhead byte ∷ self.old.ahead } }
    {
        self.bytes.push_reserved(byte);
    }

    /// Whether one event more can be put back, and still a body before each end.
    pub fn has_room(&self) -> bool
        ensures room { result ≡ true
            → events_ahead self.now.ahead < most_used self.now.most_texts }
        ensures full { result ≡ false → most_used self.now.most_texts
            ≤ ends_ahead self.now.ahead + events_ahead self.now.ahead + frees_ahead self.now.ahead }
    {
        self.pushed_texts.len() < USED * (self.most_texts + 1) + FREES
    }

    /// Puts an event in front.
    pub fn put_back(&mut self, event: E)
        requires { events_ahead self.old.ahead < most_marks self.old.most_texts }
        ensures { self.new ≡ record self.old { ahead = DoAhead event ∷ self.old.ahead } }
    {
        put_mark(
            &mut self.pushed_texts,
            self.bytes.as_slice(),
            Mark::Do(event),
        );
    }

    /// The front item, if there is one. It isn't taken.
    #[inline]
    pub fn front(&self) -> Option<PushedItem<E>>
        ensures { option_map item_of result ≡ first self.now.ahead }
    {
        if is_byte_next(self.pushed_texts.as_slice(), self.bytes.as_slice()) {
            return Some(PushedItem::Byte(self.bytes[self.bytes.len() - 1]));
        }
        match self.pushed_texts.as_slice().split_last() {
            Some((slot, _)) => Some(match slot.mark {
                Mark::Ends(_) => PushedItem::End,
                Mark::Return(back) => PushedItem::Return(back),
                Mark::Free(byte) => PushedItem::Free(byte),
                Mark::Do(event) => PushedItem::Do(event),
            }),
            None => None,
        }
    }

    /// The byte of a text that is in front, alone, where one is.
    #[inline(always)]
    pub fn front_byte(&self) -> &[u8]
        ensures { (b : ℕ) → Some (ByteAhead b) ≡ first self.now.ahead → result.now ≡ b ∷ [] }
    {
        let bytes = self.bytes.as_slice();
        if bytes.is_empty() {
            return &[];
        }
        &bytes[bytes.len() - 1..]
    }

    /// Takes the front item.
    pub fn take(&mut self) -> PushedItem<E>
        requires { is_none_ahead self.old.ahead ≡ false }
        ensures { self.old ≡ record self.new { ahead = item_of result ∷ self.new.ahead } }
    {
        self.take_known()
    }

    /// Takes the front item, where the caller knows what it is: the compiler puts that into place,
    /// and nothing is asked twice.
    #[inline(always)]
    pub fn take_known(&mut self) -> PushedItem<E>
        requires { is_none_ahead self.old.ahead ≡ false }
        ensures { self.old ≡ record self.new { ahead = item_of result ∷ self.new.ahead } }
    {
        if is_byte_next(self.pushed_texts.as_slice(), self.bytes.as_slice()) {
            return PushedItem::Byte(self.bytes.take_last());
        }
        let front = take_mark(&mut self.pushed_texts, self.bytes.as_slice());
        if matches!(front, PushedItem::End | PushedItem::Return(_)) {
            self.ends -= 1;
        }
        front
    }

    /// The first item behind any ends of texts; none where only those are there.
    pub fn seen(&self) -> Option<PushedItem<E>>
        ensures { option_map item_of result ≡ first_but_ends self.now.ahead }
    {
        let mut pushed_texts = self.pushed_texts.as_slice();
        while let Some((slot, below)) = pushed_texts.split_last() {
            if slot.height < self.bytes.len() {
                return Some(PushedItem::Byte(self.bytes[self.bytes.len() - 1]));
            }
            match slot.mark {
                Mark::Ends(_) => pushed_texts = below,
                Mark::Return(_) => pushed_texts = below,
                Mark::Free(byte) => return Some(PushedItem::Free(byte)),
                Mark::Do(event) => return Some(PushedItem::Do(event)),
            }
        }
        None
    }

    /// Puts bytes in front again.
    pub fn free(&mut self, bytes: &[u8])
        requires { frees_ahead self.old.ahead + length bytes.now ≤ most_frees }
        ensures { self.new ≡ record self.old { ahead = map FreeAhead bytes.now ++ self.old.ahead } }
    {
        put_frees(&mut self.pushed_texts, self.bytes.as_slice(), bytes);
    }
}

/// Whether a byte of a text comes next.
#[inline(always)]
fn is_byte_next<E>(pushed_texts: &[MarkAt<E>], bytes: &[u8]) -> bool
    ensures { result ≡ is_byte_next (reverse pushed_texts.now) bytes.now }
{
    match pushed_texts.split_last() {
        Some((slot, _)) => slot.height < bytes.len(),
        None => false,
    }
}

/// Takes the first item of the mark in front.
#[inline(always)]
fn take_mark<E>(pushed_texts: &mut Vec<MarkAt<E>>, bytes: &[u8]) -> PushedItem<E>
    requires some { 0 < vec_len pushed_texts.old }
    requires mark { is_byte_next (reverse pushed_texts.old.items) bytes.now ≡ false }
    requires stacked { IsStacked (reverse pushed_texts.old.items) (length bytes.now) }
    ensures items { standing (reverse pushed_texts.old.items) bytes.now
        ≡ item_of result ∷ standing (reverse pushed_texts.new.items) bytes.now }
    ensures stacked { IsStacked (reverse pushed_texts.new.items) (length bytes.now) }
    ensures capacity { vec_capacity pushed_texts.new ≡ vec_capacity pushed_texts.old }
{
    let slot = pushed_texts.take_last();
    match slot.mark {
        Mark::Return(back) => PushedItem::Return(back),
        Mark::Free(byte) => PushedItem::Free(byte),
        Mark::Do(event) => PushedItem::Do(event),
        Mark::Ends(more) => {
            if more > 0 {
                put_mark(pushed_texts, bytes, Mark::Ends(more - 1));
            }
            PushedItem::End
        }
    }
}

/// Puts a mark in front.
fn put_mark<E>(pushed_texts: &mut Vec<MarkAt<E>>, bytes: &[u8], mark: Mark<E>)
    requires room { vec_len pushed_texts.old < vec_capacity pushed_texts.old }
    requires stacked { IsStacked (reverse pushed_texts.old.items) (length bytes.now) }
    ensures items { standing (reverse pushed_texts.new.items) bytes.now
        ≡ items_of mark ++ standing (reverse pushed_texts.old.items) bytes.now }
    ensures stacked { IsStacked (reverse pushed_texts.new.items) (length bytes.now) }
    ensures len { vec_len pushed_texts.new ≡ vec_len pushed_texts.old + 1 }
    ensures capacity { vec_capacity pushed_texts.new ≡ vec_capacity pushed_texts.old }
{
    pushed_texts.push_reserved(MarkAt {
        height: bytes.len(),
        mark,
    });
}

/// Puts bytes in front again.
fn put_frees<E>(pushed_texts: &mut Vec<MarkAt<E>>, bytes: &[u8], frees: &[u8])
    requires room { vec_len pushed_texts.old + length frees.now ≤ vec_capacity pushed_texts.old }
    requires stacked { IsStacked (reverse pushed_texts.old.items) (length bytes.now) }
    ensures items { standing (reverse pushed_texts.new.items) bytes.now
        ≡ map FreeAhead frees.now ++ standing (reverse pushed_texts.old.items) bytes.now }
    ensures stacked { IsStacked (reverse pushed_texts.new.items) (length bytes.now) }
    ensures capacity { vec_capacity pushed_texts.new ≡ vec_capacity pushed_texts.old }
{
    for free in frees.iter().rev() {
        put_mark(pushed_texts, bytes, Mark::Free(*free));
    }
}

/// Puts the end of a text in front. Ends that nothing stands between share a slot.
fn put_end<E: Copy>(pushed_texts: &mut Vec<MarkAt<E>>, bytes: &[u8])
    requires room { vec_len pushed_texts.old < vec_capacity pushed_texts.old }
    requires few { ends_ahead (standing (reverse pushed_texts.old.items) bytes.now) + 1 < 2 ^ 64 }
    requires stacked { IsStacked (reverse pushed_texts.old.items) (length bytes.now) }
    ensures items { standing (reverse pushed_texts.new.items) bytes.now
        ≡ EndAhead ∷ standing (reverse pushed_texts.old.items) bytes.now }
    ensures stacked { IsStacked (reverse pushed_texts.new.items) (length bytes.now) }
    ensures some { 0 < vec_len pushed_texts.new }
    ensures capacity { vec_capacity pushed_texts.new ≡ vec_capacity pushed_texts.old }
{
    if let Some((slot, _)) = pushed_texts.as_slice().split_last()
        && slot.height == bytes.len()
        && let Mark::Ends(more) = slot.mark
    {
        let _same = pushed_texts.take_last();
        put_mark(pushed_texts, bytes, Mark::Ends(more + 1));
    } else {
        put_mark(pushed_texts, bytes, Mark::Ends(0));
    }
}

/// Puts the bytes of a text on top of the others, the last one first.
fn put_reversed(bytes: &mut Vec<u8>, text: &[u8])
    requires { vec_len bytes.old + length text.now ≤ vec_capacity bytes.old }
    ensures items { bytes.new.items ≡ bytes.old.items ++ reverse text.now }
    ensures capacity { vec_capacity bytes.old ≤ vec_capacity bytes.new }
{
    if text.len() < SHORT {
        put_few(bytes, text);
        return;
    }
    let below = bytes.len();
    bytes.extend_from_slice(text).unwrap();
    bytes.as_mut_slice()[below..].reverse();
}

/// Puts the bytes of a short text on top of the others one by one, the last one first.
fn put_few(bytes: &mut Vec<u8>, text: &[u8])
    requires { vec_len bytes.old + length text.now ≤ vec_capacity bytes.old }
    ensures items { bytes.new.items ≡ bytes.old.items ++ reverse text.now }
    ensures capacity { vec_capacity bytes.old ≤ vec_capacity bytes.new }
{
    for byte in text.iter().rev() {
        bytes.push_reserved(*byte);
    }
}
