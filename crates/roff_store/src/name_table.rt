//! Entries by name, found through a number made of the name's bytes.

ghost use Rattle.std.specs.Prelude.{◌≡◌, ℕ, ◌<◌, ◌≤◌, ◌^◌, ◌+◌, ◌||◌, [], length, slice_index};
ghost use Rattle.std.specs.Prelude.{Option, IfOk, IfSome, IfNone, nat_lt, vec_len, vec_capacity};
ghost use Rattle.roff_store.specs.Named.{EachOnce, entry_of, with_entry, without_entry};
ghost use Rattle.roff_store.specs.Buckets.{bucket_of};
ghost use Rattle.roff_store.specs.NameTable.Slots.{buckets_of, entries_in, IsIndexed, LeadsTo};
ghost use Rattle.roff_store.specs.NameTable.Slots.{StandsAt};

use roff_num::{Limit, Name};
use std::alloc::{AllocError, Global};
use std::marker::Model;

/// How many buckets there are. Each table clears 4 bytes for each of them as it is made.
const BUCKETS: usize = 1 << 13;

/// At least so many slots more than names, so that unused slots are seldom swept.
const SPARE_SLOTS: u32 = 1024;

/// A place for a name and its entry.
#[derive(Drop)]
struct Slot<E> {
    name: Name,
    entry: E,
    /// Whether the name still has the entry. If not, the slot lies in no bucket.
    is_used: bool,
    /// One more than the place of the next older slot in the bucket; 0 if there is none.
    older: u32,
}

/// Entries by name, in the order in which the names came.
///
/// A name that goes leaves its slot unused. The unused slots are swept once all are taken.
#[derive(Drop)]
pub(crate) struct NameTable<E> {
    cap: u32,
    count: u32,
    slots: Vec<Slot<E>>,
    /// For each bucket one more than the place of its newest slot; 0 if it has none.
    heads: Vec<u32>,
}

impl<E> Model for NameTable<E> {
    ghost use Rattle.roff_store.specs.Named.{Table, table_code};

    ghost Value = { Table E };

    ghost coded = { table_code E.code };

    ghost use Rattle.roff_store.specs.NameTable.Kept.{kept_by, IsSound};

    ghost view = { kept_by };

    ghost invariant = { IsSound };
}

impl<E: Copy> NameTable<E> {
    ghost use Rattle.roff_store.specs.Named.{Table, admitted, has_room, put_into, removed_from};
    ghost use Rattle.roff_store.specs.Named.{Changed};

    /// An empty table for so many names.
    pub(crate) fn new(alloc: Global, cap: u32) -> Result<Self, AllocError>
        ensures { IfOk result (λ t. t ≡ record { entries = []; cap = cap }) }
    {
        let room = cap.saturating_add(cap.max(SPARE_SLOTS));
        Ok(NameTable {
            cap,
            count: 0,
            slots: Vec::with_capacity(alloc, room as usize)?,
            heads: vec![in alloc; 0; BUCKETS]?,
        })
    }

    /// How many names have an entry.
    pub(crate) fn len(&self) -> usize
        ensures { result ≡ length self.now.entries }
    {
        self.count as usize
    }

    /// Whether a name may be given an entry that is known to have one, or to have none.
    pub(crate) fn has_room_for(&self, known: bool) -> bool
        ensures { result ≡ (known || nat_lt (length self.now.entries) self.now.cap) }
    {
        known || self.count < self.cap
    }

    /// Whether a name may be given an entry: the table isn't full, or the name has one.
    pub(crate) fn has_room(&self, name: &Name) -> bool
        ensures { result ≡ has_room name.now self.now }
    {
        self.count < self.cap || self.get(name).is_some()
    }

    /// The entry of a name.
    #[inline(always)]
    pub(crate) fn get(&self, name: &Name) -> Option<E>
        ensures { result ≡ entry_of name.now self.now.entries }
    {
        match find(self.slots.as_slice(), self.heads.as_slice(), name) {
            Some(place) => Some(self.slots[place].entry),
            None => None,
        }
    }

    /// Gives a name an entry.
    ///
    /// # Errors
    ///
    /// [`Limit::Names`] if the name is new and the table is full; the table is then as it was.
    pub(crate) fn put(&mut self, name: &Name, entry: E) -> Result<(), Limit>
        ensures answer { result ≡ admitted name.now self.old }
        ensures table { self.new ≡ put_into name.now entry self.old }
    {
        if let Some(place) = find(self.slots.as_slice(), self.heads.as_slice(), name) {
            self.slots[place].entry = entry;
            return Ok(());
        }
        if self.count == self.cap {
            return Err(Limit::Names);
        }
        make_room(&mut self.slots, self.heads.as_mut_slice());
        add(&mut self.slots, self.heads.as_mut_slice(), name, entry);
        self.count += 1;
        Ok(())
    }

    /// Changes the entry of a name, if it has one, by one look-up. Returns what the change answers.
    #[inline(always)]
    pub(crate) fn change<R, F: FnOnce(E) -> (E, R)>(&mut self, name: &Name, change: F) -> Option<R>
        requires { F.IsAlwaysCallable change }
        ensures changed { IfSome result (Changed (F.post change) name.now self.old self.new) }
        ensures absent { IfNone result (entry_of name.now self.old.entries ≡ None) }
        ensures unchanged { IfNone result (self.new ≡ self.old) }
    {
        match find(self.slots.as_slice(), self.heads.as_slice(), name) {
            Some(place) => {
                let slot = &mut self.slots[place];
                let (entry, answer) = change(slot.entry);
                slot.entry = entry;
                Some(answer)
            }
            None => None,
        }
    }

    /// Takes a name's entry away.
    pub(crate) fn remove(&mut self, name: &Name)
        ensures { self.new ≡ removed_from name.now self.old }
    {
        if let Some(place) = find(self.slots.as_slice(), self.heads.as_slice(), name) {
            unlink(
                self.slots.as_mut_slice(),
                self.heads.as_mut_slice(),
                name,
                place,
            );
            self.count -= 1;
        }
    }
}

/// The bucket of a name: its bytes as the digits of a number, of which the remainder is taken.
/// Names of one or two letters and digits are apart so, and of the names of one or two printed
/// bytes no three share a bucket.
#[inline]
fn bucket_of(name: &Name) -> usize
    ensures value { result ≡ bucket_of name.now }
    ensures within { result < BUCKETS }
{
    match name.as_bytes() {
        [first] => usize::from(*first),
        [first, second] => (usize::from(*first) * 1145 + usize::from(*second)) % BUCKETS,
        bytes => bucket_of_bytes(bytes),
    }
}

/// The bucket of a name with these bytes: the remainder of a number whose digits they are.
fn bucket_of_bytes(bytes: &[u8]) -> usize
    ensures value { result ≡ bucket_of bytes.now }
    ensures within { result < BUCKETS }
{
    let mut bucket = 0;
    for byte in bytes {
        bucket = (bucket * 1145 + usize::from(*byte)) % BUCKETS;
    }
    bucket
}

/// The place of the slot of a name.
#[inline(always)]
fn find<E>(slots: &[Slot<E>], heads: &[u32], name: &Name) -> Option<usize>
    requires { IsIndexed slots.now heads.now }
    ensures inside { IfSome result (λ place. place < length slots.now) }
    ensures found { IfSome result (λ place. StandsAt slots.now place name.now) }
    ensures absent { IfNone result (entry_of name.now (entries_in slots.now) ≡ None) }
{
    let mut last = heads[bucket_of(name)] as usize;
    while last > 0 {
        let slot = &slots[last - 1];
        if slot.name.is_same(name) {
            return Some(last - 1);
        }
        last = slot.older as usize;
    }
    None
}

/// The place of the slot that leads to this one, or none if the head of its bucket does.
fn newer_slot<E>(slots: &[Slot<E>], heads: &[u32], bucket: usize, place: usize) -> Option<usize>
    requires index { IsIndexed slots.now heads.now }
    requires within { bucket < BUCKETS }
    requires inside { place < length slots.now }
    requires lies { slice_index (buckets_of slots.now) place ≡ bucket }
    ensures inside { IfSome result (λ newer. newer < length slots.now) }
    ensures slot { IfSome result (λ newer. LeadsTo slots.now newer bucket (place + 1)) }
    ensures head { IfNone result (slice_index heads.now bucket ≡ place + 1) }
{
    let mut newer = None;
    let mut last = heads[bucket] as usize;
    while last != place + 1 {
        newer = Some(last - 1);
        last = slots[last - 1].older as usize;
    }
    newer
}

/// Takes the slot of a name out of its bucket. It is then used no more.
fn unlink<E>(slots: &mut [Slot<E>], heads: &mut [u32], name: &Name, place: usize)
    requires index { IsIndexed slots.old heads.old }
    requires inside { place < length slots.old }
    requires stands { StandsAt slots.old place name.now }
    requires once { EachOnce (entries_in slots.old) }
    ensures entries { entries_in slots.new ≡ without_entry name.now (entries_in slots.old) }
    ensures index { IsIndexed slots.new heads.new }
{
    let bucket = bucket_of(name);
    let newer = newer_slot(slots, heads, bucket, place);
    let slot = &mut slots[place];
    slot.is_used = false;
    let older = slot.older;
    match newer {
        Some(newer) => slots[newer].older = older,
        None => heads[bucket] = older,
    }
}

/// Adds a slot behind the others, in front of its bucket.
fn add<E>(slots: &mut Vec<Slot<E>>, heads: &mut [u32], name: &Name, entry: E)
    requires room { vec_len slots.old < vec_capacity slots.old }
    requires small { vec_len slots.old + 1 < 2 ^ 32 }
    requires index { IsIndexed slots.old.items heads.old }
    requires absent { entry_of name.now (entries_in slots.old.items) ≡ None }
    ensures entries { entries_in slots.new.items
        ≡ with_entry name.now entry (entries_in slots.old.items) }
    ensures len { vec_len slots.new ≡ vec_len slots.old + 1 }
    ensures index { IsIndexed slots.new.items heads.new }
    ensures capacity { vec_capacity slots.new ≡ vec_capacity slots.old }
{
    let head = &mut heads[bucket_of(name)];
    let older = *head;
    *head = slots.len() as u32 + 1;
    let slot = Slot {
        name: Name::new(name.as_bytes()).unwrap(),
        entry,
        is_used: true,
        older,
    };
    slots.push_reserved(slot);
}

/// Makes room for a slot: where all that are reserved are taken, those that aren't used go, and the
/// others are linked anew.
fn make_room<E: Drop>(slots: &mut Vec<Slot<E>>, heads: &mut [u32])
    requires few { length (entries_in slots.old.items) < vec_capacity slots.old }
    requires small { vec_capacity slots.old < 2 ^ 32 }
    requires index { IsIndexed slots.old.items heads.old }
    ensures room { vec_len slots.new < vec_capacity slots.new }
    ensures idle { vec_len slots.old < vec_capacity slots.old
        → (slots.new.items ≡ slots.old.items) × (heads.new ≡ heads.old) }
    ensures entries { entries_in slots.new.items ≡ entries_in slots.old.items }
    ensures index { IsIndexed slots.new.items heads.new }
    ensures capacity { vec_capacity slots.new ≡ vec_capacity slots.old }
{
    if slots.len() < slots.capacity() {
        return;
    }
    drop_unused(slots);
    heads.fill(0);
    link(slots.as_mut_slice(), heads);
}

/// Removes the slots that aren't used.
fn drop_unused<E: Drop>(slots: &mut Vec<Slot<E>>)
    ensures entries { entries_in slots.new.items ≡ entries_in slots.old.items }
    ensures len { vec_len slots.new ≡ length (entries_in slots.old.items) }
    ensures capacity { vec_capacity slots.new ≡ vec_capacity slots.old }
{
    slots.retain(|slot| slot.is_used);
}

/// Links the slots into their buckets, from the first one on.
fn link<E>(slots: &mut [Slot<E>], heads: &mut [u32])
    requires small { length slots.old < 2 ^ 32 }
    requires heads { length heads.old ≡ BUCKETS }
    requires clear { (bucket : ℕ) → bucket < BUCKETS → slice_index heads.old bucket ≡ 0 }
    requires used { length (entries_in slots.old) ≡ length slots.old }
    ensures entries { entries_in slots.new ≡ entries_in slots.old }
    ensures index { IsIndexed slots.new heads.new }
{
    for place in 0..slots.len() {
        let slot = &mut slots[place];
        let head = &mut heads[bucket_of(&slot.name)];
        slot.older = *head;
        *head = place as u32 + 1;
    }
}
