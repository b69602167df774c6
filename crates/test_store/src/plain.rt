//! What a store of texts should hold and answer, by plain lists.

use crate::chance::Chance;
use roff_num::Limit;
use roff_store::LeaseId;
use std::alloc::{AllocError, Global};
use std::mem;

/// The limits of a store.
#[derive(Clone, Copy)]
pub(crate) struct Limits {
    pub(crate) bytes: u32,
    pub(crate) names: u32,
    pub(crate) open: u32,
    pub(crate) leases: u32,
    pub(crate) kept: u32,
}

impl Limits {
    /// Small limits.
    pub(crate) fn by_chance(chance: &mut Chance) -> Limits {
        Limits {
            bytes: chance.limit(2500),
            names: chance.limit(11),
            open: chance.limit(4),
            leases: chance.limit(6),
            kept: chance.limit(3000),
        }
    }
}

/// What a name stands for.
#[derive(Drop)]
pub(crate) enum Meaning {
    Body(Vec<u8>),
    Request(u16),
}

/// A lease: its number, the body as it was, and how many bytes of it were given.
#[derive(Drop)]
pub(crate) struct Leased {
    id: LeaseId,
    body: Vec<u8>,
    given: usize,
}

impl Leased {
    /// The number.
    pub(crate) fn id(&self) -> LeaseId {
        self.id
    }

    /// The bytes that it still gives.
    pub(crate) fn rest(&self) -> &[u8] {
        self.body.get(self.given..).unwrap_or(&[])
    }

    /// So many bytes are given.
    pub(crate) fn pass(&mut self, count: usize) {
        self.given = self.given.saturating_add(count);
    }
}

/// What a store should hold.
#[derive(Drop)]
pub(crate) struct Plain {
    alloc: Global,
    limits: Limits,
    /// For each name, by its number, what it stands for.
    names: Vec<Option<Meaning>>,
    /// The texts in the making, the oldest first.
    open: Vec<Vec<u8>>,
    /// The leases that live.
    leases: Vec<Leased>,
}

impl Plain {
    /// Nothing: so many names that stand for nothing.
    pub(crate) fn new(alloc: Global, limits: Limits, count: usize) -> Result<Plain, AllocError> {
        let mut names = Vec::new(alloc);
        for _ in 0..count {
            names.push(None)?;
        }
        Ok(Plain {
            alloc,
            limits,
            names,
            open: Vec::new(alloc),
            leases: Vec::new(alloc),
        })
    }

    /// The allocator.
    pub(crate) fn alloc(&self) -> Global {
        self.alloc
    }

    /// The limits.
    pub(crate) fn limits(&self) -> Limits {
        self.limits
    }

    /// What a name stands for, if anything.
    pub(crate) fn meaning(&self, name: usize) -> Option<&Meaning> {
        match self.names.get(name) {
            Some(meaning) => meaning.as_ref(),
            None => None,
        }
    }

    /// The bytes of a name's body; none where it has no body.
    pub(crate) fn body(&self, name: usize) -> &[u8] {
        match self.meaning(name) {
            Some(Meaning::Body(bytes)) => bytes.as_slice(),
            _ => &[],
        }
    }

    /// Whether a name has a body.
    pub(crate) fn has_body(&self, name: usize) -> bool {
        matches!(self.meaning(name), Some(Meaning::Body(_)))
    }

    /// How many names stand for something.
    pub(crate) fn count(&self) -> usize {
        let mut count: usize = 0;
        for meaning in self.names.as_slice() {
            if meaning.is_some() {
                count = count.saturating_add(1);
            }
        }
        count
    }

    /// How many texts are in the making.
    pub(crate) fn open_count(&self) -> usize {
        self.open.len()
    }

    /// The leases that live.
    pub(crate) fn leases(&self) -> &[Leased] {
        self.leases.as_slice()
    }

    /// A lease that lives, by its place among them.
    pub(crate) fn lease_at(&mut self, place: usize) -> Option<&mut Leased> {
        self.leases.get_mut(place)
    }

    /// Whether a lease of this number lives.
    pub(crate) fn lives(&self, id: LeaseId) -> bool {
        for lease in self.leases.as_slice() {
            if lease.id == id {
                return true;
            }
        }
        false
    }

    /// How many bytes bodies and texts in the making have.
    pub(crate) fn used(&self) -> usize {
        let mut used: usize = 0;
        for name in 0..self.names.len() {
            used = used.saturating_add(self.body(name).len());
        }
        used.saturating_add(self.open_bytes())
    }

    /// How many bytes the texts in the making have.
    fn open_bytes(&self) -> usize {
        let mut count: usize = 0;
        for text in self.open.as_slice() {
            count = count.saturating_add(text.len());
        }
        count
    }

    /// How many bytes the leases still give.
    pub(crate) fn kept(&self) -> usize {
        let mut kept: usize = 0;
        for lease in self.leases.as_slice() {
            kept = kept.saturating_add(lease.rest().len());
        }
        kept
    }

    /// Which limit refuses that so many bytes more come to those that stay.
    fn bytes_admitted(&self, stay: usize, more: usize) -> Result<(), Limit> {
        if stay.saturating_add(more) > self.limits.bytes as usize {
            return Err(Limit::Store);
        }
        Ok(())
    }

    /// Which limit refuses that a name stands for something.
    fn name_admitted(&self, name: usize) -> Result<(), Limit> {
        if self.meaning(name).is_some() {
            return Ok(());
        }
        if self.count() >= self.limits.names as usize {
            return Err(Limit::Names);
        }
        Ok(())
    }

    /// Lets a name stand for something, or nothing.
    pub(crate) fn put(&mut self, name: usize, meaning: Option<Meaning>) {
        if let Some(place) = self.names.get_mut(name) {
            *place = meaning;
        }
    }

    /// Lets a name stand for something, unless that is refused.
    pub(crate) fn set(&mut self, name: usize, meaning: Meaning) -> Result<(), Limit> {
        let count = match &meaning {
            Meaning::Body(bytes) => bytes.len(),
            _ => 0,
        };
        let stay = self.used().saturating_sub(self.body(name).len());
        self.bytes_admitted(stay, count)?;
        self.name_admitted(name)?;
        self.put(name, Some(meaning));
        Ok(())
    }

    /// Puts bytes behind the body of a name, unless that is refused.
    pub(crate) fn append(
        &mut self,
        name: usize,
        text: &[u8],
    ) -> Result<Result<(), Limit>, AllocError> {
        let body = joined(self.alloc, self.body(name), text)?;
        Ok(self.set(name, Meaning::Body(body)))
    }

    /// Lets a name stand for what another one stood for, if that is something.
    pub(crate) fn rename(&mut self, from: usize, to: usize) {
        if from == to || self.meaning(from).is_none() {
            return;
        }
        if let Some(place) = self.names.get_mut(from) {
            let meaning = mem::replace(place, None);
            self.put(to, meaning);
        }
    }

    /// Whether a text may be begun.
    pub(crate) fn can_open(&self) -> bool {
        self.open.len() < self.limits.open as usize
    }

    /// Begins a text.
    pub(crate) fn open(&mut self) -> Result<(), AllocError> {
        self.open.push(Vec::new(self.alloc))?;
        Ok(())
    }

    /// Puts bytes behind a text in the making, unless that is refused.
    pub(crate) fn push_open(
        &mut self,
        place: usize,
        text: &[u8],
    ) -> Result<Result<(), Limit>, AllocError> {
        if let Err(limit) = self.bytes_admitted(self.used(), text.len()) {
            return Ok(Err(limit));
        }
        if let Some(open) = self.open.get_mut(place) {
            open.extend_from_slice(text)?;
        }
        Ok(Ok(()))
    }

    /// Ends a text in the making as the body of a name, or behind it, unless that is refused.
    pub(crate) fn enter(
        &mut self,
        place: usize,
        name: usize,
        append: bool,
    ) -> Result<Result<(), Limit>, AllocError> {
        if let Err(limit) = self.name_admitted(name) {
            return Ok(Err(limit));
        }
        let front = if append { self.body(name) } else { &[] };
        let text = match self.open.get(place) {
            Some(text) => text.as_slice(),
            None => &[],
        };
        let body = joined(self.alloc, front, text)?;
        self.drop_open(place);
        self.put(name, Some(Meaning::Body(body)));
        Ok(Ok(()))
    }

    /// Drops a text in the making.
    pub(crate) fn drop_open(&mut self, place: usize) {
        if place < self.open.len() {
            let _dropped = self.open.remove(place);
        }
    }

    /// Whether the body of a name may be leased.
    pub(crate) fn can_lease(&self, name: usize) -> bool {
        let kept = self.kept().saturating_add(self.body(name).len());
        self.leases.len() < self.limits.leases as usize && kept <= self.limits.kept as usize
    }

    /// Leases the body of a name under this number.
    pub(crate) fn lease(&mut self, name: usize, id: LeaseId) -> Result<(), AllocError> {
        let body = joined(self.alloc, self.body(name), &[])?;
        self.leases.push(Leased { id, body, given: 0 })?;
        Ok(())
    }

    /// Ends a lease, by its place among those that live.
    pub(crate) fn release(&mut self, place: usize) {
        if place < self.leases.len() {
            let _ended = self.leases.remove(place);
        }
    }
}

/// Two texts behind each other.
pub(crate) fn joined(alloc: Global, front: &[u8], back: &[u8]) -> Result<Vec<u8>, AllocError> {
    let mut text = Vec::new(alloc);
    text.extend_from_slice(front)?;
    text.extend_from_slice(back)?;
    Ok(text)
}
