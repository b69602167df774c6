//! Leases by their numbers: the number of one that has ended serves again.

ghost use Rattle.std.specs.Prelude.{◌≡◌, ◌<◌, ◌≤◌, [], IfOk, IsSome, IsTrue, None};
ghost use Rattle.std.specs.Prelude.{◌↔◌, Some, get_or, length, set};
ghost use Rattle.roff_store.specs.Leases.{begun, living};

use crate::strand::Strand;
use std::alloc::{AllocError, Global};
use std::marker::Model;

/// A number of leases, reserved at once.
#[derive(Drop)]
pub(crate) struct LeaseTable {
    /// For each number that a lease has or had, what it still gives, if it lives.
    leases: Vec<Option<Strand>>,
    /// The numbers of leases that have ended.
    ended: Vec<u32>,
    cap: u32,
}

impl Model for LeaseTable {
    ghost use Rattle.roff_store.specs.Leases.{Leases};

    ghost Value = { Leases };

    ghost use Rattle.roff_store.specs.LeaseTable.Kept.{kept_by, IsSound};

    ghost view = { kept_by };

    ghost invariant = { IsSound };
}

impl LeaseTable {
    /// Room for so many leases.
    pub(crate) fn new(alloc: Global, cap: u32) -> Result<Self, AllocError>
        ensures { IfOk result (λ t. t ≡ record { items = []; cap = cap }) }
    {
        Ok(LeaseTable {
            leases: Vec::with_capacity(alloc, cap as usize)?,
            ended: Vec::with_capacity(alloc, cap as usize)?,
            cap,
        })
    }

    /// Whether one lease more may live.
    #[inline]
    pub(crate) fn has_room(&self) -> bool
        ensures { IsTrue result ↔ (length (living self.now.items) < self.now.cap) }
    {
        self.leases.len() - self.ended.len() < self.cap as usize
    }

    /// The lease of a number, if it lives.
    pub(crate) fn get(&self, id: u32) -> Option<Strand>
        ensures { result ≡ get_or self.now.items id None }
    {
        match self.leases.get(id as usize) {
            Some(lease) => *lease,
            None => None,
        }
    }

    /// The lease of a number that one has or had.
    #[inline(always)]
    pub(crate) fn at(&self, id: u32) -> &Option<Strand>
        requires { id < length self.now.items }
        ensures { result.now ≡ get_or self.now.items id None }
    {
        &self.leases[id as usize]
    }

    /// Begins a lease.
    pub(crate) fn begin(&mut self, strand: Strand) -> u32
        requires { length (living self.old.items) < self.old.cap }
        ensures known { result ≤ length self.old.items }
        ensures free { get_or self.old.items result None ≡ None }
        ensures begun { self.new
            ≡ record { items = begun result strand self.old.items; cap = self.old.cap } }
    {
        match self.ended.pop() {
            Some(id) => {
                self.leases[id as usize] = Some(strand);
                id
            }
            None => {
                let id = self.leases.len() as u32;
                self.leases.push_reserved(Some(strand));
                id
            }
        }
    }

    /// Lets a lease that lives give something else.
    #[inline(always)]
    pub(crate) fn put(&mut self, id: u32, strand: Strand)
        requires { IsSome (get_or self.old.items id None) }
        ensures { self.new
            ≡ record { items = set self.old.items id (Some strand); cap = self.old.cap } }
    {
        self.leases[id as usize] = Some(strand);
    }

    /// Ends a lease.
    #[inline(always)]
    pub(crate) fn end(&mut self, id: u32)
        requires { IsSome (get_or self.old.items id None) }
        ensures { self.new ≡ record { items = set self.old.items id None; cap = self.old.cap } }
    {
        self.leases[id as usize] = None;
        self.ended.push_reserved(id);
    }
}
