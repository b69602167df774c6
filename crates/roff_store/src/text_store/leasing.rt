//! Leases, by which bodies are read where they lie.

ghost use Rattle.std.specs.Prelude.{◌≡◌, ◌<◌, ◌≤◌, ◌+◌, true, false, length, take, IsSome, IsTrue};
ghost use Rattle.std.specs.Prelude.{is_some, ◌↔◌, IfSome, IfNone};

use super::{Meaning, TextStore, body_len};
use crate::text::{LeaseId, Leased};
use roff_num::Name;

impl TextStore {
    ghost use Rattle.roff_store.specs.Texts.{IsFree, body_of, has_body, kept, lease_bytes};
    ghost use Rattle.roff_store.specs.Texts.{lease_of, live, next_byte, rest_of};
    ghost use Rattle.roff_store.specs.TextCalls.{Lease as Leases, Release, Take, after};
    ghost use Rattle.roff_store.specs.Leased.{LeasesWithin};

    /// Whether the body of a name may be leased: one lease more may live, and leases may still give
    /// so many bytes more.
    pub fn can_lease(&self, name: &Name) -> bool
        ensures { IsTrue result ↔ ((live self.now < self.now.cap_leases)
            × (kept self.now + length (body_of name.now self.now) ≤ self.now.cap_kept)) }
    {
        self.leases.has_room()
            && body_len(self.names.get(name)) <= self.cap_kept as usize - self.kept
    }

    /// Whether a number is that of a lease that lives.
    pub fn lives(&self, id: LeaseId) -> bool
        ensures { result ≡ is_some (lease_of id.0 self.now) }
    {
        self.leases.get(id.0).is_some()
    }

    /// Leases the body of a name, if it has one.
    pub fn lease(&mut self, name: &Name) -> Option<LeaseId>
        requires fewer { live self.old < self.old.cap_leases }
        requires room { kept self.old + length (body_of name.now self.old) ≤ self.old.cap_kept }
        ensures body { IfSome result (λ _. has_body name.now self.old ≡ true) }
        ensures number { IfSome result (λ id. IsFree id.0 self.old) }
        ensures leased { IfSome result (λ id. self.new ≡ after (Leases name.now id.0) self.old) }
        ensures no_body { IfNone result (has_body name.now self.old ≡ false) }
        ensures same { IfNone result (self.new ≡ self.old) }
    {
        let most = self.cap_kept as usize - self.kept;
        match self.lease_within(name, 0, most) {
            Leased::Body(id, _) => Some(id),
            Leased::Nothing => None,
            Leased::Long => None,
        }
    }

    /// Leases the body of a name, if it has one of so many bytes at the least and at the most.
    pub fn lease_within(&mut self, name: &Name, least: usize, most: usize) -> Leased
        requires fewer { live self.old < self.old.cap_leases }
        requires room { kept self.old + most ≤ self.old.cap_kept }
        ensures { LeasesWithin self.old self.new name.now least most result }
    {
        let body = match self.names.get(name) {
            Some(Meaning::Body(body)) => body,
            Some(Meaning::Request(_)) => return Leased::Nothing,
            None => return Leased::Nothing,
        };
        if body.rest < least {
            return Leased::Nothing;
        }
        if body.rest > most {
            return Leased::Long;
        }
        let last = self.chunks.last_byte(body);
        self.chunks.share(body);
        self.kept += body.rest;
        Leased::Body(LeaseId(self.leases.begin(body)), last)
    }

    /// The next byte that a lease gives, if it has one.
    #[inline]
    pub fn lease_take(&mut self, id: LeaseId) -> Option<u8>
        requires { IsSome (lease_of id.0 self.old) }
        ensures byte { result ≡ next_byte (lease_of id.0 self.old) }
        ensures taken { self.new ≡ after (Take id.0 1) self.old }
    {
        match *self.leases.at(id.0) {
            Some(strand) if strand.goes_on_inside(1) => {
                let byte = self.lease_front(id)[0];
                self.lease_pass(id, 1);
                Some(byte)
            }
            _ => self.lease_take_last(id),
        }
    }

    /// The next byte that a lease gives, if it has one, where a chunk or the lease may have been
    /// read.
    #[inline(never)]
    fn lease_take_last(&mut self, id: LeaseId) -> Option<u8>
        requires { IsSome (lease_of id.0 self.old) }
        ensures byte { result ≡ next_byte (lease_of id.0 self.old) }
        ensures taken { self.new ≡ after (Take id.0 1) self.old }
    {
        let byte = *self.lease_front(id).first()?;
        self.lease_pass_chunks(id, 1);
        Some(byte)
    }

    /// Bytes that a lease gives next: at least one, if it has one.
    #[inline(always)]
    pub fn lease_front(&self, id: LeaseId) -> &[u8]
        requires { IsSome (lease_of id.0 self.now) }
        ensures bytes { result.now
            ≡ take (length result.now) (lease_bytes (lease_of id.0 self.now)) }
        ensures some { 0 < rest_of (lease_of id.0 self.now) → 0 < length result.now }
    {
        match *self.leases.at(id.0) {
            Some(strand) => self.chunks.front(strand),
            None => &[],
        }
    }

    /// Takes so many bytes from a lease, as many as it still gives at most.
    #[inline(always)]
    pub fn lease_pass(&mut self, id: LeaseId, count: usize)
        requires lives { IsSome (lease_of id.0 self.old) }
        requires within { count ≤ rest_of (lease_of id.0 self.old) }
        ensures { self.new ≡ after (Take id.0 count) self.old }
    {
        match *self.leases.at(id.0) {
            Some(strand) if strand.goes_on_inside(count) => {
                let rest = self.chunks.pass_inside(strand, count);
                self.leases.put(id.0, rest);
                self.kept -= count;
            }
            _ => self.lease_pass_chunks(id, count),
        }
    }

    /// Takes so many bytes from a lease, as many as it still gives at most, where a chunk or the
    /// lease may have been read.
    #[inline(never)]
    fn lease_pass_chunks(&mut self, id: LeaseId, count: usize)
        requires lives { IsSome (lease_of id.0 self.old) }
        requires within { count ≤ rest_of (lease_of id.0 self.old) }
        ensures { self.new ≡ after (Take id.0 count) self.old }
    {
        if let Some(strand) = *self.leases.at(id.0) {
            let rest = self.chunks.pass(strand, count);
            self.leases.put(id.0, rest);
            self.kept -= count;
        }
    }

    /// How many bytes a lease still gives.
    #[inline]
    pub fn lease_rest(&self, id: LeaseId) -> usize
        requires { IsSome (lease_of id.0 self.now) }
        ensures { result ≡ rest_of (lease_of id.0 self.now) }
    {
        match *self.leases.at(id.0) {
            Some(strand) => strand.rest,
            None => 0,
        }
    }

    /// Ends a lease.
    #[inline(always)]
    pub fn release(&mut self, id: LeaseId)
        requires { IsSome (lease_of id.0 self.old) }
        ensures { self.new ≡ after (Release id.0) self.old }
    {
        if let Some(strand) = *self.leases.at(id.0) {
            self.leases.end(id.0);
            self.kept -= strand.rest;
            self.chunks.release(strand);
        }
    }
}
