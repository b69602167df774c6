//! Whether a store holds what the model does.

use crate::Named;
use crate::plain::{Leased, Meaning, Plain};
use roff_num::Name;
use roff_store::{Kind, LeaseId, OpenId, TextStore};

/// Whether a store holds the same.
pub(crate) fn agree(store: &mut TextStore, plain: &Plain, names: &[Named]) -> bool {
    counts_agree(store, plain)
        && names_agree(store, plain, names)
        && open_agree(store, plain)
        && lives_agree(store, plain)
        && leases_agree(store, plain)
        && bodies_agree(store, plain, names)
}

/// Whether what is counted is the same.
fn counts_agree(store: &TextStore, plain: &Plain) -> bool {
    let count = plain.count();
    store.used() == plain.used()
        && store.kept() == plain.kept()
        && store.len() == count
        && store.is_empty() == (count == 0)
        && store.can_open() == plain.can_open()
}

/// Whether each name stands for the same, by kind and length, and may be leased in both.
fn names_agree(store: &TextStore, plain: &Plain, names: &[Named]) -> bool {
    for named in names {
        let kind = match plain.meaning(named.number) {
            None => None,
            Some(Meaning::Body(bytes)) => Some(Kind::Body(bytes.len())),
            Some(Meaning::Request(number)) => Some(Kind::Request(*number)),
        };
        if store.get(&named.name) != kind {
            return false;
        }
        if store.can_lease(&named.name) != plain.can_lease(named.number) {
            return false;
        }
    }
    true
}

/// Whether the same numbers are those of texts in the making.
fn open_agree(store: &TextStore, plain: &Plain) -> bool {
    for number in 0..=plain.limits().open as usize {
        if store.is_open(OpenId(number)) != (number < plain.open_count()) {
            return false;
        }
    }
    true
}

/// Whether the same numbers are those of leases that live.
fn lives_agree(store: &TextStore, plain: &Plain) -> bool {
    for number in 0..=plain.limits().leases {
        let id = LeaseId(number);
        if store.lives(id) != plain.lives(id) {
            return false;
        }
    }
    true
}

/// Whether each lease gives the same, by the bytes in front and by how many there are.
fn leases_agree(store: &TextStore, plain: &Plain) -> bool {
    for lease in plain.leases() {
        if !lease_agrees(store, lease) {
            return false;
        }
    }
    true
}

/// Whether a lease gives the same.
fn lease_agrees(store: &TextStore, lease: &Leased) -> bool {
    let id = lease.id();
    let rest = lease.rest();
    if !store.lives(id) || store.lease_rest(id) != rest.len() {
        return false;
    }
    let front = store.lease_front(id);
    front.is_empty() == rest.is_empty() && rest.starts_with(front)
}

/// Whether each body that may be leased has the same bytes.
fn bodies_agree(store: &mut TextStore, plain: &Plain, names: &[Named]) -> bool {
    for named in names {
        if plain.has_body(named.number)
            && !body_agrees(store, &named.name, plain.body(named.number))
        {
            return false;
        }
    }
    true
}

/// Whether the body of a name has these bytes, if it may be leased.
fn body_agrees(store: &mut TextStore, name: &Name, body: &[u8]) -> bool {
    if !store.can_lease(name) {
        return true;
    }
    let Some(id) = store.lease(name) else {
        return false;
    };
    let same = gives(store, id, body);
    if !store.lives(id) {
        return false;
    }
    store.release(id);
    same
}

/// Whether a lease gives these bytes, read by runs, and then no more.
fn gives(store: &mut TextStore, id: LeaseId, body: &[u8]) -> bool {
    let mut to_come = body;
    for _ in 0..=body.len() {
        if !store.lives(id) || store.lease_rest(id) != to_come.len() {
            return false;
        }
        if to_come.is_empty() {
            return true;
        }
        let front = store.lease_front(id);
        let count = front.len();
        if count == 0 || to_come.get(..count) != Some(front) {
            return false;
        }
        if count > store.lease_rest(id) {
            return false;
        }
        store.lease_pass(id, count);
        to_come = to_come.get(count..).unwrap_or(&[]);
    }
    false
}
