//! Calls by chance, made on a store and on the model.

use crate::Named;
use crate::chance::Chance;
use crate::plain::{Meaning, Plain};
use roff_store::{Entry, OpenId, TextStore};
use std::alloc::AllocError;

/// Makes a call on both. Whether both answered the same.
pub(crate) fn call(
    store: &mut TextStore,
    plain: &mut Plain,
    names: &[Named],
    chance: &mut Chance,
) -> Result<bool, AllocError> {
    let Some(named) = by_chance(names, chance) else {
        return Ok(true);
    };
    match chance.below(24) {
        0..=2 => set(store, plain, named, chance),
        3..=5 => append(store, plain, named, chance),
        6 => Ok(request(store, plain, named, chance)),
        7 => Ok(remove(store, plain, named)),
        8 => Ok(rename(store, plain, named, names, chance)),
        9 => open(store, plain),
        10..=11 => push_open(store, plain, chance),
        12 => enter(store, plain, named, chance),
        13 => Ok(drop_open(store, plain, chance)),
        14..=17 => lease(store, plain, named),
        18..=19 => Ok(take(store, plain, chance)),
        20..=22 => Ok(pass(store, plain, chance)),
        _ => Ok(release(store, plain, chance)),
    }
}

/// In one of four stores lets a name come and go, about as often as a new name finds room before
/// the names that went have to be swept.
pub(crate) fn wear(store: &mut TextStore, names: &[Named], chance: &mut Chance) {
    let Some(named) = by_chance(names, chance) else {
        return;
    };
    let times = if chance.once_in(4) {
        chance.below(40).saturating_add(1000)
    } else {
        0
    };
    for _ in 0..times {
        let _refused = store.set(&named.name, Entry::Request(0));
        store.remove(&named.name);
    }
}

/// One of the names.
fn by_chance<'a>(names: &'a [Named], chance: &mut Chance) -> Option<&'a Named> {
    let count = u32::try_from(names.len()).unwrap_or(u32::MAX);
    names.get(chance.below(count) as usize)
}

/// Gives a name a body.
fn set(
    store: &mut TextStore,
    plain: &mut Plain,
    named: &Named,
    chance: &mut Chance,
) -> Result<bool, AllocError> {
    let text = chance.text(plain.alloc())?;
    let given = store.set(&named.name, Entry::Body(text.as_slice()));
    Ok(plain.set(named.number, Meaning::Body(text)) == given)
}

/// Puts bytes behind the body of a name.
fn append(
    store: &mut TextStore,
    plain: &mut Plain,
    named: &Named,
    chance: &mut Chance,
) -> Result<bool, AllocError> {
    let text = chance.text(plain.alloc())?;
    let given = store.append(&named.name, text.as_slice());
    Ok(plain.append(named.number, text.as_slice())? == given)
}

/// Lets a name stand for a request.
fn request(store: &mut TextStore, plain: &mut Plain, named: &Named, chance: &mut Chance) -> bool {
    let number = u16::try_from(chance.below(65536)).unwrap_or(0);
    let given = store.set(&named.name, Entry::Request(number));
    plain.set(named.number, Meaning::Request(number)) == given
}

/// Removes a name.
fn remove(store: &mut TextStore, plain: &mut Plain, named: &Named) -> bool {
    store.remove(&named.name);
    plain.put(named.number, None);
    true
}

/// Renames a name, also to itself.
fn rename(
    store: &mut TextStore,
    plain: &mut Plain,
    named: &Named,
    names: &[Named],
    chance: &mut Chance,
) -> bool {
    if let Some(to) = by_chance(names, chance) {
        store.rename(&named.name, &to.name);
        plain.rename(named.number, to.number);
    }
    true
}

/// Begins a text, if there may be one more.
fn open(store: &mut TextStore, plain: &mut Plain) -> Result<bool, AllocError> {
    if !store.can_open() {
        return Ok(true);
    }
    let OpenId(number) = store.open();
    let same = number == plain.open_count();
    plain.open()?;
    Ok(same)
}

/// The number of a text that may be in the making.
fn open_id(plain: &Plain, chance: &mut Chance) -> OpenId {
    OpenId(chance.below(plain.limits().open) as usize)
}

/// Puts bytes behind a text in the making, if there is one of that number.
fn push_open(
    store: &mut TextStore,
    plain: &mut Plain,
    chance: &mut Chance,
) -> Result<bool, AllocError> {
    let id = open_id(plain, chance);
    if !store.is_open(id) {
        return Ok(true);
    }
    let text = chance.text(plain.alloc())?;
    let given = store.push_open(id, text.as_slice());
    Ok(plain.push_open(id.0, text.as_slice())? == given)
}

/// Ends a text in the making, if there is one of that number.
fn enter(
    store: &mut TextStore,
    plain: &mut Plain,
    named: &Named,
    chance: &mut Chance,
) -> Result<bool, AllocError> {
    let id = open_id(plain, chance);
    if !store.is_open(id) {
        return Ok(true);
    }
    let append = chance.once_in(2);
    let given = store.enter(id, &named.name, append);
    Ok(plain.enter(id.0, named.number, append)? == given)
}

/// Drops a text in the making, if there is one of that number.
fn drop_open(store: &mut TextStore, plain: &mut Plain, chance: &mut Chance) -> bool {
    let id = open_id(plain, chance);
    if store.is_open(id) {
        store.drop_open(id);
        plain.drop_open(id.0);
    }
    true
}

/// Leases the body of a name, if it may be. The lease's number is to be that of no other one.
fn lease(store: &mut TextStore, plain: &mut Plain, named: &Named) -> Result<bool, AllocError> {
    if !store.can_lease(&named.name) {
        return Ok(true);
    }
    let has_body = plain.has_body(named.number);
    let Some(id) = store.lease(&named.name) else {
        return Ok(!has_body);
    };
    let same = has_body && !plain.lives(id);
    plain.lease(named.number, id)?;
    Ok(same)
}

/// The place of a lease that lives, if there is one.
fn place_of_lease(plain: &Plain, chance: &mut Chance) -> usize {
    let count = u32::try_from(plain.leases().len()).unwrap_or(u32::MAX);
    chance.below(count) as usize
}

/// Takes a byte from a lease, if there is one.
fn take(store: &mut TextStore, plain: &mut Plain, chance: &mut Chance) -> bool {
    let place = place_of_lease(plain, chance);
    let Some(lease) = plain.lease_at(place) else {
        return true;
    };
    let id = lease.id();
    if !store.lives(id) {
        return false;
    }
    let given = store.lease_take(id);
    let same = given == lease.rest().first().copied();
    lease.pass(1);
    same
}

/// Passes bytes of a lease, all that it still gives at most, if there is one.
fn pass(store: &mut TextStore, plain: &mut Plain, chance: &mut Chance) -> bool {
    let place = place_of_lease(plain, chance);
    let Some(lease) = plain.lease_at(place) else {
        return true;
    };
    let id = lease.id();
    if !store.lives(id) {
        return false;
    }
    let most = if chance.once_in(2) { 400 } else { 9 };
    let count = (chance.below(most) as usize).min(store.lease_rest(id));
    store.lease_pass(id, count);
    lease.pass(count);
    true
}

/// Ends a lease, if there is one.
fn release(store: &mut TextStore, plain: &mut Plain, chance: &mut Chance) -> bool {
    let place = place_of_lease(plain, chance);
    let Some(lease) = plain.lease_at(place) else {
        return true;
    };
    let id = lease.id();
    if !store.lives(id) {
        return false;
    }
    store.release(id);
    plain.release(place);
    true
}
