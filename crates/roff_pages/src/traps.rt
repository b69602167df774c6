//! The traps of a page: where they lie, and which are met (manual, section 7.5).

ghost use Rattle.std.specs.Prelude.{◌≡◌, ◌≤◌, ◌<◌, length, vec_capacity, OnOk, IfOk, IfErr};
ghost use Rattle.std.specs.Prelude.{true, ◌++◌, ◌∷◌, []};
ghost use Rattle.roff_num.specs.declared.limit.Limit.TheVariants.{Traps};
ghost use Rattle.std.specs.Prelude.{ℕ, ◌+◌, Some, not};
ghost use Rattle.std.specs.List.{list_any};
ghost use Rattle.page_model.specs.Stops.{place_of, next_stop, nearer_stop, stop_at, trap_stop};
ghost use Rattle.page_model.specs.Queries.{way_from};
ghost use Rattle.roff_pages.specs.Pages.Counted.{counted};
ghost use Rattle.page_model.specs.Turning.{is_given, is_named, same_name};
ghost use Rattle.page_model.specs.Turning.{moved_to, with_first, with_trap, without_first};
ghost use Rattle.page_model.specs.Springs.{diversion_trap_passed, first_met, is_on_top, is_passed};
ghost use Rattle.roff_pages.specs.Pages.FirstTraps.{NoneBefore, first_index, is_at, is_sought};
ghost use Rattle.roff_pages.specs.Pages.KnownStops.{name_at};

use crate::sought::Sought;
use page_model::Trap;
use roff_num::{Limit, ShortName};

/// So many traps are passed at once where none of them was given a place.
const AT_ONCE: usize = 64;

/// Where a place as it was given lies on a page of this length, in lines, if it lies there.
pub(crate) fn place_of(length: u32, place: i32) -> Option<u64>
    ensures { result ≡ place_of length place }
{
    if place >= 0 {
        let down = place as u64;
        return (down < u64::from(length)).then_some(down);
    }
    let up = u64::from(place.unsigned_abs());
    u64::from(length).checked_sub(up)
}

/// The nearer of two stops beyond a place, of which the first may lie nowhere.
pub(crate) fn nearer_stop(place: u64, trap: Option<u64>, stop: u64) -> u64
    ensures { result ≡ nearer_stop place trap stop }
{
    match trap {
        Some(n) if place < n => n.min(stop),
        _ => stop,
    }
}

/// The next stop beyond a place of a page: a trap, or the page's end.
#[tactic(auto, using(crate::proofs::NextStop::nearer_assoc, crate::proofs::NextStop::next_stop_le, crate::proofs::NextStop::nearer_le))]
pub(crate) fn next_stop(length: u32, place: u64, traps: &[Trap]) -> u64
    ensures { result ≡ next_stop length place traps.now }
{
    let mut stop = u64::from(length);
    let mut rest = traps;
    while let Some((trap, others)) = rest.split_first() {
        stop = nearer_stop(place, place_of(length, trap.place), stop);
        rest = others;
    }
    stop
}

/// The name of the first trap that lies at a page's beginning.
pub(crate) fn first_on_top(length: u32, traps: &[Trap]) -> Option<ShortName>
    ensures { result ≡ first_met is_on_top length traps.now }
{
    let mut rest = traps;
    while let Some((trap, others)) = rest.split_first() {
        match place_of(length, trap.place) {
            Some(0) => return Some(trap.name),
            _ => rest = others,
        }
    }
    None
}

/// The name of the first trap that lies beyond a place of a page, and not beyond another one.
pub(crate) fn first_passed(length: u32, from: u64, to: u64, traps: &[Trap]) -> Option<ShortName>
    ensures { result ≡ first_met (is_passed from to) length traps.now }
{
    let mut rest = traps;
    while let Some((trap, others)) = rest.split_first() {
        match place_of(length, trap.place) {
            Some(place) if from < place && place <= to => return Some(trap.name),
            _ => rest = others,
        }
    }
    None
}

/// The name of the trap of this place in turn, if it is there.
pub(crate) fn name_at(traps: &[Trap], index: usize) -> Option<ShortName>
    ensures { result ≡ name_at index traps.now }
{
    if index < traps.len() {
        Some(traps[index].name)
    } else {
        None
    }
}

/// How far a diversion's trap is beyond a height, if it lies beyond it. Heights are counted as open
/// diversions count them.
pub(crate) fn way_in_diversion(height: u64, trap: Option<Trap>) -> Option<u64>
    ensures { (lines : ℕ) → height ≡ counted lines
        → result ≡ way_from lines (trap_stop lines trap) }
{
    match trap {
        Some(trap) => way_beyond(height, trap.place),
        None => None,
    }
}

/// How far a place is beyond a height, if it lies beyond it.
fn way_beyond(height: u64, place: i32) -> Option<u64>
    ensures { (lines : ℕ) → height ≡ counted lines
        → result ≡ way_from lines (stop_at lines place) }
{
    if place < 0 {
        return None;
    }
    let place = place as u64;
    if height < place {
        Some(place - height)
    } else {
        None
    }
}

/// The name of a diversion's trap, if so many lines more pass it.
pub(crate) fn passed_in_diversion(height: u64, lines: u64, trap: Option<Trap>) -> Option<ShortName>
    ensures { (from more : ℕ) → height ≡ counted from → counted lines ≡ counted more
        → result ≡ diversion_trap_passed from (from + more) trap }
{
    match trap {
        Some(trap) => passed_beyond(height, lines, trap),
        None => None,
    }
}

/// The name of this trap of a diversion, if so many lines more pass it.
fn passed_beyond(height: u64, lines: u64, trap: Trap) -> Option<ShortName>
    ensures { (from more : ℕ) → height ≡ counted from → counted lines ≡ counted more
        → result ≡ diversion_trap_passed from (from + more) (Some trap) }
{
    match way_beyond(height, trap.place) {
        Some(way) if way <= lines => Some(trap.name),
        _ => None,
    }
}

/// Plants a trap among others: in the place in turn of the first with the same place as given, or
/// as the last one, if there are fewer than may be. Answers whether it is the last one.
pub(crate) fn plant_among(traps: &mut Vec<Trap>, trap: Trap, most: u32) -> Result<bool, Limit>
    requires room { most ≤ vec_capacity traps.old }
    requires few { length traps.old.items ≤ most }
    ensures traps { OnOk result (traps.new.items ≡ with_trap trap traps.old.items) }
    ensures last { IfOk result (λ last. last ≡ true
        → traps.new.items ≡ traps.old.items ++ trap ∷ []) }
    ensures given { IfOk result (λ last.
        last ≡ not (list_any (is_given trap.place) traps.old.items)) }
    ensures within { OnOk result (length (with_trap trap traps.old.items) ≤ most) }
    ensures limit { IfErr result (λ l. l ≡ Traps) }
    ensures same { IfErr result (λ l. traps.new ≡ traps.old) }
    ensures full { IfErr result (λ l. most < length (with_trap trap traps.old.items)) }
    ensures capacity { vec_capacity traps.old ≤ vec_capacity traps.new }
{
    let index = index_of(traps.as_slice(), Sought::Given(trap.place));
    if index < traps.len() {
        traps[index] = trap;
        return Ok(false);
    }
    if traps.len() >= most as usize {
        return Err(Limit::Traps);
    }
    traps.push(trap).unwrap();
    Ok(true)
}

/// Removes the first trap that is sought.
pub(crate) fn remove_first(traps: &mut Vec<Trap>, sought: Sought)
    ensures traps { traps.new.items ≡ without_first (is_sought sought) traps.old.items }
    ensures few { length traps.new.items ≤ length traps.old.items }
    ensures capacity { vec_capacity traps.old ≤ vec_capacity traps.new }
{
    let index = index_of(traps.as_slice(), sought);
    if index >= traps.len() {
        return;
    }
    traps.remove(index);
}

/// Moves the first trap of this name.
pub(crate) fn move_named(traps: &mut Vec<Trap>, name: ShortName, place: i32)
    ensures traps { traps.new.items ≡ with_first (is_named name) (moved_to place) traps.old.items }
    ensures few { length traps.new.items ≤ length traps.old.items }
    ensures capacity { vec_capacity traps.old ≤ vec_capacity traps.new }
{
    let index = index_of(traps.as_slice(), Sought::Named(name));
    if index >= traps.len() {
        return;
    }
    let found = traps[index];
    traps[index] = Trap {
        place,
        name: found.name,
    };
}

/// The place in turn of the first trap that is sought, or how many there are.
pub(crate) fn index_of(traps: &[Trap], sought: Sought) -> usize
    ensures index { result ≡ first_index (is_sought sought) traps.now }
    ensures within { result ≤ length traps.now }
{
    let mut rest = from_sought(traps, sought);
    let mut index = traps.len() - rest.len();
    while let Some((trap, others)) = rest.split_first() {
        if is_sought(*trap, sought) {
            return index;
        }
        index += 1;
        rest = others;
    }
    index
}

/// The traps from one in turn on, before which none is sought.
fn from_sought(traps: &[Trap], sought: Sought) -> &[Trap]
    ensures { NoneBefore (is_sought sought) traps.now result.now }
{
    match sought {
        Sought::Given(place) => from_given(traps, place),
        Sought::Named(_) => traps,
        Sought::Lying(_, _) => traps,
    }
}

/// The traps from one in turn on, before which none was given this place: 64 are passed at once.
fn from_given(traps: &[Trap], place: i32) -> &[Trap]
    ensures { NoneBefore (is_given place) traps.now result.now }
{
    let mut rest = traps;
    while let Some((front, others)) = rest.split_at_checked(AT_ONCE) {
        if is_any_given(front, place) {
            return rest;
        }
        rest = others;
    }
    rest
}

/// Whether one of the traps was given this place. It looks at all of them, so that the compiler can
/// let it look at several at once.
fn is_any_given(traps: &[Trap], place: i32) -> bool
    ensures { result ≡ list_any (is_given place) traps.now }
{
    let mut is_any = false;
    let mut rest = traps;
    while let Some((trap, others)) = rest.split_first() {
        is_any |= trap.place == place;
        rest = others;
    }
    is_any
}

/// Whether a trap is one that is sought.
fn is_sought(trap: Trap, sought: Sought) -> bool
    ensures { result ≡ is_sought sought trap }
{
    match sought {
        Sought::Given(place) => trap.place == place,
        Sought::Named(name) => is_same(trap.name, name),
        Sought::Lying(length, place) => is_at(place, place_of(length, trap.place)),
    }
}

/// Whether a place on a page, if it is there, is this one.
fn is_at(place: u64, lying: Option<u64>) -> bool
    ensures { result ≡ is_at place lying }
{
    match lying {
        Some(n) => n == place,
        None => false,
    }
}

/// Whether two names are the same.
fn is_same(one: ShortName, other: ShortName) -> bool
    ensures { result ≡ same_name one other }
{
    if one.first != other.first {
        return false;
    }
    match (one.second, other.second) {
        (None, None) => true,
        (Some(one), Some(other)) => one == other,
        (None, Some(_)) => false,
        (Some(_), None) => false,
    }
}
