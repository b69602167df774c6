//! Makes calls by chance on stores of texts, and looks whether each store does what a plain model
//! of it does:
//!
//!     test_store LISTS CALLS
//!
//! It makes LISTS lists of CALLS calls, each on a store of its own, whose limits are small or 0.
//! The numbers by which calls, names and texts are chosen follow from the list's number, so each
//! list is the same in each run. Before one list of four a name comes and goes so often that names
//! that went have to be swept among the calls. Behind each call these are to be the same:
//!
//! - what the call answered;
//! - for each name what it stands for, how long its body is, and its bytes, where it may be leased;
//! - how many names stand for something, and how many bytes there are, and are kept;
//! - which texts are in the making, which leases live, and whether one more of them may be had;
//! - for each lease how many bytes it still gives, and those in front.
//!
//! A line tells how many lists were made, or behind which call of which list something differed
//! first; then the exit status is 1.
#![tactic(auto)]

mod calls;
mod chance;
mod compare;
mod plain;

use anyhow::Result;
use calls::{call, wear};
use chance::Chance;
use compare::agree;
use plain::{Limits, Plain};
use roff_num::Name;
use roff_store::TextStore;
use std::alloc::{AllocError, Global};
use std::env;
use std::process::ExitCode;

/// The names of the calls: the shortest and the longest, some that others begin with, and some with
/// zero bytes, which in front of a name leave its bucket as it is.
static NAMES: [&[u8]; 10] = [
    b"a",
    b"\0a",
    b"\0\0a",
    b"a\0",
    b"\0",
    b"\0\0",
    b"ab",
    b"abcdefghijk",
    b"abcdefghijkl",
    b"abcdefghijkm",
];

/// A name, and its number among those of the calls.
#[derive(Drop)]
pub(crate) struct Named {
    number: usize,
    name: Name,
}

fn main(rt: HostRuntime) -> Result<ExitCode> {
    let mut words = env::args(&rt)?;
    let lists = number(words.nth(1));
    let calls = number(words.next());
    let names = names(rt.alloc())?;
    for list in 0..lists {
        if let Some(call) = difference(rt.alloc(), names.as_slice(), list, calls)? {
            println!(rt; "list {list} differs behind call {call}, both counted from 0")?;
            return Ok(ExitCode::FAILURE);
        }
    }
    println!(rt; "{lists} lists of {calls} calls: 0 differ")?;
    Ok(ExitCode::SUCCESS)
}

/// The number of a word, 0 if it is none.
fn number(word: Option<String>) -> u32 {
    match word {
        Some(word) => word.as_str().parse().unwrap_or(0),
        None => 0,
    }
}

/// The names of the calls with their numbers.
fn names(alloc: Global) -> Result<Vec<Named>, AllocError> {
    let mut names = Vec::new(alloc);
    for (number, bytes) in NAMES.iter().enumerate() {
        if let Some(name) = Name::new(bytes) {
            names.push(Named { number, name })?;
        }
    }
    Ok(names)
}

/// Makes a list of so many calls. Behind which of them store and model differed first, if they did.
fn difference(
    alloc: Global,
    names: &[Named],
    list: u32,
    calls: u32,
) -> Result<Option<u32>, AllocError> {
    let mut chance = Chance::new(list);
    let limits = Limits::by_chance(&mut chance);
    let mut plain = Plain::new(alloc, limits, names.len())?;
    let mut store = TextStore::new(
        alloc,
        limits.bytes,
        limits.names,
        limits.open,
        limits.leases,
        limits.kept,
    )?;
    wear(&mut store, names, &mut chance);
    for number in 0..calls {
        if !call(&mut store, &mut plain, names, &mut chance)? {
            return Ok(Some(number));
        }
        if !agree(&mut store, &plain, names) {
            return Ok(Some(number));
        }
    }
    Ok(None)
}
