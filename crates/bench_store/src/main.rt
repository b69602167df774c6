//! Works on stores of texts, as often as it is asked to, so that the works can be timed:
//!
//!     bench_store WORK NAMES TIMES
//!
//! For each work a store gets NAMES names with bodies of 100 bytes. The works are:
//!
//! - `find` looks each name up. The names have 12 bytes, and begin differently.
//! - `alike` does so with names that differ in their last 4 bytes alone.
//! - `set` gives each name its body anew.
//! - `append` puts a byte behind each body; where the store is full, a name goes.
//! - `read` reads a body of 100,000 bytes, one at a time.
//! - `runs` reads it as well, as many bytes at a time as the store gives.
//!
//! Each is done TIMES times; `all` does one after another. A line tells a work's name, and how many
//! of its calls did what they were to do.
#![tactic(auto)]

ghost use Rattle.roff_store.specs.Texts.{lease_of};
ghost use Rattle.std.specs.Prelude.{IsSome};

use anyhow::Result;
use roff_num::Name;
use roff_store::{Entry, Kind, LeaseId, TextStore};
use std::alloc::{AllocError, Global};
use std::env;
use std::process::ExitCode;

/// The works, by their names.
static WORKS: [(&str, Work); 6] = [
    ("find", Work::Find),
    ("alike", Work::FindAlike),
    ("set", Work::Set),
    ("append", Work::Append),
    ("read", Work::Read),
    ("runs", Work::ReadRuns),
];

/// How many bytes the bodies may have, and how many leases may give: as in the program.
const CAP_BYTES: u32 = 1_048_576;

const CAP_KEPT: u32 = 262_144;

/// The body of a name.
const BODY: [u8; 100] = [b'x'; 100];

/// So many bodies follow each other in the long one.
const LONG: usize = 1000;

/// What is done to a store.
#[derive(Clone, Copy)]
enum Work {
    Find,
    FindAlike,
    Set,
    Append,
    Read,
    ReadRuns,
}

fn main(rt: HostRuntime) -> Result<ExitCode> {
    let mut words = env::args(&rt)?;
    let word = words.nth(1);
    let asked = word.as_ref().map_or("", |word| word.as_str());
    let count = number(words.next());
    let times = number(words.next());
    for (name, work) in &WORKS {
        if asked == "all" || asked == *name {
            let done = perform(rt.alloc(), *work, count, times)?;
            println!(rt; "{name} {done}")?;
        }
    }
    Ok(ExitCode::SUCCESS)
}

/// The number of a word, 0 if it is none.
fn number(word: Option<String>) -> u32 {
    match word {
        Some(word) => word.as_str().parse().unwrap_or(0),
        None => 0,
    }
}

/// Does a work so often on a store with so many names. How many calls did what they were to do.
fn perform(alloc: Global, work: Work, count: u32, times: u32) -> Result<u64, AllocError> {
    let names = names(alloc, count, matches!(work, Work::FindAlike))?;
    let names = names.as_slice();
    let cap_names = count.saturating_add(1);
    let mut store = TextStore::new(alloc, CAP_BYTES, cap_names, 1, 1, CAP_KEPT)?;
    set(&mut store, names, 1);
    Ok(match work {
        Work::Find | Work::FindAlike => find(&store, names, times),
        Work::Set => set(&mut store, names, times),
        Work::Append => append(&mut store, names, times),
        Work::Read => read(&mut store, times, false),
        Work::ReadRuns => read(&mut store, times, true),
    })
}

/// So many names of 12 bytes, of which the first 4 differ, or the last 4.
fn names(alloc: Global, count: u32, are_alike: bool) -> Result<Vec<Name>, AllocError> {
    let at = if are_alike { 8 } else { 0 };
    let mut names = Vec::new(alloc);
    for number in 0..count {
        let mut bytes = [b'x'; 12];
        bytes[at..at + 4].copy_from_slice(&number.to_le_bytes());
        if let Some(name) = Name::new(&bytes) {
            names.push(name)?;
        }
    }
    Ok(names)
}

/// Looks all names up, so often. How often a name had its body.
fn find(store: &TextStore, names: &[Name], times: u32) -> u64 {
    let mut done: u64 = 0;
    for _ in 0..times {
        for name in names {
            if store.get(name) == Some(Kind::Body(BODY.len())) {
                done = done.wrapping_add(1);
            }
        }
    }
    done
}

/// Gives all names their bodies, so often. How often that wasn't refused.
fn set(store: &mut TextStore, names: &[Name], times: u32) -> u64 {
    let mut done: u64 = 0;
    for _ in 0..times {
        for name in names {
            if store.set(name, Entry::Body(&BODY)).is_ok() {
                done = done.wrapping_add(1);
            }
        }
    }
    done
}

/// Puts a byte behind all bodies, so often; a name goes where that is refused. How often it wasn't.
fn append(store: &mut TextStore, names: &[Name], times: u32) -> u64 {
    let mut done: u64 = 0;
    for _ in 0..times {
        for name in names {
            match store.append(name, b"x") {
                Ok(()) => done = done.wrapping_add(1),
                Err(_) => store.remove(name),
            }
        }
    }
    done
}

/// Reads a long body so often, by bytes or by runs. How many of them were read.
fn read(store: &mut TextStore, times: u32, by_runs: bool) -> u64 {
    let Some(name) = Name::new(b"long") else {
        return 0;
    };
    for _ in 0..LONG {
        let _full = store.append(&name, &BODY);
    }
    let mut done: u64 = 0;
    for _ in 0..times {
        if !store.can_lease(&name) {
            return done;
        }
        if let Some(lease) = store.lease(&name) {
            if !store.lives(lease) {
                return done;
            }
            let more = if by_runs {
                read_runs(store, lease)
            } else {
                read_bytes(store, lease)
            };
            done = done.wrapping_add(more);
        }
    }
    done
}

/// Reads what a lease gives byte for byte, and ends it. How many bytes were read.
fn read_bytes(store: &mut TextStore, lease: LeaseId) -> u64
    requires { IsSome (lease_of lease.0 store.old) }
{
    let mut done: u64 = 0;
    while let Some(byte) = store.lease_take(lease) {
        if byte == b'x' {
            done = done.wrapping_add(1);
        }
    }
    store.release(lease);
    done
}

/// Reads what a lease gives run for run, and ends it. How many runs were read.
fn read_runs(store: &mut TextStore, lease: LeaseId) -> u64
    requires { IsSome (lease_of lease.0 store.old) }
{
    let mut done: u64 = 0;
    let mut rest = store.lease_rest(lease);
    while rest > 0 {
        let count = store.lease_front(lease).len();
        store.lease_pass(lease, count);
        rest -= count;
        done = done.wrapping_add(1);
    }
    store.release(lease);
    done
}
