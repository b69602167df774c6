//! Runs the worked rows, and prints the names of those that hold:
//!
//!     test_rows [FOLDER]
//!
//! The folder, the current one at first, is this crate's `data`. The folders in its `rows`, and its
//! `examples`, have for each row a document `NAME.roff`, and what the program makes of it: the
//! output in `NAME.txt`, the messages in `NAME.messages` and the exit status in `NAME.status`. The
//! command and its options are in `NAME.args`, a word on a line, and `fails` in `NAME.source` says
//! that reading fails behind the document. A file that isn't there says what is usual: no output,
//! no messages, status 0, the command `nroff` without options, and a source that ends. The document
//! is standard input.
#![tactic(auto)]

mod row;

use anyhow::Result;
use row::Row;
use std::process::ExitCode;
use std::rt::Files;
use std::{env, fs};

fn main(rt: HostRuntime) -> Result<ExitCode> {
    let top = top_folder(&rt)?;
    let mut exit = ExitCode::SUCCESS;
    for folder in &folders_in(&rt, top.as_str())? {
        if !run_rows(&rt, top.as_str(), folder.as_str())? {
            exit = ExitCode::FAILURE;
        }
    }
    Ok(exit)
}

/// The folder that was given, or the current one.
fn top_folder(rt: &HostRuntime) -> Result<String> {
    match env::args(rt)?.nth(1) {
        Some(folder) => Ok(folder),
        None => Ok(String::from_str(rt.alloc(), ".")?),
    }
}

/// The folders that have rows, by their paths below this one.
fn folders_in<R: Files + AllocGlobal + Clone + Drop>(rt: &R, top: &str) -> Result<Vec<String>> {
    let rows = format!(in rt.alloc(); "{top}/rows")?;
    let mut folders = Vec::new(rt.alloc());
    for name in &names_in(rt, rows.as_str(), "")? {
        folders.push(format!(in rt.alloc(); "rows/{name}")?)?;
    }
    folders.push(String::from_str(rt.alloc(), "examples")?)?;
    Ok(folders)
}

/// Runs the rows of a folder and prints how each went. Answers whether all of them hold.
fn run_rows<R: Files + Print + AllocGlobal + Clone + Drop>(
    rt: &R,
    top: &str,
    folder: &str,
) -> Result<bool> {
    let path = format!(in rt.alloc(); "{top}/{folder}")?;
    let mut all_hold = true;
    for name in &names_in(rt, path.as_str(), ".roff")? {
        if !run_row(rt, path.as_str(), folder, name.as_str())? {
            all_hold = false;
        }
    }
    Ok(all_hold)
}

/// Runs a row and prints how it went. Answers whether it holds.
fn run_row<R: Files + Print + AllocGlobal>(
    rt: &R,
    path: &str,
    folder: &str,
    name: &str,
) -> Result<bool> {
    let row = Row::read(rt, format!(in rt.alloc(); "{path}/{name}")?.as_str())?;
    match row.difference(rt.alloc()) {
        None => {
            println!(rt; "{folder}/{name}")?;
            Ok(true)
        }
        Some(what) => {
            println!(rt; "{folder}/{name}: the {what} differs")?;
            Ok(false)
        }
    }
}

/// The names in a folder that have this ending, without it, sorted.
fn names_in<R: Files + AllocGlobal + Clone + Drop>(
    rt: &R,
    folder: &str,
    ending: &str,
) -> Result<Vec<String>> {
    let mut names = Vec::new(rt.alloc());
    for entry in fs::read_dir(rt, folder)? {
        let entry = entry?;
        if let Some(name) = entry.file_name().strip_suffix(ending) {
            names.push(String::from_str(rt.alloc(), name)?)?;
        }
    }
    names.sort()?;
    Ok(names)
}
