//! A worked row.

use anyhow::Result;
use roff_tools::{StdWrite, main_with};
use std::alloc::Global;
use std::convert::AsSlice;
use std::rt::Files;
use std::{fs, io};
use test_machine::{Expected, Given, Machine, Paper};

/// A worked row: a document, the words of the command line, and what the program must give.
#[derive(Drop)]
pub struct Row {
    document: Vec<u8>,
    /// Whether the source fails behind the document.
    fails: bool,
    words: Vec<String>,
    output: Vec<u8>,
    messages: Vec<u8>,
    status: u8,
}

impl Row {
    /// Reads a row. Its files have this path, with endings of their own.
    pub fn read<R: Files + AllocGlobal>(rt: &R, path: &str) -> Result<Row> {
        Ok(Row {
            document: fs::read(rt, format!(in rt.alloc(); "{path}.roff")?)?,
            fails: source_fails(rt, path)?,
            words: words_of(rt, path)?,
            output: read_or(rt, path, "txt", "")?,
            messages: read_or(rt, path, "messages", "")?,
            status: status_of(rt, path)?,
        })
    }

    /// Runs the program on the document, and says what of its answer isn't the row's.
    pub fn difference(&self, alloc: Global) -> Option<&'static str> {
        let machine = Machine {
            alloc,
            words: self.words.as_slice(),
            files: &[],
            folders: &["/"],
            standard_input: Given {
                fails: self.fails,
                ..Given::new(self.document.as_slice())
            },
            most: usize::MAX,
        };
        let expected = Expected {
            status: self.status,
            out: self.output.as_slice(),
            err: self.messages.as_slice(),
        };
        difference(&machine, expected)
    }
}

/// Runs the program on a machine, and says what of its answer isn't this.
fn difference<W: AsSlice<u8>>(
    machine: &Machine<'_, W>,
    expected: Expected<'_>,
) -> Option<&'static str> {
    let stdout = StdWrite::new(Paper::new(machine.alloc));
    let stderr = StdWrite::new(Paper::new(machine.alloc));
    let done = main_with(machine, stdout, stderr);
    let (stdout, stderr) = (done.stdout.into_inner(), done.stderr.into_inner());
    expected.difference(&stdout, &stderr, done.exit)
}

/// Whether the source of a row fails behind the document.
fn source_fails<R: Files + AllocGlobal>(rt: &R, path: &str) -> Result<bool> {
    let source = read_or(rt, path, "source", "")?;
    Ok(str::from_utf8(&source)?.trim() == "fails")
}

/// The words of a row's command line.
fn words_of<R: Files + AllocGlobal>(rt: &R, path: &str) -> Result<Vec<String>> {
    let args = read_or(rt, path, "args", "nroff")?;
    let mut words = Vec::new(rt.alloc());
    words.push(String::from_str(rt.alloc(), "roff")?)?;
    for word in str::from_utf8(&args)?.lines() {
        words.push(String::from_str(rt.alloc(), word)?)?;
    }
    Ok(words)
}

/// The status with which a row's run ends.
fn status_of<R: Files + AllocGlobal>(rt: &R, path: &str) -> Result<u8> {
    let status = read_or(rt, path, "status", "0")?;
    Ok(str::from_utf8(&status)?.trim().parse::<u8>()?)
}

/// What a row's file with this ending has, or a text where there is no such file.
fn read_or<R: Files + AllocGlobal>(
    rt: &R,
    path: &str,
    ending: &str,
    usual: &str,
) -> Result<Vec<u8>> {
    match fs::read(rt, format!(in rt.alloc(); "{path}.{ending}")?) {
        Ok(bytes) => Ok(bytes),
        Err(error) if error.kind() == io::ErrorKind::NotFound => {
            Ok(Vec::from_slice(rt.alloc(), usual.as_bytes())?)
        }
        Err(error) => Err(error.into()),
    }
}
