//! The machine on which the command lines run: its files and its standard input.

use roff_tools::{StdWrite, main_with};
use std::alloc::Global;
use std::convert::AsSlice;
use std::fmt::Debug;
use std::process::Abort;
use test_machine::{Expected, Given, Machine, Paper};

/// The files that a command line may name. Documents begin with a page of one line, and don't fill.
pub static FILES: [(&str, &[u8]); 19] = [
    ("one", b".pl 1\n.nf\none\n"),
    ("two", b".pl 1\n.nf\ntwo\n"),
    ("three", b".pl 1\n.nf\nthree\n"),
    ("four", b".pl 1\n.nf\nfour\n"),
    ("a file", b".pl 1\n.nf\na blank in its name\n"),
    (" file ", b".pl 1\n.nf\nblanks around its name\n"),
    ("file", b".pl 1\n.nf\nno blank in its name\n"),
    ("--line", b".pl 1\n.nf\nnamed like an option\n"),
    ("empty", b""),
    ("begun", b".pl 1\n.nf\nbegun, and "),
    ("ended", b"ended\n"),
    ("filled", b".pl 1\nab cd\n"),
    ("longer", b".pl 1\nabc de\n"),
    ("mistaken", b".pl 1\n.nf\nab\n.ll x\ncd\n"),
    ("aborting", b".pl 1\n.nf\nab\n.ab no more\ncd\n"),
    ("leaving", b".pl 1\n.nf\nab\n.tm so far\n.ex\ncd\n"),
    ("telling", b".pl 1\n.nf\n\\na \\nb\n"),
    ("-r=5", b".pl 1\n.nf\nnamed like a register\n"),
    ("paged", b".pl 1\n.nf\n\\n%\n\\n%\n\\n%\n"),
];

/// Names that can be opened and not read.
pub static FOLDERS: [&str; 1] = ["folder"];

pub static STANDARD_INPUT: &[u8] = b".pl 1\n.nf\nstandard input\n";

/// A machine with these words, and the files and the standard input above.
pub fn machine<'a>(alloc: Global, words: &'a [&'a str]) -> Machine<'a, &'a str> {
    Machine {
        alloc,
        words,
        files: &FILES,
        folders: &FOLDERS,
        standard_input: Given::new(STANDARD_INPUT),
        most: usize::MAX,
    }
}

/// Runs the program on a machine, and compares what it wrote and its status.
pub fn check<W: AsSlice<u8> + Debug>(
    rt: &impl Abort,
    machine: &Machine<'_, W>,
    stdout: Paper,
    stderr: Paper,
    expected: Expected<'_>,
) {
    let words = machine.words;
    let done = main_with(machine, StdWrite::new(stdout), StdWrite::new(stderr));
    let (stdout, stderr) = (done.stdout.into_inner(), done.stderr.into_inner());
    let differs = expected.difference(&stdout, &stderr, done.exit);
    let (out, err) = (str::from_utf8(&stdout.kept), str::from_utf8(&stderr.kept));
    assert_eq!(rt; differs, None, "{words:?} gave {out:?} and {err:?}");
}
