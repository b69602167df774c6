//! Works on pages, as often as it is asked to, so that the works can be timed:
//!
//!     bench_pages WORK TIMES
//!
//! The works are:
//!
//! - `line` writes a line of 60 bytes without pages.
//! - `place` places it on pages with one trap each.
//! - `unlisted` does so on pages that aren't written.
//! - `title` writes a title of three parts and 65 columns on pages.
//! - `numbered` does so with the page number in the last part.
//!
//! Each is done TIMES times; `all` does one after another. What they write is dropped. A line tells
//! a work's name, and how many of its calls sprang a macro.
#![tactic(auto)]

use anyhow::Result;
use page_model::{Line, Trap};
use roff_num::{Limits, Num, ShortName};
use roff_pages::{Block, PAGE_NUMBER, Pages, StdWrite, TitleLine, WriteSink};
use std::alloc::{AllocError, Global};
use std::env;
use std::io::{self, Write};
use std::process::ExitCode;

/// The works, by their names.
static WORKS: [(&str, Work); 5] = [
    ("line", Work::Line),
    ("place", Work::Place),
    ("unlisted", Work::Unlisted),
    ("title", Work::Title),
    ("numbered", Work::Numbered),
];

/// The line's words. It is adjusted to 65 columns.
static LINE: &[u8] = b"the words of this line have sixty bytes with the blanks that";

/// What is done.
#[derive(Clone, Copy)]
enum Work {
    Line,
    Place,
    Unlisted,
    Title,
    Numbered,
}

/// A writer that drops what it is given.
#[derive(Drop)]
struct Dropped;

impl Write for Dropped {
    fn write(&mut self, buf: &[u8]) -> io::Result<usize> {
        Ok(buf.len())
    }

    fn flush(&mut self) -> io::Result<()> {
        Ok(())
    }
}

fn main(rt: HostRuntime) -> Result<ExitCode> {
    let mut words = env::args(&rt)?;
    let word = words.nth(1);
    let asked = word.as_ref().map_or("", |word| word.as_str());
    let times = match words.next() {
        Some(word) => word.as_str().parse().unwrap_or(0),
        None => 0,
    };
    for (name, work) in &WORKS {
        if asked == "all" || asked == *name {
            let sprung = perform(rt.alloc(), *work, times)?;
            println!(rt; "{name} {sprung}")?;
        }
    }
    Ok(ExitCode::SUCCESS)
}

/// Does a work so often. How many calls sprang a macro.
fn perform(alloc: Global, work: Work, times: u32) -> Result<u64, AllocError> {
    let mut out = WriteSink::new(StdWrite::new(Dropped));
    Ok(match work {
        Work::Line => lines(&mut Block::new(alloc)?, times, &mut out),
        Work::Place => placed(&mut pages(alloc, true)?, times, &mut out),
        Work::Unlisted => placed(&mut pages(alloc, false)?, times, &mut out),
        Work::Title => titles(&mut pages(alloc, true)?, times, &mut out),
        Work::Numbered => numbered(&mut pages(alloc, true)?, times, &mut out),
    })
}

/// Pages with one trap each, which are written or not.
fn pages(alloc: Global, are_written: bool) -> Result<Pages, AllocError> {
    let limits = Limits {
        output: u32::MAX,
        ..Limits::DEFAULT
    };
    let mut pages = Pages::new(alloc, limits)?;
    if !are_written {
        pages.list_pages(Num(-2), Num(-1));
    }
    let _planted = pages.plant(Trap {
        place: 60,
        name: ShortName {
            first: b'a',
            second: None,
        },
    });
    let _sprung = pages.begin();
    Ok(pages)
}

/// The line.
fn line() -> Line<'static> {
    Line {
        text: LINE,
        lead: 0,
        spare: 5,
        gaps: 11,
        after: 0,
    }
}

/// Writes the line so often.
fn lines(block: &mut Block, times: u32, out: &mut WriteSink<StdWrite<Dropped>>) -> u64 {
    let mut failed: u64 = 0;
    for _ in 0..times {
        if block.put_line(line(), out).is_err() {
            failed = failed.wrapping_add(1);
        }
    }
    failed
}

/// Places the line so often. How often a macro was sprung.
fn placed(pages: &mut Pages, times: u32, out: &mut WriteSink<StdWrite<Dropped>>) -> u64 {
    if pages.is_diverting() {
        return 0;
    }
    let mut sprung: u64 = 0;
    for _ in 0..times {
        match pages.place(line(), out) {
            Ok(None) => continue,
            Ok(Some(_)) => sprung = sprung.wrapping_add(1),
            Err(_) => return sprung,
        }
    }
    sprung
}

/// Writes the title so often. How often a macro was sprung.
fn titles(pages: &mut Pages, times: u32, out: &mut WriteSink<StdWrite<Dropped>>) -> u64 {
    let title = TitleLine {
        left: b"on the left",
        centre: b"centre",
        right: b"right",
        length: 65,
        number: b"12",
    };
    if pages.is_diverting() {
        return 0;
    }
    let mut sprung: u64 = 0;
    for _ in 0..times {
        if let Ok(Some(_)) = pages.title(title, out) {
            sprung = sprung.wrapping_add(1);
        }
    }
    sprung
}

/// Writes the title with the page number so often. How often a macro was sprung.
fn numbered(pages: &mut Pages, times: u32, out: &mut WriteSink<StdWrite<Dropped>>) -> u64 {
    let title = TitleLine {
        left: b"on the left",
        centre: b"centre",
        right: &[b'-', b' ', PAGE_NUMBER, b' ', b'-'],
        length: 65,
        number: b"12",
    };
    if pages.is_diverting() {
        return 0;
    }
    let mut sprung: u64 = 0;
    for _ in 0..times {
        if let Ok(Some(_)) = pages.title(title, out) {
            sprung = sprung.wrapping_add(1);
        }
    }
    sprung
}
