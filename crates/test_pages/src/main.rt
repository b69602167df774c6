//! Makes calls on pages, one for each line of its input, and tells behind each what they answer:
//!
//!     test_pages < CALLS
//!
//! What the pages write goes to the output too, as it is. A line of the input is a letter and its
//! words, each behind a blank. In texts `_` stands for the blank of a gap, `%` for a further blank
//! or a title's page number, `~` for a blank of a glyph, and `^` for a byte below them that is
//! none.
//!
//! - `a ROOM TRAPS DIVERSIONS OUTPUT FIRST COUNT [FROM TO ..]` makes pages anew, within these
//!   limits, on a sink that fails behind ROOM bytes. FIRST is the first page's number, or `-`, and
//!   COUNT that of the ranges of pages behind it.
//! - `b` begins, `c` closes.
//! - `p TEXT LEAD SPARE GAPS AFTER` places a line, `t LEFT CENTRE RIGHT LENGTH NUMBER` a title, in
//!   a diversion if one is open. So do `s LINES`, which spaces, and `n LINES`, which needs.
//! - `e ASKED NUMBER`, `o ASKED` and `l` eject, go on ejecting, and eject at last.
//! - `L`, `O`, `X`, `N` and `M` with a number set the page length, the offset, the number of the
//!   next page and of this one, and no-space mode (1 or 0).
//! - `w PLACE NAME` plants a trap, `u PLACE` removes it; `m NAME PLACE` and `r NAME` move and
//!   remove one by its name.
//! - `d NAME APPENDS` opens a diversion, `D` ends it, `T PLACE NAME` sets its trap, and `T -` takes
//!   it away.
//!
//! Behind each line stands `=`, what the call answered (a name as a number, 0 for none, -1 where
//! the limit on the output would be passed, -2 where the sink failed, -3 for another limit), and
//! then what the pages answer: the place on the page and where text goes, the way to the next trap,
//! the page's number, length, offset and previous offset, the height and the width of the diversion
//! that ended last, the name of the open one, and whether one is open, text may be taken, and the
//! layout is over; -1 where there is none.
#![tactic(auto)]

mod calls;
mod limited;
mod titles;
mod words;

use anyhow::Result;
use calls::{call, name_told};
use limited::Limited;
use roff_num::{Limits, Num};
use roff_pages::{Pages, StdWrite, WriteSink};
use std::alloc::{AllocError, Global};
use std::io::{self, Write};
use std::process::ExitCode;
use words::Words;

fn main(rt: HostRuntime) -> Result<ExitCode> {
    let mut pages = pages_anew(rt.alloc(), &mut Words::of(""))?;
    let mut out = WriteSink::new(StdWrite::new(Limited::new(rt.stdout(), 0)));
    for line in rt.lines(rt.alloc()) {
        let line = line?;
        let mut words = Words::of(line.as_str());
        let letter = words.letter();
        let answer = if letter == b'a' {
            let room = words.count() as usize;
            out = WriteSink::new(StdWrite::new(Limited::new(rt.stdout(), room)));
            pages = pages_anew(rt.alloc(), &mut words)?;
            0
        } else {
            call(rt.alloc(), letter, &mut words, &mut pages, &mut out)?
        };
        tell(&mut rt.stdout(), answer, &pages)?;
    }
    Ok(ExitCode::SUCCESS)
}

/// Pages within the limits that the words give.
fn pages_anew(alloc: Global, words: &mut Words<'_>) -> Result<Pages, AllocError> {
    let limits = Limits {
        traps: words.count(),
        diversions: words.count(),
        output: words.count(),
        ..Limits::DEFAULT
    };
    let mut pages = Pages::new(alloc, limits)?;
    if let Some(first) = words.some_number() {
        pages.set_next(Num(first));
    }
    for _ in 0..words.count() {
        let from = Num(words.number());
        pages.list_pages(from, Num(words.number()));
    }
    Ok(pages)
}

/// Tells an answer, and what the pages answer.
fn tell<W: Write>(out: &mut W, answer: i64, pages: &Pages) -> io::Result<()> {
    writeln!(
        out,
        "= {answer} {} {} {} {} {} {} {} {} {} {} {} {} {}",
        count_told(pages.nl()),
        pages.place_now(),
        count_told(pages.way_to_trap()),
        pages.number().0,
        pages.length(),
        pages.offset(),
        pages.previous_offset(),
        pages.height(),
        pages.width(),
        name_told(pages.diversion_name()),
        pages.is_diverting(),
        pages.takes_text(),
        pages.is_over()
    )
}

/// A count, or -1.
fn count_told(count: Option<u64>) -> i64 {
    match count {
        Some(count) => i64::try_from(count).unwrap_or(i64::MAX),
        None => -1,
    }
}
