//! The calls.

use crate::titles::is_fit;
use crate::words::Words;
use page_model::{Line, Trap};
use roff_num::{Limit, Num, ShortName};
use roff_pages::{ByteSink, PageFault, Pages, TitleLine};
use std::alloc::{AllocError, Global};

/// Makes a call; what it answered.
pub(crate) fn call<O: ByteSink>(
    alloc: Global,
    letter: u8,
    words: &mut Words<'_>,
    pages: &mut Pages,
    out: &mut O,
) -> Result<i64, AllocError> {
    Ok(match letter {
        b'b' => name_told(pages.begin()),
        b'p' => line(alloc, words, pages, out)?,
        b't' => title(alloc, words, pages, out)?,
        b's' => space(words, pages, out),
        b'n' => need(words, pages, out),
        b'e' => {
            let asked = words.count();
            told(pages.eject(asked, words.some_number().map(Num), out))
        }
        b'o' => told(pages.eject_on(words.count(), out)),
        b'l' => told(pages.eject_last(out)),
        _ => set(letter, words, pages),
    })
}

/// Sets what doesn't write.
fn set(letter: u8, words: &mut Words<'_>, pages: &mut Pages) -> i64 {
    match letter {
        b'c' => pages.close(),
        b'L' => pages.set_length(words.count()),
        b'O' => pages.set_offset(words.count()),
        b'X' => pages.set_next(Num(words.number())),
        b'N' => pages.set_number(Num(words.number())),
        b'M' => pages.set_no_space(words.number() != 0),
        b'u' => pages.uproot(words.number()),
        b'm' => {
            let name = words.name();
            pages.move_trap(name, words.number());
        }
        b'r' => pages.remove_trap(words.name()),
        b'T' => pages.diversion_trap(trap(words)),
        b'D' => pages.end_divert(),
        b'w' => return planted(words, pages),
        b'd' => return diverted(words, pages),
        _ => {}
    }
    0
}

/// A trap, if one is given.
fn trap(words: &mut Words<'_>) -> Option<Trap> {
    let place = words.some_number()?;
    Some(Trap {
        place,
        name: words.name(),
    })
}

/// Plants a trap.
fn planted(words: &mut Words<'_>, pages: &mut Pages) -> i64 {
    match trap(words) {
        Some(trap) => limit_told(pages.plant(trap)),
        None => 0,
    }
}

/// Opens a diversion.
fn diverted(words: &mut Words<'_>, pages: &mut Pages) -> i64 {
    let name = words.name();
    limit_told(pages.divert(name, words.number() != 0))
}

/// Places a line.
fn line<O: ByteSink>(
    alloc: Global,
    words: &mut Words<'_>,
    pages: &mut Pages,
    out: &mut O,
) -> Result<i64, AllocError> {
    let text = words.text(alloc)?;
    let lead = words.large_count();
    let spare = words.large_count();
    let gaps = words.large_count();
    let after = words.large_count();
    let line = Line {
        text: text.as_slice(),
        lead,
        spare,
        gaps,
        after,
    };
    if pages.is_diverting() {
        return Ok(name_told(pages.divert_line(line)));
    }
    Ok(told(pages.place(line, out)))
}

/// Places a title, if it may be placed.
fn title<O: ByteSink>(
    alloc: Global,
    words: &mut Words<'_>,
    pages: &mut Pages,
    out: &mut O,
) -> Result<i64, AllocError> {
    let left = words.text(alloc)?;
    let centre = words.text(alloc)?;
    let right = words.text(alloc)?;
    let length = words.large_count();
    let number = words.text(alloc)?;
    let title = TitleLine {
        left: left.as_slice(),
        centre: centre.as_slice(),
        right: right.as_slice(),
        length,
        number: number.as_slice(),
    };
    if !is_fit(title) {
        return Ok(0);
    }
    if pages.is_diverting() {
        return Ok(name_told(pages.divert_title(title)));
    }
    Ok(told(pages.title(title, out)))
}

/// Spaces.
fn space<O: ByteSink>(words: &mut Words<'_>, pages: &mut Pages, out: &mut O) -> i64 {
    let lines = words.count();
    if pages.is_diverting() {
        return name_told(pages.divert_space(lines));
    }
    told(pages.space(lines, out))
}

/// Needs.
fn need<O: ByteSink>(words: &mut Words<'_>, pages: &mut Pages, out: &mut O) -> i64 {
    let lines = words.count();
    if pages.is_diverting() {
        return name_told(pages.divert_need(lines));
    }
    told(pages.need(lines, out))
}

/// A name as a number, 0 for none.
pub(crate) fn name_told(name: Option<ShortName>) -> i64 {
    match name {
        Some(name) => match name.second {
            Some(second) => i64::from(name.first) * 1000 + i64::from(second) + 1,
            None => i64::from(name.first) * 1000,
        },
        None => 0,
    }
}

/// What a call that writes answered.
fn told(answer: Result<Option<ShortName>, PageFault>) -> i64 {
    match answer {
        Ok(name) => name_told(name),
        Err(PageFault::Output) => -1,
        Err(PageFault::Sink) => -2,
    }
}

/// What a call answered that a limit may refuse.
fn limit_told(answer: Result<(), Limit>) -> i64 {
    match answer {
        Ok(()) => 0,
        Err(_) => -3,
    }
}
