//! What is put within so many bytes: all of a text, or nothing.

ghost use Rattle.std.specs.Prelude.{◌≡◌, ◌+◌, ◌<◌, ◌≤◌, ◌^◌, ◌++◌, [], length, replicate, take};
ghost use Rattle.std.specs.Prelude.{IfSome, IfNone, true, vec_capacity};
ghost use Rattle.page_model.specs.Columns.{device_line, finished_of, printed};
ghost use Rattle.page_model.specs.Glyphs.{text_width};
ghost use Rattle.page_bytes.specs.TitleLeft.{title_of};
ghost use Rattle.page_bytes.specs.TitleParts.{HasNoBlank};
ghost use Rattle.page_model.specs.Titles.{part_text, title_text};
ghost use Rattle.page_bytes.specs.Within.{PutsWithin};

use super::added_title::add_title;
use super::{BLOCK, Block, add_pieces, put};
use crate::line_bytes::LineBytes;
use crate::page_fault::PageFault;
use crate::sink::ByteSink;
use crate::title::{TitleLine, TitlePieces};
use page_model::Line;

impl Block {
    /// Writes a line as [`Block::put_line_behind`] does, if that takes so many bytes at most, and
    /// tells how many.
    #[inline(always)]
    pub fn put_line_within<O: ByteSink>(
        &mut self,
        line: Line<'_>,
        columns: u64,
        after: u64,
        room: u64,
        out: &mut O,
    ) -> Result<u64, PageFault>
        ensures { PutsWithin room
            (device_line columns (printed (finished_of line.entry)) ++ replicate after 10)
            result (O.sunk out.old) (O.sunk out.new) }
    {
        if room >= BLOCK as u64 {
            let count = self.put_at_once(line, columns, after, out);
            if count > 0 {
                return Ok(count);
            }
            if !self.is_empty() {
                return Err(PageFault::Sink);
            }
        }
        self.put_counted_line(line, columns, after, room, out)
    }

    /// Writes any line as [`Block::put_line_behind`] does, if that takes so many bytes at most, and
    /// tells how many. They are counted before one is written.
    #[inline(never)]
    fn put_counted_line<O: ByteSink>(
        &mut self,
        line: Line<'_>,
        columns: u64,
        after: u64,
        room: u64,
        out: &mut O,
    ) -> Result<u64, PageFault>
        ensures { PutsWithin room
            (device_line columns (printed (finished_of line.entry)) ++ replicate after 10)
            result (O.sunk out.old) (O.sunk out.new) }
    {
        match length_of_line(line, columns, after, room) {
            None => Err(PageFault::Output),
            Some(count) => match self.put_line_behind(line, columns, after, out) {
                Ok(()) => Ok(count),
                Err(_) => Err(PageFault::Sink),
            },
        }
    }

    /// Writes a title behind so many columns, if that takes so many bytes at most, and tells how
    /// many.
    pub fn put_title_within<O: ByteSink>(
        &mut self,
        title: TitleLine<'_>,
        columns: u64,
        room: u64,
        out: &mut O,
    ) -> Result<u64, PageFault>
        requires some { 0 < length title.number.now }
        requires shown { HasNoBlank title.number.now }
        requires width { let number = title.number.now in
            text_width (part_text number title.left.now)
            + text_width (part_text number title.centre.now)
            + text_width (part_text number title.right.now) + title.length < 2 ^ 64 }
        ensures { PutsWithin room (device_line columns (title_text (title_of title.entry)))
            result (O.sunk out.old) (O.sunk out.new) }
    {
        self.bytes.clear();
        if add_title(&mut self.bytes, &title, columns) {
            return put_within(&mut self.bytes, room, out);
        }
        self.put_counted_title(title, columns, room, out)
    }

    /// Writes a title that a block has no room for behind so many columns, if that takes so many
    /// bytes at most, and tells how many. They are counted before one is written.
    #[inline(never)]
    fn put_counted_title<O: ByteSink>(
        &mut self,
        title: TitleLine<'_>,
        columns: u64,
        room: u64,
        out: &mut O,
    ) -> Result<u64, PageFault>
        requires some { 0 < length title.number.now }
        requires shown { HasNoBlank title.number.now }
        requires width { let number = title.number.now in
            text_width (part_text number title.left.now)
            + text_width (part_text number title.centre.now)
            + text_width (part_text number title.right.now) + title.length < 2 ^ 64 }
        ensures { PutsWithin room (device_line columns (title_text (title_of title.entry)))
            result (O.sunk out.old) (O.sunk out.new) }
    {
        match length_of_title(title, columns, room) {
            None => Err(PageFault::Output),
            Some(count) => match self.put_title(title, columns, out) {
                Ok(()) => Ok(count),
                Err(_) => Err(PageFault::Sink),
            },
        }
    }
}

/// Writes to the front of a block the bytes of a line behind so many columns, and so many blank
/// lines. Tells how many there are; 0 if it had no room for all. What stands behind them may be
/// anything.
#[inline(never)]
pub(super) fn write_line(bytes: &mut Vec<u8>, line: Line<'_>, columns: u64, after: u64) -> usize
    requires capacity { 8192 ≤ vec_capacity bytes.old }
    requires few { length bytes.old.items ≤ 8192 }
    ensures capacity { vec_capacity bytes.old ≤ vec_capacity bytes.new }
    ensures few { length bytes.new.items ≤ 8192 }
    ensures within { result ≤ length bytes.new.items }
    ensures whole { 0 < result → take result bytes.new.items
        ≡ device_line columns (printed (finished_of line.entry)) ++ replicate after 10 }
    ensures long { result ≡ 0 → 8192 < length
        (device_line columns (printed (finished_of line.entry)) ++ replicate after 10) }
{
    let mut to_come = LineBytes::behind_columns(line, columns, after);
    let end = to_come.write_front(bytes);
    if end < bytes.len() && to_come.take_last_newline() {
        bytes[end] = b'\n';
        return end + 1;
    }
    bytes.truncate(end);
    add_rest(bytes, to_come) as usize
}

/// Adds to those of a block the bytes that are to come. Tells how many there are then; 0 if it had
/// no room for all.
#[inline(never)]
fn add_rest(bytes: &mut Vec<u8>, rest: LineBytes<'_>) -> u64
    requires capacity { 8192 ≤ vec_capacity bytes.old }
    requires few { length bytes.old.items ≤ 8192 }
    ensures capacity { vec_capacity bytes.old ≤ vec_capacity bytes.new }
    ensures few { length bytes.new.items ≤ 8192 }
    ensures count { 0 < result → result ≡ length bytes.new.items }
    ensures whole { 0 < result → bytes.new.items ≡ bytes.old.items ++ rest.entry }
    ensures long { result ≡ 0 → 0 < length (bytes.old.items ++ rest.entry)
        → 8192 < length (bytes.old.items ++ rest.entry) }
{
    let mut to_come = rest;
    loop {
        add_pieces(bytes, &mut to_come);
        let Some(byte) = to_come.next() else {
            return bytes.len() as u64;
        };
        if bytes.len() >= BLOCK {
            return 0;
        }
        bytes.push(byte).unwrap();
    }
}

/// Puts the bytes of a block, if there are so many at most, and tells how many. It is empty then.
#[inline(always)]
fn put_within<O: ByteSink>(bytes: &mut Vec<u8>, room: u64, out: &mut O) -> Result<u64, PageFault>
    ensures capacity { vec_capacity bytes.new ≡ vec_capacity bytes.old }
    ensures empty { bytes.new.items ≡ [] }
    ensures puts { PutsWithin room bytes.old.items result (O.sunk out.old) (O.sunk out.new) }
{
    let count = bytes.len() as u64;
    if count > room {
        bytes.clear();
        return Err(PageFault::Output);
    }
    if put(bytes, out).is_err() {
        return Err(PageFault::Sink);
    }
    Ok(count)
}

/// How many bytes a line takes behind so many columns, with so many blank lines; none if there are
/// more than so many.
fn length_of_line(line: Line<'_>, columns: u64, after: u64, room: u64) -> Option<u64>
    ensures some { IfSome result (λ n. (n ≤ room) × (n ≡ length
        (device_line columns (printed (finished_of line.entry)) ++ replicate after 10))) }
    ensures none { IfNone result (room < length
        (device_line columns (printed (finished_of line.entry)) ++ replicate after 10)) }
{
    if after > room {
        return None;
    }
    let mut to_come = LineBytes::behind_columns(line, columns, 0);
    let mut left = room - after;
    loop {
        let piece = to_come.take_piece(left as usize);
        left -= (piece.blanks + piece.glyphs.len()) as u64;
        let Some(_byte) = to_come.next() else {
            return Some(room - left);
        };
        if left == 0 {
            return None;
        }
        left -= 1;
    }
}

/// How many bytes a title takes behind so many columns; none if there are more than so many.
fn length_of_title(title: TitleLine<'_>, columns: u64, room: u64) -> Option<u64>
    requires some { 0 < length title.number.now }
    requires shown { HasNoBlank title.number.now }
    requires width { let number = title.number.now in
        text_width (part_text number title.left.now)
        + text_width (part_text number title.centre.now)
        + text_width (part_text number title.right.now) + title.length < 2 ^ 64 }
    ensures some { IfSome result (λ n. (n ≤ room)
        × (n ≡ length (device_line columns (title_text (title_of title.entry))))) }
    ensures none { IfNone result
        (room < length (device_line columns (title_text (title_of title.entry)))) }
{
    let mut to_come = TitlePieces::of(title, columns);
    let mut left = room;
    while let Some(piece) = to_come.next_piece() {
        let count = piece.blanks.saturating_add(piece.glyphs.len() as u128);
        if count > u128::from(left) {
            return None;
        }
        left -= count as u64;
    }
    if left == 0 {
        return None;
    }
    Some(room - left + 1)
}
