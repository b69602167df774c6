//! The block through which lines are written.

ghost use Rattle.std.specs.Prelude.{◌≡◌, ◌≤◌, [], ◌∷◌, ◌++◌, length, replicate, vec_capacity, OnOk};
ghost use Rattle.std.specs.Prelude.{IfOk};
ghost use Rattle.std.specs.Prelude.{OnErr, ◌+◌, ◌<◌, ◌^◌, true, false};
ghost use Rattle.page_model.specs.Columns.{device_line, finished_of, line_bytes, printed};
ghost use Rattle.page_model.specs.Columns.{spaces};
ghost use Rattle.page_model.specs.Glyphs.{text_width};
ghost use Rattle.page_bytes.specs.LineBytes.Fronts.{Moves};
ghost use Rattle.page_bytes.specs.Sinks.{Fails, HoldsBack, Puts};
ghost use Rattle.page_bytes.specs.TitleLeft.{title_of};
ghost use Rattle.page_bytes.specs.TitleParts.{HasNoBlank};
ghost use Rattle.page_bytes.specs.Within.{PutsAtOnce};
ghost use Rattle.page_model.specs.Titles.{part_text, title_text};

mod added_title;
mod within;

use self::within::write_line;
use crate::line_bytes::LineBytes;
use crate::sink::{ByteSink, SinkFault};
use crate::title::{TitleLine, TitlePieces};
use page_model::Line;
use std::alloc::{AllocError, Global};
use std::marker::Model;

/// How many bytes are put at once, at the most.
pub const BLOCK: usize = 8_192;

/// A block of bytes, reserved from the start. A line that it has room for is put in one piece, and
/// stays in it until the next one.
#[derive(Drop)]
pub struct Block {
    bytes: Vec<u8>,
    /// The line that was put last, and behind it what stood there before.
    line: Vec<u8>,
    /// How many bytes that line has; 0 where none was put.
    held: usize,
    ghost reserved: { 8192 ≤ vec_capacity bytes },
    ghost line_reserved: { 8192 ≤ vec_capacity line },
    ghost line_few: { length line.items ≤ 8192 },
    ghost line_held: { held ≤ length line.items },
}

impl Model for Block {
    ghost use Rattle.std.specs.Prelude.{ℕ, List, take};

    ghost Value = { List ℕ };

    ghost view = { λ b. take b.held b.line.items };
}

impl Block {
    /// An empty block.
    ///
    /// # Errors
    ///
    /// [`AllocError`] if its memory can't be had.
    pub fn new(alloc: Global) -> Result<Self, AllocError>
        ensures { IfOk result (λ block. block ≡ []) }
    {
        Ok(Block {
            bytes: Vec::with_capacity(alloc, BLOCK)?,
            line: Vec::with_capacity(alloc, BLOCK)?,
            held: 0,
        })
    }

    /// Writes a line, and behind it its blank lines.
    ///
    /// # Errors
    ///
    /// [`SinkFault`] if the sink failed; a beginning of the bytes was written.
    #[inline(always)]
    pub fn put_line<O: ByteSink>(&mut self, line: Line<'_>, out: &mut O) -> Result<(), SinkFault>
        ensures { Puts (O.sunk out.old) (O.sunk out.new)
            (line_bytes (finished_of line.entry)) result }
    {
        self.put_line_behind(line, 0, line.after, out)
    }

    /// Writes a line behind so many columns more, such as the page offset, and then so many blank
    /// lines in place of its own.
    ///
    /// # Errors
    ///
    /// [`SinkFault`] if the sink failed; a beginning of the bytes was written.
    #[inline(always)]
    pub fn put_line_behind<O: ByteSink>(
        &mut self,
        line: Line<'_>,
        columns: u64,
        after: u64,
        out: &mut O,
    ) -> Result<(), SinkFault>
        ensures { Puts (O.sunk out.old) (O.sunk out.new)
            (device_line columns (printed (finished_of line.entry)) ++ replicate after 10) result }
    {
        if self.put_at_once(line, columns, after, out) > 0 {
            return Ok(());
        }
        if !self.is_empty() {
            return Err(SinkFault);
        }
        self.put_in_parts(line, columns, after, out)
    }

    /// Writes a line and so many blank lines in one piece, and tells how many bytes they have: 0 if
    /// that wasn't done. Then the block had no room for them and is empty, or the sink failed.
    #[inline(always)]
    pub fn put_at_once<O: ByteSink>(
        &mut self,
        line: Line<'_>,
        columns: u64,
        after: u64,
        out: &mut O,
    ) -> u64
        ensures { PutsAtOnce (O.sunk out.old) (O.sunk out.new)
            (device_line columns (printed (finished_of line.entry)) ++ replicate after 10)
            result self.new }
    {
        let count = write_line(&mut self.line, line, columns, after);
        self.held = count;
        if count > 0 {
            let whole = &self.line[..count];
            if out.put(whole).is_ok() {
                return count as u64;
            }
        }
        0
    }

    /// Writes a line piece by piece, and then so many blank lines.
    #[inline(never)]
    fn put_in_parts<O: ByteSink>(
        &mut self,
        line: Line<'_>,
        columns: u64,
        after: u64,
        out: &mut O,
    ) -> Result<(), SinkFault>
        ensures { Puts (O.sunk out.old) (O.sunk out.new)
            (device_line columns (printed (finished_of line.entry)) ++ replicate after 10) result }
    {
        self.bytes.clear();
        let to_come = LineBytes::behind_columns(line, columns, 0);
        match put_rest(&mut self.bytes, to_come, out) {
            Ok(()) => self.put_newlines(after, out),
            Err(fault) => Err(fault),
        }
    }

    /// Whether it is empty. What was put last stands in it, where it had room for that.
    #[inline(always)]
    pub fn is_empty(&self) -> bool
        ensures some { result ≡ false → 0 < length self.now }
        ensures none { result ≡ true → self.now ≡ [] }
    {
        self.held == 0
    }

    /// Writes a title behind so many columns, such as the page offset.
    ///
    /// # Errors
    ///
    /// [`SinkFault`] if the sink failed; a beginning of the bytes was written.
    pub fn put_title<O: ByteSink>(
        &mut self,
        title: TitleLine<'_>,
        columns: u64,
        out: &mut O,
    ) -> Result<(), SinkFault>
        requires some { 0 < length title.number.now }
        requires shown { HasNoBlank title.number.now }
        requires width { let number = title.number.now in
            text_width (part_text number title.left.now)
            + text_width (part_text number title.centre.now)
            + text_width (part_text number title.right.now) + title.length < 2 ^ 64 }
        ensures { Puts (O.sunk out.old) (O.sunk out.new)
            (device_line columns (title_text (title_of title.entry))) result }
    {
        let bytes = &mut self.bytes;
        bytes.clear();
        let mut to_come = TitlePieces::of(title, columns);
        while let Some(piece) = to_come.next_piece() {
            push_blanks(bytes, piece.blanks, out)?;
            push_text(bytes, piece.glyphs, out)?;
        }
        push(bytes, b'\n', out)?;
        put(bytes, out)
    }

    /// Writes so many blank lines.
    ///
    /// # Errors
    ///
    /// [`SinkFault`] if the sink failed; a beginning of the bytes was written.
    pub fn put_blank_lines<O: ByteSink>(&mut self, lines: u32, out: &mut O) -> Result<(), SinkFault>
        ensures { Puts (O.sunk out.old) (O.sunk out.new) (replicate lines 10) result }
    {
        self.put_newlines(u64::from(lines), out)
    }

    /// Writes so many newlines, a block of them at a time.
    #[inline(never)]
    pub fn put_newlines<O: ByteSink>(&mut self, count: u64, out: &mut O) -> Result<(), SinkFault>
        ensures { Puts (O.sunk out.old) (O.sunk out.new) (replicate count 10) result }
    {
        let bytes = &mut self.bytes;
        bytes.clear();
        for _ in 0..count / BLOCK as u64 {
            bytes.resize(BLOCK, b'\n').unwrap();
            put(bytes, out)?;
        }
        bytes
            .resize((count % BLOCK as u64) as usize, b'\n')
            .unwrap();
        put(bytes, out)
    }
}

/// Adds to the bytes of a block the pieces of a line that come next and that it has room for.
#[inline(always)]
fn add_pieces(bytes: &mut Vec<u8>, to_come: &mut LineBytes<'_>)
    requires capacity { 8192 ≤ vec_capacity bytes.old }
    requires few { length bytes.old.items ≤ 8192 }
    ensures capacity { vec_capacity bytes.old ≤ vec_capacity bytes.new }
    ensures few { length bytes.new.items ≤ 8192 }
    ensures moves { Moves bytes.old.items bytes.new.items to_come.old to_come.new }
{
    loop {
        let piece = to_come.take_piece(BLOCK - bytes.len());
        if piece.blanks + piece.glyphs.len() == 0 {
            return;
        }
        let end = bytes.len() + piece.blanks;
        bytes.resize(end, b' ').unwrap();
        bytes.extend_from_slice(piece.glyphs).unwrap();
    }
}

/// Puts the bytes of a block and those that are to come behind them: pieces at once, and others a
/// byte at a time.
#[inline(never)]
fn put_rest<O: ByteSink>(
    bytes: &mut Vec<u8>,
    rest: LineBytes<'_>,
    out: &mut O,
) -> Result<(), SinkFault>
    requires capacity { 8192 ≤ vec_capacity bytes.old }
    requires few { length bytes.old.items ≤ 8192 }
    ensures capacity { vec_capacity bytes.old ≤ vec_capacity bytes.new }
    ensures empty { bytes.new.items ≡ [] }
    ensures puts { Puts (O.sunk out.old) (O.sunk out.new) (bytes.old.items ++ rest.entry) result }
{
    let mut to_come = rest;
    loop {
        add_pieces(bytes, &mut to_come);
        let Some(byte) = to_come.next() else {
            return put(bytes, out);
        };
        push(bytes, byte, out)?;
    }
}

/// Adds a byte to those of a block; where they fill it they are put first.
#[inline(always)]
fn push<O: ByteSink>(bytes: &mut Vec<u8>, byte: u8, out: &mut O) -> Result<(), SinkFault>
    requires { 8192 ≤ vec_capacity bytes.old }
    ensures capacity { vec_capacity bytes.old ≤ vec_capacity bytes.new }
    ensures ok { OnOk result
        (HoldsBack (O.sunk out.old) (O.sunk out.new)
        (bytes.old.items ++ byte ∷ []) bytes.new.items) }
    ensures err { OnErr result (Fails (O.sunk out.old) (O.sunk out.new) bytes.old.items) }
    ensures few { OnOk result (length bytes.new.items ≤ 8192) }
    ensures empty { OnErr result (bytes.new.items ≡ []) }
{
    if bytes.len() >= BLOCK {
        put(bytes, out)?;
    }
    bytes.push(byte).unwrap();
    Ok(())
}

/// Adds so many blanks to the bytes of a block; where they fill it they are put.
fn push_blanks<O: ByteSink>(bytes: &mut Vec<u8>, count: u128, out: &mut O) -> Result<(), SinkFault>
    requires capacity { 8192 ≤ vec_capacity bytes.old }
    requires few { length bytes.old.items ≤ 8192 }
    ensures capacity { vec_capacity bytes.old ≤ vec_capacity bytes.new }
    ensures ok { OnOk result
        (HoldsBack (O.sunk out.old) (O.sunk out.new)
        (bytes.old.items ++ spaces count) bytes.new.items) }
    ensures err { OnErr result
        (Fails (O.sunk out.old) (O.sunk out.new) (bytes.old.items ++ spaces count)) }
    ensures few { OnOk result (length bytes.new.items ≤ 8192) }
    ensures empty { OnErr result (bytes.new.items ≡ []) }
{
    let mut left = count;
    while left > 0 {
        if bytes.len() >= BLOCK {
            put(bytes, out)?;
        }
        let more = left.min((BLOCK - bytes.len()) as u128);
        bytes.resize(bytes.len() + more as usize, b' ').unwrap();
        left -= more;
    }
    Ok(())
}

/// Adds a text to the bytes of a block; where they have no room for it they are put, and it too
/// where it is longer than a block.
fn push_text<O: ByteSink>(bytes: &mut Vec<u8>, text: &[u8], out: &mut O) -> Result<(), SinkFault>
    requires capacity { 8192 ≤ vec_capacity bytes.old }
    requires few { length bytes.old.items ≤ 8192 }
    ensures capacity { vec_capacity bytes.old ≤ vec_capacity bytes.new }
    ensures ok { OnOk result
        (HoldsBack (O.sunk out.old) (O.sunk out.new)
        (bytes.old.items ++ text.now) bytes.new.items) }
    ensures err { OnErr result
        (Fails (O.sunk out.old) (O.sunk out.new) (bytes.old.items ++ text.now)) }
    ensures few { OnOk result (length bytes.new.items ≤ 8192) }
    ensures empty { OnErr result (bytes.new.items ≡ []) }
{
    if text.len() <= BLOCK - bytes.len() {
        bytes.extend_from_slice(text).unwrap();
        return Ok(());
    }
    put(bytes, out)?;
    out.put(text)
}

/// Puts the bytes of a block, which is then empty.
#[inline(never)]
fn put<O: ByteSink>(bytes: &mut Vec<u8>, out: &mut O) -> Result<(), SinkFault>
    ensures capacity { vec_capacity bytes.new ≡ vec_capacity bytes.old }
    ensures empty { bytes.new.items ≡ [] }
    ensures puts { Puts (O.sunk out.old) (O.sunk out.new) bytes.old.items result }
{
    if bytes.is_empty() {
        return Ok(());
    }
    let answer = out.put(bytes);
    bytes.clear();
    answer
}
