//! Text lines: their bytes one at a time.

ghost use Rattle.std.specs.Prelude.{◌≡◌, ℕ, []};
ghost use Rattle.run_turns.specs.Clauses.{seen};
ghost use Rattle.run_model.specs.Run.{byte_taken};
ghost use Rattle.run_model.specs.declared.line_state.LineState.TheVariants.{Text as InText};
ghost use Rattle.page_bytes.specs.Told.{told_by};

use super::Running;
use page_bytes::{ByteSink, MessageSink};
use run_model::{Status, TextLine};

impl Running {
    ghost use Rattle.run_turns.specs.Running.Turning.{DoesItem};

    /// Takes a byte where a line begins; the byte before it stood on this line. Bytes that often
    /// begin one have a copy each.
    #[inline(always)]
    pub fn take_first<O: ByteSink, E: MessageSink>(
        &mut self,
        byte: u8,
        line_before: u32,
        out: &mut O,
        err: &mut E,
    ) -> Result<(), Status>
        ensures { (failures : ℕ) → DoesItem line_before (byte_taken byte) self.old self.new
            (seen failures (O.sunk out.old) (told_by E.MessageSink err.old))
            (seen failures (O.sunk out.new) (told_by E.MessageSink err.new)) result }
    {
        match byte {
            b'\n' => self.take(b'\n', line_before, out, err),
            b' ' => self.take(b' ', line_before, out, err),
            b'\t' => self.take(b'\t', line_before, out, err),
            _ => self.take(byte, line_before, out, err),
        }
    }

    /// Takes a byte on this text line, where nothing is half read; the byte before it stood on this
    /// line. Bytes that come often have a copy each, for which the compiler knows the byte.
    #[inline(always)]
    pub fn take_text<O: ByteSink, E: MessageSink>(
        &mut self,
        text_line: TextLine,
        byte: u8,
        line_before: u32,
        out: &mut O,
        err: &mut E,
    ) -> Result<(), Status>
        requires line { self.old.interpreter.reader.reading ≡ InText text_line }
        requires none_half { self.old.unread.input.escapes ≡ [] }
        ensures { (failures : ℕ) → DoesItem line_before (byte_taken byte) self.old self.new
            (seen failures (O.sunk out.old) (told_by E.MessageSink err.old))
            (seen failures (O.sunk out.new) (told_by E.MessageSink err.new)) result }
    {
        match byte {
            b'\n' => self.take_on_line(text_line, b'\n', line_before, out, err),
            b' ' => self.take_on_line(text_line, b' ', line_before, out, err),
            b'\t' => self.take_on_line(text_line, b'\t', line_before, out, err),
            _ => self.take_on_line(text_line, byte, line_before, out, err),
        }
    }

    /// Takes this byte on this text line, where nothing is half read; the byte before it stood on
    /// this line.
    #[inline(always)]
    fn take_on_line<O: ByteSink, E: MessageSink>(
        &mut self,
        text_line: TextLine,
        byte: u8,
        line_before: u32,
        out: &mut O,
        err: &mut E,
    ) -> Result<(), Status>
        requires line { self.old.interpreter.reader.reading ≡ InText text_line }
        requires none_half { self.old.unread.input.escapes ≡ [] }
        ensures { (failures : ℕ) → DoesItem line_before (byte_taken byte) self.old self.new
            (seen failures (O.sunk out.old) (told_by E.MessageSink err.old))
            (seen failures (O.sunk out.new) (told_by E.MessageSink err.new)) result }
    {
        let line = self.unread.line();
        match self
            .interpreter
            .take_on_line(text_line, byte, &mut self.unread, out, err)
        {
            Ok(sprung) => self.go_on(sprung, out, err),
            Err(halt) => Err(self.halted(halt, line_before, line, err)),
        }
    }
}
