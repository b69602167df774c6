//! Newlines that end control lines: each is read, and its step is performed.

ghost use Rattle.std.specs.Prelude.{◌≡◌, []};
ghost use Rattle.run_items.specs.Clauses.{DoesTaking, sinks, byte_taking};
ghost use Rattle.run_model.specs.declared.line_state.LineState.TheVariants.{Collecting};
ghost use Rattle.run_model.specs.declared.purpose.Purpose.TheVariants.{Arguments, Calling};
ghost use Rattle.run_model.specs.declared.request.Request.TheVariants.{Break};
ghost use Rattle.input_source.specs.Bytes.{newline};
ghost use Rattle.page_bytes.specs.Told.{told_by};

use super::Interpreter;
use page_bytes::{ByteSink, MessageSink};
use read_steps::{end_break, end_call_line, end_request};
use roff_num::ShortName;
use roff_scan::Unread;
use run_events::{Halt, Sprung};
use run_model::{PageEvent, Request};

impl Interpreter {
    /// Reads a newline behind the arguments of this request, where nothing is half read, and
    /// performs what it means. Returns what that sprang.
    ///
    /// # Errors
    ///
    /// As those of [`Interpreter::take`].
    #[inline(always)]
    pub fn end_request<O: ByteSink, E: MessageSink>(
        &mut self,
        breaks: bool,
        request: Request,
        unread: &mut Unread<PageEvent>,
        out: &mut O,
        err: &mut E,
    ) -> Result<Option<Sprung>, Halt>
        requires line { self.old.reader.reading ≡ Collecting (Arguments breaks request) }
        requires none_half { unread.old.input.escapes ≡ [] }
        ensures { DoesTaking
            (λ k. byte_taking k self.old.reader.reading unread.old.input newline) []
            self.old self.new unread.old unread.new
            (sinks (O.sunk out.old) (told_by E.MessageSink err.old))
            (sinks (O.sunk out.new) (told_by E.MessageSink err.new)) result }
    {
        match end_request(
            &mut self.reader,
            breaks,
            request,
            &self.formatter.composer,
            unread,
        ) {
            Ok(step) => self.perform(step, unread.line(), out, err),
            Err(limit) => Err(Halt::Refused(limit)),
        }
    }

    /// Reads a newline that ends the line of a break, where nothing is half read, and performs what
    /// it means. Returns what that sprang.
    ///
    /// # Errors
    ///
    /// As those of [`Interpreter::take`].
    #[inline(always)]
    pub fn end_break<O: ByteSink, E: MessageSink>(
        &mut self,
        breaks: bool,
        unread: &mut Unread<PageEvent>,
        out: &mut O,
        err: &mut E,
    ) -> Result<Option<Sprung>, Halt>
        requires line { self.old.reader.reading ≡ Collecting (Arguments breaks Break) }
        requires none_half { unread.old.input.escapes ≡ [] }
        ensures { DoesTaking
            (λ k. byte_taking k self.old.reader.reading unread.old.input newline) []
            self.old self.new unread.old unread.new
            (sinks (O.sunk out.old) (told_by E.MessageSink err.old))
            (sinks (O.sunk out.new) (told_by E.MessageSink err.new)) result }
    {
        let step = end_break(&mut self.reader, breaks, unread);
        self.perform(step, unread.line(), out, err)
    }

    /// Reads a newline behind the arguments of a line that calls this body, where nothing is half
    /// read, and performs what it means. Returns what that sprang.
    ///
    /// # Errors
    ///
    /// As those of [`Interpreter::take`].
    #[inline(always)]
    pub fn end_call_line<O: ByteSink, E: MessageSink>(
        &mut self,
        name: ShortName,
        unread: &mut Unread<PageEvent>,
        out: &mut O,
        err: &mut E,
    ) -> Result<Option<Sprung>, Halt>
        requires line { self.old.reader.reading ≡ Collecting (Calling name) }
        requires none_half { unread.old.input.escapes ≡ [] }
        ensures { DoesTaking
            (λ k. byte_taking k self.old.reader.reading unread.old.input newline) []
            self.old self.new unread.old unread.new
            (sinks (O.sunk out.old) (told_by E.MessageSink err.old))
            (sinks (O.sunk out.new) (told_by E.MessageSink err.new)) result }
    {
        match end_call_line(&mut self.reader, name, unread) {
            Ok(step) => self.perform(step, unread.line(), out, err),
            Err(limit) => Err(Halt::Refused(limit)),
        }
    }
}
