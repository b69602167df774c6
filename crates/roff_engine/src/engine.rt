//! The engine: a whole run, from a source to its sinks.

ghost use Rattle.std.specs.Prelude.{◌≡◌, IfOk, IsSome};
ghost use Rattle.roff_engine.specs.Clauses.{StandFor, Limits, Runs, Tape, seen, IsFresh};
ghost use Rattle.run_model.specs.Run.{initial};
ghost use Rattle.page_bytes.specs.Told.{told_by};

use crate::starting::begin;
use crate::stepping::step;
use page_bytes::{ByteSink, MessageSink};
use read_names::first_unread;
use roff_num::Limits;
use roff_scan::ByteSource;
use run_items::Interpreter;
use run_model::{Phase, Start, Status};
use run_turns::Running;
use std::alloc::{AllocError, Global};
use std::marker::Model;

/// A run before its first step, and what is given to it. All its memory is reserved as it is made.
#[derive(Drop)]
pub struct Engine {
    start: Start,
    running: Running,
}

impl Model for Engine {
    ghost use Rattle.roff_engine.specs.Clauses.{IsFresh, StandFor, pages_given};
    ghost use Rattle.roff_engine.specs.Engine.Setup.{Setup};
    ghost use Rattle.std.specs.Prelude.{◌≡◌};
    ghost use Rattle.run_model.specs.declared.phase.Phase.TheVariants.{Reading};

    ghost Value = { Setup };

    ghost view = { λ e. record { limits = e.running.limits; start = e.start } };

    ghost invariant = { λ e.
        StandFor e.running.limits (pages_given e.start) e.running.interpreter.formatter.composer
        × IsFresh e.running.limits e.running.interpreter e.running.unread
        × (e.running.phase ≡ Reading) };
}

impl Engine {
    /// A formatter with these limits, for a run that is given this.
    ///
    /// # Errors
    ///
    /// [`AllocError`] if the memory for the limits can't be had.
    pub fn new(alloc: Global, limits: Limits, start: Start) -> Result<Engine, AllocError>
        ensures { IfOk result (λ e. e ≡ record { limits = limits; start = start }) }
    {
        let interpreter = Interpreter::new(alloc, limits, &start)?;
        let unread = first_unread(alloc, limits)?;
        let running = Running {
            limits,
            phase: Phase::Reading,
            interpreter,
            unread,
        };
        Ok(Engine { start, running })
    }

    /// Formats a source: the text goes to `out`, the messages go to `err`, which is bounded by the
    /// limit on messages.
    pub fn format<S: ByteSource, O: ByteSink, E: MessageSink>(
        self,
        source: &mut S,
        out: &mut O,
        err: &mut E,
    ) -> Status
        // The source gave items. Whatever it may still give, the run over these items and then that
        // is the definition's: it ended so, or a sink failed in one of its steps.
        ensures runs { Runs self.limits self.start result (S.gives source.old) (S.gives source.new)
            (seen (S.failures source.old) (O.sunk out.old) (E.sunk err.old))
            (seen (S.failures source.new) (O.sunk out.new) (E.sunk err.new)) }
        // Where a limit refuses what is given to the run, nothing is read.
        ensures unread { (tape : Tape) → IsSome (initial self.limits self.start tape).ended
            → source.new ≡ source.old }
    {
        err.bound(self.running.limits.messages);
        self.format_within(source, out, err)
    }

    /// Formats a source: the text goes to `out`, the messages go to `err`, which has room for as
    /// many bytes as may be told. Returns how the run ended.
    fn format_within<S: ByteSource, O: ByteSink, E: MessageSink>(
        self,
        source: &mut S,
        out: &mut O,
        err: &mut E,
    ) -> Status
        requires room { E.room err.old ≡ self.limits.messages }
        ensures runs { Runs self.limits self.start result (S.gives source.old) (S.gives source.new)
            (seen (S.failures source.old) (O.sunk out.old) (told_by E.MessageSink err.old))
            (seen (S.failures source.new) (O.sunk out.new) (told_by E.MessageSink err.new)) }
        ensures unread { (tape : Tape) → IsSome (initial self.limits self.start tape).ended
            → source.new ≡ source.old }
    {
        let Engine { start, mut running } = self;
        if let Err(status) = begin(&mut running, &start, err) {
            return status;
        }
        let mut is_told = false;
        loop {
            match step(&mut running, is_told, source, out, err) {
                Ok(told) => is_told = told,
                Err(status) => return status,
            }
        }
    }
}
