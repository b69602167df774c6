//! The unread input: what stands ahead of the source, and what is counted.

ghost use Rattle.std.specs.Prelude.{◌≡◌, ◌≤◌, [], IfOk, vec_capacity};
ghost use Rattle.input_model.specs.Arguments.{no_arguments};
ghost use Rattle.input_model.specs.Input.{is_none_ahead, pushed, depth};

mod arguments;
mod calls;
mod copied;
mod first_arguments;
mod fronts;
mod lines;
mod names;
mod open_escapes;
mod pushed;
mod results;
mod runs;
mod skipped;
mod taken;

use input_ahead::InputAhead;
use input_arguments::{ArgumentTexts, Calls};
use input_escapes::OpenEscapes;
use input_model::Looked;
pub use lines::{BehindHeld, standing_at};
use roff_num::Limits;
use std::alloc::{AllocError, Global};
use std::marker::Model;

/// Results of conditions, each with how many calls weren't over.
type KeptResults = Vec<(bool, u32)>;

/// The unread input: what stands ahead of the source, and what is counted.
///
/// All its memory is reserved as it is made.
#[derive(Drop)]
pub struct Unread<E> {
    limits: Limits,
    input_ahead: InputAhead<E>,
    arguments: ArgumentTexts,
    calls: Calls,
    escapes: OpenEscapes,
    /// The results of conditions that are kept for their other branch, the newest at the back, each
    /// with how many calls weren't over then.
    results: KeptResults,
    /// What was looked at of the source.
    looked: Looked,
    charge: u32,
    newlines: u32,
    line: u32,
    /// How many names stand for something before anything is read.
    first_names: u32,
}

impl<E> Model for Unread<E> {
    ghost use Rattle.input_model.specs.Unread.{Unread};

    ghost Value = { Unread E };

    ghost use Rattle.roff_scan.specs.Unread.Kept.{kept_by, IsSound};

    ghost view = { kept_by };

    ghost invariant = { IsSound };
}

impl<E: Copy> Unread<E> {
    ghost use Rattle.input_model.specs.Unread.{initial_unread, IsWithin};

    /// The input before anything is read. So many names stand for something then: they are to be
    /// set before anything is taken, and the limit on names doesn't count them.
    pub fn new(alloc: Global, limits: Limits, first_names: u32) -> Result<Self, AllocError>
        ensures { IfOk result (λ u. u ≡ initial_unread limits first_names) }
    {
        let input_ahead = InputAhead::new(alloc, &limits, first_names)?;
        let (arguments, calls) = no_calls(alloc, &limits)?;
        let (escapes, results) = none_open(alloc, &limits)?;
        Ok(Unread {
            limits,
            input_ahead,
            arguments,
            calls,
            escapes,
            results,
            looked: Looked::Nothing,
            charge: 0,
            newlines: 0,
            line: 1,
            first_names,
        })
    }

    /// No count is above its limit, whatever was done: a fact for proofs that can't see the fields.
    /// Nothing happens.
    #[inline(always)]
    pub fn stays_within(&self)
        ensures { IsWithin self.now }
    {
        let _ = &self.limits;
    }

    /// The limits that it is within.
    #[inline(always)]
    pub fn limits(&self) -> &Limits
        ensures { result.now ≡ self.now.limits }
    {
        &self.limits
    }

    /// How much was taken: bytes, ends of texts, events put back.
    pub fn charge(&self) -> u32
        ensures { result ≡ self.now.input.charge }
    {
        self.charge
    }

    /// How many newlines of the source were taken.
    pub fn newlines(&self) -> u32
        ensures { result ≡ self.now.input.newlines }
    {
        self.newlines
    }

    /// The line of the source on which the last byte taken of it stands, 1 if none was.
    pub fn line(&self) -> u32
        ensures { result ≡ self.now.input.line }
    {
        self.line
    }

    /// What counts in the limit on the stack: the pushed bytes that aren't read yet, the bytes of
    /// the arguments and of other texts that are held while they are read, and those of the
    /// arguments of calls that aren't over.
    pub fn pushed(&self) -> usize
        ensures { result ≡ pushed self.now.input }
    {
        self.input_ahead.byte_count()
            + self.arguments.held()
            + self.escapes.held()
            + self.calls.byte_count()
    }

    /// What counts in the limit on the depth: the pushed texts, and the bodies that lines called,
    /// that haven't ended.
    pub fn depth(&self) -> usize
        ensures { result ≡ depth self.now.input }
    {
        self.input_ahead.depth()
    }

    /// Whether nothing stands ahead of the source.
    #[inline(always)]
    pub fn is_none_ahead(&self) -> bool
        ensures { result ≡ is_none_ahead self.now.input.ahead }
    {
        self.input_ahead.is_empty()
    }
}

/// No arguments of a line, and no calls.
fn no_calls(alloc: Global, limits: &Limits) -> Result<(ArgumentTexts, Calls), AllocError>
    ensures arguments { IfOk result (λ t.
        t.0 ≡ record { arguments = no_arguments; room = limits.now.stack }) }
    ensures calls { IfOk result (λ t. t.1
        ≡ record { calls = []; most_bytes = limits.now.stack; most_calls = limits.now.depth }) }
{
    let arguments = ArgumentTexts::new(alloc, limits.stack)?;
    let calls = Calls::new(alloc, limits.stack, limits.depth)?;
    Ok((arguments, calls))
}

/// Nothing half read, and no result of a condition, with room for those of the limit.
fn none_open(alloc: Global, limits: &Limits) -> Result<(OpenEscapes, KeptResults), AllocError>
    ensures escapes { IfOk result (λ t.
        t.0 ≡ record { escapes = []; room = limits.now.stack }) }
    ensures results { IfOk result (λ t. t.1.items ≡ []) }
    ensures room { IfOk result (λ t. limits.now.conditions ≤ vec_capacity t.1) }
{
    let escapes = OpenEscapes::new(alloc, limits.stack)?;
    let results = Vec::with_capacity(alloc, limits.conditions as usize)?;
    Ok((escapes, results))
}
