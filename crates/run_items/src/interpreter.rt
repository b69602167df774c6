//! What each item of the input does: it is read, and what it means is done.

ghost use Rattle.std.specs.Prelude.{◌≡◌, IfOk};
ghost use Rattle.run_items.specs.Clauses.{fresh_reader, Gives, StandFor, pages_given};

mod diverting;
mod ending;
mod line_ends;
mod performing;
mod taking;
mod unfilled;

use read_lines::Reader;
use roff_num::{Limit, Limits, Num};
use run_events::Formatter;
use run_model::Start;
use std::alloc::{AllocError, Global};

/// What reads the input, and the formatter, which performs what it means.
#[derive(Drop)]
pub struct Interpreter {
    /// What reads: the state of the line, registers, and what was last meant.
    pub reader: Reader,
    /// What performs events: it fills lines and lays them out on pages.
    pub formatter: Formatter,
}

impl Interpreter {
    /// An interpreter before the first line, with room for what these limits allow. What is given
    /// of the pages is set; registers are not.
    ///
    /// # Errors
    ///
    /// [`AllocError`] if the memory for the limits can't be had.
    pub fn new(alloc: Global, limits: Limits, start: &Start) -> Result<Self, AllocError>
        ensures stands { IfOk result
            (λ i. StandFor limits (pages_given start.now) i.formatter.composer) }
        ensures reader { IfOk result (λ i. i.reader ≡ fresh_reader limits.names limits.line) }
    {
        Ok(Interpreter {
            reader: Reader::new(alloc, limits.names, limits.line)?,
            formatter: Formatter::new(alloc, limits, start)?,
        })
    }

    /// Sets a register that is given to a run, of a name of one byte, to a value: of the page
    /// number's the page has it.
    ///
    /// # Errors
    ///
    /// [`Limit::Names`] if more names than may would have a register; nothing changed then.
    pub fn give(&mut self, name: u8, value: Num) -> Result<(), Limit>
        ensures { Gives name value self.old self.new result }
    {
        if name == b'%' {
            self.formatter.composer.pages.set_number(value);
        }
        self.reader.give(name, value)
    }
}
