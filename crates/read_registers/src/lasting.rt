//! What lasts from line to line of a run, and belongs to no environment and no page.

ghost use Rattle.std.specs.Prelude.{◌≡◌, IfOk};
ghost use Rattle.run_model.specs.Registers.{no_registers};
ghost use Rattle.run_model.specs.Registers.Capped.{change_admitted, after_change};

use crate::registers::RunRegisters;
use crate::titles::Titles;
use roff_num::{Format, Limit, Name, Num, ShortName};
use std::alloc::{AllocError, Global};
use std::marker::Model;

/// A change that a request makes.
#[derive(Drop)]
pub enum Change {
    /// `nr`: a value and an increment.
    SetTo {
        name: Name,
        value: Num,
        increment: Num,
    },
    /// `af`: a format.
    FormatAs {
        name: Name,
        format: Format,
    },
    /// `em`: the macro that is read behind the input, if there is one.
    ReadLast(Option<ShortName>),
    /// `pc`: the character that stands for the page number in titles, if one does.
    CharacterIs(Option<u8>),
}

/// The number registers, the titles, and the macro that is read behind the input.
///
/// All memory is reserved as they are made.
#[derive(Drop)]
pub struct Lasting {
    /// The number registers.
    pub registers: RunRegisters,
    /// The titles.
    pub titles: Titles,
    /// The macro that is read behind the input, if there is one (`em`).
    pub last_macro: Option<ShortName>,
}

impl Model for Lasting {
    ghost use Rattle.run_model.specs.Registers.Capped.{Capped};
    ghost use Rattle.read_registers.specs.Lasting.{capped_of};

    ghost Value = { Capped };

    ghost view = { λ a. capped_of a.registers a.titles a.last_macro };
}

impl Lasting {
    ghost use Rattle.read_registers.specs.Registers.Coded.{change_of};

    /// No register is set, no title was read, and there is no such macro; so many names may have a
    /// register, and a title so many bytes.
    ///
    /// # Errors
    ///
    /// [`AllocError`] if the memory for them can't be had.
    pub fn new(alloc: Global, cap: u32, line: u32) -> Result<Self, AllocError>
        ensures { IfOk result (λ r. r ≡ record { all = no_registers; cap = cap; line = line }) }
    {
        Ok(Lasting {
            registers: RunRegisters::new(alloc, cap)?,
            titles: Titles::new(alloc, line)?,
            last_macro: None,
        })
    }

    /// Makes a change that a request asks for. One of a read-only register changes nothing.
    ///
    /// # Errors
    ///
    /// [`Limit::Names`] if more names than may would have a register; all is then as it was.
    pub fn apply(&mut self, change: &Change) -> Result<(), Limit>
        ensures answer { result ≡ change_admitted (change_of change.now) self.old }
        ensures changed { self.new ≡ after_change (change_of change.now) self.old }
    {
        match change {
            Change::SetTo {
                name,
                value,
                increment,
            } => self.registers.set(name, *value, *increment),
            Change::FormatAs { name, format } => self.registers.set_format(name, *format),
            Change::ReadLast(name) => {
                self.registers.stay_within();
                self.last_macro = *name;
                Ok(())
            }
            Change::CharacterIs(character) => {
                self.registers.stay_within();
                self.titles.set_page_character(*character);
                Ok(())
            }
        }
    }
}
