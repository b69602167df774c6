//! The table of number registers (manual, section 8).

ghost use Rattle.std.specs.Prelude.{◌≡◌, [], length, IfOk, IsTrue, ◌↔◌};
ghost use Rattle.roff_store.specs.Named.{admitted, entry_of};
ghost use Rattle.roff_store.specs.Registers.{Set, SetFormat, Step, Remove, after, register_of};
ghost use Rattle.roff_store.specs.Registers.{stepped};

use crate::name_table::NameTable;
use crate::register::Register;
use roff_num::{Direction, Format, Limit, Name, Num, NumFault};
use std::alloc::{AllocError, Global};
use std::marker::Model;

/// The number registers, each under its name.
///
/// All its memory is reserved as it is made. A look-up passes only registers of one bucket, of
/// which there are 8,192.
#[derive(Drop)]
pub struct RegTable {
    registers: NameTable<Register>,
}

impl Model for RegTable {
    ghost use Rattle.roff_store.specs.declared.register.Register.{Register};
    ghost use Rattle.roff_store.specs.Named.{Table};

    ghost Value = { Table Register };

    ghost view = { λ a. a.registers };
}

impl RegTable {
    /// A table without registers, for so many.
    pub fn new(alloc: Global, cap: u32) -> Result<Self, AllocError>
        ensures { IfOk result (λ t. t ≡ record { entries = []; cap = cap }) }
    {
        Ok(RegTable {
            registers: NameTable::new(alloc, cap)?,
        })
    }

    /// How many registers there are.
    pub fn len(&self) -> usize
        ensures { result ≡ length self.now.entries }
    {
        self.registers.len()
    }

    /// Whether there is no register.
    pub fn is_empty(&self) -> bool
        ensures { IsTrue result ↔ (length self.now.entries ≡ 0) }
    {
        self.len() == 0
    }

    /// The register of a name. A name that has none reads as [`Register::default`].
    pub fn get(&self, name: &Name) -> Option<Register>
        ensures { result ≡ entry_of name.now self.now.entries }
    {
        self.registers.get(name)
    }

    /// Sets a register's value and its increment (`.nr`). Its format stays; that of a new one is
    /// plain decimal.
    ///
    /// # Errors
    ///
    /// [`Limit::Names`] if the name is new and the table is full; the table is then as it was.
    pub fn set(&mut self, name: &Name, value: Num, increment: Num) -> Result<(), Limit>
        ensures answer { result ≡ admitted name.now self.old }
        ensures table { self.new ≡ after (Set name.now value increment) self.old }
    {
        let set = |register: Register| {
            let register = Register {
                value,
                increment,
                ..register
            };
            (register, ())
        };
        match self.registers.change(name, set) {
            Some(_) => Ok(()),
            None => self.registers.put(name, set(Register::default()).0),
        }
    }

    /// Sets how a register is written (`.af`). A new register has the value 0 and the increment 0.
    ///
    /// # Errors
    ///
    /// [`Limit::Names`] if the name is new and the table is full; the table is then as it was.
    pub fn set_format(&mut self, name: &Name, format: Format) -> Result<(), Limit>
        ensures answer { result ≡ admitted name.now self.old }
        ensures table { self.new ≡ after (SetFormat name.now format) self.old }
    {
        let register = self.get(name).unwrap_or_default();
        self.registers.put(name, Register { format, ..register })
    }

    /// Adds a register's increment to its value, or takes it away (`\n+x`, `\n-x`), and answers the
    /// new value. A name without a register answers 0, and gets none.
    ///
    /// # Errors
    ///
    /// [`NumFault::Range`] if the new value isn't in the range of numbers; the register is then as
    /// it was.
    pub fn step(&mut self, name: &Name, direction: Direction) -> Result<Num, NumFault>
        ensures answer { result ≡ stepped direction (register_of name.now self.old.entries) }
        ensures table { self.new ≡ after (Step name.now direction) self.old }
    {
        let Some(register) = self.get(name) else {
            return Ok(Num(0));
        };
        let value = register.stepped(direction)?;
        self.registers
            .put(name, Register { value, ..register })
            .unwrap();
        Ok(value)
    }

    /// Removes a register (`.rr`), which then counts no more.
    pub fn remove(&mut self, name: &Name)
        ensures { self.new ≡ after (Remove name.now) self.old }
    {
        self.registers.remove(name);
    }
}
