//! A number register (manual, section 8).

ghost use Rattle.std.specs.Prelude.{◌≡◌};
ghost use Rattle.roff_store.specs.Registers.{stepped, unset_register};

use roff_num::{Direction, Format, Num, NumFault};

/// A number register: its value, how the value is written, and by how much a step changes it.
#[derive(Clone, Copy)]
pub struct Register {
    /// The value, in basic units where it is a length.
    pub value: Num,
    /// How the value is written.
    pub format: Format,
    /// What a step adds or takes away.
    pub increment: Num,
}

/// What a name reads as that isn't a register: 0, in plain decimal.
impl Default for Register {
    ghost is_default = { λ r. r ≡ unset_register };

    fn default() -> Self {
        Register {
            value: Num(0),
            format: Format::Decimal(1),
            increment: Num(0),
        }
    }
}

impl Register {
    /// The value after a step.
    ///
    /// # Errors
    ///
    /// [`NumFault::Range`] if it isn't in the range of numbers.
    pub(crate) fn stepped(self, direction: Direction) -> Result<Num, NumFault>
        ensures { result ≡ stepped direction self }
    {
        let value = match direction {
            Direction::Up => self.value.0.checked_add(self.increment.0),
            Direction::Down => self.value.0.checked_sub(self.increment.0),
        };
        match value {
            Some(value) => Ok(Num(value)),
            None => Err(NumFault::Range),
        }
    }
}
