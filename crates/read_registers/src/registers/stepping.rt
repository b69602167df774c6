//! Steps of registers that nothing is said of.

ghost use Rattle.std.specs.Prelude.{◌≡◌, false, true, Option};
ghost use Rattle.roff_num.specs.declared.short_name.ShortName.{ShortName as NameOf};
ghost use Rattle.read_registers.specs.Lasting.{TitlesKept, capped_of};
ghost use Rattle.read_registers.specs.Registers.Stepping.{StepsQuietly};

use super::read_only::is_read_only;
use super::{RunRegisters, is_page};
use roff_num::{Direction, Name};

impl RunRegisters {
    /// Steps the register of a name, unless it is read-only, the page number's, or the step is out
    /// of range. Returns whether it did; else nothing happens.
    #[inline(always)]
    pub fn step_quietly(&mut self, direction: Direction, name: &Name) -> bool
        ensures steps { result ≡ true → (t : TitlesKept) (last : Option NameOf)
            → StepsQuietly direction name.now
            (capped_of self.old t last) (capped_of self.new t last) }
        ensures unchanged { result ≡ false → self.new ≡ self.old }
    {
        let RunRegisters { named, .. } = self;
        if is_page(name) {
            return false;
        }
        if is_read_only(name) {
            return false;
        }
        named.step(name, direction).is_ok()
    }
}
