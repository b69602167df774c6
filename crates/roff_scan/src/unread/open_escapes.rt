//! What is half read.

ghost use Rattle.input_escapes.specs.OpenEscapes.{byte_read, reading_ended};
ghost use Rattle.input_escapes.specs.Waiting.{decided_on_top, decides, is_ended_by};
ghost use Rattle.input_escapes.specs.Waiting.{is_number_on_top, waiting_of};
ghost use Rattle.std.specs.Prelude.{true, false, not, ◌≡◌, ◌==◌, length};
ghost use Rattle.input_model.specs.Input.{choosing, holding_text};

use super::Unread;
use input_escapes::{CopyUnit, Found, Surroundings, Waiting};
use roff_num::Limit;

impl<E: Copy> Unread<E> {
    ghost use Rattle.input_model.specs.Unread.{changing, reading, EndsDecided};
    ghost use Rattle.roff_scan.specs.Unread.Calls.{TakesPushed};

    /// Whether something is half read.
    #[inline(always)]
    pub fn has_open_escape(&self) -> bool
        ensures { result ≡ not (length self.now.input.escapes == 0) }
    {
        !self.escapes.is_empty()
    }

    /// Whether a condition decides, before anything is taken or seen.
    pub fn decides_now(&self) -> bool
        ensures { result ≡ decides (waiting_of Surroundings.Copy self.now.input.escapes) }
    {
        self.escapes.decides_now()
    }

    /// What the reading on top does at the next item; above a text line, above arguments, or in
    /// copy mode.
    #[inline(always)]
    pub fn waiting(&self, base: Surroundings) -> Waiting
        ensures { result ≡ waiting_of base self.now.input.escapes }
    {
        self.escapes.waiting(base)
    }

    /// Whether what it sees there stays, and ends it: a byte, or nothing that can be read.
    #[inline(always)]
    pub fn is_ended_by(&self, seen: Option<u8>) -> bool
        ensures { result ≡ is_ended_by self.now.input.escapes seen }
    {
        self.escapes.is_ended_by(seen)
    }

    /// Reads a byte that was taken and isn't dropped; above a text line, above arguments, or in
    /// copy mode.
    pub fn read_byte(&mut self, base: Surroundings, byte: u8) -> Found
        ensures reading { (result, self.new)
            ≡ reading (byte_read base self.old.input.escapes byte) self.old }
    {
        self.escapes.read_byte(base, byte)
    }

    /// Ends the reading on top, before what stays.
    pub fn end_reading(&mut self, base: Surroundings) -> Found
        ensures reading { (result, self.new)
            ≡ reading (reading_ended base self.old.input.escapes) self.old }
    {
        self.escapes.end_reading(base)
    }

    /// Ends the condition on top, if it is read and asks nothing more, and no byte ended it that
    /// may be the first of what follows: whether it is so. Else nothing happens.
    #[inline(always)]
    pub fn end_decided(&mut self) -> Option<bool>
        ensures ended { EndsDecided result self.old self.new }
        ensures decided { result ≡ decided_on_top self.old.input.escapes }
    {
        self.escapes.end_decided()
    }

    /// Ends the expression of the condition on top, if it is read and is a number: it decides next.
    /// Whether it did; else nothing happens.
    #[inline(always)]
    pub fn decide_expression(&mut self) -> bool
        ensures ended { result ≡ true → (base : Surroundings) → (Found.GoesOn, self.new)
            ≡ reading (reading_ended base self.old.input.escapes) self.old }
        ensures kept { result ≡ false → self.new ≡ self.old }
        ensures number { result ≡ is_number_on_top self.old.input.escapes }
    {
        self.escapes.decide_expression()
    }

    /// Holds one unit more of the text that is being read.
    ///
    /// # Errors
    ///
    /// [`Limit::Stack`] if its bytes don't fit.
    pub fn hold_text(&mut self, unit: CopyUnit) -> Result<(), Limit>
        ensures change { (result, self.new)
            ≡ changing (holding_text unit self.old.input) self.old }
    {
        if self.escapes.bytes_more(unit) > self.limits.stack as usize - self.pushed() {
            return Err(Limit::Stack);
        }
        self.escapes.hold(unit);
        Ok(())
    }

    /// Takes at once bytes of a pushed text that stand in front where a condition is half read:
    /// those that its expression holds, and the fronts of names in it, and no more than the limit
    /// on bytes allows. Returns how many.
    #[inline(always)]
    pub(super) fn take_pushed(&mut self) -> usize
        ensures takes { TakesPushed result self.old self.new }
        ensures unchanged { result ≡ 0 → self.new ≡ self.old }
    {
        let allowed = (self.limits.bytes - self.charge) as usize;
        let given = self.input_ahead.give_front(&mut self.escapes, allowed);
        self.charge += given as u32;
        given
    }

    /// Begins to read a condition; nothing else is half read then.
    pub fn begin_condition(&mut self)
        ensures change { self.new ≡ record self.old { input = choosing self.old.input } }
    {
        self.escapes.begin_condition();
    }
}
