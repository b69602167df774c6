//! Conditions: whether one is so, and its branch.

ghost use Rattle.std.specs.Prelude.{◌≡◌, true, false, Ok};
ghost use Rattle.read_lines.specs.Clauses.{ComposerOf, escape_ended};
ghost use Rattle.run_model.specs.declared.step.Step.TheVariants.{Nothing};
ghost use Rattle.read_lines.specs.Clauses.{TakesAs, condition_found, decided, is_so};
ghost use Rattle.read_lines.specs.Clauses.{condition_begun};

use super::Reader;
use roff_num::Limit;
use roff_scan::{Decision, Found, Surroundings, Unread};
use run_model::{LineState, PageEvent, Step};
use run_state::{Composer, at_start, is_so};

impl Reader {
    /// The first byte of a condition behind a name of one byte; one that isn't there is false.
    ///
    /// # Errors
    ///
    /// A limit that it would pass; what was changed then is of no more use.
    pub fn begin_condition(
        &mut self,
        keeps: bool,
        byte: u8,
        composer: &Composer,
        unread: &mut Unread<PageEvent>,
    ) -> Result<Step, Limit>
        ensures { TakesAs (λ k. condition_begun k unread.old.input keeps byte)
            composer.now self.old self.new unread.old unread.new result }
    {
        if byte == b'\n' {
            let found = Found::Decides(Decision::Is(false), Some(byte));
            return self.read_condition(keeps, found, composer, unread);
        }
        unread.begin_condition();
        let found = unread.read_byte(Surroundings::Arguments, byte);
        self.read_condition(keeps, found, composer, unread)
    }

    /// Something of a condition.
    ///
    /// # Errors
    ///
    /// A limit that it would pass; what was changed then is of no more use.
    #[inline(never)]
    pub fn read_condition(
        &mut self,
        keeps: bool,
        found: Found,
        composer: &Composer,
        unread: &mut Unread<PageEvent>,
    ) -> Result<Step, Limit>
        ensures { TakesAs (λ k. condition_found k unread.old.input keeps found)
            composer.now self.old self.new unread.old unread.new result }
    {
        match found {
            Found::Decides(decision, freed) => {
                let so = is_so(decision, composer);
                // The limit on results is the last that is looked at.
                let step = self.begin_branch(so, freed, composer, unread)?;
                if keeps {
                    unread.keep_result(so)?;
                }
                Ok(step)
            }
            _ => self.read_in_arguments(LineState::Deciding { keeps }, found, composer, unread),
        }
    }

    /// Ends the expression of a condition, if it is read and is a number, or decides a condition
    /// that asks nothing more. Whether there was one; else nothing happens.
    #[inline(always)]
    pub fn ends_quietly(&mut self, unread: &mut Unread<PageEvent>) -> bool
        ensures ends { result ≡ true → (es : ComposerOf)
            → TakesAs (λ k. escape_ended k self.old.reading unread.old.input)
            es self.old self.new unread.old unread.new (Ok Nothing) }
        ensures unchanged { result ≡ false → (self.new ≡ self.old) × (unread.new ≡ unread.old) }
    {
        match self.reading {
            LineState::Deciding { keeps } => {
                let _ = keeps;
                if unread.decide_expression() {
                    return true;
                }
                self.decides(unread)
            }
            _ => false,
        }
    }

    /// Decides a condition that is read and asks nothing more, whose result isn't kept, and reads
    /// its branch or skips it. Whether there was one; else nothing happens.
    #[inline(always)]
    pub(super) fn decides(&mut self, unread: &mut Unread<PageEvent>) -> bool
        ensures decides { result ≡ true → (es : ComposerOf)
            → TakesAs (λ k. escape_ended k self.old.reading unread.old.input)
            es self.old self.new unread.old unread.new (Ok Nothing) }
        ensures unchanged { result ≡ false → (self.new ≡ self.old) × (unread.new ≡ unread.old) }
    {
        match self.reading {
            LineState::Deciding { keeps: false } => match unread.end_decided() {
                Some(so) => {
                    self.go_on(LineState::branch(so));
                    true
                }
                None => false,
            },
            _ => false,
        }
    }

    /// A condition decided: its branch is read or skipped, and its first byte may be there.
    ///
    /// # Errors
    ///
    /// A limit that it would pass; what was changed then is of no more use.
    pub fn begin_branch(
        &mut self,
        so: bool,
        freed: Option<u8>,
        composer: &Composer,
        unread: &mut Unread<PageEvent>,
    ) -> Result<Step, Limit>
        ensures { TakesAs (λ k. decided k unread.old.input so freed)
            composer.now self.old self.new unread.old unread.new result }
    {
        let branch = LineState::branch(so);
        match freed {
            None => Ok(self.read_on(branch)),
            Some(byte) if so => {
                let found = unread.read_byte(at_start(composer), byte);
                self.begin_line(branch, found, composer, unread)
            }
            Some(byte) => Ok(self.read_on(LineState::behind_skipped(0, 0, false, byte))),
        }
    }
}
