//! Lines that call bodies.

ghost use Rattle.read_lines.specs.Clauses.{ComposerOf, LineStart, TakesAs, call_unit};
ghost use Rattle.read_lines.specs.Clauses.{called_by, called_last, going_on, last_called};
ghost use Rattle.read_lines.specs.Reader.Springs.{Springs};
ghost use Rattle.input_escapes.specs.declared.open_escape.CopyUnit.TheVariants.{Byte};
ghost use Rattle.input_source.specs.Bytes.{newline};
ghost use Rattle.run_model.specs.declared.request.Called.TheVariants as Called;

use super::Reader;
use read_names::{called_by, whole_name};
use roff_num::{Limit, ShortName};
use roff_scan::{CopyUnit, Unread};
use run_model::{Called, LineState, PageEvent, Purpose, Step};

/// How many arguments a body gets that a line calls.
pub const CALL_ARGUMENTS: usize = 9;

impl Reader {
    /// A unit behind the name of a body that a line calls: a newline ends the line, and the body is
    /// read.
    ///
    /// # Errors
    ///
    /// A limit that it would pass; what was changed then is of no more use.
    pub fn read_unit_of_call(
        &mut self,
        name: ShortName,
        unit: CopyUnit,
        unread: &mut Unread<PageEvent>,
    ) -> Result<Step, Limit>
        ensures { (es : ComposerOf)
            → TakesAs (λ k. call_unit unread.old.input name unit)
            es self.old self.new unread.old unread.new result }
    {
        match unit {
            CopyUnit::Byte(b'\n') => return self.call_body(name, unread),
            CopyUnit::Byte(b'"') => {}
            _ => unread.settle(),
        }
        if unread.arguments().len() < CALL_ARGUMENTS {
            unread.hold(unit)?;
        }
        Ok(self.read_on(LineState::Collecting(Purpose::Calling { name })))
    }

    /// The end of the line: the body is read.
    ///
    /// # Errors
    ///
    /// A limit that it would pass; what was changed then is of no more use.
    #[inline(always)]
    pub fn call_body(
        &mut self,
        name: ShortName,
        unread: &mut Unread<PageEvent>,
    ) -> Result<Step, Limit>
        ensures { (es : ComposerOf)
            → TakesAs (λ k. call_unit unread.old.input name (Byte newline))
            es self.old self.new unread.old unread.new result }
    {
        unread.call(&whole_name(name))?;
        Ok(self.read_on(LineState::LineStart))
    }

    /// The last macro is read behind the input, if there is one, as the body of a call without
    /// arguments.
    ///
    /// # Errors
    ///
    /// A limit that it would pass; what was changed then is of no more use.
    pub fn read_last_macro(&mut self, unread: &mut Unread<PageEvent>) -> Result<Step, Limit>
        ensures { (es : ComposerOf) → TakesAs (λ k. going_on
            (last_called self.old.registers.all.last_macro unread.old.input) LineStart)
            es self.old self.new unread.old unread.new result }
    {
        let lasting = &self.lasting;
        match lasting.last_macro {
            None => Ok(self.read_on(LineState::LineStart)),
            Some(name) => self.read_last(name, unread),
        }
    }

    /// What a name stands for is read as the body of a call without arguments, if it is one.
    fn read_last(&mut self, name: ShortName, unread: &mut Unread<PageEvent>) -> Result<Step, Limit>
        ensures { (es : ComposerOf) → TakesAs (λ k. going_on
            (called_last (called_by name unread.old.input.names) unread.old.input) LineStart)
            es self.old self.new unread.old unread.new result }
    {
        match called_by(name, unread) {
            Called::Body(name) => self.read_last_body(name, unread),
            Called::Request(_) => Ok(self.read_on(LineState::LineStart)),
            Called::Nothing => Ok(self.read_on(LineState::LineStart)),
        }
    }

    /// The body of a name is read as that of a call without arguments.
    fn read_last_body(
        &mut self,
        name: ShortName,
        unread: &mut Unread<PageEvent>,
    ) -> Result<Step, Limit>
        ensures { (es : ComposerOf) → TakesAs (λ k. going_on
            (called_last (Called.Body name) unread.old.input) LineStart)
            es self.old self.new unread.old unread.new result }
    {
        unread.begin_arguments();
        unread.call(&whole_name(name))?;
        Ok(self.read_on(LineState::LineStart))
    }

    /// A macro that sprang is read, if its name has a body: what is read goes on behind it.
    ///
    /// # Errors
    ///
    /// A limit that it would pass; nothing changed then.
    #[cold]
    pub fn spring(&mut self, name: ShortName, unread: &mut Unread<PageEvent>) -> Result<(), Limit>
        ensures { Springs (called_by name unread.old.input.names)
            self.old self.new unread.old unread.new result }
    {
        match called_by(name, unread) {
            Called::Body(name) => self.spring_body(name, unread),
            Called::Request(_) => Ok(()),
            Called::Nothing => Ok(()),
        }
    }

    /// A macro that sprang is read, whose name has a body: what is read goes on behind it. A limit
    /// may refuse it; nothing changed then.
    fn spring_body(&mut self, name: ShortName, unread: &mut Unread<PageEvent>) -> Result<(), Limit>
        ensures { Springs (Called.Body name)
            self.old self.new unread.old unread.new result }
    {
        match unread.spring(&name.name(), self.reading.back()) {
            Ok(()) => {
                self.reading = self.reading.behind_return(0);
                Ok(())
            }
            Err(limit) => Err(limit),
        }
    }
}
