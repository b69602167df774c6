//! What stands for something else: names behind escapes, and widths.

ghost use Rattle.std.specs.Prelude.{Ok};
ghost use Rattle.read_lines.specs.Clauses.{ComposerOf, PageUnread, TakesAs, asking, going_on};
ghost use Rattle.read_lines.specs.Clauses.{holding_text};
ghost use Rattle.read_lines.specs.Clauses.{measuring, putting_nothing, telling, putting_string};
ghost use Rattle.read_lines.specs.Clauses.{putting_argument};

use super::Reader;
use itoa::Buffer;
use roff_num::{Limit, Name};
use roff_scan::{CopyUnit, NameUse, Remark, Unread};
use run_model::{LineState, Message, PageEvent, Step};
use run_state::Composer;

impl Reader {
    /// What the name behind an escape asks for is read in the escape's place.
    ///
    /// # Errors
    ///
    /// A limit that it would pass; what was changed then is of no more use.
    #[inline(always)]
    pub fn ask(
        &mut self,
        purpose: NameUse,
        name: Option<Name>,
        composer: &Composer,
        unread: &mut Unread<PageEvent>,
    ) -> Result<Step, Limit>
        ensures { TakesAs (λ k. asking k unread.old.input self.old.reading purpose name)
            composer.now self.old self.new unread.old unread.new result }
    {
        let name = match name {
            None => return Ok(Step::Nothing),
            Some(name) => name,
        };
        match purpose {
            NameUse::Register(None) => self.put_register(&name, composer, unread),
            NameUse::Register(Some(step)) => self.interpolate(step, &name, composer, unread),
            NameUse::Text => self.put_string(&name, unread),
            NameUse::Argument => self.put_argument(&name, unread),
            // Copy mode reads no such name, and text reads it otherwise.
            NameUse::Character => self.put_nothing(unread),
            NameUse::Font => self.put_nothing(unread),
            NameUse::LeftOut(_) => self.put_nothing(unread),
        }
    }

    /// A string is put in front.
    fn put_string(&self, name: &Name, unread: &mut Unread<PageEvent>) -> Result<Step, Limit>
        ensures { (es : ComposerOf)
            → TakesAs (λ k. putting_string unread.old.input self.now.reading name.now)
            es self.now self.now unread.old unread.new result }
    {
        unread.push_body(name)?;
        Ok(Step::Nothing)
    }

    /// An argument is put in front.
    fn put_argument(&self, name: &Name, unread: &mut Unread<PageEvent>) -> Result<Step, Limit>
        ensures { (es : ComposerOf)
            → TakesAs (λ k. putting_argument unread.old.input self.now.reading name.now)
            es self.now self.now unread.old unread.new result }
    {
        match name.as_bytes() {
            [digit @ b'1'..=b'9'] => unread.push_argument((*digit - b'1') as usize)?,
            _ => unread.push(&[])?,
        }
        Ok(Step::Nothing)
    }

    /// An empty text is put in front.
    fn put_nothing(&self, unread: &mut Unread<PageEvent>) -> Result<Step, Limit>
        ensures { (es : ComposerOf)
            → TakesAs (λ k. putting_nothing unread.old.input self.now.reading)
            es self.now self.now unread.old unread.new result }
    {
        unread.push(&[])?;
        Ok(Step::Nothing)
    }

    /// A unit of a text is held, and this is read on.
    ///
    /// # Errors
    ///
    /// A limit that it would pass; what was changed then is of no more use.
    #[inline(always)]
    pub fn hold_text(
        &mut self,
        unit: CopyUnit,
        reading: LineState,
        unread: &mut Unread<PageEvent>,
    ) -> Result<Step, Limit>
        ensures { (es : ComposerOf)
            → TakesAs (λ k. going_on (holding_text unit unread.old.input) reading)
            es self.old self.new unread.old unread.new result }
    {
        unread.hold_text(unit)?;
        Ok(self.read_on(reading))
    }

    /// The width of a text is read in its place, and behind it this.
    ///
    /// # Errors
    ///
    /// A limit that it would pass; what was changed then is of no more use.
    pub fn measure(
        &mut self,
        width: u32,
        reading: LineState,
        unread: &mut Unread<PageEvent>,
    ) -> Result<Step, Limit>
        ensures { (es : ComposerOf)
            → TakesAs (λ k. measuring unread.old.input reading width)
            es self.old self.new unread.old unread.new result }
    {
        unread.push(Buffer::new().format(width).as_bytes())?;
        Ok(self.read_on(reading))
    }

    /// This is said of something within a text that is measured or a condition, and this is read
    /// on.
    pub fn tell(&mut self, remark: Remark, reading: LineState) -> Step
        ensures { (es : ComposerOf) (u : PageUnread)
            → TakesAs (λ k. telling u.input reading remark) es self.old self.new u u (Ok result) }
    {
        self.reading = reading;
        self.report(Message::of_remark(remark))
    }
}
