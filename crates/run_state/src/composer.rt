//! What a run composes: the environments, in which lines are filled, and the pages on which they
//! are placed.

ghost use Rattle.std.specs.Prelude.{◌≡◌, [], IfOk};
ghost use Rattle.roff_num.specs.declared.limits.Limits.{Limits as LimitsOf};
ghost use Rattle.run_model.specs.Environments.{PageHistory};
ghost use Rattle.run_model.specs.Reading.Items.{PageInput};
ghost use Rattle.run_model.specs.Registers.{AllRegisters, is_page_odd};
ghost use Rattle.run_model.specs.Run.States.{known_at};
ghost use Rattle.run_model.specs.Starts.{first_page_numbered, pages_given, pages_listed};

use crate::due_text::Due;
use crate::environments::Environments;
use roff_num::{Limits, Num};
use roff_pages::Pages;
use run_model::Start;
use std::alloc::{AllocError, Global};

/// The environments and the pages, and what is due behind the last event.
#[derive(Drop)]
pub struct Composer {
    /// The environments.
    pub environments: Environments,
    /// The pages.
    pub pages: Pages,
    /// What is due behind the last event.
    pub due: Due,
}

impl Composer {
    ghost use Rattle.run_state.specs.Composer.Standing.{StandFor};

    /// Environments in which nothing has happened, and no page.
    ///
    /// # Errors
    ///
    /// [`AllocError`] if the memory for the limits can't be had.
    pub fn new(alloc: Global, limits: Limits) -> Result<Self, AllocError>
        ensures { IfOk result (λ c. StandFor limits [] c) }
    {
        Ok(Composer {
            environments: Environments::new(alloc, limits)?,
            pages: Pages::new(alloc, limits)?,
            due: Due::nothing(),
        })
    }

    /// Gives the pages what a run is given of them: which of them are written, and the number of
    /// the first.
    pub fn give_pages(&mut self, start: &Start)
        ensures { (l : LimitsOf) → StandFor l [] self.old
            → StandFor l (pages_given start.now) self.new }
    {
        self.list_pages(start.pages.as_slice());
        self.number_first(start.first_page);
    }

    /// These ranges of pages are among those that are written.
    fn list_pages(&mut self, ranges: &[(Num, Num)])
        ensures { (l : LimitsOf) (h : PageHistory) → StandFor l h self.old
            → StandFor l (pages_listed ranges.now h) self.new }
    {
        let mut rest = ranges;
        while let Some((range, others)) = rest.split_first() {
            self.pages.list_pages(range.0, range.1);
            rest = others;
        }
    }

    /// The first page gets this number, if there is one.
    fn number_first(&mut self, number: Option<Num>)
        ensures { (l : LimitsOf) (h : PageHistory) → StandFor l h self.old
            → StandFor l (first_page_numbered number h) self.new }
    {
        match number {
            Some(number) => self.pages.set_next(number),
            None => {}
        }
    }

    /// Whether the page number is odd.
    pub fn is_page_odd(&self) -> bool
        ensures { (l : LimitsOf) (h : PageHistory) (rs : AllRegisters) (i : PageInput)
            → StandFor l h self.now → result ≡ is_page_odd (known_at h rs i) }
    {
        self.pages.number().0.unsigned_abs() % 2 == 1
    }
}
