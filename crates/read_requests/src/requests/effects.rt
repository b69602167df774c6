//! What a request may ask of the run, and what it does.

ghost use Rattle.std.specs.Prelude.{◌≡◌, ◌∷◌, ℕ, List, [], not};
ghost use Rattle.page_model.specs.Words.{is_empty};
ghost use Rattle.roff_num.specs.declared.limits.Limits.{Limits};
ghost use Rattle.run_state.specs.Environments.Standing.{StandBy};
ghost use Rattle.run_model.specs.Environments.{PageHistory, environments};
ghost use Rattle.roff_pages.specs.Pages.Stands.{StandsAs};
ghost use Rattle.page_model.specs.Layout.{Layout};
ghost use Rattle.roff_pages.specs.Pages.Counted.{counted};
ghost use Rattle.page_model.specs.Queries.{place_now};
ghost use Rattle.run_model.specs.Registers.{Known, place_down};
ghost use Rattle.read_requests.specs.Request.Coded.{KnowsPages, calls_of, changes_of, response_of};
ghost use Rattle.run_model.specs.declared.event.PageEvent.TheVariants.{Page};
ghost use Rattle.run_model.specs.Requests.Effects.{Obeyed, Ignored, bad_format, bad_number};
ghost use Rattle.run_model.specs.Requests.Effects.{happens, left_out, no_such_environment, nothing};
ghost use Rattle.run_model.specs.Requests.Effects.{setting};

use page_model::{Event, LayoutEvent, Param, Settings};
use read_registers::{Change, LINE};
use roff_num::{Name, Num};
use run_model::{Message, PageEvent};
use run_state::Composer;

/// What a request may ask of the run.
#[derive(Clone, Copy)]
pub struct RequestFacts<'a> {
    /// The environments and the pages.
    pub composer: &'a Composer,
    /// The value of the register that the first argument names, if it names one and the request
    /// asks for it.
    pub in_force: Num,
}

/// What one may ask of the pages.
#[derive(Clone, Copy)]
pub(crate) struct PageFacts {
    /// The place where text goes, in lines.
    pub place: u64,
    /// The page length, in lines.
    pub page_length: u32,
    /// The page offset, in columns.
    pub page_offset: u32,
    /// The one before it.
    pub previous_page_offset: u32,
    /// The number of the page.
    pub page_number: Num,
    /// How many pages were begun; no more than 2^32 are counted.
    pub begun: u64,
    /// Whether a diversion is open.
    pub diverts: bool,
}

/// A place above this reads as this, in basic units.
const GREATEST_PLACE: u64 = 2_147_483_647;

impl RequestFacts<'_> {
    /// The settings in force.
    #[inline(always)]
    pub(super) fn settings(self) -> Settings
        ensures { result ≡ self.entry.composer.now.environments.in_force.lines.settings }
    {
        self.composer.environments.in_force.lines.settings()
    }

    /// Whether an environment was left that may be gone back to.
    #[inline(always)]
    pub(super) fn has_left(self) -> bool
        ensures { (l : Limits) (h : PageHistory)
            → StandBy l (environments h) self.entry.composer.now.environments
            → result ≡ not (is_empty (environments h).left) }
    {
        self.composer.environments.has_left()
    }

    /// What the pages tell.
    #[inline(always)]
    pub(super) fn pages(self) -> PageFacts
        ensures { (L : Layout) → StandsAs L self.entry.composer.now.pages → KnowsPages L result }
    {
        let pages = &self.composer.pages;
        PageFacts {
            place: pages.place_now(),
            page_length: pages.length(),
            page_offset: pages.offset(),
            previous_page_offset: pages.previous_offset(),
            page_number: pages.number(),
            begun: pages.begun(),
            diverts: pages.is_diverting(),
        }
    }
}

impl PageFacts {
    /// The place where text goes, in basic units.
    pub(super) fn place_down(self) -> i32
        ensures { (k : Known) → self.place ≡ counted (place_now k.layout)
            → result ≡ place_down k }
    {
        self.place
            .saturating_mul(u64::from(LINE))
            .min(GREATEST_PLACE) as i32
    }
}

/// What a request does with its arguments.
#[derive(Drop)]
pub enum Response {
    /// It is ignored, and says why.
    Ignored(Option<Message>),
    /// One event happens behind its break.
    Happens(PageEvent),
    /// Nothing happens behind its break.
    Nothing,
    /// It says this, and one event happens behind its break.
    Says(Message, PageEvent),
    /// Two events happen behind its break.
    Two(PageEvent, PageEvent),
    /// Registers or names change so.
    Changes(Changes),
    /// The page number gets a value, which the page has, and an increment.
    Numbers(Num, Num),
    /// One event happens in front of its break, and one behind it.
    Around(PageEvent, PageEvent),
    /// Its arguments are stops, which are set behind its break in place of those in force.
    SetsStops,
}

/// What a request changes of the registers, or of what names stand for.
#[derive(Drop)]
pub enum Changes {
    /// Nothing.
    Nothing,
    /// One register.
    One(Change),
    /// The registers that its arguments name go.
    RemoveGiven,
    /// What the names that its arguments give stand for goes.
    RemoveNamesGiven,
    /// What a name stands for goes to another one.
    Rename {
        /// The name.
        from: Name,
        /// The name that it goes to.
        to: Name,
    },
}

impl Response {
    /// Nothing happens behind its break.
    pub(super) fn nothing() -> Response
        ensures { (as_given : List (List ℕ)) → response_of as_given result ≡ nothing }
    {
        Response::Nothing
    }

    /// A parameter is set.
    pub(super) fn setting(param: Param) -> Response
        ensures { (as_given : List (List ℕ)) → response_of as_given result ≡ setting param }
    {
        Response::Happens(PageEvent::Text(Event::Set(param)))
    }

    /// Something happens to the pages.
    pub(super) fn on_page(event: LayoutEvent) -> Response
        ensures { (as_given : List (List ℕ))
            → response_of as_given result ≡ happens [] (Page event ∷ []) }
    {
        Response::Happens(PageEvent::Page(event))
    }

    /// Registers change, or what names stand for.
    pub(super) fn changing(changes: Changes) -> Response
        ensures { (as_given : List (List ℕ))
            → response_of as_given result
            ≡ Obeyed [] (changes_of as_given changes) (calls_of as_given changes) [] }
    {
        Response::Changes(changes)
    }

    /// An argument that it can't do without is missing.
    pub(super) fn unsaid() -> Response
        ensures { (as_given : List (List ℕ)) → response_of as_given result ≡ Ignored [] }
    {
        Response::Ignored(None)
    }

    /// An argument isn't a number, or is out of range.
    pub(super) fn bad_number() -> Response
        ensures { (as_given : List (List ℕ)) → response_of as_given result ≡ bad_number }
    {
        Response::Ignored(Some(Message::BadNumber))
    }

    /// An argument isn't a format.
    pub(super) fn bad_format() -> Response
        ensures { (as_given : List (List ℕ)) → response_of as_given result ≡ bad_format }
    {
        Response::Ignored(Some(Message::BadFormat))
    }

    /// An argument is no environment's number, or there is none to go back to.
    pub(super) fn no_such_environment() -> Response
        ensures { (as_given : List (List ℕ)) → response_of as_given result ≡ no_such_environment }
    {
        Response::Ignored(Some(Message::NoSuchEnvironment))
    }

    /// A request of this name is left out.
    pub(super) fn left_out(name: [u8; 2]) -> Response
        ensures { (as_given : List (List ℕ)) → response_of as_given result ≡ left_out name }
    {
        Response::Ignored(Some(Message::LeftOut(name)))
    }
}
