//! What each event does to the environments and the pages.

ghost use Rattle.std.specs.Prelude.{IfOk};
ghost use Rattle.run_events.specs.Clauses.{StandFor, pages_given};

mod diverting;
mod events;
mod first_page;
mod fronts;
mod paging;
mod tabs;
mod text_events;
mod titles;
mod unfilled;

use roff_num::Limits;
use run_model::Start;
use run_state::Composer;
use std::alloc::{AllocError, Global};

/// The environments and pages, to which events happen.
///
/// An event is performed with what comes before it: the ends of a field and of a word, and the
/// first page's beginning. What is performed answers where it stopped, if it sprang a macro or the
/// text of a diversion is to be changed first; or what halts.
#[derive(Drop)]
pub struct Formatter {
    /// The environments and the pages.
    pub composer: Composer,
}

impl Formatter {
    /// A formatter before the first line, with room for what these limits allow. What is given of
    /// the pages is set.
    ///
    /// # Errors
    ///
    /// [`AllocError`] if the memory for the limits can't be had.
    pub fn new(alloc: Global, limits: Limits, start: &Start) -> Result<Self, AllocError>
        ensures { IfOk result (λ f. StandFor limits (pages_given start.now) f.composer) }
    {
        match Composer::new(alloc, limits) {
            Ok(mut composer) => {
                composer.give_pages(start);
                Ok(Formatter { composer })
            }
            Err(error) => Err(error),
        }
    }
}
