//! What is read waits for a byte where that decides what becomes of it.

ghost use Rattle.std.specs.Prelude.{◌≡◌, true, None, [], if◌then◌else◌};
ghost use Rattle.input_escapes.specs.declared.open_escape.Waiting.TheVariants.{Takes, Waits};
ghost use Rattle.read_lines.specs.Clauses.{due, waiting_in};

use super::Reader;
use roff_scan::{Unread, Waiting};
use run_model::{LineState, PageEvent};

impl Reader {
    /// What is read does at the next item.
    #[inline(always)]
    #[tactic(auto, using(crate::proofs::WaitingAlone::with_half))]
    pub fn waiting(&self, unread: &Unread<PageEvent>) -> Waiting
        ensures { result ≡ waiting_in self.now.reading unread.now.input }
    {
        if unread.has_open_escape() {
            return unread.waiting(self.reading.copies_in());
        }
        if self.waits_alone(unread) {
            Waiting::Waits
        } else {
            Waiting::Takes
        }
    }

    /// Whether it waits for a byte, where nothing is half read: behind a dot or apostrophe for the
    /// name, behind its first byte for the second, and behind a quote for another one.
    #[inline(always)]
    #[tactic(auto, using(crate::proofs::WaitingAlone::without_half))]
    pub fn waits_alone(&self, unread: &Unread<PageEvent>) -> bool
        requires none_half { unread.now.input.escapes ≡ [] }
        ensures { waiting_in self.now.reading unread.now.input
            ≡ (if result then Waits else Takes) }
    {
        match self.reading {
            LineState::Control { .. } => true,
            LineState::Name { .. } => true,
            LineState::Collecting(purpose) => {
                purpose.collects_arguments() && unread.is_behind_quote()
            }
            _ => false,
        }
    }

    /// Whether the item in front is taken next, whatever it is: nothing is due, and nothing is
    /// waited for.
    #[inline(always)]
    pub fn takes_any(&self, unread: &Unread<PageEvent>) -> bool
        ensures none_due { result ≡ true → due self.now.reading ≡ None }
        ensures takes { result ≡ true → waiting_in self.now.reading unread.now.input ≡ Takes }
    {
        match self.waiting(unread) {
            Waiting::Takes => self.due().is_none(),
            _ => false,
        }
    }
}
