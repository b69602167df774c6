//! How many blank lines are put in the innermost open diversion. They are exact, where its height
//! is counted up to a bound.

ghost use Rattle.std.specs.Prelude.{◌≡◌, ◌+◌, if◌then◌else◌};
ghost use Rattle.page_model.specs.Layout.{Layout};
ghost use Rattle.page_model.specs.Puts.{needed, within_stop};
ghost use Rattle.page_model.specs.Queries.{text_target};

use super::Pages;
use super::diverted::{behind_text, needed_up_to, up_to_trap};

impl Pages {
    ghost use Rattle.roff_pages.specs.Pages.Stands.{StandsAs};

    /// How many of so many blank lines behind a line are put where text goes.
    pub fn blank_behind(&self, lines: u64) -> u64
        ensures { (L : Layout) → StandsAs L self.now
            → result ≡ within_stop ((text_target L).place + 1) (text_target L).stop lines }
    {
        behind_text(self.way_to_trap(), lines)
    }

    /// How many of so many that are spaced.
    pub fn blank_spaced(&self, lines: u32) -> u64
        ensures { (L : Layout) → StandsAs L self.now
            → result ≡ (if (text_target L).no_space then 0
            else within_stop (text_target L).place (text_target L).stop lines) }
    {
        if self.is_spaceless() {
            return 0;
        }
        up_to_trap(self.way_to_trap(), u64::from(lines))
    }

    /// How many are spaced where so many are needed.
    pub fn blank_needed(&self, lines: u32) -> u64
        ensures { (L : Layout) → StandsAs L self.now
            → result ≡ needed lines (text_target L).place (text_target L).stop }
    {
        needed_up_to(self.way_to_trap(), lines)
    }
}
