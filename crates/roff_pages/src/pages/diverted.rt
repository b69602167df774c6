//! What is put in the innermost open diversion (manual, sections 7.3 and 7.4).
//!
//! A diversion's text is kept elsewhere; here its lines are counted, and its trap is sprung. What
//! is put in it changes nothing on the page, and ends none.

ghost use Rattle.std.specs.Prelude.{◌≡◌, ℕ, ◌+◌, ◌<◌, ◌^◌, length, List, None, Option};
ghost use Rattle.std.specs.Prelude.{if◌then◌else◌};
ghost use Rattle.page_model.specs.Columns.{finished_of, printed};
ghost use Rattle.page_model.specs.Glyphs.{text_width};
ghost use Rattle.page_model.specs.Titles.{part_text};
ghost use Rattle.page_bytes.specs.TitleLeft.{title_of};
ghost use Rattle.page_model.specs.Layout.{Box, Diversion, Layout};
ghost use Rattle.page_model.specs.declared.layout_event.LayoutEvent.TheVariants.{Need, Space};
ghost use Rattle.page_model.specs.Happenings.{Does, Places, Titles};
ghost use Rattle.page_model.specs.Puts.{needed, within_stop};
ghost use Rattle.page_model.specs.Turning.{greatest_width, in_diversion};
ghost use Rattle.page_model.specs.Springs.{springs_on_page};
ghost use Rattle.page_model.specs.Queries.{text_target, way_from};
ghost use Rattle.roff_pages.specs.Pages.Advancing.{sprung_diverted, with_diverted};
ghost use Rattle.roff_pages.specs.Pages.Counted.{counted};
ghost use Rattle.roff_pages.specs.Pages.Stands.{kept_diversion};

use super::spacing::{mode_behind, needed};
use super::{MOST_COUNTED, Pages};
use crate::line_width::width_of_line;
use crate::open_diversion::OpenDiversion;
use crate::traps::passed_in_diversion;
use page_bytes::{TitleLine, width_of_title};
use page_model::Line;
use roff_num::ShortName;

impl Pages {
    ghost use Rattle.roff_pages.specs.Pages.Stands.{StandsAs, Happens, SameLimits};

    /// Puts a line in the innermost open diversion, and its blank lines up to the trap. Answers
    /// what springs.
    pub fn divert_line(&mut self, line: Line<'_>) -> Option<ShortName>
        requires { 0 < length self.old.diversions }
        ensures happens { Happens (Places (finished_of line.entry)) self.old self.new }
        ensures springs { (L : Layout) → StandsAs L self.old
            → result ≡ springs_on_page (Places (finished_of line.entry)) L }
    {
        let after = behind_text(self.way_to_trap(), line.after);
        let width = width_of_line(line);
        self.put_diverted(after.saturating_add(1), width)
    }

    /// Puts a title in it.
    pub fn divert_title(&mut self, title: TitleLine<'_>) -> Option<ShortName>
        requires open { 0 < length self.old.diversions }
        requires width { let number = title.number.now in
            text_width (part_text number title.left.now)
            + text_width (part_text number title.centre.now)
            + text_width (part_text number title.right.now) + title.length < 2 ^ 64 }
        requires some { 0 < length title.number.now }
        ensures happens { Happens (Titles (title_of title.entry)) self.old self.new }
        ensures springs { (L : Layout) → StandsAs L self.old
            → result ≡ springs_on_page (Titles (title_of title.entry)) L }
    {
        let width = width_of_title(title);
        self.put_diverted(1, width)
    }

    /// Spaces so many lines in it, up to the trap, unless its no-space mode is on.
    pub fn divert_space(&mut self, lines: u32) -> Option<ShortName>
        requires { 0 < length self.old.diversions }
        ensures happens { Happens (Does (Space lines)) self.old self.new }
        ensures springs { (L : Layout) → StandsAs L self.old
            → result ≡ springs_on_page (Does (Space lines)) L }
    {
        if self.is_spaceless() {
            return None;
        }
        let count = up_to_trap(self.way_to_trap(), u64::from(lines));
        self.put_diverted(count, 0)
    }

    /// Spaces what is left up to its trap, if that is less than so many lines.
    pub fn divert_need(&mut self, lines: u32) -> Option<ShortName>
        requires { 0 < length self.old.diversions }
        ensures happens { Happens (Does (Need lines)) self.old self.new }
        ensures springs { (L : Layout) → StandsAs L self.old
            → result ≡ springs_on_page (Does (Need lines)) L }
    {
        let count = needed_up_to(self.way_to_trap(), lines);
        self.put_diverted(count, 0)
    }

    /// Whether no-space mode is on where text goes.
    pub(super) fn is_spaceless(&self) -> bool
        ensures { (L : Layout) → StandsAs L self.now → result ≡ (text_target L).no_space }
    {
        match self.innermost {
            Some(diversion) => diversion.no_space,
            None => self.no_space,
        }
    }

    /// Puts so many lines in the innermost open diversion, the widest of which is so wide. Answers
    /// what springs.
    fn put_diverted(&mut self, lines: u64, width: u64) -> Option<ShortName>
        requires { 0 < length self.old.diversions }
        ensures stands { (L : Layout) (boxes : List Box) → StandsAs L self.old
            → counted lines ≡ counted (length boxes)
            → counted width ≡ counted (greatest_width boxes)
            → StandsAs (with_diverted boxes L) self.new }
        ensures springs { (L : Layout) (boxes : List Box) → StandsAs L self.old
            → counted lines ≡ counted (length boxes)
            → counted width ≡ counted (greatest_width boxes)
            → result ≡ sprung_diverted boxes L }
        ensures limits { SameLimits self.old self.new }
        ensures written { self.new.written ≡ self.old.written }
    {
        match self.innermost {
            Some(diversion) => {
                self.innermost = Some(with_lines(diversion, lines, width));
                self.unless_over(passed_in_diversion(diversion.height, lines, diversion.trap))
            }
            None => None,
        }
    }

    /// What springs where this was passed: nothing once the last page has ended.
    fn unless_over(&self, passed: Option<ShortName>) -> Option<ShortName>
        ensures { result ≡ (if self.now.is_over then None else passed) }
    {
        if self.is_over { None } else { passed }
    }
}

/// A diversion with so many lines more, the widest of which is so wide.
fn with_lines(diversion: OpenDiversion, lines: u64, width: u64) -> OpenDiversion
    ensures { (d : Diversion) (boxes : List Box) → diversion ≡ kept_diversion d
        → counted lines ≡ counted (length boxes)
        → counted width ≡ counted (greatest_width boxes)
        → result ≡ kept_diversion (in_diversion boxes d) }
{
    OpenDiversion {
        name: diversion.name,
        appends: diversion.appends,
        height: diversion.height.saturating_add(lines).min(MOST_COUNTED),
        width: diversion.width.max(width.min(MOST_COUNTED)),
        trap: diversion.trap,
        no_space: mode_behind(diversion.no_space, lines),
    }
}

/// So many blank lines, up to a trap that is so far.
pub(super) fn up_to_trap(way: Option<u64>, lines: u64) -> u64
    ensures { (place : ℕ) (stop : Option ℕ) → way ≡ way_from place stop
        → result ≡ within_stop place stop lines }
{
    match way {
        Some(way) => lines.min(way),
        None => lines,
    }
}

/// So many blank lines behind a line, up to a trap that is so far.
pub(super) fn behind_text(way: Option<u64>, lines: u64) -> u64
    ensures { (place : ℕ) (stop : Option ℕ) → way ≡ way_from place stop
        → result ≡ within_stop (place + 1) stop lines }
{
    match way {
        Some(way) => lines.min(way.saturating_sub(1)),
        None => lines,
    }
}

/// How much is spaced where so many lines are needed, up to a trap that is so far.
pub(super) fn needed_up_to(way: Option<u64>, lines: u32) -> u64
    ensures { (place : ℕ) (stop : Option ℕ) → way ≡ way_from place stop
        → result ≡ needed lines place stop }
{
    match way {
        Some(way) => needed(way, lines),
        None => 0,
    }
}
