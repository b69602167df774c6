//! Titles that are placed.

ghost use Rattle.std.specs.Prelude.{◌≡◌, ◌+◌, ◌<◌, ◌≤◌, ◌^◌, length};
ghost use Rattle.page_model.specs.Glyphs.{text_width};
ghost use Rattle.roff_num.specs.RegisterText.{register_text};
ghost use Rattle.page_model.specs.Happenings.{Titles};
ghost use Rattle.page_model.specs.Layout.{Layout};
ghost use Rattle.roff_pages.specs.Pages.Stands.{StandsAs};
ghost use Rattle.page_bytes.specs.TitleLeft.{title_of};
ghost use Rattle.page_bytes.specs.TitleParts.{HasNoBlank};
ghost use Rattle.page_model.specs.Titles.{part_text};
ghost use Rattle.run_events.specs.Clauses.{PerformsTitle, PlacesTitle, PutsOnPage};
ghost use Rattle.run_events.specs.Formatter.Titling.{title_at, title_due};

use super::Formatter;
use super::paging::done_on;
use crate::halt::Halt;
use crate::sprung::Sprung;
use page_bytes::{ByteSink, TitleLine};
use roff_num::{Format, NumText, write_num};
use roff_pages::Pages;
use run_model::WhichTitle;
use run_state::{Due, DueText, TitleText};

impl Formatter {
    /// Places this title, of this text, with the title length that is in force, and the page's
    /// number in this format.
    ///
    /// # Errors
    ///
    /// [`Halt`] if a limit refuses it, the output failed, or the last page ended.
    pub fn place_title<O: ByteSink>(
        &mut self,
        which: WhichTitle,
        text: &TitleText,
        format: Format,
        out: &mut O,
    ) -> Result<Option<Sprung>, Halt>
        ensures { PerformsTitle which text.now.text format self.old self.new
            (O.sunk out.old) (O.sunk out.new) result }
    {
        match self.begin_first() {
            Some(name) => self.stopped_by(name),
            None => self.place_title_here(which, text, format, out),
        }
    }

    /// Places this title, of this text, with the title length that is in force, and the page's
    /// number in this format, where no page begins in front of it.
    fn place_title_here<O: ByteSink>(
        &mut self,
        which: WhichTitle,
        text: &TitleText,
        format: Format,
        out: &mut O,
    ) -> Result<Option<Sprung>, Halt>
        ensures { PlacesTitle which text.now.text format self.old self.new
            (O.sunk out.old) (O.sunk out.new) result }
    {
        let number = self.page_number(format);
        self.put_title(which, text, number.as_slice(), out)
    }

    /// The page's number, in this format.
    fn page_number(&self, format: Format) -> NumText
        ensures number { (L : Layout) → StandsAs L self.now.composer.pages
            → result.items ≡ register_text format L.number.0 }
        ensures some { 0 < length result.items }
        ensures shown { HasNoBlank result.items }
    {
        let mut number = NumText::new();
        write_num(self.composer.pages.number(), format, &mut number);
        number
    }

    /// Puts a title with this number of the page.
    fn put_title<O: ByteSink>(
        &mut self,
        which: WhichTitle,
        text: &TitleText,
        number: &[u8],
        out: &mut O,
    ) -> Result<Option<Sprung>, Halt>
        requires some { 0 < length number.now }
        requires shown { HasNoBlank number.now }
        requires short { length number.now ≤ 48 }
        ensures puts { PutsOnPage (Titles (title_at self.old text.now.text number.now))
            (title_due which self.old)
            self.old.composer.pages self.new.composer.pages
            self.old.composer.due self.new.composer.due (O.sunk out.old) (O.sunk out.new) result }
        ensures others { self.new ≡ record self.old {
          composer = record self.old.composer {
            pages = self.new.composer.pages;
            due = self.new.composer.due;
          };
        } }
    {
        text.stays_short();
        let settings = self.composer.environments.in_force.lines.settings();
        let title = TitleLine {
            left: text.left(),
            centre: text.centre(),
            right: text.right(),
            length: u64::from(settings.title_length),
            number,
        };
        let told = DueText::Title {
            which,
            number: self.composer.pages.number(),
            length: settings.title_length,
        };
        put_on(
            &mut self.composer.pages,
            &mut self.composer.due,
            told,
            title,
            out,
        )
    }
}

/// Puts a title, in the innermost open diversion or on the page. With it the last page may end.
fn put_on<O: ByteSink>(
    pages: &mut Pages,
    due: &mut Due,
    text: DueText,
    title: TitleLine<'_>,
    out: &mut O,
) -> Result<Option<Sprung>, Halt>
    requires some { 0 < length title.number.now }
    requires shown { HasNoBlank title.number.now }
    requires width { let number = title.number.now in
        text_width (part_text number title.left.now)
        + text_width (part_text number title.centre.now)
        + text_width (part_text number title.right.now) + title.length < 2 ^ 64 }
    ensures { PutsOnPage (Titles (title_of title.entry)) (λ L. text) pages.old pages.new
        due.old due.new (O.sunk out.old) (O.sunk out.new) result }
{
    if pages.is_diverting() {
        due.text = text;
        due.sprung = pages.divert_title(title);
        return Ok(Some(Sprung::diverting()));
    }
    let placed = pages.title(title, out);
    done_on(pages, due, placed)
}
