//! Lines and titles that are placed on a page.

ghost use Rattle.std.specs.Prelude.{◌≡◌, ◌+◌, ◌<◌, ◌^◌, ◌++◌, [], OnOk, IfErr, length, replicate};
ghost use Rattle.page_model.specs.Columns.{device_line, finished_of, printed};
ghost use Rattle.page_model.specs.Glyphs.{text_width};
ghost use Rattle.page_model.specs.Happenings.{Places, Titles};
ghost use Rattle.page_bytes.specs.TitleLeft.{title_of};
ghost use Rattle.page_bytes.specs.TitleParts.{HasNoBlank};
ghost use Rattle.page_model.specs.Titles.{part_text, title_text};
ghost use Rattle.roff_pages.specs.Pages.Printing.{HappensWriting, IsUnprinted, Printed, if_listed};

use super::Pages;
use page_bytes::{BLOCK, ByteSink, PageFault, TitleLine};
use page_model::Line;
use roff_num::ShortName;

impl Pages {
    /// Places a line on the page, and behind it its blank lines, up to the next trap or the page's
    /// end. No diversion is open, and none is opened.
    ///
    /// # Errors
    ///
    /// [`PageFault`] if the limit on the output would be passed, or the sink fails.
    #[inline(always)]
    pub fn place<O: ByteSink>(
        &mut self,
        line: Line<'_>,
        out: &mut O,
    ) -> Result<Option<ShortName>, PageFault>
        requires { self.old.diversions ≡ [] }
        ensures happens { HappensWriting (Places (finished_of line.entry)) self.old self.new
            (O.sunk out.old) (O.sunk out.new) result }
        ensures page { self.new.diversions ≡ [] }
    {
        if line.after < self.free {
            let columns = u64::from(self.offset);
            let count = self.block.put_at_once(line, columns, line.after, out);
            if count > 0 {
                self.written += count;
                self.place += line.after + 1;
                self.free -= line.after + 1;
                return Ok(None);
            }
            if !self.block.is_empty() {
                return Err(PageFault::Sink);
            }
        } else if !self.is_listed {
            let way = self.way();
            let lines = line.after.min(way.saturating_sub(1)) + 1;
            let next = self.next;
            return Ok(self.put_lines(lines, way, next, false));
        }
        self.place_checked(line, out)
    }

    /// Places a line as far as the next stop and the limit on the output let it.
    #[inline(never)]
    fn place_checked<O: ByteSink>(
        &mut self,
        line: Line<'_>,
        out: &mut O,
    ) -> Result<Option<ShortName>, PageFault>
        requires { self.old.diversions ≡ [] }
        ensures happens { HappensWriting (Places (finished_of line.entry)) self.old self.new
            (O.sunk out.old) (O.sunk out.new) result }
        ensures page { self.new.diversions ≡ [] }
    {
        let way = self.way();
        let after = line.after.min(way.saturating_sub(1));
        match self.write_line(line, after, out) {
            Ok(()) => {
                let next = self.next;
                let sprung = self.put_lines(after + 1, way, next, false);
                self.look_ahead();
                Ok(sprung)
            }
            Err(fault) => Err(fault),
        }
    }

    /// Counts the lines that may be placed freely from now on.
    pub(super) fn look_ahead(&mut self)
        ensures { self.new ≡ self.old }
    {
        self.free = 0;
        if self.is_listed && !self.no_space {
            let room = u64::from(self.output) - self.written;
            self.free = self.way().saturating_sub(1).min(room / BLOCK as u64);
        }
    }

    /// Places a title on the page. No diversion is open, and none is opened.
    ///
    /// # Errors
    ///
    /// [`PageFault`] if the limit on the output would be passed, or the sink fails.
    #[inline(always)]
    pub fn title<O: ByteSink>(
        &mut self,
        title: TitleLine<'_>,
        out: &mut O,
    ) -> Result<Option<ShortName>, PageFault>
        requires page { self.old.diversions ≡ [] }
        requires some { 0 < length title.number.now }
        requires shown { HasNoBlank title.number.now }
        requires width { let number = title.number.now in
            text_width (part_text number title.left.now)
            + text_width (part_text number title.centre.now)
            + text_width (part_text number title.right.now) + title.length < 2 ^ 64 }
        ensures happens { HappensWriting (Titles (title_of title.entry)) self.old self.new
            (O.sunk out.old) (O.sunk out.new) result }
        ensures page { self.new.diversions ≡ [] }
    {
        let way = self.way();
        match self.write_title(title, out) {
            Ok(()) => {
                let next = self.next;
                Ok(self.put_lines(1, way, next, false))
            }
            Err(fault) => Err(fault),
        }
    }

    /// Writes a line and so many blank lines, if the page is written.
    #[inline(always)]
    fn write_line<O: ByteSink>(
        &mut self,
        line: Line<'_>,
        after: u64,
        out: &mut O,
    ) -> Result<(), PageFault>
        ensures ok { OnOk result (Printed self.old self.new (O.sunk out.old) (O.sunk out.new)
            (if_listed self.old.is_listed (device_line self.old.offset
            (printed (finished_of line.entry)) ++ replicate after 10))) }
        ensures err { IfErr result (λ f. IsUnprinted f self.old self.new
            (O.sunk out.old) (O.sunk out.new)
            (if_listed self.old.is_listed (device_line self.old.offset
            (printed (finished_of line.entry)) ++ replicate after 10))) }
        ensures kept { self.new ≡ record self.old { written = self.new.written } }
    {
        if !self.is_listed {
            return Ok(());
        }
        let columns = u64::from(self.offset);
        let room = u64::from(self.output) - self.written;
        match self.block.put_line_within(line, columns, after, room, out) {
            Ok(count) => {
                self.written += count;
                self.free = 0;
                Ok(())
            }
            Err(fault) => Err(fault),
        }
    }

    /// Writes a title, if the page is written.
    #[inline(always)]
    fn write_title<O: ByteSink>(
        &mut self,
        title: TitleLine<'_>,
        out: &mut O,
    ) -> Result<(), PageFault>
        requires some { 0 < length title.number.now }
        requires shown { HasNoBlank title.number.now }
        requires width { let number = title.number.now in
            text_width (part_text number title.left.now)
            + text_width (part_text number title.centre.now)
            + text_width (part_text number title.right.now) + title.length < 2 ^ 64 }
        ensures ok { OnOk result (Printed self.old self.new (O.sunk out.old) (O.sunk out.new)
            (if_listed self.old.is_listed
            (device_line self.old.offset (title_text (title_of title.entry))))) }
        ensures err { IfErr result (λ f. IsUnprinted f self.old self.new
            (O.sunk out.old) (O.sunk out.new) (if_listed self.old.is_listed
            (device_line self.old.offset (title_text (title_of title.entry))))) }
        ensures kept { self.new ≡ record self.old { written = self.new.written } }
    {
        if !self.is_listed {
            return Ok(());
        }
        let columns = u64::from(self.offset);
        let room = u64::from(self.output) - self.written;
        match self.block.put_title_within(title, columns, room, out) {
            Ok(count) => {
                self.written += count;
                self.free = 0;
                Ok(())
            }
            Err(fault) => Err(fault),
        }
    }
}
