//! What is set: the page's length, offset and number, no-space mode, and the traps.

ghost use Rattle.std.specs.Prelude.{◌≡◌, ◌≤◌, ◌<◌, length, OnOk, IfErr};
ghost use Rattle.page_model.specs.declared.layout_event.LayoutEvent.TheVariants.{Length};
ghost use Rattle.page_model.specs.declared.layout_event.LayoutEvent.TheVariants.{ListPages};
ghost use Rattle.page_model.specs.declared.layout_event.LayoutEvent.TheVariants.{Offset, Next};
ghost use Rattle.page_model.specs.declared.layout_event.LayoutEvent.TheVariants.{Number};
ghost use Rattle.page_model.specs.Happenings.{Does};
ghost use Rattle.page_model.specs.declared.layout_event.LayoutEvent.TheVariants.{NoSpace, Plant};
ghost use Rattle.page_model.specs.declared.layout_event.LayoutEvent.TheVariants.{Uproot, MoveTrap};
ghost use Rattle.page_model.specs.declared.layout_event.LayoutEvent.TheVariants.{RemoveTrap};
ghost use Rattle.page_model.specs.Turning.{with_trap};
ghost use Rattle.roff_num.specs.declared.limit.Limit.TheVariants.{Traps};

use super::Pages;
use crate::sought::Sought;
use crate::traps::{move_named, plant_among, remove_first};
use page_model::Trap;
use roff_num::{Limit, Num, ShortName};

impl Pages {
    ghost use Rattle.roff_pages.specs.Pages.Stands.{Happens};

    /// The pages of these numbers are written, and those between them. Without any such range all
    /// are, and of more than 32 the others are ignored.
    pub fn list_pages(&mut self, first: Num, last: Num)
        ensures { Happens (Does (ListPages first last)) self.old self.new }
    {
        let _ = self.ranges.try_push((first, last));
    }

    /// Sets the page length, in lines. A page that is shorter than its place then ends at the next
    /// line, space or title.
    pub fn set_length(&mut self, lines: u32)
        ensures { Happens (Does (Length lines)) self.old self.new }
    {
        self.length = lines;
        self.stop = self.stops.look(lines, self.place, self.traps.as_slice());
        self.free = 0;
    }

    /// Sets the page offset, in columns.
    pub fn set_offset(&mut self, columns: u32)
        ensures { Happens (Does (Offset columns)) self.old self.new }
    {
        self.previous_offset = self.offset;
        self.offset = columns;
    }

    /// Sets the number of the next page.
    pub fn set_next(&mut self, number: Num)
        ensures { Happens (Does (Next number)) self.old self.new }
    {
        self.next = Some(number);
    }

    /// Sets the number of this page.
    pub fn set_number(&mut self, number: Num)
        ensures { Happens (Does (Number number)) self.old self.new }
    {
        self.number = number;
    }

    /// Turns no-space mode of the innermost open diversion, or of the page, on or off.
    pub fn set_no_space(&mut self, on: bool)
        ensures { Happens (Does (NoSpace on)) self.old self.new }
    {
        match self.innermost {
            Some(mut diversion) => {
                diversion.no_space = on;
                self.innermost = Some(diversion);
            }
            None => {
                self.no_space = on;
                self.free = 0;
            }
        }
    }

    /// Plants a trap: in the place in turn of the first with the same place as given, or as the
    /// last one.
    ///
    /// # Errors
    ///
    /// [`Limit::Traps`] if there would be more than may be.
    pub fn plant(&mut self, trap: Trap) -> Result<(), Limit>
        ensures ok { OnOk result (Happens (Does (Plant trap)) self.old self.new) }
        ensures within { OnOk result
            (length (with_trap trap self.old.traps) ≤ self.old.most_traps) }
        ensures limit { IfErr result (λ l. l ≡ Traps) }
        ensures same { IfErr result (λ l. self.new ≡ self.old) }
        ensures full { IfErr result
            (λ l. self.old.most_traps < length (with_trap trap self.old.traps)) }
    {
        let count = self.traps.len();
        if plant_among(&mut self.traps, trap, self.most_traps)? {
            self.stop = self
                .stops
                .plant(self.length, self.place, self.stop, trap, count);
            self.free = 0;
            return Ok(());
        }
        self.stop = self
            .stops
            .look(self.length, self.place, self.traps.as_slice());
        self.free = 0;
        Ok(())
    }

    /// Removes the first trap that was given this place.
    pub fn uproot(&mut self, place: i32)
        ensures { Happens (Does (Uproot place)) self.old self.new }
    {
        remove_first(&mut self.traps, Sought::Given(place));
        self.stop = self
            .stops
            .look(self.length, self.place, self.traps.as_slice());
        self.free = 0;
    }

    /// Moves the first trap of this name.
    pub fn move_trap(&mut self, name: ShortName, place: i32)
        ensures { Happens (Does (MoveTrap name place)) self.old self.new }
    {
        move_named(&mut self.traps, name, place);
        self.stop = self
            .stops
            .look(self.length, self.place, self.traps.as_slice());
        self.free = 0;
    }

    /// Removes the first trap of this name.
    pub fn remove_trap(&mut self, name: ShortName)
        ensures { Happens (Does (RemoveTrap name)) self.old self.new }
    {
        remove_first(&mut self.traps, Sought::Named(name));
        self.stop = self
            .stops
            .look(self.length, self.place, self.traps.as_slice());
        self.free = 0;
    }
}
