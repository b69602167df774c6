//! Titles: their delimiters, and their three parts (manual, section 14).

ghost use Rattle.std.specs.Prelude.{◌≡◌, ◌∷◌, []};
ghost use Rattle.run_model.specs.Titles.{keeping, put_back, title_of};

use super::Reader;
use roff_num::Format;
use run_model::{PageEvent, WhichTitle};
use run_state::TitleText;

impl Reader {
    /// The text of a title.
    pub fn title(&self, which: WhichTitle) -> &TitleText
        ensures { result.now.text ≡ title_of self.now.registers.all which }
    {
        let lasting = &self.lasting;
        lasting.titles.title(which)
    }

    /// The format in which the page number is put into titles.
    pub fn page_format(&self) -> Format
        ensures { result ≡ self.now.registers.all.page_format }
    {
        self.lasting.registers.page_format()
    }

    /// An event as it is put back: a title that was read last is kept, and another may be read.
    pub fn keep_title_of(&mut self, event: PageEvent) -> PageEvent
        ensures event { result ≡ put_back event }
        ensures kept { self.new ≡ record self.old {
          registers = record self.old.registers {
            all = keeping (event ∷ []) self.old.registers.all;
          };
        } }
    {
        match event {
            PageEvent::Title(WhichTitle::Read) => {
                let lasting = &mut self.lasting;
                lasting.titles.keep_title();
                PageEvent::Title(WhichTitle::Kept)
            }
            event => event,
        }
    }
}
