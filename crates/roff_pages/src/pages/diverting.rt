//! Opening and ending diversions (manual, section 7.3).

ghost use Rattle.std.specs.Prelude.{◌≡◌, ◌+◌, ◌≤◌, length, OnOk, IfErr};
ghost use Rattle.page_model.specs.declared.layout_event.LayoutEvent.TheVariants.{Close, Divert};
ghost use Rattle.page_model.specs.declared.layout_event.LayoutEvent.TheVariants.{EndDivert};
ghost use Rattle.page_model.specs.Happenings.{Does, trapping};
ghost use Rattle.roff_num.specs.declared.limit.Limit.TheVariants.{Diversions};

use super::Pages;
use crate::open_diversion::OpenDiversion;
use page_model::Trap;
use roff_num::{Limit, ShortName};

impl Pages {
    ghost use Rattle.roff_pages.specs.Pages.Stands.{Happens};

    /// Opens a diversion under this name, within the one that is open. It may be meant to append.
    ///
    /// # Errors
    ///
    /// [`Limit::Diversions`] if more were open than may be.
    pub fn divert(&mut self, name: ShortName, appends: bool) -> Result<(), Limit>
        ensures ok { OnOk result (Happens (Does (Divert name appends)) self.old self.new) }
        ensures within { OnOk result
            (length self.old.diversions + 1 ≤ self.old.most_diversions) }
        ensures limit { IfErr result (λ l. l ≡ Diversions) }
        ensures same { IfErr result (λ l. self.new ≡ self.old) }
        ensures full { IfErr result
            (λ l. self.old.most_diversions ≤ length self.old.diversions) }
    {
        let most = self.most_diversions as usize;
        match self.innermost {
            Some(diversion) => {
                if self.outer.len() + 1 >= most {
                    return Err(Limit::Diversions);
                }
                self.outer.push(diversion).unwrap();
            }
            None => {
                if most == 0 {
                    return Err(Limit::Diversions);
                }
            }
        }
        self.innermost = Some(OpenDiversion {
            name,
            appends,
            height: 0,
            width: 0,
            trap: None,
            no_space: false,
        });
        Ok(())
    }

    /// Ends the innermost open diversion, if there is one: its height and width are told from now
    /// on.
    pub fn end_divert(&mut self)
        ensures { Happens (Does EndDivert) self.old self.new }
    {
        match self.innermost {
            Some(diversion) => {
                self.height = diversion.height;
                self.width = diversion.width;
                self.innermost = self.outer.pop();
            }
            None => {}
        }
    }

    /// Sets the trap of the innermost open diversion, or removes it; on a page it does nothing. A
    /// trap at or above the present place isn't sprung.
    pub fn diversion_trap(&mut self, trap: Option<Trap>)
        ensures { Happens (Does (trapping trap)) self.old self.new }
    {
        match self.innermost {
            Some(mut diversion) => {
                diversion.trap = trap;
                self.innermost = Some(diversion);
            }
            None => {}
        }
    }

    /// Begins the closing phase: open diversions are dropped, and no page begins any more by
    /// itself.
    pub fn close(&mut self)
        ensures { Happens (Does Close) self.old self.new }
    {
        self.innermost = None;
        self.outer.clear();
        self.is_closing = true;
    }
}
