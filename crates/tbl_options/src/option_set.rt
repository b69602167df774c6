//! What an option sets.

ghost use Rattle.std.specs.Prelude.{◌≡◌, true};
ghost use Rattle.tbl_options.specs.Options.{framed, with_set};

use crate::options::{Boxing, Options, TableOption};

impl Options {
    /// Boxed so.
    fn with_boxing(self, boxing: Boxing) -> Options
        ensures { result ≡ record self { boxing = boxing } }
    {
        Options {
            separator: self.separator,
            centered: self.centered,
            expanded: self.expanded,
            boxing,
        }
    }

    /// What an option sets is set.
    pub(crate) fn with_set(self, option: TableOption) -> Options
        ensures { result ≡ with_set option self }
    {
        match option {
            TableOption::Separator(separator) => Options {
                separator,
                centered: self.centered,
                expanded: self.expanded,
                boxing: self.boxing,
            },
            TableOption::Center => Options {
                separator: self.separator,
                centered: true,
                expanded: self.expanded,
                boxing: self.boxing,
            },
            TableOption::Expand => Options {
                separator: self.separator,
                centered: self.centered,
                expanded: true,
                boxing: self.boxing,
            },
            TableOption::Box => self.with_boxing(self.boxing.framed(1)),
            TableOption::AllBox => self.with_boxing(self.boxing.framed(1).all_inside()),
            TableOption::DoubleBox => self.with_boxing(self.boxing.framed(2)),
            TableOption::WithoutEffect => self,
            TableOption::Unknown => self,
        }
    }
}

impl Boxing {
    /// Not at all.
    pub const NOTHING: Boxing = Boxing {
        bars: 0,
        is_inside: false,
    };

    /// With so many bars at its edges, at least.
    fn framed(self, bars: u8) -> Boxing
        ensures { result ≡ framed bars self }
    {
        Boxing {
            bars: self.bars.max(bars),
            is_inside: self.is_inside,
        }
    }

    /// With each field boxed.
    fn all_inside(self) -> Boxing
        ensures { result ≡ record self { is_inside = true } }
    {
        Boxing {
            bars: self.bars,
            is_inside: true,
        }
    }
}
