//! What is to become of the texts of diversions behind an event.

use roff_num::{Num, ShortName};
use run_model::WhichTitle;

/// What is to become of the texts of diversions.
#[derive(Clone, Copy)]
pub enum DueText {
    /// Nothing.
    Nothing,
    /// A text begins.
    Begins,
    /// The text of this number ends: it is a name's from now on, or is put behind what the name
    /// has.
    Ends {
        /// Its number: the outermost open diversion has the text of number 0.
        index: usize,
        /// The name.
        name: ShortName,
        /// Whether it is put behind what the name has.
        appends: bool,
    },
    /// All are dropped.
    Drops,
    /// The line that was finished last, laid out so, and so many blank lines are put behind the
    /// innermost.
    Line {
        /// So many columns stand in front of the line's text.
        lead: u64,
        /// So many columns are shared out among its gaps.
        spare: u64,
        /// So many gaps it has.
        gaps: u64,
        /// So many blank lines follow.
        blank_lines: u64,
    },
    /// A title is.
    Title {
        /// Which one.
        which: WhichTitle,
        /// The number of the page on which it was placed.
        number: Num,
        /// Its length in columns.
        length: u32,
    },
    /// So many blank lines are.
    BlankLines(u64),
}

/// What is due behind an event: what becomes of a text, and then the macro that it sprang, if it
/// sprang one.
#[derive(Clone, Copy)]
pub struct Due {
    /// What becomes of a text.
    pub text: DueText,
    /// The macro.
    pub sprung: Option<ShortName>,
}

impl Due {
    /// Nothing is due.
    pub(crate) fn nothing() -> Due {
        Due {
            text: DueText::Nothing,
            sprung: None,
        }
    }
}
