//! What a run composes: the three environments, in which lines are filled, with the pages on which
//! they are placed; and the texts of titles.
#![tactic(auto)]

mod composer;
mod conditions;
mod due_text;
mod environments;
mod places;
mod title_text;

pub use composer::Composer;
pub use conditions::is_so;
pub use due_text::{Due, DueText};
pub use environments::{Environment, Environments, Left};
pub use places::{at_start, on_line};
pub use title_text::TitleText;
