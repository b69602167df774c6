//! Names of lines, strings and macros: what they stand for, and the texts that they get; and what
//! is known of the run beside its registers.
#![tactic(auto)]

mod called;
mod definitions;
mod first;
mod given;
mod known;
mod texts;

pub use called::{begin_deciding, behind_called, called_by, whole_name};
pub use definitions::grow_definition;
pub use first::first_unread;
pub use given::{first_name, remove_names_given, short_name_at};
pub use known::facts;
pub use texts::{begin_string, empty_string, enter_string, first_bytes, grow_string};
