//! The model of the unread input, as `specs/` has it: what stands ahead of a source, what is half
//! read, the arguments of a line, and what calls on it take and show. In code: the items that they
//! answer.
#![tactic(auto)]

mod item;
mod looked;
mod place;

pub use item::{Item, Sight};
pub use looked::Looked;
pub use place::Place;
