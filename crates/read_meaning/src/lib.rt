//! What an item means where that isn't told by the name of its step: a message and events, as code
//! keeps them.
#![tactic(auto)]

mod events;
mod meaning;

pub use events::{RequestEvents, RequestedEvents, Stops};
pub use meaning::Meaning;
