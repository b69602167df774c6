//! A run under way: its turns, and what is done behind events.
#![tactic(auto)]

mod running;

pub use running::Running;
