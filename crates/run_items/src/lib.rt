//! What each item of the input does: it is read, what it means is performed, and messages are told.
#![tactic(auto)]

pub mod halt;
mod interpreter;
pub mod report;

pub use interpreter::Interpreter;
