//! The command line: what its words ask for, and the texts of help.
#![tactic(auto)]

mod command;
pub mod laws;
mod options;
mod pages;
mod preparing;
mod registers;
mod request;
mod texts;
mod words;

pub use command::STANDARD_INPUT;
pub use pages::{Pages, StartPages};
pub use preparing::prepare_words;
pub use registers::{Registers, StartRegisters};
pub use request::{Asked, Request};
pub use words::parse_words;
