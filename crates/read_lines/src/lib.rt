//! The reader, and what it reads of lines: texts, conditions, strings, calls and escapes.
#![tactic(auto)]

mod reader;

pub use reader::{CALL_ARGUMENTS, Reader};
