//! Laws over whole runs, their messages, pages, registers, environments, traps, macros that spring
//! and the table of requests: facts about the definitions alone, as contracts of functions that do
//! nothing.
#![tactic(auto)]

pub mod bounded_messages;
pub mod environment_laws;
pub mod laws;
pub mod page_laws;
pub mod register_laws;
pub mod request_laws;
pub mod spring_laws;
pub mod trap_laws;
