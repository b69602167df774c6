//! A whole run over its devices, from a source to its sinks, and what runs tell about each other.
#![tactic(auto)]

mod engine;
pub mod laws;
mod starting;
mod stepping;

pub use engine::Engine;
pub use run_model::{Start, Status, TooManyRegisters};
