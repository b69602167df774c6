//! Devices: the files that are read one after another as one input, and sources and sinks in
//! memory.
#![tactic(auto)]

mod buffered;
mod inputs;
mod memory;
mod watched;

pub use buffered::Buffered;
pub use inputs::{Inputs, Part, Readers};
pub use memory::{MemSink, MemSource};
pub use watched::WatchedSink;
