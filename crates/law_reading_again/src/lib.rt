//! The law of reading again: what a diversion set aside comes back line for line. It stands as
//! contracts of functions that do nothing.
#![tactic(auto)]

pub mod laws;
