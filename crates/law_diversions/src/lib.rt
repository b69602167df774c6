//! Diversions as laws over runs: facts about the definitions alone, as contracts of functions that
//! do nothing.
#![tactic(auto)]

pub mod diversion_laws;
