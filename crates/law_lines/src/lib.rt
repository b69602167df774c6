//! Lines as laws over histories: facts about the definitions alone, as contracts of functions that
//! do nothing.
#![tactic(auto)]

pub mod laws;
