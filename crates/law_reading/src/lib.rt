//! The rules of reading as laws: facts about the definitions alone, as contracts of functions that
//! do nothing.
#![tactic(auto)]

pub mod call_laws;
pub mod condition_laws;
pub mod definition_laws;
pub mod end_laws;
pub mod interpolation_laws;
pub mod line_laws;
pub mod message_laws;
pub mod string_laws;
pub mod text_laws;
