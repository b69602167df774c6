//! Laws of lines with escapes that are read as texts, of titles, and of the words around a macro
//! that springs: facts about the definitions alone, as contracts of functions that do nothing.
#![tactic(auto)]

pub mod call_laws;
pub mod definition_laws;
pub mod footer_laws;
pub mod message_laws;
pub mod name_laws;
pub mod string_laws;
pub mod title_laws;
