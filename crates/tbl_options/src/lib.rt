//! What the options of a table say, and the messages about tables (Lesk, "Tbl - A Program to Format
//! Tables").
#![tactic(auto)]

pub mod message;
pub mod notes;
mod option_set;
pub mod option_words;
pub mod options;
