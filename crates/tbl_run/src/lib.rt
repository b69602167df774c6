//! A run of the command `tbl`, from a source to its sinks.
#![tactic(auto)]

pub mod laws;
mod run;

pub use run::put_tables;
