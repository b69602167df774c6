//! What a run of the formatter keeps under names: the number registers (manual, section 8), and
//! strings, macros and diversions (section 7).
//!
//! All memory is reserved as a table or a store is made; no call after that takes any.
#![tactic(auto)]

mod chunks;
pub mod laws;
mod lease_table;
mod name_table;
mod reg_table;
mod register;
mod strand;
mod text;
pub mod text_laws;
pub mod text_rows;
mod text_store;

pub use reg_table::RegTable;
pub use register::Register;
pub use text::{BodyEnd, Entry, Kind, LeaseId, Leased, OpenId};
pub use text_store::TextStore;
