//! What requests do, in code: the events of a line.
#![tactic(auto)]

mod requests;

pub use requests::{
    Changes, Given, Numbers, RequestFacts, Response, length_wanted, numbers_given, register_named,
    response, tab_stops,
};
