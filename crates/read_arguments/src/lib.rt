//! Comments behind the arguments of control lines, taken together with the newlines that end both.
#![tactic(auto)]

mod comments;

pub use comments::take_comment;
