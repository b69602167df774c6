//! Sources of bytes, and what the bytes of a document are.
#![tactic(auto)]

mod block_read;
mod bytes;
mod source;

pub use block_read::{BlockRead, Given, StdRead};
pub use bytes::{
    at_most, is_argument_byte, is_dropped, is_silent, newlines_among, passed_len, text_in_front,
};
pub use source::{ByteSource, Note, ReadSource, Taken};
