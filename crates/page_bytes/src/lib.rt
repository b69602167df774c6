//! Sinks, the bytes of lines and titles, and the block through which these are written to sinks.
//!
//! A line gives its bytes one after another or in pieces, and so does what a diversion keeps of it.
//! A sink takes bytes, and tells how often it failed. The block has room for a line or a title,
//! which goes to the sink in one piece; longer ones go piece by piece. A title is three parts on a
//! line (manual, section 14).
#![tactic(auto)]

mod block;
mod block_write;
mod diverted_bytes;
mod diverted_text;
mod diverted_title;
mod line_bytes;
mod message_sink;
mod page_fault;
mod sink;
mod title;
mod title_bytes;
mod title_part;

pub use block::{BLOCK, Block};
pub use block_write::{BlockWrite, StdWrite};
pub use diverted_bytes::{DivertedBytes, diverted_len};
pub use diverted_text::{DivertedText, diverted_text_len};
pub use diverted_title::diverted_title_len;
pub use line_bytes::{LineBytes, Piece};
pub use message_sink::{Bounded, MessageSink};
pub use page_fault::PageFault;
pub use sink::{ByteSink, SinkFault, WriteSink};
pub use title::{TitleLine, TitlePieces, width_of_title};
pub use title_part::{PAGE_NUMBER, TitlePiece};
