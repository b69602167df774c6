//! The program `roff`: a run of a command, and what the program does.
#![tactic(auto)]

mod exit;
mod fault;
mod in_memory;
mod job;
mod program;
mod telling;
mod words;

pub use cli_devices::{MemSink, MemSource};
pub use cli_words::laws;
pub use fault::StartFault;
pub use in_memory::{
    Formatted, Room, format_in_memory, format_tables_in_memory, lay_tables_in_memory,
};
pub use job::{Job, run};
pub use page_bytes::{BlockWrite, Bounded, ByteSink, MessageSink, SinkFault, StdWrite, WriteSink};
pub use program::{Finished, main_with};
pub use roff_engine::{Engine, Start, Status};
pub use roff_num::{Limit, Limits};
pub use roff_scan::{ByteSource, Note, ReadSource, Taken};
pub use tbl_core::TblLimits;
pub use words::Words;
