//! The language of the shell: what a line asks for, what it is answered, and the two ends of a run.
#![tactic(auto)]

mod command;
mod ends;
mod list_ends;
mod read;
mod reply;
mod words;
mod write;

pub use command::{Command, Db, TableName};
pub use ends::{ReadFailed, Sink, SinkFault, Source, SureSink, SureSource};
pub use list_ends::{ListSink, ListSource};
pub use read::{LineFault, one_command, read_command};
pub use reply::{ErrorWord, Reply, RowList, ScanEnd};
pub use write::{lines_have_no_feed, one_cut, write_reply};
