//! The file interface of a stack of VFS layers: what each call asks, what it answers, and what stands
//! after each answer, now and after a stop. Every base and every layer implements it, and so does a box of one.
//!
//! After sqlite.org, "The SQLite OS Interface or VFS", with words in place of its result codes.
#![tactic(auto)]

mod control;
mod fault;
mod laws;
mod log;
mod vfs;

pub use byte_base::{ByteLists, Bytes};
pub use control::{Answer, Control, TotalList, TraceList};
pub use fault::{OpenFault, VfsFault};
pub use laws::{checked_once, kept_twice, never_wild, none_wild, rose_in_two, separate_is_free};
pub use log::{Call, Entry, Outcome};
pub use vfs::Vfs;
