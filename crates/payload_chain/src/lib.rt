//! Overflow chains over a page space: the part of a payload that its cell does not keep is written to pages taken
//! from the freelist, read again, and given back.
//!
//! A chain is walked page by page, and the walk keeps the numbers that it met: so a loop in a damaged chain ends,
//! and the page that was met twice is named.
//!
//! After sqlite.org, "Database File Format", section 1.6.
#![tactic(auto)]

mod free;
mod laws;
mod read;
mod walk;
mod write;

pub use db_format::local_size;
pub use free::{chain_pages, free_chain, give_pages};
pub use laws::{chain_written, written_comes_back};
pub use read::read_chain;
pub use write::{take_pages, write_chain};
