//! The rollback journal as bytes: what the whole bytes of a journal stand for, and how a journal is written.
//!
//! After sqlite.org, "Database File Format", section 3, "The Rollback Journal".
#![tactic(auto)]

mod fault;
mod laws;
mod pages;
mod read;
mod write;

pub use fault::JournalFault;
pub use laws::{
    asked, closed_is_cold, few_records, one_played, pages_cover, read_back, same_laid,
    short_is_cold,
};
pub use pages::{NumberedPage, PageList};
pub use read::{Hot, Play, read_hot};
pub use write::{JournalPlan, journal_bytes};
