//! The pages of a database as they were read, and a draft over them: pages put and added, which can be taken back to a mark, thrown away,
//! or kept.
#![tactic(auto)]

mod draft;
mod slot;

pub use byte_base::Bytes;
pub use db_format::SpaceFault;
pub use draft::PageDraft;
pub use slot::ReadPage;
