//! Page spaces, which are lists of pages, and the freelist in them: pages are taken from it and given to it.
//!
//! After sqlite.org, "Database File Format", section 1.5.
#![tactic(auto)]

mod head;
mod mem_space;
mod page;
mod pool;
mod space;
mod write;

pub use db_format::SpaceFault;
pub use mem_space::MemSpace;
pub use pool::{give_page, take_page};
pub use space::PageSpace;
pub use write::put_cleared;
