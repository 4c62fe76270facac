//! Trees of rows by rowid in a page space: a new root, a row put, a row taken out, a row found, the next row, and a tree given back.
//!
//! After sqlite.org, "Database File Format", section 1.6, "B-tree Pages".
#![tactic(auto)]

mod cell;
mod place;
mod puts;
mod removes;
mod root;

pub use page_pool::{MemSpace, PageSpace, SpaceFault};
pub use puts::put;
pub use removes::remove;
pub use root::make_root;
pub use tree_free::free_all;
pub use tree_search::{find, next_from};
