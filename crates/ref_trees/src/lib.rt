//! The definitions of `tree_model`, computed slowly over the pages in memory of `ref_pages`: each contract here is that
//! the answer is the definition. Only tests stand on it, as the judge of what the fast crates do.
//!
//! After sqlite.org, "Database File Format", sections 1.2, 1.3, 1.5 and 1.6.
#![tactic(auto)]

mod enter;
mod gather;
mod header;
mod need;
mod path;
mod row;
mod rows;
mod tree;
mod tree_rows;
mod walk;
mod whole;

pub use enter::cells_at;
pub use need::{chain_pages, named_of, need_of, use_of};
pub use path::path_of;
pub use ref_pages::{RefPage, RefPages};
pub use rows::Rows;
pub use tree::rows_of;
pub use tree_rows::RefRow;
pub use walk::{Walked, walk_of};
pub use whole::{Lacks, is_whole_for};
