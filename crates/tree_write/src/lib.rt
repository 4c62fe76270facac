//! What a put does to the pages once its leaf is planned: pages are taken for the parts, level by level up to the root,
//! and all that is to be written is gathered and then written.
//!
//! After sqlite.org, "Database File Format", section 1.6.
#![tactic(auto)]

mod level;
mod path;
mod root;
mod write;

pub use path::climb;
pub use write::write_sheets;
