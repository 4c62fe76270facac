//! A row taken out of a tree in a page space: pages that lose all that they had are given back, and pages that lose all
//! children but one are joined with a page beside them.
//!
//! After sqlite.org, "Database File Format", section 1.6.
#![tactic(auto)]

mod beside;
mod removal;
mod root;
mod upward;

pub use removal::remove;
