//! What the book of a database is after a change of its trees: a row put or taken out, a table made or dropped. Here are laws alone.
//!
//! After sqlite.org, "Database File Format", section 2.6, "Storage Of The SQL Database Schema".
#![tactic(auto)]

mod rows;
mod tables;

pub use rows::{large_put, large_removal, row_put, row_removed};
pub use tables::{
    first_page, first_table, large_drop, large_entry, large_root, table_dropped, table_made,
    tables_are_found,
};
