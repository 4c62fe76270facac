//! Whether a database is whole by its schema, computed plainly: the schema says which trees there are, and each row is
//! a record. Only tests stand on it.
//!
//! After sqlite.org, "Database File Format", section 2.6.
#![tactic(auto)]

mod records;
mod tables;
mod whole;

pub use records::records_of;
pub use tables::{RefTable, table_of};
pub use whole::{LacksDatabase, is_whole};
