//! Tables by name, in the pages of a database in SQLite's format: their rows found, scanned, counted, put and taken out.
//!
//! Only plain tables are read. All others, as SQL can make them, are foreign here. Names are compared without regard to the case of ASCII
//! letters. Each call first goes over the whole schema.
//!
//! After sqlite.org, "Database File Format", section 2.6, "Storage Of The SQL Database Schema".
#![tactic(auto)]

mod begin;
mod cookie;
mod creates;
mod drops;
mod entry;
mod fault;
mod fill;
mod listing;
mod reads;
mod schema;
mod writes;

pub use creates::create;
pub use db_format::{Create, PlainTable, Record, SpaceFault, TableEntry, TableList, Value};
pub use drops::drop_table;
pub use fault::TableFault;
pub use listing::list;
pub use page_pool::PageSpace;
pub use reads::{count, get, scan_next};
pub use writes::{put, remove};
