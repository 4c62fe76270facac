//! The rows of a table in a page space, as records: the row of a rowid, the next row, all rows between two rowids, and how many
//! there are. Whatever the pages hold, a row that is no record with few enough values is a fault of its leaf.
//!
//! After sqlite.org, "Database File Format", sections 1.6 and 2.1.
#![tactic(auto)]

mod find;
mod next;
mod read;
mod walks;

pub use find::find_record;
pub use next::next_record;
pub use walks::{count_rows, walk};
