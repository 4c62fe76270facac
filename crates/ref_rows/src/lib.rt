//! How large rows are where they are stored, computed plainly from their values, for tests.
//!
//! After sqlite.org, "Database File Format", section 2.1, "Record Format".
#![tactic(auto)]

mod each_size;
mod size;

pub use each_size::{roots, roots_of_each_size};
pub use size::record_size;
