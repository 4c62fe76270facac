//! The plan of one page of a tree that loses a child, or is joined with the page beside it. No page space, and no refusal
//! but want of memory.
//!
//! After sqlite.org, "Database File Format", section 1.6.
#![tactic(auto)]

mod leaf;
mod level;
mod pair;
mod rise;

pub use leaf::{Taken, take_out};
pub use level::{Left, leave_out, left_of_leaf, sibling, taken_child};
pub use pair::{JoinPlan, join};
