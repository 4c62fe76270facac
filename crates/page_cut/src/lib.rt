//! The cells of a page that overflows, cut into parts that fit.
#![tactic(auto)]

mod laws;
mod parts;

pub use laws::one_cell;
pub use parts::{Sheet, Sheets, cut};
