//! What comes of the trees within an interior page when a row below it is taken out: a tree goes, two pages become one, and the
//! rest stands as before.
//!
//! After sqlite.org, "Database File Format", section 1.6.
#![tactic(auto)]

mod laws;

pub use laws::{
    child_left_out, inner_joins, inner_loses, inner_stays, joined, leaf_less, less_instead,
    less_root_left, no_sibling, root_empty, root_leaf_less, root_over_one, root_takes,
    row_taken_out, run_replaced, run_widens,
};
