//! What pages mean: the rows of a tree, the pages that it names, whole pages, and looking for rows in pages of any
//! bytes. Here are the definitions and their laws; `ref_trees` computes them, for tests.
//!
//! After sqlite.org, "Database File Format", sections 1.2, 1.3, 1.5, 1.6 and 2.6.
#![tactic(auto)]

mod ends;
mod laws;
mod level;

pub use ends::{Fault, Next, PathEnd, WalkEnd};
pub use laws::{
    leaf_replaced, next_gives, one_next, one_path, one_tree, one_walk, one_witness, path_finds,
    root_added, rows_rise, tree_stays, walk_gives, whole_replaced, whole_stays,
};
pub use level::Level;
