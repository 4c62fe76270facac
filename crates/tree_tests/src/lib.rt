//! The tests of `rowid_tree` and `tree_free`, by the slow program of `ref_trees`.
#![tactic(auto)]

#[cfg(test)]
mod free;
#[cfg(test)]
mod puts;
#[cfg(test)]
mod removes;
