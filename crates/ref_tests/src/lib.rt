//! The tests of `ref_pages`, `ref_trees` and `ref_schema`. They stand in a crate of their own, since a crate with tests is
//! proved twice.
#![tactic(auto)]

#[cfg(test)]
mod chains;
#[cfg(test)]
mod databases;
#[cfg(test)]
mod paths;
#[cfg(test)]
mod spelled;
#[cfg(test)]
mod whole_pages;
