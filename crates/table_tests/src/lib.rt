//! The tests of `table_store`, in a crate of their own above it: a crate with tests is proved twice.
#![tactic(auto)]

#[cfg(test)]
mod tables;
#[cfg(test)]
mod tall;
