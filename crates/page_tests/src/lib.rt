//! The tests of `page_pool`, `payload_chain` and `tree_laws`. They stand in a crate of their own, since a crate with tests is
//! proved twice.
#![tactic(auto)]

#[cfg(test)]
mod chains;
#[cfg(test)]
mod freelists;
#[cfg(test)]
mod leaf_callers;
#[cfg(test)]
mod spaces;
