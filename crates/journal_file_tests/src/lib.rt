//! The rollback journal over a device in memory. The tests stand in a crate of their own, since a crate with tests is proved twice.
#![tactic(auto)]

#[cfg(test)]
mod commits;
#[cfg(test)]
mod journals;
#[cfg(test)]
mod pages;
