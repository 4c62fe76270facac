//! A tree given back to the freelist, with the chains of its rows.
//!
//! After sqlite.org, "Database File Format", sections 1.5 and 1.6.
#![tactic(auto)]

mod collect;
mod free;
#[cfg(test)]
mod tests;

pub use free::free_all;
