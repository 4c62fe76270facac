//! What a list of pages holds beside its trees: the freelist and the overflow chains. The definitions are in
//! `specs/`; every crate above that speaks of pages cites them.
//!
//! After sqlite.org, "Database File Format", sections 1.5 and 1.6.
#![tactic(auto)]

mod laws;

pub use laws::{
    chain_stays, freelist_stays, give_keeps, gives_keep, not_damaged, one_chain, one_end,
    one_freelist, take_keeps, taken_good, takes_keep,
};
