//! Trees beside each other: what an interior page has below it, and what comes of a page that is cut.
#![tactic(auto)]

mod laws;

pub use laws::{
    edit_within, leaf_over, put_finds, root_over, root_under, run_over, run_stays, run_within,
    strict,
};
