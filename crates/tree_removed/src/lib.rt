//! What a removal makes of whole pages: laws.
#![tactic(auto)]

mod laws;

pub use laws::{remove_keeps_whole, remove_may_be_large, shrink_fits, shrink_removes};
