//! What a put makes of whole pages: laws.
#![tactic(auto)]

mod laws;

pub use laws::{climb_fits, climb_puts, path_steps, put_keeps_whole, put_may_be_large};
