//! The reference program of the shell: the reply that is due where the device does not fail, and the state
//! after it, over anything that keeps a book; and a whole run, from the bytes of its input to those of its text.
#![tactic(auto)]

mod judge;
mod levels;
mod machine;
mod same;
mod session;
mod shelf;

pub use machine::{Draft, Machine};
pub use session::run;
pub use shelf::Shelf;
