//! A layer of a stack that keeps the last calls made of it.
#![tactic(auto)]

mod layer;
mod outcomes;
mod recorder;
#[cfg(test)]
mod tests;
mod texts;

pub use layer::Trace;
pub use texts::lines_of;
