//! A layer of a stack that keeps a checksum in each page of a database.
//!
//! After sqlite.org, "The Checksum VFS Shim". There the reserved bytes of the header say whether a database keeps sums, and
//! its writer leaves room for them; here each database of a stack with such a layer does, and its writer hands in zeros.
#![tactic(auto)]

mod database;
mod laws;
mod layer;
mod sums;

pub use laws::settled_above;
pub use layer::Cksum;
pub use sums::sum;
