//! What every storey shares: lists of bytes, the big-endian numbers in them, and when a count of faults has risen.
#![tactic(auto)]

mod bytes;
mod numbers;

pub use bytes::{ByteLists, Bytes};
pub use numbers::{put_u16, put_u32, u16_at, u32_at};
