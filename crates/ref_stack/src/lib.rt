//! The plain, slow program of what the layers of a stack show of files in memory. Its contracts are the
//! definitions of `vfs_model`, and the tests of each layer compare with it.
#![tactic(auto)]

mod append;
mod chunk;
mod files;
mod front;
mod glob;
mod lengths;
mod mark;
mod open;
mod quota;
mod shown;
mod sums;
mod write;

pub use chunk::chunk_name;
pub use files::Shown;
pub use glob::matches;
pub use lengths::lengths_shown;
pub use mark::{mark_in, next_start, placed};
pub use open::{OpenFile, OpenFiles};
pub use quota::{Limits, group_of};
pub use shown::{is_bad, through};
pub use sums::{fails, sum_of, without_sums};
pub use write::{Passing, pass};
