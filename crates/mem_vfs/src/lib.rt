//! Files in memory, as a device that follows the disk model: what a read finds, and what a stop would leave.
//!
//! `file` is one file, `files` finds files by name, and `handles` keeps which are open and who locks them. `SureVfs` is
//! the device over them that never fails, and `MemVfs` one that fails at the calls that it is told to. `image` makes of
//! either the device that a stop would leave, as a `choice` names it.
#![tactic(auto)]

mod choice;
mod failing;
mod file;
mod files;
mod handles;
mod image;
mod space;
mod sure;

pub use choice::{Edge, Fill, ImageChoice};
pub use failing::{FailAt, MemVfs};
pub use sure::SureVfs;
