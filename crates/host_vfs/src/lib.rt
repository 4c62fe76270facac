//! The files of one folder of the system, as a stack without layers that tells no content.
//!
//! `folder` makes the calls of std, each on a file that it opens anew, and `faults` counts what they are refused;
//! `handles` keeps which files are open and who locks them; `host` is the device over these.
#![tactic(auto)]

mod faults;
mod folder;
mod handles;
mod host;
#[cfg(test)]
mod tests;

pub use host::HostVfs;
