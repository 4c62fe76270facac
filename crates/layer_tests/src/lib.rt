//! The tests of devices, of layers over them, and of the slow program of stacks. They stand in a crate of their own, since a crate with tests is proved twice.
#![tactic(auto)]

#[cfg(test)]
mod cksum;
#[cfg(test)]
mod devices;
#[cfg(test)]
mod faults;
#[cfg(test)]
mod opened;
#[cfg(test)]
mod stacks;
