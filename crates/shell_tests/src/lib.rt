//! What the shell is seen to do: lines read and replies written, and whole runs, each the lines of an input and the text that they are
//! answered.
#![tactic(auto)]

#[cfg(test)]
mod judged;
#[cfg(test)]
mod large;
#[cfg(test)]
mod lines;
#[cfg(test)]
mod runs;
#[cfg(test)]
mod starts;
