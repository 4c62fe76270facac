//! What journal_format is seen to do, by its public calls.
#![tactic(auto)]

#[cfg(test)]
mod journals;
#[cfg(test)]
mod patches;
