//! The tests of `db_format` and `tree_page`. They stand in a crate of their own, since a crate with tests is proved twice.
#![tactic(auto)]

#[cfg(test)]
mod headers;
#[cfg(test)]
mod lists;
#[cfg(test)]
mod local_sizes;
#[cfg(test)]
mod pages;
#[cfg(test)]
mod plain;
#[cfg(test)]
mod records;
#[cfg(test)]
mod table_texts;
#[cfg(test)]
mod varints;
