//! A book kept in memory, in plain sorted lists: what `ref_shell` runs over in tests. It is slow and plain; a change copies the whole
//! book.
#![tactic(auto)]

mod entries;
mod foreign;
mod load;
mod names;
mod need;
mod row;
mod schema;
mod shelf;
mod sorted;
mod table;
mod twin;

pub use shelf::MapShelf;
