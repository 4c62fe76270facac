//! Pages that stand in memory, and beside them the plain, slow program of the definitions of `page_list`: an overflow
//! chain gone over page by page, and the freelist trunk by trunk. Its contracts are these definitions, and the crates
//! above compare with it.
//!
//! After sqlite.org, "Database File Format", sections 1.2, 1.5 and 1.6.
#![tactic(auto)]

mod chain;
mod different;
mod freelist;
mod numbers;
mod pages;
mod words;

pub use chain::{ChainEnd, chain_of, needed};
pub use different::{first_twice, times};
pub use freelist::{RefTrunk, freelist_of};
pub use numbers::PageNumbers;
pub use pages::{RefPage, RefPages};
pub use words::word_of;
