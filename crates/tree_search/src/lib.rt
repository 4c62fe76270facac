//! Rows looked for in the trees of a page space, whatever its pages hold: the way down to a leaf, the row of a rowid, and
//! the next row.
//!
//! After sqlite.org, "Database File Format", section 1.6.
#![tactic(auto)]

mod next;
mod page;
mod path;
mod payload;
mod row;

pub use next::{next_from, next_on_leaf};
pub use page::{MOST_DEPTH, enter, page_buffer};
pub use path::{Descent, descend};
pub use payload::of_leaf;
pub use row::{OnLeaf, find, find_on_leaf};
