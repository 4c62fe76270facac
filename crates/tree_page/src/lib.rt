//! The pages of table b-trees: read as lists of cells, whatever their bytes are, and written from such lists.
//!
//! After sqlite.org, "Database File Format", section 1.6.
#![tactic(auto)]

mod cell;
mod laws;
mod marks;
mod put;
mod read;
mod room;
mod write;

pub use cell::{InnerCell, InnerCells, LeafCell, LeafCells, PageCells};
pub use laws::{fits_without, front_apart, page_fits};
pub use read::{one_page, read_page};
pub use room::{fits, space_at};
pub use write::write_page;
