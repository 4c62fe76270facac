//! The way of a search through an interior page.

use tree_page::InnerCells;

/// An interior page on the path of a search, and where the path leaves it.
#[derive(Debug, Drop)]
pub struct Level {
    /// The number of the page.
    pub number: u32,
    /// Its cells.
    pub cells: InnerCells,
    /// Its right-most child.
    pub right: u32,
    /// The cell whose child the path took, or, for the right-most child, the number of cells.
    pub at: usize,
}
