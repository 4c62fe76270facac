//! What follows from the definitions of b-tree pages alone.

ghost use Rattle.tree_page.specs.Laws.{FitsWithout, FrontApart, PageFits};

/// The header of the database, the first 100 bytes of page 1, is no part of its b-tree page.
pub fn front_apart()
    ensures { FrontApart }
{}

/// A page as it is read fits as it is written.
pub fn page_fits()
    ensures { PageFits }
{}

/// Cells that fit still do with one of them left out.
pub fn fits_without()
    ensures { FitsWithout }
{}
