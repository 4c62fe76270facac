//! What follows from sizes alone.

ghost use Rattle.page_cut.specs.Room.{OneCell};

/// Any one cell of a leaf fits on a page, page 1 aside, and an interior cell is small.
pub fn one_cell()
    ensures { OneCell }
{}
