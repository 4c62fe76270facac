//! What follows from the definitions alone.

ghost use Rattle.tree_run.specs.Edit.{PutFinds, EditWithin};
ghost use Rattle.tree_run.specs.Laws.{Strict, RunWithin, RunStays, RunOver, LeafOver, RootOver, RootUnder};

/// A child has a row, so its bounds are apart.
pub fn strict()
    ensures { Strict }
{}

/// A run within a longer one.
pub fn run_within()
    ensures { RunWithin }
{}

/// A run stays where its pages do.
pub fn run_stays()
    ensures { RunStays }
{}

/// An interior page is one over a run.
pub fn run_over()
    ensures { RunOver }
{}

/// A leaf has its rows, which may be cut anywhere.
pub fn leaf_over()
    ensures { LeafOver }
{}

/// A row that is put among rows is found there, and every other row as before.
pub fn put_finds()
    ensures { PutFinds }
{}

/// What is done to a run within a longer one is done to that.
pub fn edit_within()
    ensures { EditWithin }
{}

/// A run becomes a whole tree where its root stands over it.
pub fn root_over()
    ensures { RootOver }
{}

/// The root of a whole tree that is no leaf stands over a run.
pub fn root_under()
    ensures { RootUnder }
{}
