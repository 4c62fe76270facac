//! Laws of runs that become shorter.

ghost use Rattle.tree_shrink.specs.Join.{InnerJoins};
ghost use Rattle.tree_shrink.specs.Level.{LessInstead, LeafLess, InnerStays, InnerLoses};
ghost use Rattle.tree_shrink.specs.Laws.{RunWidens, RunReplaced, ChildLeftOut, Joined, RowTakenOut};
ghost use Rattle.tree_shrink.specs.Root.{LessRootLeft, NoSibling, RootTakes, RootOverOne, RootEmpty, RootLeafLess};

/// A run stands within wider bounds too.
pub fn run_widens()
    ensures { RunWidens }
{}

/// A run within a longer one is replaced by another.
pub fn run_replaced()
    ensures { RunReplaced }
{}

/// A child is left out of a run.
pub fn child_left_out()
    ensures { ChildLeftOut }
{}

/// Two pages beside each other are one run of their children.
pub fn joined()
    ensures { Joined }
{}

/// A row is taken out of rows.
pub fn row_taken_out()
    ensures { RowTakenOut }
{}

/// What comes of a leaf.
pub fn leaf_less()
    ensures { LeafLess }
{}

/// An interior page whose child stays on its page.
pub fn inner_stays()
    ensures { InnerStays }
{}

/// An interior page whose child is gone.
pub fn inner_loses()
    ensures { InnerLoses }
{}

/// What is left on its page stands in place of it.
pub fn less_instead()
    ensures { LessInstead }
{}

/// An interior page over two pages whose children become one list.
pub fn inner_joins()
    ensures { InnerJoins }
{}

/// A root that has one child left.
pub fn less_root_left()
    ensures { LessRootLeft }
{}

/// A root without a cell over a page that has one child left.
pub fn no_sibling()
    ensures { NoSibling }
{}

/// A root takes what its child has.
pub fn root_takes()
    ensures { RootTakes }
{}

/// Page 1 stands over one child.
pub fn root_over_one()
    ensures { RootOverOne }
{}

/// A root below which nothing is left.
pub fn root_empty()
    ensures { RootEmpty }
{}

/// A root that is a leaf.
pub fn root_leaf_less()
    ensures { RootLeafLess }
{}
