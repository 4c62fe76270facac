//! What follows from the definitions of trees and whole pages alone: laws that every crate above may use.

ghost use Rattle.tree_model.specs.Laws.{OneTree, TreeStays, RowsRise, OnePath, PathFinds, OneWalk, WalkGives, OneNext, NextGives, WholeStays, RootAdded, LeafReplaced, WholeReplaced, OneWitness};

use db_format::{header_in_front, one_create, one_record};
use page_list::{one_chain, one_end, one_freelist};
use tree_page::one_page;

/// Pages hold one tree from a root at most.
pub fn one_tree()
    ensures { OneTree }
{
    one_page();
    one_chain();
}

/// A tree depends on no page that it does not name.
pub fn tree_stays()
    ensures { TreeStays }
{}

/// The rowids of a whole tree rise.
pub fn rows_rise()
    ensures { RowsRise }
{}

/// A path ends in one way, whatever the pages hold.
pub fn one_path()
    ensures { OnePath }
{
    one_page();
    one_chain();
    one_end();
}

/// The path to a rowid in a whole tree finds just its row, or none, where all its payloads are accepted.
pub fn path_finds()
    ensures { PathFinds }
{}

/// A walk gives one list of rows and ends in one way, whatever the pages hold.
pub fn one_walk()
    ensures { OneWalk }
{
    one_page();
    one_chain();
    one_end();
}

/// A walk over a range of rowids of a whole tree gives just its rows in it, where all its payloads are accepted.
pub fn walk_gives()
    ensures { WalkGives }
{}

/// The search for the next row meets one thing, whatever the pages hold, and a cell has one payload, or a fault.
pub fn one_next()
    ensures { OneNext }
{
    one_page();
    one_chain();
    one_end();
}

/// The search for the next row in a whole tree meets the first row from its key on.
pub fn next_gives()
    ensures { NextGives }
{}

/// Whole pages stay whole, with the same trees and the same freelist, where no named page changes, and where they grow.
pub fn whole_stays()
    ensures { WholeStays }
{}

/// A page that nothing named becomes the empty root of a tree more, and nothing else changes.
pub fn root_added()
    ensures { RootAdded }
{}

/// A whole tree stays whole where the rows of one leaf are replaced within its separators, and changes by just these
/// rows and their chains.
pub fn leaf_replaced()
    ensures { LeafReplaced }
{}

/// Where this happens to one of the trees of whole pages, they stay whole: all other trees and the freelist stay.
pub fn whole_replaced()
    ensures { WholeReplaced }
{
    header_in_front();
}

/// A whole database is so in one way.
pub fn one_witness()
    ensures { OneWitness }
{
    one_page();
    one_chain();
    one_freelist();
    one_record();
    one_create();
}
