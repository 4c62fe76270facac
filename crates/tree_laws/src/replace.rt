//! Laws of whole pages in which one tree becomes another.

ghost use Rattle.tree_laws.specs.Replace.{TreeReplaced, Widens, TopMoved, UseWithinNeed, DeepTooLarge};

use db_format::header_in_front;
use tree_page::one_page;

/// Whole pages stay whole where one tree becomes any other whole tree from its root, on pages of its own or unnamed ones.
pub fn tree_replaced()
    ensures { TreeReplaced }
{
    header_in_front();
}

/// A tree within bounds is within wider ones.
pub fn widens()
    ensures { Widens }
{}

/// A page takes over what the top of a tree held.
pub fn top_moved()
    ensures { TopMoved }
{}

/// Whole pages use no more than they may need.
pub fn use_within_need()
    ensures { UseWithinNeed }
{}

/// A tree of the greatest depth has so many pages that its root has few cells, and never has to be cut.
pub fn deep_is_large()
    ensures { DeepTooLarge }
{
    one_page();
}
