//! What follows of a removal, once what it writes is on its pages.

ghost use Rattle.tree_removed.specs.Removes.{ShrinkRemoves, ShrinkFits};
ghost use Rattle.tree_removed.specs.Keeps.{RemoveKeepsWhole};
ghost use Rattle.tree_removed.specs.Large.{RemoveMayBeLarge};

use db_format::header_in_front;
use tree_page::{front_apart, one_page, page_fits};

/// Where the sheets of a removal are on their pages, the row is taken out of the tree; or all is done but for the root, which has one child
/// left.
pub fn shrink_removes()
    ensures { ShrinkRemoves }
{
    one_page();
}

/// The sheets of a removal fit on their pages, and the pages that are lost are those of the tree.
pub fn shrink_fits()
    ensures { ShrinkFits }
{}

/// A removal that was done keeps pages whole: another tree stands in place of the old one, no page is lost, and there are no more pages than
/// before, or than those in use before and then and those that nothing named.
pub fn remove_keeps_whole()
    ensures { RemoveKeepsWhole }
{
    front_apart();
    header_in_front();
    one_page();
    page_fits();
}

/// Where a removal needs a page and none is free, one page more is within what nothing names, what is in use and what the trees
/// may need without the row.
pub fn remove_may_be_large()
    ensures { RemoveMayBeLarge }
{
    front_apart();
    one_page();
}
