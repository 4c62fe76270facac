//! What follows of a put, once its parts are on their pages.

ghost use Rattle.tree_put.specs.Way.{PathSteps};
ghost use Rattle.tree_put.specs.Puts.{ClimbFits, ClimbPuts};
ghost use Rattle.tree_put.specs.Keeps.{PutKeepsWhole};
ghost use Rattle.tree_put.specs.Large.{PutMayBeLarge};

use db_format::header_in_front;
use tree_page::{front_apart, one_page};

/// In a whole tree a search has a way: the rows of the leaf that it ends in, and at each interior page the trees beside the
/// child that it took. All pages that hold this tree hold what stands along it.
pub fn path_steps()
    ensures { PathSteps }
{
    one_page();
}

/// Where the sheets of a put are on their pages, a whole tree stands from the root, with the row put among its rows.
pub fn climb_puts()
    ensures { ClimbPuts }
{
    one_page();
}

/// The sheets of a put fit on their pages, and no two are for one page.
pub fn climb_fits()
    ensures { ClimbFits }
{}

/// A put that was done keeps pages whole: another tree stands in place of the old one, no page is lost, and there are no
/// more pages than before, or than those in use before and then and those that nothing named.
pub fn put_keeps_whole()
    ensures { PutKeepsWhole }
{
    front_apart();
    header_in_front();
    one_page();
}

/// Where a put needs a page and none is free, one page more is within what nothing names, what is in use and what the trees
/// may need with the row.
pub fn put_may_be_large()
    ensures { PutMayBeLarge }
{
    front_apart();
    one_page();
}
