//! Laws of whole pages over takes, gives and roots.

ghost use Rattle.tree_laws.specs.Whole.{WholeTakes, WholeGives, RootRemoved, PagesAddUp};

use page_list::{gives_keep, takes_keep};
use tree_page::front_apart;

/// Whole pages stay whole over takes, and nothing names the pages taken.
pub fn whole_takes()
    ensures { WholeTakes }
{
    front_apart();
    takes_keep();
}

/// Whole pages stay whole over gives of good pages that nothing names.
pub fn whole_gives()
    ensures { WholeGives }
{
    front_apart();
    gives_keep();
}

/// Whole pages stay whole where a root other than page 1 is left out.
pub fn root_removed()
    ensures { RootRemoved }
{}

/// The pages in use, the free ones and those that nothing names add up to the size.
pub fn pages_add_up()
    ensures { PagesAddUp }
{}
