//! Laws of page 1.

ghost use Rattle.tree_laws.specs.Front.{HeaderStays, HeaderSize, WholeFront, FrontKept};

use page_list::{gives_keep, takes_keep};
use tree_page::front_apart;

/// The header is accepted as before where only its counter, size, freelist, cookie and version change.
pub fn header_stays()
    ensures { HeaderStays }
{}

/// The page size that the header says is that of the pages.
pub fn header_size()
    ensures { HeaderSize }
{}

/// Whole pages stay whole, with the same trees, where page 1 changes in these fields alone and the freelist becomes another.
pub fn whole_front()
    ensures { WholeFront }
{
    front_apart();
}

/// Takes and gives change no more of the header than the first trunk and the count of free pages, so it says the same change
/// counter, schema cookie and page size.
pub fn front_kept()
    ensures { FrontKept }
{
    takes_keep();
    gives_keep();
}
