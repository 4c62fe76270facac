//! Numbers in pages.

ghost use Rattle.std.specs.Prelude.{◌≡◌, ◌≤◌};
ghost use Rattle.page_list.specs.Pages.{word};
ghost use Rattle.ref_pages.specs.AsPages.{pages_of};

use crate::pages::RefPages;
use byte_base::u32_at;

/// The big-endian number in the four bytes at a place of a page, 0 where there is no page of this number. Every page has
/// the places up to 476, since it has 480 bytes at least.
pub fn word_of(pages: &RefPages, number: u32, place: usize) -> u32
    requires { place ≤ 476 }
    ensures { result ≡ word (pages_of pages.now) number place }
{
    match pages.bytes_of(number) {
        Some(bytes) => u32_at(bytes, place),
        None => 0,
    }
}
