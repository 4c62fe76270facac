//! One page on the way down a tree.

ghost use Rattle.std.specs.Prelude.{◌≡◌, ◌≤◌, ◌↔◌, length, IsTrue, IfOk, IfErr, OnOk};
ghost use Rattle.page_list.specs.Pages.{HasPage};
ghost use Rattle.page_pool.specs.Space.{IsReady, HasSizes, Steady, Stays};
ghost use Rattle.tree_page.specs.Written.{Fits};
ghost use Rattle.tree_model.specs.Held.{HasCells};
ghost use Rattle.tree_model.specs.Walk.{IsFault};
ghost use Rattle.tree_search.specs.Search.{SearchRefused};

use db_format::FormatFault;
use page_pool::{PageSpace, SpaceFault};
use std::alloc::Global;
use tree_page::{PageCells, page_fits, read_page};

/// The most pages from a root to a leaf, both counted.
pub const MOST_DEPTH: u32 = 20;

/// A buffer of one page, of zeros.
pub fn page_buffer<S: PageSpace>(alloc: Global, space: &S) -> Result<Vec<u8>, SpaceFault>
    requires ready { IsReady (S.state space.now) }
    ensures sizes { HasSizes (S.state space.now) }
    ensures one_page { IfOk result (λ page. length page.items ≡ (S.state space.now).page_size) }
    ensures cause { IfErr result (λ fault. fault ≡ SpaceFault.Memory) }
{
    Ok(vec![in alloc; 0u8; space.page_size() as usize]?)
}

/// The cells of page `number`, whose number stands on page `above`, where a path may go over `left` more pages, this one
/// counted. The page is read into a buffer of one page.
///
/// Refused as `get` is, and with `Corrupt` of `above` where there is no such page, else of the page where it lies too deep or
/// is no page of a tree.
pub fn enter<S: PageSpace>(
    alloc: Global,
    space: &mut S,
    buffer: &mut [u8],
    left: u32,
    above: u32,
    number: u32,
) -> Result<PageCells, SpaceFault>
    requires ready { IsReady (S.state space.old) }
    requires one_page { length buffer.old ≡ (S.state space.old).page_size }
    ensures steady { Steady (S.state space.old) (S.state space.new) }
    ensures stays { Stays (S.state space.old) (S.state space.new) }
    ensures within { OnOk result (1 ≤ left) }
    ensures there { OnOk result (HasPage (S.state space.old).pages number) }
    ensures fits { IfOk result (λ cells. Fits cells number (S.state space.old).pages.usable) }
    ensures found { IsTrue (S.state space.old).tells → IfOk result (HasCells (S.state space.old).pages number) }
    ensures refused { IfErr result (SearchRefused (S.state space.old) (S.state space.new) (IsFault (S.state space.old).pages left above number)) }
{
    page_fits();
    if !has_page(space, number) {
        return Err(SpaceFault::Corrupt { page: above });
    }
    if left == 0 {
        return Err(SpaceFault::Corrupt { page: number });
    }
    space.get(number, buffer)?;
    match read_page(alloc, buffer, number, space.usable()) {
        Ok(cells) => Ok(cells),
        Err(FormatFault::Corrupt) => Err(SpaceFault::Corrupt { page: number }),
        Err(FormatFault::Memory) => Err(SpaceFault::Memory),
    }
}

/// Whether there is a page of this number.
pub(crate) fn has_page<S: PageSpace>(space: &S, number: u32) -> bool
    requires ready { IsReady (S.state space.now) }
    ensures sizes { HasSizes (S.state space.now) }
    ensures is { IsTrue result ↔ HasPage (S.state space.now).pages number }
{
    let last = space.size();
    1 <= number && number <= last
}
