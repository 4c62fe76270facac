//! One page on the way down a tree.

ghost use Rattle.std.specs.Prelude.{IfOk};
ghost use Rattle.ref_pages.specs.AsPages.{pages_of};
ghost use Rattle.ref_trees.specs.Entered.{IsEntered};

use db_format::FormatFault;
use ref_pages::RefPages;
use std::alloc::{AllocError, Global};
use tree_model::Fault;
use tree_page::{PageCells, read_page};

/// The cells of page `number`, whose number stands on page `above`, where a path may go over `left` more pages, this
/// one counted; or why it cannot go on.
pub fn cells_at(
    alloc: Global,
    pages: &RefPages,
    left: u32,
    above: u32,
    number: u32,
) -> Result<Result<PageCells, Fault>, AllocError>
    ensures { IfOk result (λ entered. IsEntered (pages_of pages.now) left above number entered) }
{
    let Some(bytes) = pages.bytes_of(number) else {
        return Ok(Err(Fault::Broken(above)));
    };
    if left == 0 {
        return Ok(Err(Fault::Broken(number)));
    }
    if pages.mark_of(number).is_some() {
        return Ok(Err(Fault::BadPage(number)));
    }
    match read_page(alloc, bytes, number, pages.usable()) {
        Ok(cells) => Ok(Ok(cells)),
        Err(FormatFault::Corrupt) => Ok(Err(Fault::Broken(number))),
        Err(FormatFault::Memory) => Err(AllocError),
    }
}
