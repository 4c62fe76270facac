//! The path from a root to the row of a rowid.

ghost use Rattle.std.specs.Prelude.{◌≡◌, ◌≤◌, ◌<◌, length, IfOk, option_copied};
ghost use Rattle.std.specs.List.{AllByRecursion};
ghost use Rattle.tree_model.specs.Walk.{Path, AtKey, first_from, child_for};
ghost use Rattle.ref_pages.specs.AsPages.{pages_of};
ghost use Rattle.ref_trees.specs.Steps.{IsKept, Leads};

use crate::enter::cells_at;
use crate::row::payload_of;
use ref_pages::RefPages;
use std::alloc::{AllocError, Global};
use tree_model::PathEnd;
use tree_page::{InnerCell, LeafCell, PageCells};

/// The most pages from a root to a leaf, both counted.
pub(crate) const MOST_DEPTH: u32 = 20;

/// The row of `key` in the tree from page `root`: its payload, or that there is none, or the fault of the first page
/// that cannot be gone over. With `columns` a payload has to be a record of at most so many.
pub fn path_of(
    alloc: Global,
    pages: &RefPages,
    root: u32,
    key: i64,
    columns: Option<u32>,
) -> Result<PathEnd, AllocError>
    ensures { IfOk result (λ end. Path columns (pages_of pages.now) root key end) }
{
    leads_to(alloc, pages, MOST_DEPTH, root, root, key, columns)
}

/// The end of the path from `page` on, whose number stands on page `above`, over at most `left` more pages.
fn leads_to(
    alloc: Global,
    pages: &RefPages,
    left: u32,
    above: u32,
    page: u32,
    key: i64,
    columns: Option<u32>,
) -> Result<PathEnd, AllocError>
    ensures { IfOk result (λ end. Leads left columns (pages_of pages.now) above page key end) }
{
    match cells_at(alloc, pages, left, above, page)? {
        Ok(PageCells::Leaf(cells)) => at_key(alloc, pages, page, key, cells.as_slice(), columns),
        Ok(PageCells::Interior { cells, right }) => {
            let child = child_for(key, cells.as_slice(), right);
            leads_to(alloc, pages, left - 1, page, child, key, columns)
        }
        Err(fault) => Ok(PathEnd::Ends(fault)),
    }
}

/// The row of a key on a leaf.
fn at_key(
    alloc: Global,
    pages: &RefPages,
    leaf: u32,
    key: i64,
    cells: &[LeafCell],
    columns: Option<u32>,
) -> Result<PathEnd, AllocError>
    requires { AllByRecursion IsKept cells.now }
    ensures { IfOk result (λ end. AtKey columns (pages_of pages.now) leaf key (first_from key cells.now) end) }
{
    let Some(cell) = first_from(key, cells) else {
        return Ok(PathEnd::NoRow);
    };
    if cell.rowid != key {
        return Ok(PathEnd::NoRow);
    }
    match payload_of(alloc, pages, leaf, cell, columns)? {
        Ok(payload) => Ok(PathEnd::HasPayload(payload)),
        Err(fault) => Ok(PathEnd::Ends(fault)),
    }
}

/// The first cell of a leaf whose rowid is at least a key.
pub(crate) fn first_from(key: i64, cells: &[LeafCell]) -> Option<&LeafCell>
    ensures { option_copied result ≡ first_from key cells.now }
{
    for cell in cells {
        if key <= cell.rowid {
            return Some(cell);
        }
    }
    None
}

/// The child of the first cell whose key is at least this one, else the right-most child.
fn child_for(key: i64, cells: &[InnerCell], right: u32) -> u32
    ensures { result ≡ child_for key cells.now right }
{
    for inner in cells {
        if key <= inner.rowid {
            return inner.child;
        }
    }
    right
}
