//! Trees, gone over page by page from a root.

ghost use Rattle.std.specs.Prelude.{◌≡◌, ℕ, ◌+◌, ◌≤◌, ◌<◌, length, take, FitsSigned, IfOk, IfSome, IfNone};
ghost use Rattle.std.specs.Int.{w64};
ghost use Rattle.tree_page.specs.declared.cell.PageCells.{PageCells};
ghost use Rattle.tree_model.specs.Held.{HasCells};
ghost use Rattle.tree_model.specs.Whole.{most_depth};
ghost use Rattle.ref_pages.specs.AsPages.{pages_of};
ghost use Rattle.ref_trees.specs.Gathered.{HasTree, HasNoTree, HasRows};
ghost use Rattle.ref_trees.specs.GatherSteps.{low_of, last_key, Gathers};

use crate::enter::cells_at;
use crate::gather::{Summary, above, beside, leaf};
use crate::path::MOST_DEPTH;
use crate::tree_rows::{RefRow, rows_of_cells};
use ref_pages::RefPages;
use std::alloc::{AllocError, Global};
use tree_page::{InnerCell, LeafCell, PageCells, one_page};

/// The rows of the tree from a root, in tree order; `None` where the pages hold no tree of at most 20 levels from
/// there. Whether it is whole is not asked.
pub fn rows_of(
    alloc: Global,
    pages: &RefPages,
    root: u32,
) -> Result<Option<Vec<RefRow>>, AllocError>
    ensures found { IfOk result (λ found. IfSome found (λ rows. HasRows (pages_of pages.now) root rows.items)) }
    ensures none { IfOk result (λ found. IfNone found (HasNoTree (pages_of pages.now) most_depth root)) }
{
    let Some(found) = tree_at(alloc, pages, root, None, i64::MAX, MOST_DEPTH)? else {
        return Ok(None);
    };
    Ok(Some(found.rows))
}

/// What the tree from a page has, of at most so many levels, where its keys are to be above `low` and at most `high`;
/// `None` where there is no such tree.
#[cycle(tree)]
pub(crate) fn tree_at(
    alloc: Global,
    pages: &RefPages,
    page: u32,
    low: Option<i64>,
    high: i64,
    levels: u32,
) -> Result<Option<Summary>, AllocError>
    ensures found { IfOk result (λ found. IfSome found (Gathers (pages_of pages.now) levels page (low_of low) high)) }
    ensures none { IfOk result (λ found. IfNone found (HasNoTree (pages_of pages.now) levels page)) }
{
    if levels == 0 {
        return Ok(None);
    }
    match cells_of(alloc, pages, page)? {
        None => Ok(None),
        Some(PageCells::Leaf(cells)) => { leaf_at(alloc, pages, page, cells.as_slice(), low, high) }
        Some(PageCells::Interior { cells, right }) => interior_at(
            alloc,
            pages,
            page,
            cells.as_slice(),
            right,
            low,
            high,
            levels - 1,
        ),
    }
}

/// What a leaf with these cells has.
fn leaf_at(
    alloc: Global,
    pages: &RefPages,
    page: u32,
    cells: &[LeafCell],
    low: Option<i64>,
    high: i64,
) -> Result<Option<Summary>, AllocError>
    requires { HasCells (pages_of pages.now) page (PageCells.Leaf cells.now) }
    ensures found { (levels : ℕ) → IfOk result (λ found. IfSome found (Gathers (pages_of pages.now) (levels + 1) page (low_of low) high)) }
    ensures none { (levels : ℕ) → IfOk result (λ found. IfNone found (HasNoTree (pages_of pages.now) levels page)) }
{
    one_page();
    let Some(rows) = rows_of_cells(alloc, pages, cells)? else {
        return Ok(None);
    };
    let found = leaf(alloc, page, rows, low, high)?;
    Ok(Some(found))
}

/// What an interior page with these cells has, with trees of at most so many levels below it. It is put together from
/// the right-most child on.
#[cycle(tree)]
fn interior_at(
    alloc: Global,
    pages: &RefPages,
    page: u32,
    cells: &[InnerCell],
    right: u32,
    low: Option<i64>,
    high: i64,
    levels: u32,
) -> Result<Option<Summary>, AllocError>
    requires cells { HasCells (pages_of pages.now) page (PageCells.Interior cells.now right) }
    requires levels { levels < 4294967295 }
    ensures found { IfOk result (λ found. IfSome found (Gathers (pages_of pages.now) (levels + 1) page (low_of low) high)) }
    ensures none { IfOk result (λ found. IfNone found (HasNoTree (pages_of pages.now) (levels + 1) page)) }
{
    one_page();
    let mut at = cells.len();
    let last = low_before(cells, at, low);
    let Some(child) = tree_at(alloc, pages, right, last, high, levels)? else {
        return Ok(None);
    };
    let mut found = above(page, child, at)?;
    while at > 0 {
        at -= 1;
        let cell = &cells[at];
        let key = key_of(cell);
        let first = low_before(cells, at, low);
        let Some(child) = tree_at(alloc, pages, cell.child, first, key, levels)? else {
            return Ok(None);
        };
        found = beside(child, key, found, first, high)?;
    }
    Ok(Some(found))
}

/// What the keys behind the first so many cells are to be above.
fn low_before(cells: &[InnerCell], at: usize, low: Option<i64>) -> Option<i64>
    requires { at ≤ length cells.now }
    ensures { result ≡ last_key low (take at cells.now) }
{
    if at == 0 {
        return low;
    }
    let key = key_of(&cells[at - 1]);
    Some(key)
}

/// The key of a cell, which is within the range of a rowid.
fn key_of(cell: &InnerCell) -> i64
    ensures key { result ≡ cell.now.rowid }
    ensures fits { FitsSigned w64 result }
{
    cell.rowid
}

/// The cells of a b-tree page; `None` where the page is not there, fails its checksum or is no such page.
fn cells_of(alloc: Global, pages: &RefPages, page: u32) -> Result<Option<PageCells>, AllocError>
    ensures found { IfOk result (λ found. IfSome found (HasCells (pages_of pages.now) page)) }
    ensures none { IfOk result (λ found. IfNone found ((cells : PageCells) → ¬ (HasCells (pages_of pages.now) page cells))) }
{
    match cells_at(alloc, pages, 1, page, page)? {
        Ok(cells) => Ok(Some(cells)),
        Err(_) => Ok(None),
    }
}
