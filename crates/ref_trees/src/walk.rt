//! Walks over the rows between two rowids. Each next row is sought anew from the root.

ghost use Rattle.std.specs.Prelude.{◌≡◌, ℕ, int_le, IfOk, option_copied};
ghost use Rattle.tree_model.specs.Walk.{Walk, IsPast, in_leaf, all_children, children_from};
ghost use Rattle.ref_pages.specs.AsPages.{pages_of};
ghost use Rattle.ref_trees.specs.Steps.{from_of, IsKept, HasSought, HasFirst, IsStep};

use crate::enter::cells_at;
use crate::path::{MOST_DEPTH, first_from};
use crate::row::payload_of;
use crate::rows::Rows;
use db_format::Bytes;
use ref_pages::{PageNumbers, RefPages};
use std::alloc::{AllocError, Global};
use tree_model::{Next, WalkEnd};
use tree_page::{InnerCell, LeafCell, PageCells};

/// What a walk gives.
#[derive(Debug, Drop)]
pub struct Walked {
    /// The rows, in the order of their rowids.
    pub rows: Rows,
    /// Why there are no more.
    pub end: WalkEnd,
}

/// One step of a walk.
#[derive(Debug, Drop)]
pub(crate) enum Step {
    /// The rowid and the payload of the next row.
    Row(i64, Bytes),
    /// There is none.
    Ends(WalkEnd),
}

/// The rows of the tree from page `root` with rowids from `low` to `high`, both included, up to the first page that
/// cannot be gone over. With `columns` each payload has to be a record of at most so many.
pub fn walk_of(
    alloc: Global,
    pages: &RefPages,
    root: u32,
    low: i64,
    high: i64,
    columns: Option<u32>,
) -> Result<Walked, AllocError>
    ensures { IfOk result (λ walked. Walk columns (pages_of pages.now) root low high walked.rows walked.end) }
{
    let mut rows = Rows::new(alloc);
    let mut key = low;
    while key <= high {
        let (rowid, payload) = match next_row(alloc, pages, root, high, key, columns)? {
            Step::Row(rowid, payload) => (rowid, payload),
            Step::Ends(end) => return Ok(Walked { rows, end }),
        };
        rows.push(rowid, payload)?;
        if high <= rowid {
            let end = WalkEnd::End;
            return Ok(Walked { rows, end });
        }
        key = rowid + 1;
    }
    Ok(Walked {
        rows,
        end: WalkEnd::End,
    })
}

/// The first row from `key` up to `high`, or how the walk ends.
fn next_row(
    alloc: Global,
    pages: &RefPages,
    root: u32,
    high: i64,
    key: i64,
    columns: Option<u32>,
) -> Result<Step, AllocError>
    ensures { IfOk result (λ step. IsStep columns (pages_of pages.now) root high key step) }
{
    let (leaf, cell) = match seek(alloc, pages, MOST_DEPTH, key, root, Some(key), root)? {
        Next::Found(leaf, cell) => (leaf, cell),
        Next::Nothing => return Ok(Step::Ends(WalkEnd::End)),
        Next::Meets(fault) => return Ok(Step::Ends(WalkEnd::StopsAt(fault))),
    };
    if high < cell.rowid {
        return Ok(Step::Ends(end_past(alloc, pages, leaf, &cell)?));
    }
    match payload_of(alloc, pages, leaf, &cell, columns)? {
        Ok(payload) => Ok(Step::Row(cell.rowid, payload)),
        Err(fault) => Ok(Step::Ends(WalkEnd::StopsAt(fault))),
    }
}

/// How a walk ends at a row past its last rowid: the chain of the row is read all the same.
fn end_past(
    alloc: Global,
    pages: &RefPages,
    leaf: u32,
    cell: &LeafCell,
) -> Result<WalkEnd, AllocError>
    requires { IsKept cell.now }
    ensures { IfOk result (IsPast (pages_of pages.now) leaf cell.now) }
{
    Ok(match payload_of(alloc, pages, leaf, cell, None)? {
        Ok(_) => WalkEnd::End,
        Err(fault) => WalkEnd::StopsAt(fault),
    })
}

/// The first row with a rowid of at least `key` from `page` on, whose number stands on page `above`, over at most `left`
/// more pages: in the leaf on the path of `from`, then in the leaves after it. `None` is before all rowids.
#[cycle(seek)]
fn seek(
    alloc: Global,
    pages: &RefPages,
    left: u32,
    key: i64,
    above: u32,
    from: Option<i64>,
    page: u32,
) -> Result<Next, AllocError>
    ensures { IfOk result (λ next. HasSought left (pages_of pages.now) key above (from_of from) page next) }
{
    match cells_at(alloc, pages, left, above, page)? {
        Ok(PageCells::Leaf(cells)) => in_leaf(alloc, page, first_from(key, cells.as_slice())),
        Ok(PageCells::Interior { cells, right }) => {
            let children = children_from(alloc, from, cells.as_slice(), right)?;
            first_of(alloc, pages, left - 1, key, page, from, children.as_slice())
        }
        Err(fault) => Ok(Next::Meets(fault)),
    }
}

/// The first of these children of a page that has more than nothing: the first one is searched from a key on, the others
/// whole.
#[cycle(seek)]
fn first_of(
    alloc: Global,
    pages: &RefPages,
    left: u32,
    key: i64,
    page: u32,
    from: Option<i64>,
    children: &[u32],
) -> Result<Next, AllocError>
    ensures { IfOk result (λ next. HasFirst left (pages_of pages.now) key page (from_of from) children.now next) }
{
    let mut start = from;
    for child in children {
        match seek(alloc, pages, left, key, page, start, *child)? {
            Next::Nothing => start = None,
            next => return Ok(next),
        }
    }
    Ok(Next::Nothing)
}

/// What a search on a leaf meets: a cell of it, copied, or no row.
fn in_leaf(alloc: Global, leaf: u32, cell: Option<&LeafCell>) -> Result<Next, AllocError>
    ensures { IfOk result (λ next. next ≡ in_leaf leaf (option_copied cell.entry)) }
{
    let Some(cell) = cell else {
        return Ok(Next::Nothing);
    };
    let local = Bytes::from_vec(Vec::from_slice(alloc, cell.local.as_slice())?);
    Ok(Next::Found(
        leaf,
        LeafCell {
            rowid: cell.rowid,
            payload_len: cell.payload_len,
            local,
            overflow: cell.overflow,
        },
    ))
}

/// The children of an interior page from the first on whose key is at least this one.
fn children_from(
    alloc: Global,
    from: Option<i64>,
    cells: &[InnerCell],
    right: u32,
) -> Result<PageNumbers, AllocError>
    ensures { IfOk result (λ children. children ≡ children_from (from_of from) cells.now right) }
{
    all_children(alloc, cells_from(from, cells), right)
}

/// The cells from the first on whose key is at least this one.
fn cells_from(from: Option<i64>, cells: &[InnerCell]) -> &[InnerCell]
    ensures { (right : ℕ) → children_from (from_of from) cells.now right ≡ all_children result.now right }
{
    for at in 0..cells.len() {
        if reaches(from, cells[at].rowid) {
            return &cells[at..];
        }
    }
    &cells[cells.len()..]
}

/// The children of these cells, and the right-most one.
fn all_children(alloc: Global, cells: &[InnerCell], right: u32) -> Result<PageNumbers, AllocError>
    ensures { IfOk result (λ children. children ≡ all_children cells.now right) }
{
    let mut children = PageNumbers::new(alloc);
    for cell in cells {
        children.push(cell.child)?;
    }
    children.push(right)?;
    Ok(children)
}

/// Whether a key is at least the one that a search begins at.
fn reaches(from: Option<i64>, key: i64) -> bool
    ensures { result ≡ int_le (from_of from) key }
{
    match from {
        None => true,
        Some(low) => low <= key,
    }
}
