//! What a tree has, gathered from its leaves up.

ghost use Rattle.std.specs.Prelude.{◌≡◌, ◌↔◌, ℕ, ◌+◌, ◌<◌, ◌∷◌, ℤ, IfOk, IsTrue};
ghost use Rattle.std.specs.List.{flat_map, AllByRecursion};
ghost use Rattle.tree_model.specs.Tree.{Tree, Leaf, Child, Right, Within, rowid};
ghost use Rattle.ref_trees.specs.GatherSteps.{low_of, Tells};

use crate::tree_rows::RefRow;
use std::alloc::{AllocError, Global};

/// What a tree has, or a part of it: an interior page with some of its last children.
#[derive(Debug, Drop)]
pub(crate) struct Summary {
    /// Its rows, in order.
    pub(crate) rows: Vec<RefRow>,
    /// Its pages, those of chains too.
    pub(crate) pages: Vec<u32>,
    /// How many levels it has.
    pub(crate) height: u32,
    /// Whether all leaves are on the last of them.
    pub(crate) level: bool,
    /// Whether the rowids and keys rise, each within its separators.
    pub(crate) ordered: bool,
    /// Whether no page of it is empty.
    pub(crate) filled: bool,
    /// Whether no page of it is empty but its root, where that may be.
    pub(crate) root: bool,
}

/// A leaf.
pub(crate) fn leaf(
    alloc: Global,
    page: u32,
    rows: Vec<RefRow>,
    low: Option<i64>,
    high: i64,
) -> Result<Summary, AllocError>
    ensures { IfOk result (λ s. Tells 0 (low_of low) high (Leaf page rows.items) s) }
{
    let pages = pages_of_leaf(alloc, page, &rows)?;
    let ordered = are_within(low, high, &rows);
    let filled = !rows.is_empty();
    Ok(Summary {
        rows,
        pages,
        height: 1,
        level: true,
        ordered,
        filled,
        root: true,
    })
}

/// An interior page with its right-most child alone, behind so many cells.
pub(crate) fn above(page: u32, child: Summary, cells: usize) -> Result<Summary, AllocError>
    requires { child.height < 4294967295 }
    ensures { (tree : Tree) (low high : ℤ) → Tells 0 low high tree child → IfOk result (λ s. Tells cells low high (Right page tree) s) }
{
    let mut pages = child.pages;
    pages.insert(0, page)?;
    Ok(Summary {
        rows: child.rows,
        pages,
        height: child.height + 1,
        level: child.level,
        ordered: child.ordered,
        filled: both(cells > 0, child.filled),
        root: both(page == 1, child.filled),
    })
}

/// A child and its key in front of the children `more`.
pub(crate) fn beside(
    child: Summary,
    key: i64,
    more: Summary,
    low: Option<i64>,
    high: i64,
) -> Result<Summary, AllocError>
    requires { child.height < 4294967295 }
    ensures { (cells : ℕ) (left right : Tree) → Tells 0 (low_of low) key left child → Tells (cells + 1) key high right more → IfOk result (λ s. Tells cells (low_of low) high (Child left key right) s) }
{
    let (mut rows, mut pages) = (child.rows, child.pages);
    let (mut more_rows, mut more_pages) = (more.rows, more.pages);
    rows.append(&mut more_rows)?;
    pages.append(&mut more_pages)?;
    let height = child.height + 1;
    let filled = both(child.filled, more.filled);
    Ok(Summary {
        rows,
        pages,
        height: height.max(more.height),
        level: both(height == more.height, both(child.level, more.level)),
        ordered: both(is_within(low, high, key), both(child.ordered, more.ordered)),
        filled,
        root: filled,
    })
}

/// The pages of a leaf and of the chains of its rows.
fn pages_of_leaf(alloc: Global, page: u32, rows: &[RefRow]) -> Result<Vec<u32>, AllocError>
    ensures { IfOk result (λ pages. pages.items ≡ page ∷ flat_map (λ row. row.chain) rows.now) }
{
    let mut pages = Vec::new(alloc);
    pages.push(page)?;
    for row in rows {
        pages.extend_from_slice(row.chain())?;
    }
    Ok(pages)
}

/// Whether each rowid is within the separators.
fn are_within(low: Option<i64>, high: i64, rows: &[RefRow]) -> bool
    ensures { IsTrue result ↔ AllByRecursion (λ row. Within (low_of low) high (rowid row)) rows.now }
{
    for row in rows {
        if !is_within(low, high, row.rowid()) {
            return false;
        }
    }
    true
}

/// Whether a key is above a bound, where there is one, and at most another.
pub(crate) fn is_within(low: Option<i64>, high: i64, key: i64) -> bool
    ensures { IsTrue result ↔ Within (low_of low) high key }
{
    match low {
        Some(low) => low < key && key <= high,
        None => key <= high,
    }
}

fn both(one: bool, other: bool) -> bool
    ensures { IsTrue result ↔ IsTrue one × IsTrue other }
{
    one && other
}
