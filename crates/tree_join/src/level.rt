//! An interior page without the child that its way took, and the page beside that child.

ghost use Rattle.std.specs.Prelude.{◌≡◌, ℕ, ◌≤◌, [], length, None, IfSome, IfNone};
ghost use Rattle.tree_page.specs.Written.{Fits};
ghost use Rattle.tree_page.specs.declared.cell.PageCells.TheVariants.{Leaf, Interior};
ghost use Rattle.tree_shrink.specs.Rest.{cells_left};
ghost use Rattle.tree_join.specs.Join.{IsAllLeft, IsLeafLeft, IsLeftOut, child_of, sibling_of};
ghost use Rattle.tree_join.specs.Steps.{IsWithout};

use page_cut::Sheets;
use std::alloc::Global;
use tree_model::Level;
use tree_page::{InnerCells, LeafCells, PageCells, fits_without};

/// What is left of a page.
#[derive(Debug, Drop)]
pub enum Left {
    /// Cells, in parts that fit: the last one stays on the page.
    Parts(Sheets),
    /// One child and no cell: the page goes.
    Over(u32),
    /// Nothing: the page goes.
    Nothing,
}

/// The cells of an interior page.
#[derive(Drop)]
pub(crate) struct Inner {
    /// Its cells.
    pub(crate) cells: InnerCells,
    /// Its right-most child.
    pub(crate) right: u32,
}

/// What is left of a leaf with these cells.
pub fn left_of_leaf(alloc: Global, cells: LeafCells) -> Left
    ensures { (number usable : ℕ) → Fits (Leaf cells) number usable → IsLeafLeft number usable cells result }
{
    if cells.as_slice().is_empty() {
        return Left::Nothing;
    }
    whole(alloc, PageCells::Leaf(cells))
}

/// What is left of a page of which all cells stay on it.
fn whole(alloc: Global, cells: PageCells) -> Left
    ensures { IsAllLeft cells result }
{
    Left::Parts(Sheets {
        front: Vec::new(alloc),
        last: cells,
    })
}

/// What is left of an interior page without the child that its way took. The key behind the child goes with it, or, of the
/// right-most one, the key before it.
pub fn leave_out(alloc: Global, level: Level) -> Left
    requires at { level.at ≤ length level.cells }
    ensures { (usable : ℕ) → Fits (Interior level.cells level.right) level.number usable → IsLeftOut usable level result }
{
    fits_without();
    let Level {
        cells,
        right,
        at,
        ..
    } = level;
    let Some(Inner { cells, right }) = without_child(cells, right, at) else {
        return Left::Nothing;
    };
    if cells.as_slice().is_empty() {
        return Left::Over(right);
    }
    whole(alloc, PageCells::Interior { cells, right })
}

/// The cells of an interior page without the child at a place. There are none where it is the only child.
fn without_child(cells: InnerCells, right: u32, at: usize) -> Option<Inner>
    requires { at ≤ length cells }
    ensures is { IfSome result (IsWithout cells right at) }
    ensures none { IfNone result (cells_left at cells right ≡ None) }
{
    let mut items = cells.into_vec();
    if at < items.len() {
        items.remove(at);
        return Some(Inner {
            cells: InnerCells::from_vec(items),
            right,
        });
    }
    let last = items.pop()?;
    Some(Inner {
        cells: InnerCells::from_vec(items),
        right: last.child,
    })
}

/// The child that the way took.
pub fn taken_child(level: &Level) -> u32
    requires { level.now.at ≤ length level.now.cells }
    ensures { result ≡ child_of level.now level.now.at }
{
    child_at(level, level.at)
}

/// The page beside that child: the next one, or, of the right-most child, the one before. There is none where it is the
/// only child.
pub fn sibling(level: &Level) -> Option<u32>
    requires { level.now.at ≤ length level.now.cells }
    ensures some { IfSome result (λ page. (1 ≤ length level.now.cells) × (page ≡ sibling_of level.now)) }
    ensures none { IfNone result (level.now.cells ≡ []) }
{
    let len = level.cells.as_slice().len();
    if len == 0 {
        return None;
    }
    if level.at < len {
        return Some(child_at(level, level.at + 1));
    }
    Some(child_at(level, len - 1))
}

/// The child at a place: that of the cell there, or the right-most one behind the cells.
pub(crate) fn child_at(level: &Level, at: usize) -> u32
    requires { at ≤ length level.now.cells }
    ensures { result ≡ child_of level.now at }
{
    let cells = level.cells.as_slice();
    if at < cells.len() {
        return cells[at].child;
    }
    level.right
}
