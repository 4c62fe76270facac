//! The way from a root down to a leaf.

ghost use Rattle.std.specs.Prelude.{◌≡◌, ◌≤◌, length, slice_get, int_le, MatchOption, IsTrue, IfOk, IfErr, None};
ghost use Rattle.page_pool.specs.Space.{IsReady, HasSizes, Steady, Stays};
ghost use Rattle.tree_model.specs.declared.ends.PathEnd.TheVariants.{Ends};
ghost use Rattle.tree_model.specs.Walk.{Path};
ghost use Rattle.tree_search.specs.Search.{place_for, Descends, IsDescent, SearchRefused};
ghost use Rattle.tree_search.specs.Steps.{Leads, from_of};

use crate::page::{MOST_DEPTH, enter, page_buffer};
use page_pool::{PageSpace, SpaceFault};
use std::alloc::Global;
use tree_model::Level;
use tree_page::{InnerCell, LeafCells, PageCells};

/// A way from a root down to a leaf.
#[derive(Debug, Drop)]
pub struct Descent {
    /// The interior pages on the way, from the root on: fewer than 20.
    pub levels: Vec<Level>,
    /// The number of the leaf.
    pub leaf: u32,
    /// Its cells.
    pub cells: LeafCells,
}

/// The way from page `root` to the leaf where `rowid` is or would be.
///
/// Refused as `get` is, with `Bad` and `Corrupt` of the first page that cannot be gone over. Where a number is out of
/// range, `Corrupt` names the page that has it, or the root itself.
pub fn descend<S: PageSpace>(
    alloc: Global,
    space: &mut S,
    root: u32,
    rowid: i64,
) -> Result<Descent, SpaceFault>
    requires ready { IsReady (S.state space.old) }
    requires some { 1 ≤ (S.state space.old).pages.size }
    ensures steady { Steady (S.state space.old) (S.state space.new) }
    ensures stays { Stays (S.state space.old) (S.state space.new) }
    ensures found { IsTrue (S.state space.old).tells → IfOk result (λ d. Descends (S.state space.old).pages rowid root d.levels.items d.leaf d.cells) }
    ensures sound { IfOk result (IsDescent (S.state space.old).pages.size (S.state space.old).pages.usable) }
    ensures refused { IfErr result (SearchRefused (S.state space.old) (S.state space.new) (λ fault. Path None (S.state space.old).pages root rowid (Ends fault))) }
{
    let mut buffer = page_buffer(alloc, space)?;
    go_down(alloc, space, &mut buffer, root, rowid)
}

/// The same, with a buffer of one page.
fn go_down<S: PageSpace>(
    alloc: Global,
    space: &mut S,
    buffer: &mut [u8],
    root: u32,
    rowid: i64,
) -> Result<Descent, SpaceFault>
    requires ready { IsReady (S.state space.old) }
    requires sizes { HasSizes (S.state space.old) }
    requires one_page { length buffer.old ≡ (S.state space.old).page_size }
    ensures steady { Steady (S.state space.old) (S.state space.new) }
    ensures stays { Stays (S.state space.old) (S.state space.new) }
    ensures found { IsTrue (S.state space.old).tells → IfOk result (λ d. Descends (S.state space.old).pages rowid root d.levels.items d.leaf d.cells) }
    ensures sound { IfOk result (IsDescent (S.state space.old).pages.size (S.state space.old).pages.usable) }
    ensures refused { IfErr result (SearchRefused (S.state space.old) (S.state space.new) (λ fault. Leads 20 None (S.state space.old).pages root root rowid (Ends fault))) }
{
    let mut levels = Vec::new(alloc);
    let mut left = MOST_DEPTH;
    let mut above = root;
    let mut number = root;
    loop {
        match enter(alloc, space, buffer, left, above, number)? {
            PageCells::Leaf(cells) => {
                return Ok(Descent {
                    levels,
                    leaf: number,
                    cells,
                });
            }
            PageCells::Interior { cells, right } => {
                let at = place_from(Some(rowid), cells.as_slice());
                let child = child_at(at, cells.as_slice(), right);
                let level = Level {
                    number,
                    cells,
                    right,
                    at,
                };
                levels.push(level)?;
                left -= 1;
                above = number;
                number = child;
            }
        }
    }
}

/// The place of the first cell whose key is at least the one that a search begins at, or the number of cells. `None` is
/// before all keys.
pub(crate) fn place_from(from: Option<i64>, cells: &[InnerCell]) -> usize
    ensures within { result ≤ length cells.now }
    ensures is { result ≡ place_for (from_of from) cells.now }
{
    for (at, cell) in cells.iter().enumerate() {
        if reaches(from, cell.rowid) {
            return at;
        }
    }
    cells.len()
}

/// Whether a key is at least the one that a search begins at.
fn reaches(from: Option<i64>, key: i64) -> bool
    ensures { result ≡ int_le (from_of from) key }
{
    match from {
        None => true,
        Some(low) => low <= key,
    }
}

/// The child of the cell at a place, or the right-most one behind the cells.
fn child_at(at: usize, cells: &[InnerCell], right: u32) -> u32
    ensures { MatchOption (slice_get cells.now at) (result ≡ right) (λ cell. result ≡ cell.child) }
{
    if at < cells.len() {
        return cells[at].child;
    }
    right
}
