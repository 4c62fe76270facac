//! A row taken out.

ghost use Rattle.std.specs.Prelude.{◌≡◌, ◌≤◌, false, length, IsTrue, IfOk, IfErr, OnOk};
ghost use Rattle.page_pool.specs.Space.{IsWritable, HasSizes, Steady, Stays};
ghost use Rattle.page_pool.specs.Pool.{NotesChange};
ghost use Rattle.payload_chain.specs.Chains.{FreeRefused};
ghost use Rattle.tree_model.specs.Walk.{rest_of};
ghost use Rattle.tree_remove.specs.Remove.{RemoveDone, RemoveRefused, ChainGone};

use crate::root::settle;
use crate::upward::shrink;
use page_pool::{PageSpace, SpaceFault};
use payload_chain::free_chain;
use std::alloc::Global;
use tree_join::{Taken, left_of_leaf, take_out};
use tree_page::LeafCell;
use tree_search::{Descent, descend};

/// Takes the row of `rowid` out of the tree from page `root`, and answers whether there was one.
///
/// A page that is left with no row or child is given back, and one that is left with one child is joined with the page beside it.
/// The root keeps its number: over one child alone it gets the cells of that child, but for page 1 where they do not fit. The pages
/// beside those of the way are read first, then pages are taken, then written, then given back, and last the chain of the row is.
pub fn remove<S: PageSpace>(
    alloc: Global,
    space: &mut S,
    root: u32,
    rowid: i64,
) -> Result<bool, SpaceFault>
    requires writable { IsWritable (S.state space.old) }
    requires some { 1 ≤ (S.state space.old).pages.size }
    ensures steady { Steady (S.state space.old) (S.state space.new) }
    ensures done { IsTrue (S.state space.old).tells → IfOk result (RemoveDone (S.state space.old).page_size (S.state space.old).pages (S.state space.new).pages (S.state space.new).changed root rowid) }
    ensures nothing { IfOk result (λ there. there ≡ false → Stays (S.state space.old) (S.state space.new)) }
    ensures refused { IfErr result (RemoveRefused (S.state space.old) (S.state space.new) root rowid) }
    ensures noted { NotesChange (S.state space.old) (S.state space.new) }
{
    let Descent {
        levels,
        leaf,
        cells,
    } = descend(alloc, space, root, rowid)?;
    let Some(Taken { cell, others }) = take_out(cells, rowid) else {
        return Ok(false);
    };
    let left = left_of_leaf(alloc, others);
    let shrunk = shrink(alloc, space, levels, leaf, left)?;
    settle(alloc, space, root, shrunk)?;
    free_cell(alloc, space, &cell)?;
    Ok(true)
}

/// Gives back the chain of a cell.
fn free_cell<S: PageSpace>(alloc: Global, space: &mut S, cell: &LeafCell) -> Result<(), SpaceFault>
    requires writable { IsWritable (S.state space.old) }
    requires sizes { HasSizes (S.state space.old) }
    requires kept { length cell.now.local ≤ cell.now.payload_len }
    ensures steady { Steady (S.state space.old) (S.state space.new) }
    ensures freed { IsTrue (S.state space.old).tells → OnOk result (ChainGone (S.state space.old).page_size (S.state space.old).pages (S.state space.new).pages cell.now) }
    ensures refused { IfErr result (FreeRefused (S.state space.old) (S.state space.new) cell.now.overflow (rest_of cell.now)) }
    ensures changed { OnOk result (1 ≤ rest_of cell.now → IsTrue (S.state space.new).changed) }
    ensures noted { NotesChange (S.state space.old) (S.state space.new) }
{
    let rest = cell.payload_len - cell.local.as_slice().len() as u64;
    free_chain(alloc, space, cell.overflow, rest)
}
