//! A cell put into the leaf that a search found.

ghost use Rattle.std.specs.Prelude.{◌≤◌, length, IfOk, IfErr, IfSome};
ghost use Rattle.page_pool.specs.Space.{IsWritable, Steady};
ghost use Rattle.page_pool.specs.Pool.{NotesChange};
ghost use Rattle.tree_page.specs.Written.{KeepsLocal};
ghost use Rattle.tree_search.specs.Search.{IsDescent};
ghost use Rattle.rowid_tree.specs.Steps.{CellPlaced, PlaceRefused};

use page_pool::{PageSpace, SpaceFault};
use std::alloc::Global;
use tree_page::LeafCell;
use tree_plan::{LeafPlan, plan_leaf};
use tree_search::Descent;
use tree_write::{climb, write_sheets};

/// Puts a cell into the leaf at the end of a way, cuts the pages that overflow, and answers the cell that it replaced.
pub(crate) fn place_cell<S: PageSpace>(
    alloc: Global,
    space: &mut S,
    descent: Descent,
    cell: LeafCell,
) -> Result<Option<LeafCell>, SpaceFault>
    requires writable { IsWritable (S.state space.old) }
    requires some { 1 ≤ (S.state space.old).pages.size }
    requires sound { IsDescent (S.state space.old).pages.size (S.state space.old).pages.usable descent }
    requires cell { KeepsLocal (S.state space.old).pages.usable cell }
    ensures steady { Steady (S.state space.old) (S.state space.new) }
    ensures placed { IfOk result (CellPlaced (S.state space.old) (S.state space.new) descent cell) }
    ensures kept { IfOk result (λ replaced. IfSome replaced (λ was. length was.local ≤ was.payload_len)) }
    ensures refused { IfErr result (PlaceRefused (S.state space.old) (S.state space.new) descent cell) }
    ensures noted { NotesChange (S.state space.old) (S.state space.new) }
{
    let Descent {
        levels,
        leaf,
        cells,
    } = descent;
    let LeafPlan { sheets, replaced } = plan_leaf(alloc, cells, cell, leaf, space.usable())?;
    let sheets = climb(alloc, space, levels, leaf, sheets)?;
    write_sheets(alloc, space, &sheets)?;
    Ok(replaced)
}
