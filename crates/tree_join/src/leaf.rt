//! A row taken out of a leaf.

ghost use Rattle.std.specs.Prelude.{◌≡◌, None, IfSome, IfNone};
ghost use Rattle.tree_plan.specs.Plan.{cell_of, IsPlace};
ghost use Rattle.tree_join.specs.Leaf.{IsTakenOut};

use tree_page::{LeafCell, LeafCells};

/// A cell, and the others of its leaf.
#[derive(Debug, Drop)]
pub struct Taken {
    /// The cell.
    pub cell: LeafCell,
    /// The others.
    pub others: LeafCells,
}

/// The cell of a rowid, taken out of its leaf, if there is one.
pub fn take_out(cells: LeafCells, rowid: i64) -> Option<Taken>
    ensures taken { IfSome result (IsTakenOut rowid cells) }
    ensures none { IfNone result (cell_of rowid cells ≡ None) }
{
    let at = place(cells.as_slice(), rowid);
    let mut items = cells.into_vec();
    if at == items.len() {
        return None;
    }
    if items[at].rowid != rowid {
        return None;
    }
    let cell = items.remove(at);
    Some(Taken {
        cell,
        others: LeafCells::from_vec(items),
    })
}

/// Where a rowid is, or would be.
fn place(cells: &[LeafCell], key: i64) -> usize
    ensures { IsPlace key cells.now result }
{
    for (at, cell) in cells.iter().enumerate() {
        if cell.rowid >= key {
            return at;
        }
    }
    cells.len()
}
