//! The row of a rowid.

ghost use Rattle.std.specs.Prelude.{◌≡◌, ◌≤◌, IsTrue, IfOk, IfErr, None, option_map};
ghost use Rattle.page_pool.specs.Space.{IsReady, Steady, Stays};
ghost use Rattle.tree_model.specs.Tree.{Tree, rows_of};
ghost use Rattle.tree_model.specs.Whole.{IsWholeTree};
ghost use Rattle.tree_model.specs.declared.ends.PathEnd.TheVariants.{Ends};
ghost use Rattle.tree_model.specs.Walk.{Path};
ghost use Rattle.tree_model.specs.Laws.{row_at};
ghost use Rattle.tree_search.specs.Search.{path_end, PathIs, EndsAlways, SearchRefused, IsNoDamage};

use crate::path::{Descent, descend};
use crate::payload::{first_from, payload_of};
use byte_base::Bytes;
use page_pool::{PageSpace, SpaceFault};
use std::alloc::Global;
use tree_model::{one_path, path_finds};

/// A row, and where it was found.
#[derive(Debug, Drop)]
pub struct OnLeaf {
    /// The number of the leaf that its cell is on.
    pub leaf: u32,
    /// Its rowid.
    pub rowid: i64,
    /// Its payload.
    pub payload: Bytes,
}

/// The payload of the row of `rowid` in the tree from page `root`, or that there is none.
///
/// Refused as `find_on_leaf` is.
pub fn find<S: PageSpace>(
    alloc: Global,
    space: &mut S,
    root: u32,
    rowid: i64,
) -> Result<Option<Bytes>, SpaceFault>
    requires ready { IsReady (S.state space.old) }
    requires some { 1 ≤ (S.state space.old).pages.size }
    ensures steady { Steady (S.state space.old) (S.state space.new) }
    ensures stays { Stays (S.state space.old) (S.state space.new) }
    ensures found { IsTrue (S.state space.old).tells → IfOk result (λ payload. Path None (S.state space.old).pages root rowid (path_end payload)) }
    ensures whole { IsTrue (S.state space.old).tells → IfOk result
        (λ payload. (tree : Tree) → IsWholeTree (S.state space.old).pages root tree → path_end payload ≡ row_at rowid (rows_of tree)) }
    ensures refused { IfErr result (SearchRefused (S.state space.old) (S.state space.new) (λ fault. Path None (S.state space.old).pages root rowid (Ends fault))) }
    ensures clean { IsTrue (S.state space.old).tells → IfErr result (λ fault. (tree : Tree) → IsWholeTree (S.state space.old).pages root tree → IsNoDamage fault) }
{
    one_path();
    path_finds();
    let row = find_on_leaf(alloc, space, root, rowid)?;
    Ok(payload_in(row))
}

/// What a row has without the place where it was found.
fn payload_in(row: Option<OnLeaf>) -> Option<Bytes>
    ensures { result ≡ option_map (λ row. row.payload) row }
{
    match row {
        Some(row) => Some(row.payload),
        None => None,
    }
}

/// The row of `rowid` in the tree from page `root` with the leaf that it is on, or that there is none. What is said of it, and
/// of a refusal, holds of the path of the rowid whichever payloads that accepts.
///
/// Refused as `descend` is, and where the chain of the row cannot be read: with `Corrupt` of the leaf where the first page
/// of the chain is none.
pub fn find_on_leaf<S: PageSpace>(
    alloc: Global,
    space: &mut S,
    root: u32,
    rowid: i64,
) -> Result<Option<OnLeaf>, SpaceFault>
    requires ready { IsReady (S.state space.old) }
    requires some { 1 ≤ (S.state space.old).pages.size }
    ensures steady { Steady (S.state space.old) (S.state space.new) }
    ensures stays { Stays (S.state space.old) (S.state space.new) }
    ensures found { IsTrue (S.state space.old).tells → IfOk result (PathIs (S.state space.old).pages root rowid) }
    ensures refused { IfErr result (SearchRefused (S.state space.old) (S.state space.new) (λ fault. EndsAlways (S.state space.old).pages root rowid (Ends fault))) }
{
    let Descent {
        levels: _,
        leaf,
        cells,
    } = descend(alloc, space, root, rowid)?;
    let Some(cell) = first_from(rowid, cells) else {
        return Ok(None);
    };
    if cell.rowid != rowid {
        return Ok(None);
    }
    let payload = payload_of(alloc, space, leaf, cell)?;
    Ok(Some(OnLeaf {
        leaf,
        rowid,
        payload,
    }))
}
