//! The payload of a row: what its cell keeps, and behind it what its chain holds.

ghost use Rattle.std.specs.Prelude.{◌≡◌, ◌≤◌, length, slice_get, IsTrue, IfOk, IfErr, None};
ghost use Rattle.page_pool.specs.Space.{IsReady, Steady, Stays};
ghost use Rattle.tree_model.specs.Walk.{IsReadable, IsUnreadable, first_from};
ghost use Rattle.tree_search.specs.Search.{SearchRefused, IsOfLeaf};
ghost use Rattle.tree_search.specs.Steps.{IsKept};

use crate::page::has_page;
use byte_base::Bytes;
use page_pool::{PageSpace, SpaceFault};
use payload_chain::read_chain;
use std::alloc::Global;
use tree_page::{LeafCell, LeafCells};

/// The payload of a cell of the leaf on page `leaf`.
pub(crate) fn payload_of<S: PageSpace>(
    alloc: Global,
    space: &mut S,
    leaf: u32,
    cell: LeafCell,
) -> Result<Bytes, SpaceFault>
    requires ready { IsReady (S.state space.old) }
    requires kept { IsKept cell }
    ensures steady { Steady (S.state space.old) (S.state space.new) }
    ensures stays { Stays (S.state space.old) (S.state space.new) }
    ensures found { IsTrue (S.state space.old).tells → IfOk result (IsReadable None (S.state space.old).pages cell) }
    ensures refused { IfErr result (SearchRefused (S.state space.old) (S.state space.new) (IsUnreadable None (S.state space.old).pages leaf cell)) }
{
    let LeafCell {
        rowid: _,
        payload_len,
        local,
        overflow,
    } = cell;
    let mut payload = local;
    let rest = payload_len - payload.as_slice().len() as u64;
    match read_chain(alloc, space, overflow, rest, &mut payload) {
        Ok(()) => Ok(payload),
        Err(fault) => Err(of_leaf(space, leaf, fault)),
    }
}

/// The fault that a chain of a row on page `leaf` was refused with: where the chain is broken at a page that is none, which
/// can be its first alone, that is a fault of the leaf, which has its number.
pub fn of_leaf<S: PageSpace>(space: &S, leaf: u32, fault: SpaceFault) -> SpaceFault
    requires ready { IsReady (S.state space.now) }
    ensures { IsOfLeaf (S.state space.now).pages leaf fault result }
{
    if let SpaceFault::Corrupt { page } = fault {
        if !has_page(space, page) {
            return SpaceFault::Corrupt { page: leaf };
        }
    }
    fault
}

/// The first cell of a leaf whose rowid is at least a key.
pub(crate) fn first_from(key: i64, cells: LeafCells) -> Option<LeafCell>
    ensures { result ≡ first_from key cells }
{
    let at = first_place(key, cells.as_slice());
    let mut items = cells.into_vec();
    if at == items.len() {
        return None;
    }
    Some(items.swap_remove(at))
}

/// Its place, or the number of cells where there is none.
fn first_place(key: i64, cells: &[LeafCell]) -> usize
    ensures within { result ≤ length cells.now }
    ensures is { slice_get cells.now result ≡ first_from key cells.now }
{
    for (at, cell) in cells.iter().enumerate() {
        if key <= cell.rowid {
            return at;
        }
    }
    cells.len()
}
