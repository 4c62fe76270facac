//! The cell of a row, and the chain behind it.

ghost use Rattle.std.specs.Prelude.{◌≤◌, length, IfOk, IfErr, IfSome, OnOk};
ghost use Rattle.page_pool.specs.Space.{IsWritable, HasSizes, Steady};
ghost use Rattle.page_pool.specs.Pool.{NotesChange};
ghost use Rattle.rowid_tree.specs.Steps.{RestWritten, RestRefused, CellWritten, CellRefused, ReplacedFreed, FreeingRefused};

use db_format::{Bytes, local_size};
use page_pool::{PageSpace, SpaceFault};
use payload_chain::{free_chain, write_chain};
use std::alloc::Global;
use tree_page::LeafCell;

/// The cell of a row. What it does not keep of the payload is written to a chain.
pub(crate) fn write_cell<S: PageSpace>(
    alloc: Global,
    space: &mut S,
    rowid: i64,
    payload: &[u8],
) -> Result<LeafCell, SpaceFault>
    requires writable { IsWritable (S.state space.old) }
    requires some { 1 ≤ (S.state space.old).pages.size }
    ensures steady { Steady (S.state space.old) (S.state space.new) }
    ensures written { IfOk result (CellWritten (S.state space.old) (S.state space.new) rowid payload.now) }
    ensures refused { IfErr result (CellRefused (S.state space.old) (S.state space.new) payload.now) }
    ensures noted { NotesChange (S.state space.old) (S.state space.new) }
{
    let payload_len = payload.len() as u64;
    let kept = local_size(space.usable(), payload_len) as usize;
    let local = Bytes::copy_of(alloc, &payload[..kept])?;
    let overflow = write_rest(alloc, space, &payload[kept..])?;
    Ok(LeafCell {
        rowid,
        payload_len,
        local,
        overflow,
    })
}

/// Writes the rest of a payload to a chain, and answers its first page: 0 where there is no rest.
fn write_rest<S: PageSpace>(alloc: Global, space: &mut S, rest: &[u8]) -> Result<u32, SpaceFault>
    requires writable { IsWritable (S.state space.old) }
    requires sizes { HasSizes (S.state space.old) }
    requires some { 1 ≤ (S.state space.old).pages.size }
    ensures steady { Steady (S.state space.old) (S.state space.new) }
    ensures written { IfOk result (RestWritten (S.state space.old) (S.state space.new) rest.now) }
    ensures refused { IfErr result (RestRefused (S.state space.old) (S.state space.new) rest.now) }
    ensures noted { NotesChange (S.state space.old) (S.state space.new) }
{
    if rest.is_empty() {
        return Ok(0);
    }
    write_chain(alloc, space, rest)
}

/// Gives back the chain of a cell that was replaced, if there is one.
pub(crate) fn free_replaced<S: PageSpace>(
    alloc: Global,
    space: &mut S,
    replaced: &Option<LeafCell>,
) -> Result<(), SpaceFault>
    requires writable { IsWritable (S.state space.old) }
    requires sizes { HasSizes (S.state space.old) }
    requires kept { IfSome replaced.now (λ cell. length cell.local ≤ cell.payload_len) }
    ensures steady { Steady (S.state space.old) (S.state space.new) }
    ensures freed { OnOk result (ReplacedFreed (S.state space.old) (S.state space.new) replaced.now) }
    ensures refused { IfErr result (FreeingRefused (S.state space.old) (S.state space.new) replaced.now) }
    ensures noted { NotesChange (S.state space.old) (S.state space.new) }
{
    let Some(cell) = replaced else {
        return Ok(());
    };
    let rest = cell.payload_len - cell.local.as_slice().len() as u64;
    free_chain(alloc, space, cell.overflow, rest)
}
