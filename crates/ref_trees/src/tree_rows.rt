//! The rows of a leaf, with their whole payloads.

ghost use Rattle.std.specs.Prelude.{◌≡◌, ◌++◌, List, IfOk, IfSome, IfNone};
ghost use Rattle.tree_model.specs.Tree.{Row, rowid};
ghost use Rattle.tree_model.specs.Held.{HasRow};
ghost use Rattle.ref_pages.specs.AsPages.{pages_of};
ghost use Rattle.ref_trees.specs.GatherSteps.{AreRowsOf};

use db_format::Bytes;
use page_list::one_chain;
use ref_pages::{ChainEnd, PageNumbers, RefPages, chain_of};
use std::alloc::{AllocError, Global};
use std::marker::Model;
use tree_page::LeafCell;

/// A row of a tree. Contracts see it as a `Row`.
#[derive(Debug, Drop)]
pub struct RefRow {
    cell: LeafCell,
    chain: PageNumbers,
    payload: Bytes,
}

impl Model for RefRow {
    ghost use Rattle.tree_model.specs.Tree.{Row};

    ghost Value = { Row };

    ghost view = { λ r. record { cell = r.cell; chain = r.chain; payload = r.payload } };
}

impl RefRow {
    /// Its rowid.
    pub fn rowid(&self) -> i64
        ensures { result ≡ rowid self.now }
    {
        self.cell.rowid
    }

    /// The pages of its overflow chain, in order.
    pub fn chain(&self) -> &[u32]
        ensures { result.now ≡ self.now.chain }
    {
        self.chain.as_slice()
    }

    /// Its whole payload.
    pub fn payload(&self) -> &[u8]
        ensures { result.now ≡ self.now.payload }
    {
        self.payload.as_slice()
    }
}

/// The rows of the cells of a leaf, or `None` where a cell has no such chain as its payload needs.
pub(crate) fn rows_of_cells(
    alloc: Global,
    pages: &RefPages,
    cells: &[LeafCell],
) -> Result<Option<Vec<RefRow>>, AllocError>
    ensures found { IfOk result (λ found. IfSome found (λ rows. AreRowsOf (pages_of pages.now) cells.now rows.items)) }
    ensures none { IfOk result (λ found. IfNone found ((rows : List Row) → ¬ (AreRowsOf (pages_of pages.now) cells.now rows))) }
{
    let mut rows = Vec::new(alloc);
    for cell in cells {
        let Some(row) = row_of(alloc, pages, cell)? else {
            return Ok(None);
        };
        rows.push(row)?;
    }
    Ok(Some(rows))
}

/// The row of a cell, or `None` where the cell has no such chain as its payload needs.
fn row_of(alloc: Global, pages: &RefPages, cell: &LeafCell) -> Result<Option<RefRow>, AllocError>
    ensures found { IfOk result (λ found. IfSome found (λ row. (row.cell ≡ cell.now) × HasRow (pages_of pages.now) row)) }
    ensures none { IfOk result (λ found. IfNone found ((row : Row) → row.cell ≡ cell.now → ¬ (HasRow (pages_of pages.now) row))) }
{
    one_chain();
    let local = cell.local.as_slice();
    let Some(len) = cell.payload_len.checked_sub(local.len() as u64) else {
        return Ok(None);
    };
    match chain_of(alloc, pages, cell.overflow, len)? {
        ChainEnd::Whole { numbers, payload } => {
            let row = joined(alloc, cell, numbers, payload.as_slice())?;
            Ok(Some(row))
        }
        ChainEnd::Breaks { .. } | ChainEnd::Fails { .. } => Ok(None),
    }
}

/// The row of a cell with this chain, which holds the rest of its payload.
fn joined(
    alloc: Global,
    cell: &LeafCell,
    chain: PageNumbers,
    rest: &[u8],
) -> Result<RefRow, AllocError>
    ensures cell { IfOk result (λ row. row.cell ≡ cell.now) }
    ensures chain { IfOk result (λ row. row.chain ≡ chain) }
    ensures payload { IfOk result (λ row. row.payload ≡ cell.now.local ++ rest.now) }
{
    let local = Bytes::from_vec(Vec::from_slice(alloc, cell.local.as_slice())?);
    let mut payload = Vec::from_slice(alloc, cell.local.as_slice())?;
    payload.extend_from_slice(rest)?;
    let cell = LeafCell {
        rowid: cell.rowid,
        payload_len: cell.payload_len,
        local,
        overflow: cell.overflow,
    };
    Ok(RefRow {
        cell,
        chain,
        payload: Bytes::from_vec(payload),
    })
}
