//! The payload of a row: what its cell keeps, and behind it what its chain holds.

ghost use Rattle.std.specs.Prelude.{◌≡◌, ◌≤◌, ◌++◌, ◌↔◌, length, IfOk, IsTrue};
ghost use Rattle.tree_model.specs.Walk.{Accepts};
ghost use Rattle.db_format.specs.Schema.{IsRecordOf};
ghost use Rattle.ref_pages.specs.AsPages.{pages_of};
ghost use Rattle.ref_trees.specs.Steps.{IsKept, IsNamed, IsRead};

use db_format::{Bytes, FormatFault, one_record, read_record};
use ref_pages::{ChainEnd, RefPages, chain_of};
use std::alloc::{AllocError, Global};
use tree_model::Fault;
use tree_page::LeafCell;

/// The payload of a cell on a leaf, or why it cannot be read. With `columns` it has to be a record of at most so many.
pub(crate) fn payload_of(
    alloc: Global,
    pages: &RefPages,
    leaf: u32,
    cell: &LeafCell,
    columns: Option<u32>,
) -> Result<Result<Bytes, Fault>, AllocError>
    requires { IsKept cell.now }
    ensures { IfOk result (λ read. IsRead columns (pages_of pages.now) leaf cell.now read) }
{
    let local = cell.local.as_slice();
    let rest = cell.payload_len - local.len() as u64;
    match chain_of(alloc, pages, cell.overflow, rest)? {
        ChainEnd::Whole { payload, .. } => {
            let whole = joined(alloc, local, payload.as_slice())?;
            if accepts(alloc, columns, whole.as_slice())? {
                Ok(Ok(whole))
            } else {
                Ok(Err(Fault::Broken(leaf)))
            }
        }
        ChainEnd::Breaks { page } => Ok(Err(broken(pages, leaf, page))),
        ChainEnd::Fails { page, .. } => Ok(Err(Fault::BadPage(page))),
    }
}

/// The fault of a chain that breaks at a page: one of the leaf, where that is none.
fn broken(pages: &RefPages, leaf: u32, page: u32) -> Fault
    ensures { IsNamed (pages_of pages.now) leaf page result }
{
    match pages.bytes_of(page) {
        Some(_) => Fault::Broken(page),
        None => Fault::Broken(leaf),
    }
}

/// Some bytes and others behind them.
fn joined(alloc: Global, front: &[u8], back: &[u8]) -> Result<Bytes, AllocError>
    ensures { IfOk result (λ whole. whole ≡ front.now ++ back.now) }
{
    let mut whole = Vec::from_slice(alloc, front)?;
    whole.extend_from_slice(back)?;
    Ok(Bytes::from_vec(whole))
}

/// Whether a payload is accepted: any, or one that is a record of at most so many columns.
fn accepts(alloc: Global, columns: Option<u32>, payload: &[u8]) -> Result<bool, AllocError>
    ensures { IfOk result (λ yes. IsTrue yes ↔ Accepts columns payload.now) }
{
    match columns {
        None => Ok(true),
        Some(most) => is_record(alloc, most, payload),
    }
}

/// Whether a payload is a record of at most so many columns.
fn is_record(alloc: Global, most: u32, payload: &[u8]) -> Result<bool, AllocError>
    ensures { IfOk result (λ yes. IsTrue yes ↔ IsRecordOf most payload.now) }
{
    one_record();
    match read_record(alloc, payload) {
        Ok(values) => Ok(values.as_slice().len() <= most as usize),
        Err(FormatFault::Corrupt) => Ok(false),
        Err(FormatFault::Memory) => Err(AllocError),
    }
}
