//! The next row, one step of a walk.

ghost use Rattle.std.specs.Prelude.{◌≤◌, ◌≤ℤ◌, IsTrue, IfOk, IfErr, IfSome, Some, []};
ghost use Rattle.page_pool.specs.Space.{IsReady, Steady, Stays};
ghost use Rattle.tree_model.specs.declared.ends.WalkEnd.TheVariants.{StopsAt};
ghost use Rattle.tree_model.specs.Walk.{Walk};
ghost use Rattle.tree_search.specs.Search.{SearchRefused};
ghost use Rattle.table_rows.specs.Rows.{HasNextRecord};

use crate::read::{ask_sizes, record_of};
use db_format::Record;
use page_pool::{PageSpace, SpaceFault};
use std::alloc::Global;
use tree_search::next_on_leaf;

/// The first row with a rowid from `from` to `to`, both included, in the table from page `root`: its rowid and its values, at most
/// `columns`. `None` where no such row follows.
///
/// Refused as `next_on_leaf` is, and with `Corrupt` of the leaf of the row where its payload is no record of at most so many values. A row
/// past `to` has its chain read, and is not asked to be a record.
pub fn next_record<S: PageSpace>(
    alloc: Global,
    space: &mut S,
    root: u32,
    from: i64,
    to: i64,
    columns: usize,
) -> Result<Option<(i64, Record)>, SpaceFault>
    requires ready { IsReady (S.state space.old) }
    requires some { 1 ≤ (S.state space.old).pages.size }
    ensures steady { Steady (S.state space.old) (S.state space.new) }
    ensures stays { Stays (S.state space.old) (S.state space.new) }
    ensures within { IfOk result (λ next. IfSome next (λ row. (from ≤ℤ row.0) × (row.0 ≤ℤ to))) }
    ensures found { IsTrue (S.state space.old).tells → IfOk result (HasNextRecord columns (S.state space.old).pages root from to) }
    ensures refused { IfErr result (SearchRefused (S.state space.old) (S.state space.new)
        (λ fault. Walk (Some columns) (S.state space.old).pages root from to [] (StopsAt fault))) }
{
    if to < from {
        ask_sizes(space);
        return Ok(None);
    }
    let Some(row) = next_on_leaf(alloc, space, root, from)? else {
        return Ok(None);
    };
    if to < row.rowid {
        return Ok(None);
    }
    let record = record_of(alloc, &row, columns)?;
    Ok(Some((row.rowid, record)))
}
