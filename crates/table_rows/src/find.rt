//! The row of a rowid.

ghost use Rattle.std.specs.Prelude.{◌≤◌, IsTrue, IfOk, IfErr, Some};
ghost use Rattle.page_pool.specs.Space.{IsReady, Steady, Stays};
ghost use Rattle.tree_model.specs.declared.ends.PathEnd.TheVariants.{Ends};
ghost use Rattle.tree_model.specs.Walk.{Path};
ghost use Rattle.tree_search.specs.Search.{SearchRefused};
ghost use Rattle.table_rows.specs.Rows.{FindsRecord};

use crate::read::record_of;
use db_format::Record;
use page_pool::{PageSpace, SpaceFault};
use std::alloc::Global;
use tree_search::find_on_leaf;

/// The values of the row of `rowid` in the table from page `root`, at most `columns`, or that there is no such row.
///
/// Refused as `find_on_leaf` is, and with `Corrupt` of the leaf of the row where its payload is no record of at most so many values.
pub fn find_record<S: PageSpace>(
    alloc: Global,
    space: &mut S,
    root: u32,
    rowid: i64,
    columns: usize,
) -> Result<Option<Record>, SpaceFault>
    requires ready { IsReady (S.state space.old) }
    requires some { 1 ≤ (S.state space.old).pages.size }
    ensures steady { Steady (S.state space.old) (S.state space.new) }
    ensures stays { Stays (S.state space.old) (S.state space.new) }
    ensures found { IsTrue (S.state space.old).tells → IfOk result (FindsRecord columns (S.state space.old).pages root rowid) }
    ensures refused { IfErr result (SearchRefused (S.state space.old) (S.state space.new)
        (λ fault. Path (Some columns) (S.state space.old).pages root rowid (Ends fault))) }
{
    let Some(row) = find_on_leaf(alloc, space, root, rowid)? else {
        return Ok(None);
    };
    let record = record_of(alloc, &row, columns)?;
    Ok(Some(record))
}
