//! Walks over the rows of a table: those between two rowids, and how many there are.

ghost use Rattle.std.specs.Prelude.{◌≤◌, IsTrue, IfOk, IfErr, List};
ghost use Rattle.page_pool.specs.Space.{IsReady, Steady, Stays};
ghost use Rattle.tree_model.specs.declared.ends.WalkEnd.TheVariants.{End, StopsAt};
ghost use Rattle.tree_model.specs.Whole.{greatest};
ghost use Rattle.tree_search.specs.Search.{SearchRefused};
ghost use Rattle.table_rows.specs.Rows.{least, WalksOver, StopsAfter, CountsRows};

use crate::next::next_record;
use crate::read::ask_sizes;
use db_format::Record;
use page_pool::{PageSpace, SpaceFault};
use std::alloc::Global;
use tree_page::one_page;

/// The rows with rowids from `from` to `to`, both included, in the table from page `root`, in the order of their rowids: of each its rowid
/// and its values, at most `columns`.
///
/// Refused as `next_record` is, of the first row that cannot be found or read.
pub fn walk<S: PageSpace>(
    alloc: Global,
    space: &mut S,
    root: u32,
    from: i64,
    to: i64,
    columns: usize,
) -> Result<Vec<(i64, Record)>, SpaceFault>
    requires ready { IsReady (S.state space.old) }
    requires some { 1 ≤ (S.state space.old).pages.size }
    ensures steady { Steady (S.state space.old) (S.state space.new) }
    ensures stays { Stays (S.state space.old) (S.state space.new) }
    ensures found { IsTrue (S.state space.old).tells → IfOk result (λ rows. WalksOver columns (S.state space.old).pages root from to rows.items End) }
    ensures refused { IfErr result (SearchRefused (S.state space.old) (S.state space.new) (StopsAfter columns (S.state space.old).pages root from to)) }
{
    ask_sizes(space);
    let mut rows = Vec::new(alloc);
    let mut key = from;
    loop {
        let Some((rowid, record)) = next_record(alloc, space, root, key, to, columns)? else {
            return Ok(rows);
        };
        rows.push((rowid, record))?;
        if rowid == to {
            return Ok(rows);
        }
        key = rowid + 1;
    }
}

/// How many rows the table from page `root` has, each with at most `columns` values. No row is kept in memory.
///
/// Refused as `next_record` is, of the first row that cannot be found or read. No told pages have too many rows for the number; where a
/// space tells nothing, it stays at the greatest.
pub fn count_rows<S: PageSpace>(
    alloc: Global,
    space: &mut S,
    root: u32,
    columns: usize,
) -> Result<u64, SpaceFault>
    requires ready { IsReady (S.state space.old) }
    requires some { 1 ≤ (S.state space.old).pages.size }
    ensures steady { Steady (S.state space.old) (S.state space.new) }
    ensures stays { Stays (S.state space.old) (S.state space.new) }
    ensures found { IsTrue (S.state space.old).tells → IfOk result (CountsRows columns (S.state space.old).pages root) }
    ensures refused { IfErr result (SearchRefused (S.state space.old) (S.state space.new) (StopsAfter columns (S.state space.old).pages root least greatest)) }
{
    one_page();
    ask_sizes(space);
    let mut count: u64 = 0;
    let mut key = i64::MIN;
    loop {
        let Some((rowid, _)) = next_record(alloc, space, root, key, i64::MAX, columns)? else {
            return Ok(count);
        };
        count = count.saturating_add(1);
        if rowid == i64::MAX {
            return Ok(count);
        }
        key = rowid + 1;
    }
}
