//! The rows of a table.

ghost use Rattle.std.specs.Prelude.{IsTrue, IfOk, IfErr};
ghost use Rattle.page_pool.specs.Space.{IsReady, Steady, Stays};
ghost use Rattle.table_store.specs.Tables.{ReadRefused, GetsRow, RowMeets, ScansNext, NextMeets, Counts, CountMeets};
ghost use Rattle.table_store.specs.Books.{OfBook, BookRow, BookNext, BookCount, BookRefused};

use crate::fault::TableFault;
use crate::fill::{fill_found, fill_next};
use crate::schema::find_table;
use book_reads::{row_read, rows_read, schema_read, tables_read};
use db_format::Record;
use page_pool::PageSpace;
use std::alloc::Global;
use table_rows::{count_rows, find_record, next_record};

/// The row of `rowid` in a plain table, with one value a column, or that there is none.
///
/// Refused as going over the schema is, with `NoTable` or `Foreign`, and as going down to the row and reading it is. Nothing changes.
pub fn get<S: PageSpace>(
    alloc: Global,
    space: &mut S,
    name: &[u8],
    rowid: i64,
) -> Result<Option<Record>, TableFault>
    requires ready { IsReady (S.state space.old) }
    ensures steady { Steady (S.state space.old) (S.state space.new) }
    ensures stays { Stays (S.state space.old) (S.state space.new) }
    ensures found { IsTrue (S.state space.old).tells → IfOk result (GetsRow (S.state space.old).pages name.now rowid) }
    ensures refused { IfErr result (ReadRefused (S.state space.old) (S.state space.new) name.now (RowMeets (S.state space.old).pages rowid)) }
    ensures whole { IsTrue (S.state space.old).tells → IfOk result (λ found. OfBook (S.state space.old).pages (λ book. BookRow book name.now rowid found)) }
    ensures clean { IsTrue (S.state space.old).tells → IfErr result (λ fault. OfBook (S.state space.old).pages (λ book. BookRefused book name.now fault)) }
{
    schema_read();
    tables_read();
    row_read();
    row_of(alloc, space, name, rowid)
}

/// The same, whether the pages have a book or not.
fn row_of<S: PageSpace>(
    alloc: Global,
    space: &mut S,
    name: &[u8],
    rowid: i64,
) -> Result<Option<Record>, TableFault>
    requires ready { IsReady (S.state space.old) }
    ensures steady { Steady (S.state space.old) (S.state space.new) }
    ensures stays { Stays (S.state space.old) (S.state space.new) }
    ensures found { IsTrue (S.state space.old).tells → IfOk result (GetsRow (S.state space.old).pages name.now rowid) }
    ensures refused { IfErr result (ReadRefused (S.state space.old) (S.state space.new) name.now (RowMeets (S.state space.old).pages rowid)) }
{
    let place = find_table(alloc, space, name)?;
    let row = find_record(alloc, space, place.root, rowid, place.columns)?;
    let full = fill_found(row, place.columns)?;
    Ok(full)
}

/// The first row of a plain table with a rowid from `from` to `to`, both included, or that there is none.
///
/// Refused as `get` is.
pub fn scan_next<S: PageSpace>(
    alloc: Global,
    space: &mut S,
    name: &[u8],
    from: i64,
    to: i64,
) -> Result<Option<(i64, Record)>, TableFault>
    requires ready { IsReady (S.state space.old) }
    ensures steady { Steady (S.state space.old) (S.state space.new) }
    ensures stays { Stays (S.state space.old) (S.state space.new) }
    ensures found { IsTrue (S.state space.old).tells → IfOk result (ScansNext (S.state space.old).pages name.now from to) }
    ensures refused { IfErr result (ReadRefused (S.state space.old) (S.state space.new) name.now (NextMeets (S.state space.old).pages from to)) }
    ensures whole { IsTrue (S.state space.old).tells → IfOk result (λ found. OfBook (S.state space.old).pages (λ book. BookNext book name.now from to found)) }
    ensures clean { IsTrue (S.state space.old).tells → IfErr result (λ fault. OfBook (S.state space.old).pages (λ book. BookRefused book name.now fault)) }
{
    schema_read();
    tables_read();
    rows_read();
    next_of(alloc, space, name, from, to)
}

/// The same, whether the pages have a book or not.
fn next_of<S: PageSpace>(
    alloc: Global,
    space: &mut S,
    name: &[u8],
    from: i64,
    to: i64,
) -> Result<Option<(i64, Record)>, TableFault>
    requires ready { IsReady (S.state space.old) }
    ensures steady { Steady (S.state space.old) (S.state space.new) }
    ensures stays { Stays (S.state space.old) (S.state space.new) }
    ensures found { IsTrue (S.state space.old).tells → IfOk result (ScansNext (S.state space.old).pages name.now from to) }
    ensures refused { IfErr result (ReadRefused (S.state space.old) (S.state space.new) name.now (NextMeets (S.state space.old).pages from to)) }
{
    let place = find_table(alloc, space, name)?;
    let row = next_record(alloc, space, place.root, from, to, place.columns)?;
    let full = fill_next(row, place.columns)?;
    Ok(full)
}

/// How many rows a plain table has. All of them are read.
///
/// Refused as `get` is.
pub fn count<S: PageSpace>(alloc: Global, space: &mut S, name: &[u8]) -> Result<u64, TableFault>
    requires ready { IsReady (S.state space.old) }
    ensures steady { Steady (S.state space.old) (S.state space.new) }
    ensures stays { Stays (S.state space.old) (S.state space.new) }
    ensures found { IsTrue (S.state space.old).tells → IfOk result (Counts (S.state space.old).pages name.now) }
    ensures refused { IfErr result (ReadRefused (S.state space.old) (S.state space.new) name.now (CountMeets (S.state space.old).pages)) }
    ensures whole { IsTrue (S.state space.old).tells → IfOk result (λ found. OfBook (S.state space.old).pages (λ book. BookCount book name.now found)) }
    ensures clean { IsTrue (S.state space.old).tells → IfErr result (λ fault. OfBook (S.state space.old).pages (λ book. BookRefused book name.now fault)) }
{
    schema_read();
    tables_read();
    rows_read();
    count_of(alloc, space, name)
}

/// The same, whether the pages have a book or not.
fn count_of<S: PageSpace>(alloc: Global, space: &mut S, name: &[u8]) -> Result<u64, TableFault>
    requires ready { IsReady (S.state space.old) }
    ensures steady { Steady (S.state space.old) (S.state space.new) }
    ensures stays { Stays (S.state space.old) (S.state space.new) }
    ensures found { IsTrue (S.state space.old).tells → IfOk result (Counts (S.state space.old).pages name.now) }
    ensures refused { IfErr result (ReadRefused (S.state space.old) (S.state space.new) name.now (CountMeets (S.state space.old).pages)) }
{
    let place = find_table(alloc, space, name)?;
    let count = count_rows(alloc, space, place.root, place.columns)?;
    Ok(count)
}
