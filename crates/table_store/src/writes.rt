//! The rows of a table, changed.

ghost use Rattle.std.specs.Prelude.{◌≡◌, ◌≤◌, length, IsTrue, IfOk, IfErr, OnOk};
ghost use Rattle.std.specs.List.{list_any};
ghost use Rattle.page_pool.specs.Space.{IsReady, IsWritable, Steady, Stays};
ghost use Rattle.page_pool.specs.Pool.{NotesChange};
ghost use Rattle.db_format.specs.Record.{AreBytes};
ghost use Rattle.table_store.specs.Steps.{FindsPlace};
ghost use Rattle.table_store.specs.Tables.{ReadRefused, RowMeets};
ghost use Rattle.table_store.specs.Books.{OfBook};
ghost use Rattle.table_store.specs.Writes.{is_long, RowIsRead, Fit, Misfit, RowPutIn, PutFails, PlaceFails, RowTakenFrom, RemoveFails};
ghost use Rattle.table_store.specs.Changed.{BookPut, BookPutFails, BookRemoved, BookRemoveFails};

use crate::fault::TableFault;
use crate::schema::{Place, find_table};
use book_changes::{large_put, large_removal, row_put, row_removed};
use book_model::record_has_size;
use book_reads::{row_read, schema_read, tables_read};
use db_format::{Value, one_create, write_record};
use page_pool::PageSpace;
use std::alloc::Global;
use table_rows::find_record;
use tree_laws::front_kept;

/// The most bytes of a text or a blob.
const LONGEST: usize = 65536;

/// Puts the row of `rowid` with these values into a plain table, and answers whether it replaced one.
///
/// Refused as going over the schema is, with `NoTable` or `Foreign`, with `Columns` where there are not as many values as columns, with
/// `TooLong` where a text or a blob has more than 65,536 bytes, and as `get` of this row is: then nothing has changed. Refused as
/// `rowid_tree::put` is, with `Large` where one page more passes the greatest database: then some of the pages are changed.
pub fn put<S: PageSpace>(
    alloc: Global,
    space: &mut S,
    name: &[u8],
    rowid: i64,
    values: &[Value],
) -> Result<bool, TableFault>
    requires writable { IsWritable (S.state space.old) }
    ensures steady { Steady (S.state space.old) (S.state space.new) }
    ensures done { IfOk result (RowPutIn (S.state space.old) (S.state space.new) name.now rowid values.now) }
    ensures whole { IsTrue (S.state space.old).tells → IfOk result (λ replaced. OfBook (S.state space.old).pages (λ book. BookPut (S.state space.old) (S.state space.new) book name.now rowid values.now replaced)) }
    ensures refused { IfErr result (PutFails (S.state space.old) (S.state space.new) name.now rowid values.now) }
    ensures clean { IsTrue (S.state space.old).tells → IfErr result (λ fault. OfBook (S.state space.old).pages (λ book. BookPutFails (S.state space.old).page_size book name.now rowid values.now fault)) }
    ensures noted { NotesChange (S.state space.old) (S.state space.new) }
{
    one_create();
    schema_read();
    tables_read();
    row_read();
    record_has_size();
    row_put();
    large_put();
    front_kept();
    put_values(alloc, space, name, rowid, values)
}

/// The same, without what it is for books.
fn put_values<S: PageSpace>(
    alloc: Global,
    space: &mut S,
    name: &[u8],
    rowid: i64,
    values: &[Value],
) -> Result<bool, TableFault>
    requires writable { IsWritable (S.state space.old) }
    ensures steady { Steady (S.state space.old) (S.state space.new) }
    ensures done { IfOk result (RowPutIn (S.state space.old) (S.state space.new) name.now rowid values.now) }
    ensures refused { IfErr result (PutFails (S.state space.old) (S.state space.new) name.now rowid values.now) }
    ensures noted { NotesChange (S.state space.old) (S.state space.new) }
{
    let place = place_for(alloc, space, name, rowid, values)?;
    let payload = write_record(alloc, values)?;
    let bytes = payload.as_slice();
    are_bytes(bytes);
    let replaced = rowid_tree::put(alloc, space, place.root, rowid, bytes)?;
    Ok(replaced)
}

/// Where the rows of the plain table of a name are, where these values may be put into it and the path of the rowid meets no fault.
fn place_for<S: PageSpace>(
    alloc: Global,
    space: &mut S,
    name: &[u8],
    rowid: i64,
    values: &[Value],
) -> Result<Place, TableFault>
    requires ready { IsReady (S.state space.old) }
    ensures steady { Steady (S.state space.old) (S.state space.new) }
    ensures stays { Stays (S.state space.old) (S.state space.new) }
    ensures some { IfOk result (λ _. 1 ≤ (S.state space.old).pages.size) }
    ensures found { IsTrue (S.state space.old).tells → IfOk result (FindsPlace (S.state space.old).pages name.now) }
    ensures read { IsTrue (S.state space.old).tells → IfOk result (λ _. RowIsRead (S.state space.old).pages name.now rowid) }
    ensures fit { IfOk result (λ place. Fit place.columns values.now) }
    ensures refused { IfErr result (PlaceFails (S.state space.old) (S.state space.new) name.now rowid values.now) }
{
    let place = find_table(alloc, space, name)?;
    check_values(values, place.columns)?;
    let _row = find_record(alloc, space, place.root, rowid, place.columns)?;
    Ok(place)
}

/// Whether these values may be put into a table with so many columns.
fn check_values(values: &[Value], columns: usize) -> Result<(), TableFault>
    ensures fit { OnOk result (Fit columns values.now) }
    ensures misfit { IfErr result (Misfit columns values.now) }
{
    if values.len() != columns {
        return Err(TableFault::Columns);
    }
    if any_long(values) {
        return Err(TableFault::TooLong);
    }
    Ok(())
}

/// Whether one of these values is a text or a blob of more than 65,536 bytes.
fn any_long(values: &[Value]) -> bool
    ensures { result ≡ list_any is_long values.now }
{
    values.iter().any(is_long)
}

/// Does nothing: that bytes are bytes is a fact of their type.
pub(crate) fn are_bytes(bytes: &[u8])
    ensures { AreBytes bytes.now }
{}

/// Takes the row of `rowid` out of a plain table, and answers whether there was one.
///
/// Refused as going over the schema is, with `NoTable` or `Foreign`, and as `get` of this row is: then nothing has changed. Refused as
/// `rowid_tree::remove` is: then some of the pages are changed.
pub fn remove<S: PageSpace>(
    alloc: Global,
    space: &mut S,
    name: &[u8],
    rowid: i64,
) -> Result<bool, TableFault>
    requires writable { IsWritable (S.state space.old) }
    ensures steady { Steady (S.state space.old) (S.state space.new) }
    ensures done { IfOk result (RowTakenFrom (S.state space.old) (S.state space.new) name.now rowid) }
    ensures whole { IsTrue (S.state space.old).tells → IfOk result (λ removed. OfBook (S.state space.old).pages (λ book. BookRemoved (S.state space.old) (S.state space.new) book name.now rowid removed)) }
    ensures refused { IfErr result (RemoveFails (S.state space.old) (S.state space.new) name.now rowid) }
    ensures clean { IsTrue (S.state space.old).tells → IfErr result (λ fault. OfBook (S.state space.old).pages (λ book. BookRemoveFails (S.state space.old).page_size book name.now rowid fault)) }
    ensures noted { NotesChange (S.state space.old) (S.state space.new) }
{
    one_create();
    schema_read();
    tables_read();
    row_read();
    row_removed();
    large_removal();
    front_kept();
    remove_row(alloc, space, name, rowid)
}

/// The same, without what it is for books.
fn remove_row<S: PageSpace>(
    alloc: Global,
    space: &mut S,
    name: &[u8],
    rowid: i64,
) -> Result<bool, TableFault>
    requires writable { IsWritable (S.state space.old) }
    ensures steady { Steady (S.state space.old) (S.state space.new) }
    ensures done { IfOk result (RowTakenFrom (S.state space.old) (S.state space.new) name.now rowid) }
    ensures refused { IfErr result (RemoveFails (S.state space.old) (S.state space.new) name.now rowid) }
    ensures noted { NotesChange (S.state space.old) (S.state space.new) }
{
    let place = place_at(alloc, space, name, rowid)?;
    let removed = rowid_tree::remove(alloc, space, place.root, rowid)?;
    Ok(removed)
}

/// Where the rows of the plain table of a name are, where the path of the rowid meets no fault.
fn place_at<S: PageSpace>(
    alloc: Global,
    space: &mut S,
    name: &[u8],
    rowid: i64,
) -> Result<Place, TableFault>
    requires ready { IsReady (S.state space.old) }
    ensures steady { Steady (S.state space.old) (S.state space.new) }
    ensures stays { Stays (S.state space.old) (S.state space.new) }
    ensures some { IfOk result (λ _. 1 ≤ (S.state space.old).pages.size) }
    ensures found { IsTrue (S.state space.old).tells → IfOk result (FindsPlace (S.state space.old).pages name.now) }
    ensures read { IsTrue (S.state space.old).tells → IfOk result (λ _. RowIsRead (S.state space.old).pages name.now rowid) }
    ensures refused { IfErr result (ReadRefused (S.state space.old) (S.state space.new) name.now (RowMeets (S.state space.old).pages rowid)) }
{
    let place = find_table(alloc, space, name)?;
    let _row = find_record(alloc, space, place.root, rowid, place.columns)?;
    Ok(place)
}

/// Whether a value is a text or a blob of more than 65,536 bytes.
fn is_long(value: &Value) -> bool
    ensures { result ≡ is_long value.now }
{
    match value {
        Value::Text(bytes) | Value::Blob(bytes) => bytes.as_slice().len() > LONGEST,
        Value::Null | Value::Int(_) | Value::Real(_) => false,
    }
}
