//! Tables made.

ghost use Rattle.std.specs.Prelude.{◌≡◌, ◌≤◌, IsTrue, IfOk, IfErr, OnOk};
ghost use Rattle.page_pool.specs.Space.{IsWritable, Steady};
ghost use Rattle.page_pool.specs.Pool.{NotesChange};
ghost use Rattle.db_format.specs.Create.{IsPlain};
ghost use Rattle.db_format.specs.declared.value.Value.TheVariants.{Text};
ghost use Rattle.book_model.specs.Book.{entry_row};
ghost use Rattle.table_store.specs.Books.{OfSpace};
ghost use Rattle.table_store.specs.Made.{MakeDone, MakeFails, BookMade, BookMakeFails, EntryPut, EntryRefused};

use crate::begin::begin;
use crate::cookie::raise_cookie;
use crate::entry::free_entry;
use crate::fault::TableFault;
use crate::schema::SCHEMA_ROOT;
use crate::writes::are_bytes;
use book_changes::{first_page, first_table, large_entry, large_root, table_made};
use book_model::record_has_size;
use book_reads::schema_read;
use db_format::{Bytes, Create, Record, SpaceFault, Value, write_create, write_record};
use page_pool::PageSpace;
use rowid_tree::make_root;
use std::alloc::{AllocError, Global};
use tree_laws::front_kept;
use tree_model::rows_rise;

/// Makes a plain table without a row: takes a page for the root of its tree, puts its row into the schema, and raises the schema cookie.
/// In a database of no pages page 1 is made first.
///
/// Refused as going over the schema is, and with `Exists` where a row of it takes the name, in letters of either case: then nothing has
/// changed. Refused as adding and putting page 1, `rowid_tree::make_root` and `rowid_tree::put` are, with `Large` where one page more
/// passes the greatest database: then some of the pages are changed.
pub fn create<S: PageSpace>(alloc: Global, space: &mut S, table: &Create) -> Result<(), TableFault>
    requires writable { IsWritable (S.state space.old) }
    requires plain { IsPlain table.now }
    ensures steady { Steady (S.state space.old) (S.state space.new) }
    ensures done { OnOk result (MakeDone (S.state space.old) (S.state space.new) table.now) }
    ensures whole { IsTrue (S.state space.old).tells → OnOk result (OfSpace (S.state space.old) (λ book. BookMade (S.state space.old) (S.state space.new) book table.now)) }
    ensures refused { IfErr result (MakeFails (S.state space.old) (S.state space.new) table.now) }
    ensures clean { IsTrue (S.state space.old).tells → IfErr result (λ fault. OfSpace (S.state space.old) (λ book. BookMakeFails (S.state space.old).page_size book table.now fault)) }
    ensures noted { NotesChange (S.state space.old) (S.state space.new) }
{
    schema_read();
    record_has_size();
    first_page();
    first_table();
    table_made();
    large_root();
    large_entry();
    front_kept();
    rows_rise();
    make_table(alloc, space, table)
}

/// The same, without what it is for books.
fn make_table<S: PageSpace>(alloc: Global, space: &mut S, table: &Create) -> Result<(), TableFault>
    requires writable { IsWritable (S.state space.old) }
    requires plain { IsPlain table.now }
    ensures steady { Steady (S.state space.old) (S.state space.new) }
    ensures done { OnOk result (MakeDone (S.state space.old) (S.state space.new) table.now) }
    ensures refused { IfErr result (MakeFails (S.state space.old) (S.state space.new) table.now) }
    ensures noted { NotesChange (S.state space.old) (S.state space.new) }
{
    let entry = free_entry(alloc, space, table.name.as_slice())?;
    begin(alloc, space)?;
    let root = make_root(alloc, space)?;
    put_entry(alloc, space, table, root, entry)?;
    raise_cookie(alloc, space)?;
    Ok(())
}

/// Puts the row that a table has in the schema. Refused for want of memory before anything changes, and as `rowid_tree::put` is.
fn put_entry<S: PageSpace>(
    alloc: Global,
    space: &mut S,
    table: &Create,
    root: u32,
    entry: i64,
) -> Result<(), SpaceFault>
    requires writable { IsWritable (S.state space.old) }
    requires some { 1 ≤ (S.state space.old).pages.size }
    requires plain { IsPlain table.now }
    ensures steady { Steady (S.state space.old) (S.state space.new) }
    ensures some { OnOk result (1 ≤ (S.state space.new).pages.size) }
    ensures put { OnOk result (EntryPut (S.state space.old) (S.state space.new) table.now root entry) }
    ensures refused { IfErr result (EntryRefused (S.state space.old) (S.state space.new) table.now root entry) }
    ensures noted { NotesChange (S.state space.old) (S.state space.new) }
{
    // the space says, when it is asked, that its pages have their sizes
    let _size = space.size();
    let values = entry_values(alloc, table, root)?;
    let payload = write_record(alloc, values.as_slice())?;
    let bytes = payload.as_slice();
    are_bytes(bytes);
    let _replaced = rowid_tree::put(alloc, space, SCHEMA_ROOT, entry, bytes)?;
    Ok(())
}

/// The row that a table has in the schema: type, name, table, root and text.
fn entry_values(alloc: Global, table: &Create, root: u32) -> Result<Record, AllocError>
    requires plain { IsPlain table.now }
    ensures { IfOk result (λ values. values ≡ (entry_row table.now.name table.now.columns root).values) }
{
    let text = write_create(alloc, table)?;
    let mut values = Vec::new(alloc);
    values.push(text_of(alloc, b"table")?)?;
    values.push(text_of(alloc, table.name.as_slice())?)?;
    values.push(text_of(alloc, table.name.as_slice())?)?;
    values.push(Value::Int(i64::from(root)))?;
    values.push(Value::Text(text))?;
    Ok(Record::from_vec(values))
}

/// Bytes as a text.
fn text_of(alloc: Global, bytes: &[u8]) -> Result<Value, AllocError>
    ensures { IfOk result (λ value. value ≡ Text bytes.now) }
{
    Ok(Value::Text(Bytes::from_vec(Vec::from_slice(alloc, bytes)?)))
}
