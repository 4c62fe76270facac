//! Tables dropped.

ghost use Rattle.std.specs.Prelude.{◌≡◌, ◌≢◌, ◌↔◌, ◌≤◌, ◌<◌, length, None, Some, IsTrue, IfOk, IfErr, OnOk, IfSome, IfNone};
ghost use Rattle.page_pool.specs.Space.{IsReady, IsWritable, Steady, Stays};
ghost use Rattle.page_pool.specs.Pool.{NotesChange};
ghost use Rattle.tree_free.specs.Free.{TreeFreed, RemovesRoot, TreeRefused, IsSoundlyRefused};
ghost use Rattle.book_reads.specs.Reads.{plain_named};
ghost use Rattle.table_store.specs.Tables.{ReadRefused};
ghost use Rattle.table_store.specs.Steps.{NotFoundIn};
ghost use Rattle.table_store.specs.Books.{OfBook};
ghost use Rattle.table_store.specs.Dropped.{FindsEntry, DropDone, DropFails, BookDropped, BookDropFails};
ghost use Rattle.table_store.specs.DropSteps.{MakesAt, MayBeEntryOf, FindsEntryIn, MayFindEntry};

use crate::cookie::raise_cookie;
use crate::fault::TableFault;
use crate::schema::{SCHEMA_ROOT, Schema, is_alike, none_named, read_schema};
use book_changes::{large_drop, table_dropped};
use book_reads::{schema_read, tables_read};
use db_format::{PlainTable, Record, SpaceFault, one_create, plain_table, plain_tables};
use page_pool::PageSpace;
use rowid_tree::free_all;
use std::alloc::{AllocError, Global};
use tree_laws::front_kept;

/// Takes the row of a plain table out of the schema, gives every page of its tree to the freelist, and raises the schema cookie.
///
/// Refused as going over the schema is, and with `NoTable` or `Foreign`: then nothing has changed. Refused as `rowid_tree::remove` and
/// `rowid_tree::free_all` are, and as putting page 1 is: then some of the pages are changed.
pub fn drop_table<S: PageSpace>(alloc: Global, space: &mut S, name: &[u8]) -> Result<(), TableFault>
    requires writable { IsWritable (S.state space.old) }
    ensures steady { Steady (S.state space.old) (S.state space.new) }
    ensures done { OnOk result (DropDone (S.state space.old) (S.state space.new) name.now) }
    ensures whole { IsTrue (S.state space.old).tells → OnOk result (OfBook (S.state space.old).pages (λ book. BookDropped (S.state space.old) (S.state space.new) book name.now)) }
    ensures refused { IfErr result (DropFails (S.state space.old) (S.state space.new) name.now) }
    ensures clean { IsTrue (S.state space.old).tells → IfErr result (λ fault. OfBook (S.state space.old).pages (λ book. BookDropFails (S.state space.old).page_size book name.now fault)) }
    ensures noted { NotesChange (S.state space.old) (S.state space.new) }
{
    one_create();
    schema_read();
    tables_read();
    table_dropped();
    large_drop();
    front_kept();
    drop_found(alloc, space, name)
}

/// The same, without what it is for books.
fn drop_found<S: PageSpace>(alloc: Global, space: &mut S, name: &[u8]) -> Result<(), TableFault>
    requires writable { IsWritable (S.state space.old) }
    ensures steady { Steady (S.state space.old) (S.state space.new) }
    ensures done { OnOk result (DropDone (S.state space.old) (S.state space.new) name.now) }
    ensures refused { IfErr result (DropFails (S.state space.old) (S.state space.new) name.now) }
    ensures noted { NotesChange (S.state space.old) (S.state space.new) }
{
    let entry = find_entry(alloc, space, name)?;
    let _removed = rowid_tree::remove(alloc, space, SCHEMA_ROOT, entry.rowid)?;
    give_tree(alloc, space, entry.root)?;
    raise_cookie(alloc, space)?;
    Ok(())
}

/// Gives back every page of the tree from page `root`, as `free_all` does. Where there are no pages, it is refused for the root, which is
/// not there.
fn give_tree<S: PageSpace>(alloc: Global, space: &mut S, root: u32) -> Result<(), SpaceFault>
    requires writable { IsWritable (S.state space.old) }
    requires other { root ≢ 1 }
    ensures steady { Steady (S.state space.old) (S.state space.new) }
    ensures some { OnOk result (1 ≤ (S.state space.new).pages.size) }
    ensures freed { OnOk result (TreeFreed (S.state space.old) (S.state space.new) root) }
    ensures removes { IsTrue (S.state space.old).tells → OnOk result (RemovesRoot (S.state space.old).pages (S.state space.new).pages root) }
    ensures refused { IfErr result (TreeRefused (S.state space.old) (S.state space.new) root) }
    ensures clean { IsTrue (S.state space.old).tells → IfErr result (IsSoundlyRefused (S.state space.old).pages root) }
    ensures noted { NotesChange (S.state space.old) (S.state space.new) }
{
    if space.size() == 0 {
        return Err(SpaceFault::Corrupt { page: root });
    }
    free_all(alloc, space, root)
}

/// The row of the schema that makes a plain table.
#[derive(Clone, Copy, Debug)]
struct Entry {
    /// The root of the tree of the table.
    root: u32,
    /// The rowid of the row.
    rowid: i64,
}

/// The row that makes the plain table of a name, by the schema of a space.
///
/// Refused as going over the schema is, then with `Foreign` where the table of this name is not plain, and with `NoTable` where there
/// is none.
fn find_entry<S: PageSpace>(alloc: Global, space: &mut S, name: &[u8]) -> Result<Entry, TableFault>
    requires ready { IsReady (S.state space.old) }
    ensures steady { Steady (S.state space.old) (S.state space.new) }
    ensures stays { Stays (S.state space.old) (S.state space.new) }
    ensures some { IfOk result (λ _. 1 ≤ (S.state space.old).pages.size) }
    ensures other { IfOk result (λ entry. entry.root ≢ 1) }
    ensures found { IsTrue (S.state space.old).tells → IfOk result (λ entry. FindsEntry (S.state space.old).pages name.now entry.root entry.rowid) }
    ensures refused { IfErr result (ReadRefused (S.state space.old) (S.state space.new) name.now (λ _ _. ⊥)) }
{
    let schema = read_schema(alloc, space)?;
    entry_in(alloc, &schema, name, space.size())
}

/// The same, by these rows of the schema of a database of so many pages.
fn entry_in(alloc: Global, schema: &Schema, name: &[u8], pages: u32) -> Result<Entry, TableFault>
    requires even { length schema.now.rowids.items ≡ length schema.now.rows.items }
    ensures found { IfOk result (FindsEntryIn pages schema.now.rowids.items schema.now.rows.items name.now) }
    ensures refused { IfErr result (NotFoundIn pages schema.now.rows.items name.now) }
{
    if let Some(entry) = entry_named(alloc, schema, name, pages)? {
        return Ok(entry);
    }
    if none_named(&schema.rows, name) {
        return Err(TableFault::NoTable);
    }
    Err(TableFault::Foreign)
}

/// The same, or that no plain table has the name.
fn entry_named(
    alloc: Global,
    schema: &Schema,
    name: &[u8],
    pages: u32,
) -> Result<Option<Entry>, AllocError>
    requires even { length schema.now.rowids.items ≡ length schema.now.rows.items }
    ensures { IfOk result (MayFindEntry pages schema.now.rowids.items schema.now.rows.items name.now) }
{
    let tables = plain_tables(alloc, &schema.rows, pages)?;
    match table_named(tables.as_slice(), name) {
        Some(table) => entry_of(alloc, schema, table, pages),
        None => Ok(None),
    }
}

/// The first of plain tables that has a name, in letters of either case.
fn table_named<'a>(tables: &'a [PlainTable], name: &[u8]) -> Option<&'a PlainTable>
    ensures some { IfSome result (λ table. plain_named tables.now name.now ≡ Some table.now) }
    ensures none { IfNone result (plain_named tables.now name.now ≡ None) }
{
    let mut left = tables;
    while let [table, more @ ..] = left {
        if is_alike(name, table.name.as_slice()) {
            return Some(table);
        }
        left = more;
    }
    None
}

/// The first row that makes a plain table, with the root of this table, where there is one.
fn entry_of(
    alloc: Global,
    schema: &Schema,
    table: &PlainTable,
    pages: u32,
) -> Result<Option<Entry>, AllocError>
    requires even { length schema.now.rowids.items ≡ length schema.now.rows.items }
    ensures { IfOk result (MayBeEntryOf pages schema.now.rowids.items schema.now.rows.items table.now) }
{
    let name = table.name.as_slice();
    for place in 0..schema.rows.len() {
        if makes_table(alloc, &schema.rows, place, name, pages)? {
            return Ok(Some(Entry {
                root: table.root,
                rowid: schema.rowids[place],
            }));
        }
    }
    Ok(None)
}

/// Whether the row of the schema at a place makes the plain table of just this name.
fn makes_table(
    alloc: Global,
    rows: &[Record],
    place: usize,
    name: &[u8],
    pages: u32,
) -> Result<bool, AllocError>
    requires within { place < length rows.now }
    ensures { IfOk result (MakesAt pages rows.now name.now place) }
{
    let found = plain_table(alloc, rows, rows[place].as_slice(), pages)?;
    match found {
        Some(table) => Ok(is_same(table.name.as_slice(), name)),
        None => Ok(false),
    }
}

/// Whether two names are one.
fn is_same(one: &[u8], other: &[u8]) -> bool
    ensures { IsTrue result ↔ one.now ≡ other.now }
{
    one == other
}
