//! The schema of a database, and the table that a name stands for.

ghost use Rattle.std.specs.Prelude.{◌≡◌, ◌↔◌, ◌≤◌, List, length, map, codes, IsTrue, IfOk, IfErr, IfSome, IfNone, None};
ghost use Rattle.std.specs.List.{AllByRecursion};
ghost use Rattle.std.specs.Str.{str_eq_ignore_ascii_case};
ghost use Rattle.page_pool.specs.Space.{IsReady, Steady, Stays};
ghost use Rattle.tree_search.specs.Search.{SearchRefused};
ghost use Rattle.book_model.specs.Pages.{filled};
ghost use Rattle.book_reads.specs.Reads.{SchemaMeets, plain_named};
ghost use Rattle.table_store.specs.Tables.{ReadRefused};
ghost use Rattle.table_store.specs.Steps.{IsSchema, IsPlaceOf, FindsPlace, FindsIn, NotFoundIn, NamesTable};

use crate::fault::TableFault;
use crate::fill::fill;
use db_format::{PlainTable, Record, SpaceFault, Value, plain_tables};
use page_pool::PageSpace;
use std::alloc::{AllocError, Global};
use table_rows::walk;

/// The root of the tree that keeps the schema.
pub(crate) const SCHEMA_ROOT: u32 = 1;

/// How many columns the schema has: type, name, table, root and text.
const SCHEMA_COLUMNS: usize = 5;

/// The rows of the schema, in the order of their rowids.
#[derive(Debug, Drop)]
pub(crate) struct Schema {
    /// Their rowids.
    pub rowids: Vec<i64>,
    /// Their values, five each.
    pub rows: Vec<Record>,
}

/// The rows of the schema. A database of no pages has none.
pub(crate) fn read_schema<S: PageSpace>(alloc: Global, space: &mut S) -> Result<Schema, SpaceFault>
    requires ready { IsReady (S.state space.old) }
    ensures steady { Steady (S.state space.old) (S.state space.new) }
    ensures stays { Stays (S.state space.old) (S.state space.new) }
    ensures even { IfOk result (λ schema. length schema.rowids.items ≡ length schema.rows.items) }
    ensures found { IsTrue (S.state space.old).tells → IfOk result (λ schema. IsSchema (S.state space.old).pages schema.rowids.items schema.rows.items) }
    ensures refused { IfErr result (SearchRefused (S.state space.old) (S.state space.new) (SchemaMeets (S.state space.old).pages)) }
{
    if space.size() == 0 {
        return Ok(Schema {
            rowids: Vec::new(alloc),
            rows: Vec::new(alloc),
        });
    }
    let rows = walk(
        alloc,
        space,
        SCHEMA_ROOT,
        i64::MIN,
        i64::MAX,
        SCHEMA_COLUMNS,
    )?;
    let schema = split_rows(alloc, rows)?;
    Ok(schema)
}

/// Rows as their rowids and, apart from these, their values, filled up with nulls.
fn split_rows(alloc: Global, rows: Vec<(i64, Record)>) -> Result<Schema, AllocError>
    ensures rowids { IfOk result (λ schema. schema.rowids.items ≡ map (λ row. row.0) rows.items) }
    ensures values { IfOk result (λ schema. schema.rows.items ≡ map (λ row. filled 5 row.1) rows.items) }
{
    let mut schema = Schema {
        rowids: Vec::new(alloc),
        rows: Vec::new(alloc),
    };
    for (rowid, values) in rows {
        schema.rowids.push(rowid)?;
        schema.rows.push(fill(values, SCHEMA_COLUMNS)?)?;
    }
    Ok(schema)
}

/// Where the rows of a plain table are.
#[derive(Clone, Copy, Debug)]
pub(crate) struct Place {
    /// The root of its tree.
    pub root: u32,
    /// How many columns it has.
    pub columns: usize,
}

/// The plain table of a name, by the schema of a space.
///
/// Refused as going over the schema is, then with `Foreign` where the table of this name is not plain, and with `NoTable` where there
/// is none.
pub(crate) fn find_table<S: PageSpace>(
    alloc: Global,
    space: &mut S,
    name: &[u8],
) -> Result<Place, TableFault>
    requires ready { IsReady (S.state space.old) }
    ensures steady { Steady (S.state space.old) (S.state space.new) }
    ensures stays { Stays (S.state space.old) (S.state space.new) }
    ensures some { IfOk result (λ _. 1 ≤ (S.state space.old).pages.size) }
    ensures found { IsTrue (S.state space.old).tells → IfOk result (FindsPlace (S.state space.old).pages name.now) }
    ensures refused { IfErr result (ReadRefused (S.state space.old) (S.state space.new) name.now (λ _ _. ⊥)) }
{
    let schema = read_schema(alloc, space)?;
    place_in(alloc, &schema.rows, name, space.size())
}

/// The same, by these rows of the schema of a database of so many pages.
fn place_in(alloc: Global, rows: &[Record], name: &[u8], pages: u32) -> Result<Place, TableFault>
    ensures some { IfOk result (λ _. 1 ≤ pages) }
    ensures found { IfOk result (FindsIn pages rows.now name.now) }
    ensures refused { IfErr result (NotFoundIn pages rows.now name.now) }
{
    let tables = plain_tables(alloc, rows, pages)?;
    if let Some(place) = place_of(tables.as_slice(), name) {
        return Ok(place);
    }
    if none_named(rows, name) {
        return Err(TableFault::NoTable);
    }
    Err(TableFault::Foreign)
}

/// The first of plain tables that has a name, in letters of either case.
fn place_of(tables: &[PlainTable], name: &[u8]) -> Option<Place>
    ensures some { IfSome result (IsPlaceOf tables.now name.now) }
    ensures none { IfNone result (plain_named tables.now name.now ≡ None) }
{
    let mut left = tables;
    while let [table, more @ ..] = left {
        if is_alike(name, table.name.as_slice()) {
            return Some(Place {
                root: table.root,
                columns: table.create.columns.as_slice().len(),
            });
        }
        left = more;
    }
    None
}

/// Whether no row of the schema is that of a table of this name, in letters of either case.
pub(crate) fn none_named(rows: &[Record], name: &[u8]) -> bool
    ensures { IsTrue result ↔ AllByRecursion (λ row. ¬ (NamesTable row name.now)) rows.now }
{
    rows.iter()
        .all(|record| !names_table(record.as_slice(), name))
}

/// Whether a row of the schema is that of a table of this name, in letters of either case.
fn names_table(values: &[Value], name: &[u8]) -> bool
    ensures { IsTrue result ↔ NamesTable values.now name.now }
{
    match values {
        [Value::Text(kind), Value::Text(own), ..] => {
            is_table(kind.as_slice()) && is_alike(name, own.as_slice())
        }
        _ => false,
    }
}

/// Whether a row of this kind is that of a table.
pub(crate) fn is_table(kind: &[u8]) -> bool
    ensures { IsTrue result ↔ kind.now ≡ codes "table" }
{
    kind == b"table".as_slice()
}

/// Whether two names are one but for the case of ASCII letters.
pub(crate) fn is_alike(one: &[u8], other: &[u8]) -> bool
    ensures { result ≡ str_eq_ignore_ascii_case one.now other.now }
{
    one.eq_ignore_ascii_case(other)
}
