//! What the pages of a database hold, read plainly.

ghost use Rattle.std.specs.Prelude.{◌≡◌, ◌⊎◌, ◌≤◌, ◌++◌, ◌+◌, length, map, reverse, true, false, IfOk, OnOk, IfSome, IfNone};
ghost use Rattle.std.specs.List.{AllZip};
ghost use Rattle.byte_base.specs.Numbers.{number_at};
ghost use Rattle.page_list.specs.Pages.{HasPage};
ghost use Rattle.db_format.specs.Header.{page_of};
ghost use Rattle.db_format.specs.Schema.{IsTableOf, tables_in};
ghost use Rattle.tree_model.specs.Database.{IsWhole};
ghost use Rattle.ref_pages.specs.AsPages.{pages_of};
ghost use Rattle.tree_laws.specs.Whole.{missing_in};
ghost use Rattle.ref_trees.specs.Forest.{LacksTree, HasNoFreelist};
ghost use Rattle.ref_schema.specs.Steps.{HasRecordsIn, HaveRecords};
ghost use Rattle.ref_book.specs.Loaded.{IsSchema, IsHeld, AreHeldBehind, AreNamed, roots_in, unnamed_in};

use crate::entries::rows_by_rowid;
use crate::table::KeptTable;
use crate::twin::Twin;
use byte_base::Bytes;
use byteorder::{BigEndian, ByteOrder};
use db_format::{Record, one_create, one_record};
use ref_pages::times;
use ref_schema::{RefTable, records_of, table_of};
use ref_trees::{RefPages, RefRow, named_of, rows_of};
use std::alloc::{AllocError, Global};
use tree_model::one_tree;

/// The schema of a database.
#[derive(Debug, Drop)]
pub(crate) struct Schema {
    /// The rows of its tree.
    pub(crate) rows: Vec<RefRow>,
    /// The records that they are.
    pub(crate) records: Vec<Record>,
    /// The plain table of each, where it makes one.
    pub(crate) found: Vec<Option<RefTable>>,
}

/// The schema of a database, `None` where it has no tree or a row is no record.
pub(crate) fn schema_of(alloc: Global, pages: &RefPages) -> Result<Option<Schema>, AllocError>
    requires { HasPage (pages_of pages.now) 1 }
    ensures found { IfOk result (λ found. IfSome found (λ s. IsSchema (pages_of pages.now) s.rows.items s.records.items s.found.items)) }
    ensures none { IfOk result (λ found. IfNone found (¬ (IsWhole (pages_of pages.now)))) }
{
    one_tree();
    one_record();
    one_create();
    let Some(rows) = rows_of(alloc, pages, 1)? else {
        return Ok(None);
    };
    let Some(records) = records_of(alloc, &rows)? else {
        return Ok(None);
    };
    let found = found_of(alloc, pages.size(), &records)?;
    Ok(Some(Schema {
        rows,
        records,
        found,
    }))
}

/// The plain table of each row of a schema, where it makes one.
fn found_of(
    alloc: Global,
    size: u32,
    records: &[Record],
) -> Result<Vec<Option<RefTable>>, AllocError>
    ensures { IfOk result (λ found. AllZip (IsTableOf size records.now) records.now found.items) }
{
    let mut all = Vec::new(alloc);
    for record in records {
        let found = table_of(alloc, size, records, record.as_slice())?;
        all.push(found)?;
    }
    Ok(all)
}

/// Puts the plain tables behind others, in the order of their rows in the schema. `false` where one has no tree, or a row of it is no record.
pub(crate) fn push_tables(
    alloc: Global,
    pages: &RefPages,
    all: &mut Vec<(Bytes, KeptTable)>,
    rows: &[RefRow],
    found: &[Option<RefTable>],
) -> Result<bool, AllocError>
    requires { length rows.now ≡ length found.now }
    ensures held { IfOk result (λ whole. whole ≡ true → AreHeldBehind (pages_of pages.now) rows.now found.now all.old.items all.new.items) }
    ensures none { IfOk result (λ whole. whole ≡ false → ¬ (HaveRecords (pages_of pages.now) (tables_in found.now))) }
{
    let [row, more @ ..] = rows else {
        return Ok(true);
    };
    let [made, others @ ..] = found else {
        return Ok(true);
    };
    if let Some(table) = made {
        let Some(held) = table_at(alloc, pages, row, table)? else {
            return Ok(false);
        };
        all.push(held)?;
    }
    push_tables(alloc, pages, all, more, others)
}

/// A plain table with its name, `None` where it has no tree or a row of it is no record.
fn table_at(
    alloc: Global,
    pages: &RefPages,
    entry: &RefRow,
    table: &RefTable,
) -> Result<Option<(Bytes, KeptTable)>, AllocError>
    ensures held { IfOk result (λ found. IfSome found (IsHeld (pages_of pages.now) entry.now table.now)) }
    ensures none { IfOk result (λ found. IfNone found (¬ (HasRecordsIn (pages_of pages.now) table.now))) }
{
    one_tree();
    let Some(rows) = rows_of(alloc, pages, table.root())? else {
        return Ok(None);
    };
    let Some(contents) = records_of(alloc, &rows)? else {
        return Ok(None);
    };
    let create = table.create();
    let name = create.name.twin(alloc)?;
    let columns = create.columns.twin(alloc)?;
    let rows = rows_by_rowid(alloc, &rows, &contents, columns.as_slice().len())?;
    Ok(Some((name, KeptTable::of_rows(columns, entry.rowid(), rows))))
}

/// The pages that the schema and the plain tables name, `None` where one of them has no tree, or the pages have no freelist.
pub(crate) fn names_of(
    alloc: Global,
    pages: &RefPages,
    found: &[Option<RefTable>],
) -> Result<Option<Vec<u32>>, AllocError>
    ensures found { IfOk result (λ named. IfSome named (λ named. AreNamed (pages_of pages.now) (roots_in found.now) named.items)) }
    ensures none { IfOk result (λ named. IfNone named (LacksTree (pages_of pages.now) (roots_in found.now) ⊎ HasNoFreelist (pages_of pages.now))) }
{
    let mut roots = Vec::new(alloc);
    roots.push(1)?;
    push_roots(&mut roots, found)?;
    let named = named_of(alloc, pages, &roots)?;
    Ok(named)
}

/// Puts the roots of the plain tables behind others.
fn push_roots(roots: &mut Vec<u32>, found: &[Option<RefTable>]) -> Result<(), AllocError>
    ensures { OnOk result (roots.new.items ≡ roots.old.items ++ map (λ table. table.root) (tables_in found.now)) }
{
    let [first, more @ ..] = found else {
        return Ok(());
    };
    if let Some(table) = first {
        roots.push(table.root())?;
    }
    push_roots(roots, more)
}

/// The pages that are not among these, in rising order, with their bytes.
pub(crate) fn unnamed_of(
    alloc: Global,
    pages: &RefPages,
    named: &[u32],
) -> Result<Vec<(u32, Bytes)>, AllocError>
    ensures { IfOk result (λ all. all.items ≡ unnamed_in (pages_of pages.now) named.now) }
{
    let mut all = Vec::new(alloc);
    push_unnamed(alloc, pages, &mut all, named, pages.size())?;
    Ok(all)
}

/// Puts those of so many first pages that are not among these behind others.
fn push_unnamed(
    alloc: Global,
    pages: &RefPages,
    all: &mut Vec<(u32, Bytes)>,
    named: &[u32],
    count: u32,
) -> Result<(), AllocError>
    requires { count ≤ (pages_of pages.now).size }
    ensures { OnOk result (all.new.items ≡ all.old.items ++ map (λ n. (n, (pages_of pages.now).bytes n)) (reverse (missing_in named.now count))) }
{
    if count == 0 {
        return Ok(());
    }
    push_unnamed(alloc, pages, all, named, count - 1)?;
    if times(count, named) == 0 {
        all.push((count, bytes_at(alloc, pages, count)?))?;
    }
    Ok(())
}

/// A copy of the bytes of a page, none where it is not there.
fn bytes_at(alloc: Global, pages: &RefPages, number: u32) -> Result<Bytes, AllocError>
    requires { HasPage (pages_of pages.now) number }
    ensures { IfOk result (λ bytes. bytes ≡ (pages_of pages.now).bytes number) }
{
    let Some(bytes) = pages.bytes_of(number) else {
        unreachable!()
    };
    Bytes::copy_of(alloc, bytes)
}

/// The page size that the header on page 1 says.
#[tactic(auto, unfolding(db_format::specs::Header::page_of))]
pub(crate) fn page_size(pages: &RefPages) -> u32
    requires { HasPage (pages_of pages.now) 1 }
    ensures { result ≡ page_of ((pages_of pages.now).bytes 1) }
{
    let Some(bytes) = pages.bytes_of(1) else {
        unreachable!()
    };
    match short_at(bytes, 16) {
        1 => 65536,
        size => size,
    }
}

/// The number in the two bytes at a place.
fn short_at(bytes: &[u8], place: usize) -> u32
    requires { place + 2 ≤ length bytes.now }
    ensures { result ≡ number_at 2 bytes.now place }
{
    u32::from(BigEndian::read_u16(&bytes[place..]))
}
