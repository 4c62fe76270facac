//! Whole databases.

ghost use Rattle.std.specs.Prelude.{◌≡◌, ◌↔◌, ℕ, List, [], ◌∷◌, map, IsTrue, IfOk, IfErr};
ghost use Rattle.tree_model.specs.Database.{IsWhole};
ghost use Rattle.ref_pages.specs.AsPages.{pages_of};
ghost use Rattle.ref_schema.specs.Steps.{HaveRecords, HasRecordsIn};

use crate::records::{are_records_of, are_sound, records_of};
use crate::tables::{RefTable, names_differ, tables_of};
use db_format::{one_create, one_record};
use ref_trees::{Lacks, RefPages, is_whole_for, rows_of};
use std::alloc::{AllocError, Global};
use tree_model::one_tree;

/// Why a database is not whole: the first point that fails, in the order of the variants.
#[derive(Clone, Copy, Debug, PartialEq, Eq)]
pub enum LacksDatabase {
    /// There is no tree from page 1, or a payload of it is no record.
    Records,
    /// A row of the schema has not five values, or its type is no text, or it is a table's and its root an integer
    /// past the last page.
    Schema,
    /// Two plain tables have one name.
    Name,
    /// The pages are not whole for the roots of the schema and of the plain tables.
    Pages(Lacks),
    /// A payload of a plain table is no record, or has more values than the table has columns.
    Rows,
}

/// Whether a database is whole by its schema, or the first point that fails. Pages that there are none of are whole.
pub fn is_whole(alloc: Global, pages: &RefPages) -> Result<Result<(), LacksDatabase>, AllocError>
    ensures whole { IfOk result (λ answer. IfOk answer (λ _. IsWhole (pages_of pages.now))) }
    ensures refused { IfOk result (λ answer. IfErr answer (λ _. ¬ (IsWhole (pages_of pages.now)))) }
{
    one_tree();
    one_record();
    one_create();
    let size = pages.size();
    if size == 0 {
        return Ok(Ok(()));
    }
    let Some(rows) = rows_of(alloc, pages, 1)? else {
        return Ok(Err(LacksDatabase::Records));
    };
    let Some(schema) = records_of(alloc, &rows)? else {
        return Ok(Err(LacksDatabase::Records));
    };
    if !are_sound(&schema, size) {
        return Ok(Err(LacksDatabase::Schema));
    }
    let tables = tables_of(alloc, size, &schema)?;
    if !names_differ(&tables) {
        return Ok(Err(LacksDatabase::Name));
    }
    let roots = roots_of(alloc, &tables)?;
    if let Err(lacks) = is_whole_for(alloc, pages, &roots)? {
        return Ok(Err(LacksDatabase::Pages(lacks)));
    }
    if !have_records(alloc, pages, &tables)? {
        return Ok(Err(LacksDatabase::Rows));
    }
    Ok(Ok(()))
}

/// The root of the schema, and those of the tables.
fn roots_of(alloc: Global, tables: &[RefTable]) -> Result<Vec<u32>, AllocError>
    ensures { IfOk result (λ roots. roots.items ≡ 1 ∷ map (λ table. table.root) tables.now) }
{
    let mut roots = Vec::new(alloc);
    roots.push(1)?;
    for table in tables {
        roots.push(table.root())?;
    }
    Ok(roots)
}

/// Whether the rows of each table are records of at most as many values as it has columns.
fn have_records(alloc: Global, pages: &RefPages, tables: &[RefTable]) -> Result<bool, AllocError>
    ensures { IfOk result (λ all. IsTrue all ↔ HaveRecords (pages_of pages.now) tables.now) }
{
    match tables {
        [] => Ok(true),
        [table, more @ ..] => {
            if has_records(alloc, pages, table)? {
                have_records(alloc, pages, more)
            } else {
                Ok(false)
            }
        }
    }
}

/// Whether those of one table are; a table without a tree has none.
fn has_records(alloc: Global, pages: &RefPages, table: &RefTable) -> Result<bool, AllocError>
    ensures { IfOk result (λ all. IsTrue all ↔ HasRecordsIn (pages_of pages.now) table.now) }
{
    one_tree();
    match rows_of(alloc, pages, table.root())? {
        Some(rows) => are_records_of(alloc, &rows, table.columns()),
        None => Ok(false),
    }
}
