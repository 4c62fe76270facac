//! The plain tables that the rows of a schema make.

ghost use Rattle.std.specs.Prelude.{◌≡◌, ◌≢◌, ◌↔◌, length, [], ◌∷◌, ◌++◌, IsTrue, IfOk, OnOk};
ghost use Rattle.std.specs.List.{AllByRecursion};
ghost use Rattle.db_format.specs.Schema.{IsTableOf, NamesDiffer, tables_in};
ghost use Rattle.ref_schema.specs.Steps.{AreTables};

use db_format::{Create, PlainTable, Record, Value, plain_table};
use std::alloc::{AllocError, Global};
use std::marker::Model;

/// A plain table. Contracts see it as a `Table`.
#[derive(Debug, Drop)]
pub struct RefTable {
    root: u32,
    create: Create,
}

impl Model for RefTable {
    ghost use Rattle.db_format.specs.Schema.{Table};

    ghost Value = { Table };

    ghost view = { λ t. record { root = t.root; create = t.create } };
}

impl RefTable {
    /// The root of its tree.
    pub fn root(&self) -> u32
        ensures { result ≡ self.now.root }
    {
        self.root
    }

    /// How many columns it has.
    pub(crate) fn columns(&self) -> usize
        ensures { result ≡ length self.now.create.columns }
    {
        self.create.columns.as_slice().len()
    }

    /// What its text spells: its name and its columns.
    pub fn create(&self) -> &Create
        ensures { result.now ≡ self.now.create }
    {
        &self.create
    }

    /// Its name.
    fn name(&self) -> &[u8]
        ensures { result.now ≡ self.now.create.name }
    {
        self.create.name.as_slice()
    }
}

/// The tables that the rows of a schema make, in their order.
pub(crate) fn tables_of(
    alloc: Global,
    size: u32,
    schema: &[Record],
) -> Result<Vec<RefTable>, AllocError>
    ensures { IfOk result (λ tables. AreTables size schema.now schema.now tables.items) }
{
    let mut tables = Vec::new(alloc);
    for record in schema {
        let found = table_of(alloc, size, schema, record.as_slice())?;
        push_found(&mut tables, found)?;
    }
    Ok(tables)
}

/// Puts a table at the end, where there is one.
fn push_found(tables: &mut Vec<RefTable>, found: Option<RefTable>) -> Result<(), AllocError>
    ensures { OnOk result (tables.new.items ≡ tables.old.items ++ tables_in (found ∷ [])) }
{
    match found {
        Some(table) => tables.push(table)?,
        None => {}
    }
    Ok(())
}

/// The table that a row of the schema makes, or `None` where it makes none.
pub fn table_of(
    alloc: Global,
    size: u32,
    schema: &[Record],
    values: &[Value],
) -> Result<Option<RefTable>, AllocError>
    ensures { IfOk result (IsTableOf size schema.now values.now) }
{
    match plain_table(alloc, schema, values, size)? {
        Some(PlainTable { root, create, .. }) => Ok(Some(RefTable { root, create })),
        None => Ok(None),
    }
}

/// Whether two names are one.
fn is_same(one: &[u8], other: &[u8]) -> bool
    ensures { IsTrue result ↔ one.now ≡ other.now }
{
    one == other
}

/// Whether no two tables have one name.
pub(crate) fn names_differ(tables: &[RefTable]) -> bool
    ensures { IsTrue result ↔ NamesDiffer tables.now }
{
    match tables {
        [] => true,
        [first, rest @ ..] => is_other(rest, first.name()) && names_differ(rest),
    }
}

/// Whether no table has this name.
fn is_other(tables: &[RefTable], name: &[u8]) -> bool
    ensures { IsTrue result ↔ AllByRecursion (λ table. table.create.name ≢ name.now) tables.now }
{
    match tables {
        [] => true,
        [table, more @ ..] => !is_same(table.name(), name) && is_other(more, name),
    }
}
