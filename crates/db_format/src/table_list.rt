//! A list of tables.

ghost use Rattle.std.specs.Prelude.{◌≡◌, [], ◌∷◌, ◌++◌, OnOk, OnErr};

use crate::{Bytes, Create};
use std::alloc::AllocError;
use std::marker::Model;

/// A table of a database.
#[derive(Debug, Drop)]
pub enum TableEntry {
    /// A plain table.
    Plain(Create),
    /// The name of a table that is not plain: its columns need SQL.
    Foreign(Bytes),
}

/// Tables. Contracts see them as a list.
#[derive(Debug, Drop)]
pub struct TableList {
    items: Vec<TableEntry>,
}

impl Model for TableList {
    ghost use Rattle.std.specs.Prelude.{List};
    ghost use Rattle.db_format.specs.declared.table_list.TableEntry.{TableEntry};

    ghost Value = { List TableEntry };

    ghost view = { λ t. t.items.items };
}

impl TableList {
    /// The tables of a vector, without taking memory.
    pub fn from_vec(items: Vec<TableEntry>) -> TableList
        ensures { result ≡ items.items }
    {
        TableList { items }
    }

    /// The tables, without taking memory.
    pub fn as_slice(&self) -> &[TableEntry]
        ensures { result.now ≡ self.now }
    {
        self.items.as_slice()
    }

    /// Puts a table at the end. Without memory the list stays as it was.
    pub fn push(&mut self, item: TableEntry) -> Result<(), AllocError>
        ensures ok { OnOk result (self.new ≡ self.old ++ item ∷ []) }
        ensures err { OnErr result (self.new ≡ self.old) }
    {
        self.items.push(item)?;
        Ok(())
    }
}
