//! Replies.

ghost use Rattle.std.specs.Prelude.{◌≡◌, [], ◌∷◌, ◌++◌, OnOk, OnErr};

use crate::Db;
use db_format::{Record, TableList};
use std::alloc::AllocError;
use std::marker::Model;
use vfs_trait::OpenFault;

/// What a line, or the opening, is answered.
#[derive(Debug, Drop)]
pub enum Reply {
    /// The opening succeeded.
    Open {
        /// The change counter.
        main: u32,
    },
    /// The command was done.
    Done,
    /// A row was put where none was.
    New,
    /// A row was put in place of another.
    Replaced,
    /// One row.
    Row {
        /// Its number.
        rowid: i64,
        /// Its values.
        values: Record,
    },
    /// There is no such row.
    Nothing,
    /// The rows of a range.
    Rows {
        /// The rows that were found.
        rows: RowList,
        /// How it ended.
        last: ScanEnd,
    },
    /// How many rows a table has.
    Count {
        /// Their number.
        rows: u64,
    },
    /// The tables.
    TableLines {
        /// In the order of their names.
        tables: TableList,
    },
    /// A lock was refused.
    Busy,
    /// A group of files would pass its limit.
    Full {
        /// The bytes that there would be.
        total: u64,
        /// The most bytes that there may be.
        limit: u64,
    },
    /// A page fails its checksum.
    Checksum {
        /// The database.
        db: Db,
        /// The number of the page, from 1.
        page: u32,
        /// The eight bytes of the checksum that is kept, as a big-endian number.
        kept: u64,
        /// The eight bytes of the checksum that the page has, likewise.
        found: u64,
    },
    /// A page is malformed.
    Corrupt {
        /// The database.
        db: Db,
        /// The number of the page, from 1.
        page: u32,
    },
    /// The database would pass its greatest size.
    Large {
        /// The pages that there would be.
        pages: u32,
    },
    /// The change counter is at its end.
    Worn,
    /// The device failed, and the session is stopped.
    Fault,
    /// The session is stopped.
    Stopped,
    /// There was no memory, and nothing has changed.
    Memory,
    /// There was no memory once the device was asked, and the session is stopped.
    MemoryStopped,
    /// The opening was refused.
    Refused {
        /// The database.
        db: Db,
        /// Why: `Header`, `ForeignJournal` or `NeedsOther`.
        why: OpenFault,
    },
    /// The line was refused before anything was done.
    Error {
        /// Why.
        word: ErrorWord,
    },
}

/// How a scan ended: with its last row, or by a refusal.
#[derive(Clone, Copy, Debug)]
pub enum ScanEnd {
    /// With its last row.
    End {
        /// The rows that there were.
        lines: u64,
    },
    /// The device failed.
    Fault,
    /// There was no memory.
    Memory,
    /// A page fails its checksum.
    Checksum {
        /// The database.
        db: Db,
        /// The number of the page, from 1.
        page: u32,
        /// The eight bytes of the checksum that is kept, as a big-endian number.
        kept: u64,
        /// The eight bytes of the checksum that the page has, likewise.
        found: u64,
    },
    /// A page is malformed.
    Corrupt {
        /// The database.
        db: Db,
        /// The number of the page, from 1.
        page: u32,
    },
}

/// Why a line was refused before anything was done.
#[derive(Clone, Copy, Debug, PartialEq, Eq)]
pub enum ErrorWord {
    /// It is no command.
    BadLine,
    /// There is no connection of this number.
    NoConn,
    /// The connection is inside a transaction.
    InTxn,
    /// It is in none.
    NoTxn,
    /// There is no such table.
    NoTable,
    /// The table is not plain.
    Foreign,
    /// There is a table of this name.
    Exists,
    /// The row has more values than the table has columns.
    Columns,
    /// The row or the text of the table is too long.
    TooLong,
}

/// Rows, each a rowid with its values. Contracts see them as a list of pairs.
#[derive(Debug, Drop)]
pub struct RowList {
    items: Vec<(i64, Record)>,
}

impl Model for RowList {
    ghost use Rattle.std.specs.Prelude.{ℤ, List};
    ghost use Rattle.db_format.specs.declared.value.Value.{Value as Item};

    ghost Value = { List (ℤ × List Item) };

    ghost view = { λ r. r.items.items };
}

impl RowList {
    /// The rows of a vector, without taking memory.
    pub fn from_vec(items: Vec<(i64, Record)>) -> RowList
        ensures { result ≡ items.items }
    {
        RowList { items }
    }

    /// The rows, without taking memory.
    pub fn as_slice(&self) -> &[(i64, Record)]
        ensures { result.now ≡ self.now }
    {
        self.items.as_slice()
    }

    /// Puts a row at the end. Without memory the list stays as it was.
    pub fn push(&mut self, item: (i64, Record)) -> Result<(), AllocError>
        ensures ok { OnOk result (self.new ≡ self.old ++ item ∷ []) }
        ensures err { OnErr result (self.new ≡ self.old) }
    {
        self.items.push(item)?;
        Ok(())
    }
}
