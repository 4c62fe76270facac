//! Commands, and the table that one is on.

use byte_base::{ByteLists, Bytes};
use db_format::Record;

/// A database of a run.
#[derive(Clone, Copy, Debug, PartialEq, Eq)]
pub enum Db {
    /// The database that the run was started on.
    Main,
}

/// A table: its database, and its name there.
#[derive(Debug, Drop)]
pub struct TableName {
    /// The database.
    pub db: Db,
    /// The name: 1 to 64 of `a-z 0-9 _`, a letter first.
    pub name: Bytes,
}

/// What a line asks for.
#[derive(Debug, Drop)]
pub enum Command {
    /// Makes a table.
    Create {
        /// The table.
        table: TableName,
        /// Its columns, 1 to 32, all different.
        columns: ByteLists,
    },
    /// Removes a table.
    Drop {
        /// The table.
        table: TableName,
    },
    /// Lists the tables.
    Tables,
    /// Puts a row.
    Put {
        /// The table.
        table: TableName,
        /// The row's number.
        rowid: i64,
        /// Its values, 1 to 32.
        values: Record,
    },
    /// Gives one row.
    Get {
        /// The table.
        table: TableName,
        /// The row's number.
        rowid: i64,
    },
    /// Removes one row.
    Del {
        /// The table.
        table: TableName,
        /// The row's number.
        rowid: i64,
    },
    /// Gives the rows of a range, both ends included.
    Scan {
        /// The table.
        table: TableName,
        /// The least number.
        low: i64,
        /// The greatest number.
        high: i64,
    },
    /// Counts the rows.
    Count {
        /// The table.
        table: TableName,
    },
    /// Begins a transaction of the connection.
    Begin,
    /// Ends it, and keeps its changes.
    Commit,
    /// Ends it, and drops its changes.
    Rollback,
    /// Closes the database, and opens it with recovery.
    Reopen,
}
