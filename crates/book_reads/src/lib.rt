//! What reads of pages give, by the book that they have: the schema, what its rows say, the row of a rowid, and the rows of a table. Here
//! are the definitions, which speak of pages of any bytes, and their laws.
//!
//! After sqlite.org, "Database File Format", sections 1.6, 2.1 and 2.6.
#![tactic(auto)]

ghost use Rattle.book_reads.specs.Laws.{OneReading, RowByRow, SchemaRead, TablesRead, RowRead, RowsRead};

use db_format::{one_create, one_record};
use tree_model::{one_next, one_path, one_walk, path_finds, rows_rise, walk_gives};

/// Each read has one answer, whatever the pages hold.
pub fn one_reading()
    ensures { OneReading }
{
    one_create();
    one_next();
    one_path();
    one_record();
    one_walk();
}

/// Rows are read one after the other, whatever the pages hold.
pub fn row_by_row()
    ensures { RowByRow }
{
    one_next();
    one_record();
}

/// Of pages with a book the schema has the rows of the book's schema, and its walk meets no fault.
pub fn schema_read()
    ensures { SchemaRead }
{
    one_reading();
    one_record();
    rows_rise();
    walk_gives();
}

/// What it says is what the book says: its tables, what a name stands for, and which row makes a table.
pub fn tables_read()
    ensures { TablesRead }
{
    one_create();
    one_record();
    rows_rise();
    schema_read();
}

/// The path to a rowid finds just its row in the book, or none.
pub fn row_read()
    ensures { RowRead }
{
    one_create();
    one_reading();
    path_finds();
    rows_rise();
    schema_read();
}

/// The walk between two rowids gives just the rows of the book between them.
pub fn rows_read()
    ensures { RowsRead }
{
    one_create();
    one_reading();
    row_by_row();
    rows_rise();
    schema_read();
    walk_gives();
}
