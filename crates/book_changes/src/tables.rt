//! Laws of tables made and dropped.

ghost use Rattle.book_changes.specs.First.{FirstPage, FirstTable};
ghost use Rattle.book_changes.specs.Names.{TablesAreFound};
ghost use Rattle.book_changes.specs.Tables.{TableMade, TableDropped, LargeRoot, LargeEntry, LargeDrop};

use book_model::book_counts;
use db_format::{one_create, one_record};
use tree_laws::{front_kept, pages_add_up, root_removed, use_within_need, whole_front};
use tree_model::{one_tree, rows_rise};

/// A row of the schema that makes a plain table makes one of those that the book has, and the book has a table of a name just where there
/// is such a one, with its columns.
pub fn tables_are_found()
    ensures { TablesAreFound }
{
    one_create();
}

/// The book of a database of one page, a leaf without a row behind a new header, is that of a database of no pages, with this one.
pub fn first_page()
    ensures { FirstPage }
{}

/// Where a first table is made behind such a page, the book of no pages has the table.
pub fn first_table()
    ensures { FirstTable }
{
    book_counts();
    use_within_need();
    pages_add_up();
    root_removed();
    one_tree();
    whole_front();
    front_kept();
    rows_rise();
    one_record();
}

/// Where there is one root more, the row of a plain table with that root is put into the schema and the cookie changes, the book has the
/// table too.
pub fn table_made()
    ensures { TableMade }
{
    book_counts();
    use_within_need();
    pages_add_up();
    root_removed();
    one_tree();
    whole_front();
    front_kept();
    rows_rise();
    one_record();
}

/// Where the row of a plain table is taken out of the schema, its tree is given back and the cookie changes, the book is without the
/// table.
pub fn table_dropped()
    ensures { TableDropped }
{
    book_counts();
    use_within_need();
    pages_add_up();
    root_removed();
    one_tree();
    whole_front();
    front_kept();
    rows_rise();
}

/// Where no page is free, one page more is within those that nothing names, those in use, and what the trees of the book may need with
/// another table.
pub fn large_root()
    ensures { LargeRoot }
{
    book_counts();
    rows_rise();
    pages_add_up();
    one_record();
}

/// Where so many pages are too many for the row of a new table, they are within those that nothing names, those in use, and what the trees
/// of the book may need with the table.
pub fn large_entry()
    ensures { LargeEntry }
{
    book_counts();
    rows_rise();
    pages_add_up();
    root_removed();
    front_kept();
    one_record();
}

/// Where so many pages are too many for the row of a table that is taken out of the schema, they are within those that nothing names,
/// those in use, and what the trees of the book may need without the table.
pub fn large_drop()
    ensures { LargeDrop }
{
    book_counts();
    rows_rise();
    pages_add_up();
    root_removed();
}
