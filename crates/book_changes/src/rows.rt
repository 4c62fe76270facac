//! Laws of rows in plain tables.

ghost use Rattle.book_changes.specs.Rows.{RowPut, RowRemoved, LargePut, LargeRemoval};

use book_model::book_counts;
use tree_laws::{front_kept, pages_add_up, use_within_need};
use tree_model::rows_rise;

/// A row put into the tree of a plain table is put into that table of the book.
pub fn row_put()
    ensures { RowPut }
{
    book_counts();
    use_within_need();
    pages_add_up();
    front_kept();
    rows_rise();
}

/// A row taken out of the tree of a plain table is taken out of that table of the book.
pub fn row_removed()
    ensures { RowRemoved }
{
    book_counts();
    use_within_need();
    pages_add_up();
    front_kept();
    rows_rise();
}

/// Where so many pages are too many for a put, they are within those that nothing names, those in use, and what the trees of the book may
/// need with the row.
pub fn large_put()
    ensures { LargePut }
{
    book_counts();
    rows_rise();
}

/// Where so many pages are too many for a removal, they are within those that nothing names, those in use, and what the trees of the book
/// may need without the row.
pub fn large_removal()
    ensures { LargeRemoval }
{
    book_counts();
    rows_rise();
}
