//! What a database holds, as maps and numbers: its tables by name, their rows by rowid, the rows of its schema, and how many pages there
//! are. Here are the definitions and their laws.
//!
//! After sqlite.org, "Database File Format", section 2.6, "Storage Of The SQL Database Schema".
#![tactic(auto)]

ghost use Rattle.book_model.specs.Laws.{BookOfPages, BookStays, BookCounts, RecordHasSize, ForeignNames};

use db_format::one_record;
use tree_laws::pages_add_up;
use tree_model::{one_witness, rows_rise, whole_stays};

/// Whole pages have a book, and one alone.
pub fn book_of_pages()
    ensures { BookOfPages }
{
    one_record();
    one_witness();
}

/// The book of pages whose named pages hold what they held says the same, and of the others their bytes.
pub fn book_stays()
    ensures { BookStays }
{
    whole_stays();
}

/// The pages in use and those that may be needed are the same by the book and by the trees.
pub fn book_counts()
    ensures { BookCounts }
{
    rows_rise();
    pages_add_up();
}

/// The shortest record of some values has the size that books reckon with.
pub fn record_has_size()
    ensures { RecordHasSize }
{}

/// The foreign names of a book are those of the tables of its schema that are not plain, each of them once.
pub fn foreign_names()
    ensures { ForeignNames }
{}
