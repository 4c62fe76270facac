//! What a check of a whole database found.

/// What a check of a whole database found.
#[derive(Clone, Copy, Debug, PartialEq, Eq)]
pub enum Report {
    /// Nothing is wrong.
    Whole {
        /// The pages of the database.
        pages: u32,
        /// Those of them that are free.
        free: u32,
    },
    /// The first thing that is wrong.
    Broken {
        /// The number of the page where it was found, from 1.
        page: u32,
        /// What is wrong there.
        why: Why,
    },
}

/// What is wrong with a page of a database.
#[derive(Clone, Copy, Debug, PartialEq, Eq)]
pub enum Why {
    /// A page number that it holds is past the file, or is 0 where a page is needed.
    Number,
    /// It is named a second time.
    Twice,
    /// It is no page of a b-tree, or is page 1 with a header that is refused.
    Page,
    /// A key lies outside the separators above it.
    Order,
    /// It is a leaf at another depth than the first leaf of its tree, or too deep.
    Depth,
    /// It is a leaf without a row that is no root, or an interior page without a cell that is not page 1.
    Empty,
    /// It is an overflow page that ends its chain before the payload ends, or goes on behind it.
    Chain,
    /// A payload is no record, or has more values than the table has columns.
    Record,
    /// A row of the schema lacks a value or the text of its type, or names a table a second time.
    Schema,
    /// It is a malformed trunk of the freelist, or is page 1 with a wrong count of free pages.
    Free,
    /// Nothing names it.
    Lost,
}
