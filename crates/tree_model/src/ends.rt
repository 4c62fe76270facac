//! How searches in trees end.

use db_format::Bytes;
use tree_page::LeafCell;

/// Why a search cannot go on.
#[derive(Clone, Copy, Debug, PartialEq, Eq)]
pub enum Fault {
    /// The page of this number fails its checksum.
    BadPage(u32),
    /// The page of this number is not what it should be.
    Broken(u32),
}

/// How the search for the row of one rowid ends.
#[derive(Debug, Drop)]
pub enum PathEnd {
    /// There is a row, with this payload.
    HasPayload(Bytes),
    /// There is none.
    NoRow,
    /// The path cannot be gone to its end.
    Ends(Fault),
}

/// How a walk over rows ends.
#[derive(Clone, Copy, Debug, PartialEq, Eq)]
pub enum WalkEnd {
    /// All rows were given.
    End,
    /// The next row cannot be found or read.
    StopsAt(Fault),
}

/// What the search for the next row meets.
#[derive(Debug, Drop)]
pub enum Next {
    /// On the leaf of this number, this cell.
    Found(u32, LeafCell),
    /// No row.
    Nothing,
    /// It cannot go on.
    Meets(Fault),
}
