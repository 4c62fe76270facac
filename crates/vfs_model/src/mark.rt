//! Where a database stands in its file.

/// How an append layer opens a file.
#[derive(Clone, Copy, Debug, PartialEq, Eq)]
pub enum Placed {
    /// As a database, which it is or, empty, will be.
    Ordinary,
    /// As a database behind other content, from this place up to the mark.
    Behind(u64),
    /// As an empty database that the first write puts behind the content that the file has, which are so many bytes.
    Fresh(u64),
}
