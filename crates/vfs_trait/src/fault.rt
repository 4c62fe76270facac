//! Why a call of a stack was refused, and why a database over one was not opened.

use db_format::HeaderFault;
use thiserror::Error;
use vfs_model::{Level, Name, Owner};

/// Why a call of a stack was refused. What stands afterwards is said at each call.
#[derive(Clone, Copy, Debug, Error)]
pub enum VfsFault {
    /// The device failed, and its count of faults rose.
    #[error("the device failed")]
    Failed,
    /// There was no memory.
    #[error("no memory")]
    Memory,
    /// Another owner holds a lock that is in the way.
    #[error("locked by another connection")]
    Busy {
        /// The least owner in the way.
        holder: Owner,
        /// The level that it holds.
        level: Level,
    },
    /// A group of files, or a file, would pass its limit.
    #[error("full: {total} bytes pass the limit of {limit}")]
    Full {
        /// The bytes that there would be.
        total: u64,
        /// The most bytes that there may be.
        limit: u64,
    },
    /// A page of a database fails its checksum.
    #[error("page {page} fails its checksum")]
    BadPage {
        /// The number of the page, from 1.
        page: u32,
        /// The eight bytes of the checksum that is kept, as a big-endian number.
        kept: u64,
        /// The eight bytes of the checksum that the page has, likewise.
        found: u64,
    },
}

/// Why a database was not opened. What stands afterwards is said by the call that opens.
#[derive(Clone, Copy, Debug, Error)]
pub enum OpenFault {
    /// The device failed, and its count of faults rose.
    #[error("the device failed")]
    Failed,
    /// There was no memory.
    #[error("no memory")]
    Memory,
    /// The first page fails its checksum.
    #[error("page {page} fails its checksum")]
    BadPage {
        /// The number of the page, from 1.
        page: u32,
        /// The eight bytes of the checksum that is kept, as a big-endian number.
        kept: u64,
        /// The eight bytes of the checksum that the page has, likewise.
        found: u64,
    },
    /// The header is none that can be worked with.
    #[error("the header is refused")]
    Header(HeaderFault),
    /// A journal is there that asks to be played back, and is none of the form that is played.
    #[error("a journal of another form")]
    ForeignJournal,
    /// The journal belongs to a commit on several databases, whose super-journal has this name.
    #[error("another database is needed")]
    NeedsOther {
        /// The name of the super-journal.
        name: Name,
    },
}
