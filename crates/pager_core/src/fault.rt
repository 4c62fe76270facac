//! Why a call of a pager was refused.

use thiserror::Error;

/// Why a call of a pager was refused. What stands afterwards is said at each call.
#[derive(Clone, Copy, Debug, PartialEq, Eq, Error)]
pub enum PagerFault {
    /// The device failed, and its count of faults rose.
    #[error("the device failed")]
    Failed,
    /// There was no memory, and the device was not asked.
    #[error("no memory")]
    Memory,
    /// There was no memory once the device was asked.
    #[error("no memory in a commit under way")]
    MemoryAfter,
    /// Another connection holds a lock that is in the way.
    #[error("another connection holds a lock")]
    Busy,
    /// The change counter is at its last value.
    #[error("the change counter is worn")]
    Worn,
    /// A page fails its checksum.
    #[error("page {page} fails its checksum")]
    Bad {
        /// The number of the page, from 1.
        page: u32,
        /// The eight bytes of the checksum that is kept, as a big-endian number.
        kept: u64,
        /// The eight bytes of the checksum that the page has, likewise.
        found: u64,
    },
}
