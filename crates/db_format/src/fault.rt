//! Why a format could not be read, and why a call on pages was refused.

ghost use Rattle.std.specs.Prelude.{◌≡◌};

use std::alloc::{AllocError, AllocFailed};
use thiserror::Error;

/// Why bytes could not be read as what they should be.
#[derive(Clone, Copy, Debug, PartialEq, Eq, Error)]
pub enum FormatFault {
    /// The bytes are none of the format.
    #[error("the bytes do not have the format")]
    Corrupt,
    /// There was no memory.
    #[error("no memory")]
    Memory,
}

impl From<AllocError> for FormatFault {
    ghost use Rattle.db_format.specs.declared.fault.FormatFault.TheVariants.{Memory};

    ghost from_gives = { λ _ e. e ≡ Memory };

    fn from(_e: AllocError) -> FormatFault {
        FormatFault::Memory
    }
}

impl<T: Drop> From<AllocFailed<T>> for FormatFault {
    ghost use Rattle.db_format.specs.declared.fault.FormatFault.TheVariants.{Memory};

    ghost from_gives = { λ _ e. e ≡ Memory };

    fn from(_e: AllocFailed<T>) -> FormatFault {
        FormatFault::Memory
    }
}

/// Why a call on the pages of a database was refused. What stands afterwards is said at each call.
#[derive(Clone, Copy, Debug, PartialEq, Eq, Error)]
pub enum SpaceFault {
    /// The device failed, and its count of faults rose.
    #[error("the device failed")]
    Failed,
    /// There was no memory.
    #[error("no memory")]
    Memory,
    /// A page fails its checksum.
    #[error("page {page} fails its checksum")]
    Bad {
        /// The number of the page, from 1.
        page: u32,
        /// The eight bytes of the checksum that is kept, as a big-endian number.
        kept: u64,
        /// The eight bytes of the checksum that the page has, likewise.
        found: u64,
    },
    /// A page does not hold what its place in the database asks for.
    #[error("page {page} is malformed")]
    Corrupt {
        /// The number of the page, from 1.
        page: u32,
    },
    /// The database would grow beyond its greatest size.
    #[error("too large: {pages} pages")]
    Large {
        /// The pages that there would be.
        pages: u32,
    },
}

impl From<AllocError> for SpaceFault {
    ghost use Rattle.db_format.specs.declared.fault.SpaceFault.TheVariants.{Memory};

    ghost from_gives = { λ _ e. e ≡ Memory };

    fn from(_e: AllocError) -> SpaceFault {
        SpaceFault::Memory
    }
}

impl<T: Drop> From<AllocFailed<T>> for SpaceFault {
    ghost use Rattle.db_format.specs.declared.fault.SpaceFault.TheVariants.{Memory};

    ghost from_gives = { λ _ e. e ≡ Memory };

    fn from(_e: AllocFailed<T>) -> SpaceFault {
        SpaceFault::Memory
    }
}
