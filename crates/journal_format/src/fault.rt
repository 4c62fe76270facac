//! Why a journal could not be read.

ghost use Rattle.std.specs.Prelude.{◌≡◌};

use std::alloc::{AllocError, AllocFailed};
use thiserror::Error;

/// Why the bytes of a journal were not read.
#[derive(Clone, Copy, Debug, PartialEq, Eq, Error)]
pub enum JournalFault {
    /// The journal is hot, and not of the form that this program plays back.
    #[error("the journal is hot and has another form")]
    Foreign,
    /// There was no memory.
    #[error("no memory")]
    Memory,
}

impl From<AllocError> for JournalFault {
    ghost use Rattle.journal_format.specs.declared.fault.JournalFault.TheVariants.{Memory};

    ghost from_gives = { λ _ e. e ≡ Memory };

    fn from(_e: AllocError) -> JournalFault {
        JournalFault::Memory
    }
}
