//! Why a call on tables was refused.

ghost use Rattle.std.specs.Prelude.{◌≡◌};

use db_format::SpaceFault;
use std::alloc::{AllocError, AllocFailed};
use thiserror::Error;

/// Why a call on tables was refused. What stands afterwards is said at each call.
#[derive(Clone, Copy, Debug, PartialEq, Eq, Error)]
pub enum TableFault {
    /// There is no table of this name.
    #[error("no such table")]
    NoTable,
    /// The table of this name is not plain.
    #[error("the table is not plain")]
    Foreign,
    /// A table, an index, a view or a trigger has this name.
    #[error("the name is taken")]
    Exists,
    /// There are not as many values as the table has columns.
    #[error("the number of values is not that of the columns")]
    Columns,
    /// A text or a blob has more than 65,536 bytes.
    #[error("a value is too long")]
    TooLong,
    /// A call on the pages was refused.
    #[error("{0}")]
    Space(SpaceFault),
}

impl From<SpaceFault> for TableFault {
    ghost use Rattle.table_store.specs.declared.fault.TableFault.TheVariants.{Space};

    ghost from_gives = { λ fault e. e ≡ Space fault };

    fn from(fault: SpaceFault) -> TableFault {
        TableFault::Space(fault)
    }
}

impl From<AllocError> for TableFault {
    ghost use Rattle.db_format.specs.declared.fault.SpaceFault.TheVariants.{Memory};
    ghost use Rattle.table_store.specs.declared.fault.TableFault.TheVariants.{Space};

    ghost from_gives = { λ _ e. e ≡ Space Memory };

    fn from(_e: AllocError) -> TableFault {
        TableFault::Space(SpaceFault::Memory)
    }
}
