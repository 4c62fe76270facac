//! A row.

ghost use Rattle.std.specs.Prelude.{◌≡◌, IfOk};
ghost use Rattle.book_model.specs.Book.{written_row};

use crate::twin::Twin;
use db_format::{Record, Value};
use ref_rows::record_size;
use std::alloc::{AllocError, Global};
use std::marker::Model;

/// A row. Contracts see it as a `Row` of a book.
#[derive(Debug, Drop)]
pub(crate) struct KeptRow {
    values: Record,
    /// How many bytes its payload takes.
    size: u64,
}

impl Model for KeptRow {
    ghost use Rattle.book_model.specs.Book.{Row};

    ghost Value = { Row };

    ghost view = { λ r. record { values = r.values; size = r.size } };
}

impl KeptRow {
    /// A row as it is written.
    pub(crate) fn written(values: Record) -> Result<KeptRow, AllocError>
        ensures { IfOk result (λ row. row ≡ written_row values) }
    {
        let size = record_size(values.as_slice())?;
        Ok(KeptRow { values, size })
    }

    /// A row as it was found, whose payload takes so many bytes.
    pub(crate) fn stored(values: Record, size: u64) -> KeptRow
        ensures { result ≡ record { values = values; size = size } }
    {
        KeptRow { values, size }
    }

    /// Its values.
    pub(crate) fn values(&self) -> &[Value]
        ensures { result.now ≡ self.now.values }
    {
        self.values.as_slice()
    }

    /// How many bytes its payload takes.
    pub(crate) fn size(&self) -> u64
        ensures { result ≡ self.now.size }
    {
        self.size
    }

    /// A copy of its values.
    pub(crate) fn record(&self, alloc: Global) -> Result<Record, AllocError>
        ensures { IfOk result (λ values. values ≡ self.now.values) }
    {
        self.values.twin(alloc)
    }
}

impl Twin for KeptRow {
    fn twin(&self, alloc: Global) -> Result<KeptRow, AllocError> {
        let values = self.values.twin(alloc)?;
        let size = self.size;
        Ok(KeptRow { values, size })
    }
}
