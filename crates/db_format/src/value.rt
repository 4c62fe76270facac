//! The values of a row.

ghost use Rattle.std.specs.Prelude.{◌≡◌, [], ◌∷◌, ◌++◌, OnOk, OnErr};

use byte_base::Bytes;
use std::alloc::AllocError;
use std::marker::Model;

/// A value of a row. Texts need not be UTF-8.
#[derive(Debug, Drop)]
pub enum Value {
    /// No value.
    Null,
    /// An integer.
    Int(i64),
    /// A text, by its bytes.
    Text(Bytes),
    /// Bytes that are no text.
    Blob(Bytes),
    /// A float, as the big-endian number of its eight bytes.
    Real(u64),
}

/// The values of a row, in the order of its columns. Contracts see them as a list.
#[derive(Debug, Drop)]
pub struct Record {
    items: Vec<Value>,
}

impl Model for Record {
    ghost use Rattle.std.specs.Prelude.{List};
    ghost use Rattle.db_format.specs.declared.value.Value.{Value as Item};

    ghost Value = { List Item };

    ghost view = { λ r. r.items.items };
}

impl Record {
    /// The values of a vector, without taking memory.
    pub fn from_vec(items: Vec<Value>) -> Record
        ensures { result ≡ items.items }
    {
        Record { items }
    }

    /// The values, without taking memory.
    pub fn as_slice(&self) -> &[Value]
        ensures { result.now ≡ self.now }
    {
        self.items.as_slice()
    }

    /// Puts a value at the end. Without memory the record stays as it was.
    pub fn push(&mut self, item: Value) -> Result<(), AllocError>
        ensures ok { OnOk result (self.new ≡ self.old ++ item ∷ []) }
        ensures err { OnErr result (self.new ≡ self.old) }
    {
        self.items.push(item)?;
        Ok(())
    }
}
